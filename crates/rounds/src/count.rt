// From a pack's bytes to its core, as `construct` goes, and the rounds that its types took.
ghost use Rattle.std.specs.Prelude.{◌≤◌, length};
ghost use Rattle.construct.specs.Steps.{HeadsGiven};
ghost use Rattle.meaning.specs.Limits.{heads_length};
ghost use Rattle.names.specs.PackGiven.{HoldsResolved};

use checks::check;
use core_graph::CoreSize;
use core_graph::heads::RuleHeads;
use meaning::refusal::Refusal;
use meaning::{
    CANDIDATES_LENGTH, HEADS_LENGTH, MAX_CORE_NODES, MAX_CORE_TRIPLES, ROWS_LENGTH, SETTING_LENGTH,
};
use records::setting::LoadedSetting;
use rule_heads::{AllHeads, all_heads};
use tables::heads::head_table;
use tables::shape_tables::shape_table;

// From the heads: 9, or the core.
fn from_heads(setting: &LoadedSetting, found: AllHeads, heads: &[u64]) -> Result<CoreSize, Refusal>
    requires { HeadsGiven setting.now.counts setting.now.numbers.now found heads.now × (heads_length ≤ length heads.now) }
{
    let shapes = shape_table(setting);
    let found_heads = RuleHeads {
        rules: &head_table(setting),
        count: found.count,
        keys: heads,
        counts: &found.counts,
    };
    let mut nodes = [0u64; MAX_CORE_NODES];
    let mut triples = [0u64; MAX_CORE_TRIPLES];
    let mut masks = [0u16; MAX_CORE_NODES];
    core_graph::core(shapes, &found_heads, &mut nodes, &mut triples, &mut masks).map_err(
        |_| Refusal::CoreTooLarge,
    )
}

// From a setting's numbers and rows.
fn from_rows(setting: &LoadedSetting, rows: &[u16]) -> Result<CoreSize, Refusal>
    requires { HoldsResolved setting.now rows.now }
{
    let mut heads = [0u64; HEADS_LENGTH];
    let mut work = [0u64; CANDIDATES_LENGTH];
    let Ok(found) = all_heads(setting, rows, &mut heads, &mut work) else {
        return Err(Refusal::CoreTooLarge);
    };
    from_heads(setting, found, &heads[..])
}

// Refusals 3 to 7 and 9; 8, 10 and 11 are not looked for.
pub fn count_rounds(pack: &[u8]) -> Result<CoreSize, Refusal> {
    let mut numbers = [0u16; SETTING_LENGTH];
    let mut rows = [0u16; ROWS_LENGTH];
    let counts = check(pack, &mut numbers, &mut rows)?;
    let setting = LoadedSetting {
        counts,
        numbers: &numbers[..],
    };
    from_rows(&setting, &rows[..])
}
