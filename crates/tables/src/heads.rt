// The heads of rules, six numbers each.
ghost use Rattle.std.specs.Prelude.{◌≡◌, ◌+◌, ◌≤◌, length, take, drop};
ghost use Rattle.meaning.specs.Limits.{head_width};
ghost use Rattle.names.specs.PackGiven.{ForSettingOf, HoldsSetting};
ghost use Rattle.tables.specs.Tables.{HeadTable};

use core_graph::heads::{Head, HeadTable};
use meaning::{HEAD_WIDTH, MAX_RULES, RULE_WIDTH, RULES_AT, RULES_BODY};
use records::setting::LoadedSetting;
use std::array;

// Where a rule's head is: its numbers are the last.
const HEAD: usize = RULE_WIDTH - HEAD_WIDTH;

// The numbers of the head at a place.
fn head(numbers: &[u16], at: usize) -> Head
    requires { at + head_width ≤ length numbers.now }
    ensures { result ≡ take head_width (drop at numbers.now) }
{
    array::from_fn(|i| numbers[at + i] as u64)
}

// The heads of all rules.
pub fn head_table(setting: &LoadedSetting) -> HeadTable
    requires { HoldsSetting setting.now }
    ensures { ForSettingOf setting.now (λ P. HeadTable P result) }
{
    let n = setting.counts[RULES_BODY];
    let mut table = [[0u64; HEAD_WIDTH]; MAX_RULES];
    for i in 0..n {
        let at = RULES_AT + i * RULE_WIDTH;
        table[i] = head(setting.numbers, at + HEAD);
    }
    table
}
