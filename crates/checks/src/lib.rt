// The check of a pack, refusals 3 to 7 in checking order: its records are loaded as numbers, once, and looked at there.
#![tactic(auto)]

ghost use Rattle.std.specs.Prelude.{length, ◌≤◌, ◌≡◌};
ghost use Rattle.checks.specs.Checked.{CheckedAs};
ghost use Rattle.meaning.specs.Limits.{rows_length, setting_length};

use load::load;
use meaning::BODIES;
use meaning::refusal::Refusal;
use names::is_dangling;
use pack::contents::bad_size;
use records::setting::LoadedSetting;
use texts::{has_duplicates, has_prefix_clash};

// How many records each body has, and in the lent lists the setting's numbers and the rows'; or the first refusal of 3 to 7.
pub fn check(s: &[u8], numbers: &mut [u16], rows: &mut [u16]) -> Result<[usize; BODIES], Refusal>
    requires { (setting_length ≤ length numbers.old) × (rows_length ≤ length rows.old) }
    ensures { CheckedAs s.now result numbers.new rows.new }
{
    if bad_size(s) {
        return Err(Refusal::BadSize);
    }
    let counts = load(s, numbers, rows).ok_or(Refusal::BadBody)?;
    let setting = LoadedSetting {
        counts,
        numbers: &numbers[..],
    };
    if has_duplicates(s, &setting) {
        return Err(Refusal::Duplicate);
    }
    if has_prefix_clash(s, &setting) {
        return Err(Refusal::PrefixClash);
    }
    if is_dangling(&setting, rows) {
        return Err(Refusal::Dangling);
    }
    Ok(counts)
}
