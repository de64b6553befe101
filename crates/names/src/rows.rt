// Refusal 7 of rows: the relation is there, cells of its columns are values, the others are unused.
ghost use Rattle.std.specs.Prelude.{◌≡◌, ◌+◌, ◌≤◌, eqb, ltb, length};
ghost use Rattle.std.proofs.Math.Seq.{slice};
ghost use Rattle.meaning.specs.Limits.{row_width, unused};
ghost use Rattle.meaning.specs.Tests.{every};
ghost use Rattle.meaning.specs.WellFormed.{good_row};
ghost use Rattle.names.specs.PackGiven.{ForPackOf, ForRow, ForSettingOf, HoldsPack, HoldsSetting};

use meaning::{RELATIONS_AT, RELATIONS_BODY, ROW_WIDTH, ROWS_BODY, UNUSED, VALUES_BODY};
use records::setting::LoadedSetting;

// Whether the row at a place is good.
fn good_row(setting: &LoadedSetting, rows: &[u16], at: usize) -> bool
    requires { HoldsSetting setting.now × (at + row_width ≤ length rows.now) }
    ensures { ForSettingOf setting.now (λ P. ForRow rows.now at (λ x. result ≡ good_row P x)) }
{
    let relation = rows[at] as usize;
    if setting.counts[RELATIONS_BODY] <= relation {
        return false;
    }
    let arity = setting.numbers[RELATIONS_AT + relation] as usize;
    let start = at + 1;
    let middle = start + arity;
    let values = setting.counts[VALUES_BODY];
    if !rows[start..middle].iter().all(|v| (*v as usize) < values) {
        return false;
    }
    rows[middle..at + ROW_WIDTH].iter().all(|v| *v == UNUSED)
}

pub fn good_rows(setting: &LoadedSetting, rows: &[u16]) -> bool
    requires { HoldsPack setting.now rows.now }
    ensures { ForPackOf setting.now rows.now (λ P. result ≡ every (good_row P) P.rows) }
{
    (0..setting.counts[ROWS_BODY]).all(|i| good_row(setting, rows, i * ROW_WIDTH))
}
