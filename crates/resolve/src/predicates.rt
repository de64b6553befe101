// A predicate by its name.
ghost use Rattle.std.specs.Prelude.{unwrap_or};
ghost use Rattle.checks.specs.Checked.{LoadedFrom};
ghost use Rattle.meaning.specs.Limits.{unused};
ghost use Rattle.pack.specs.Checked.{OfPack};
ghost use Rattle.resolve.specs.Wanted.{PredicateIs};

use meaning::{PREDICATES_AT, PREDICATES_BODY, TEXT_WIDTH};
use records::setting::LoadedSetting;

// The number of the predicate whose name the text is.
pub fn predicate_named(pack: &[u8], setting: &LoadedSetting, text: &[u8]) -> Option<u16>
    requires { LoadedFrom pack.now setting.now }
    ensures { OfPack pack.now (λ P. PredicateIs P text.now (unwrap_or result unused)) }
{
    (0..setting.counts[PREDICATES_BODY])
        .position(|p| {
            let at = PREDICATES_AT + p * TEXT_WIDTH;
            let start = setting.numbers[at] as usize;
            let end = start + setting.numbers[at + 1] as usize;
            &pack[start..end] == text
        })
        .map(|p| p as u16)
}
