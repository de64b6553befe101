// Reading an IRI back: its constructor and values.
ghost use Rattle.std.specs.Prelude.{◌≡◌};
ghost use Rattle.checks.specs.Checked.{LoadedFrom};
ghost use Rattle.iris.specs.Read.{iri_read};
ghost use Rattle.pack.specs.Checked.{OfPack};
ghost use Rattle.spelling.specs.ReadBack.{read_back};

use crate::arguments::read_arguments;
use meaning::{CONSTRUCTOR_WIDTH, CONSTRUCTORS_AT, CONSTRUCTORS_BODY, MAX_ARGUMENTS};
use records::setting::LoadedSetting;
use spelling::compare::begins_text;

// A constructor's number and its values in argument order, UNUSED in places unused.
#[derive(Clone, Copy)]
pub struct Term {
    pub constructor: u16,
    pub values: [u16; MAX_ARGUMENTS],
}

// The constructor and values that spell the text: the first constructor whose prefix begins it decides.
pub fn read_iri(pack: &[u8], setting: &LoadedSetting, text: &[u8]) -> Option<Term>
    requires { LoadedFrom pack.now setting.now }
    ensures { OfPack pack.now (λ P. result ≡ iri_read (read_back P text.now)) }
{
    let n = setting.counts[CONSTRUCTORS_BODY];
    for c in 0..n {
        let at = CONSTRUCTORS_AT + c * CONSTRUCTOR_WIDTH;
        let start = setting.numbers[at + 1] as usize;
        let len = setting.numbers[at + 2] as usize;
        let end = start + len;
        if begins_text(&pack[start..end], text) {
            let arity = setting.numbers[at] as usize;
            let values = read_arguments(pack, setting, &text[len..], arity)?;
            return Some(Term {
                constructor: c as u16,
                values,
            });
        }
    }
    None
}
