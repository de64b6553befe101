// Read-back, an open call: from an IRI's text to its constructor and values.
#![tactic(auto)]

ghost use Rattle.readback.specs.Answer.{ReadBackAnswers};

use checks::check;
use iris::iri::{Term, read_iri};
use meaning::refusal::Refusal;
use meaning::{ROWS_LENGTH, SETTING_LENGTH};
use records::setting::LoadedSetting;

// The constructor and the values whose IRI the text is; else a refusal of 3 to 7, or 13.
pub fn read_back(pack: &[u8], text: &[u8]) -> Result<Term, Refusal>
    ensures { ReadBackAnswers pack.now text.now result }
{
    let mut numbers = [0u16; SETTING_LENGTH];
    let mut rows = [0u16; ROWS_LENGTH];
    let counts = check(pack, &mut numbers, &mut rows)?;
    let setting = LoadedSetting {
        counts,
        numbers: &numbers[..],
    };
    read_iri(pack, &setting, text).ok_or(Refusal::NoIri)
}
