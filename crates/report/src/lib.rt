// An answer as an array of numbers, for callers in other languages.
#![tactic(auto)]

ghost use Rattle.std.specs.Prelude.{◌∷◌, ◌≡◌, ◌<◌};
ghost use Rattle.report.specs.Report.{number, reported};

use meaning::{CLASH_WIDTH, MAX_ARGUMENTS, REPORT_LENGTH, TERM_LENGTH};

// The counts, the answer and the clash, in this order.
pub fn numbers(
    nodes: usize,
    triples: usize,
    answer: usize,
    clash: [u16; CLASH_WIDTH],
) -> [u16; REPORT_LENGTH]
    requires { (nodes < 65536) × (triples < 65536) × (answer < 65536) }
    ensures { result ≡ reported nodes triples answer clash }
{
    let mut all = [0u16; REPORT_LENGTH];
    all[0] = nodes as u16;
    all[1] = triples as u16;
    all[2] = answer as u16;
    all[3..].copy_from_slice(&clash);
    all
}

// Yes is 1, no is 0.
pub fn said(yes: bool) -> usize
    ensures { (result ≡ number yes) × (result < 2) }
{
    yes as usize
}

// The constructor, then the values.
pub fn term(constructor: u16, values: [u16; MAX_ARGUMENTS]) -> [u16; TERM_LENGTH]
    ensures { result ≡ constructor ∷ values }
{
    let mut all = [constructor; TERM_LENGTH];
    all[1..].copy_from_slice(&values);
    all
}
