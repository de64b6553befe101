// Looking at the bytes of the query.
ghost use Rattle.std.specs.Prelude.{length, drop, get_or, ◌==◌, ◌≡◌, ◌+◌, ◌≤◌};
ghost use Rattle.grammar.specs.Parse.{no_byte, run};
ghost use Rattle.query.specs.Reading.{class};

use crate::kinds;

// Whether the byte at a place is the mark.
pub fn is_at(q: &[u8], at: usize, mark: u8) -> bool
    ensures { result ≡ (get_or q.now at no_byte == mark) }
{
    q.get(at) == Some(&mark)
}

// Whether a byte belongs to a run that is read for this kind of part.
#[tactic(auto, unfolding(crate::specs::Reading::class))]
pub fn passes(kind: usize, c: u8) -> bool
    ensures { result ≡ class kind c }
{
    if kind == kinds::STEP {
        b'a' <= c && c <= b'z'
    } else if kind == kinds::AT_IRI {
        c != b'>'
    } else if kind == kinds::AT_LITERAL {
        c != b'"'
    } else {
        c == b'*'
    }
}

// Where the run that begins at `at` ends.
pub fn run_end(q: &[u8], at: usize, kind: usize) -> usize
    requires { at ≤ length q.now }
    ensures { result ≡ at + run (class kind) (drop at q.now) }
{
    match q[at..].iter().position(|c| !passes(kind, *c)) {
        Some(k) => at + k,
        None => q.len(),
    }
}
