// The triples that end at named nodes, which come first in node order, by their subjects.
ghost use Rattle.std.specs.Prelude.{length, ℕ, ◌*◌, ◌≤◌};
ghost use Rattle.meaning.specs.Limits.{max_triples};
ghost use Rattle.forward.specs.Own.{OwnBySubject, OwnReady, OwnWithin};

use meaning::INDEX_WIDTH;

// Lists the triples from lo up to hi that end at one of the first `named` nodes, from own[lo] on, each as its number and one
// more; a 0 follows the last if there is room before own[hi].
fn own_from(triples: &[u16], lo: usize, hi: usize, named: usize, own: &mut [u16])
    requires { (lo ≤ hi) × (hi ≤ max_triples) × (hi * 3 ≤ length triples.now) × (hi ≤ length own.old) }
    ensures { OwnWithin triples.now named lo hi own.old own.new }
{
    let mut end = lo;
    for k in lo..hi {
        let object = triples[k * 3 + 2] as usize;
        if object < named {
            own[end] = (k + 1) as u16;
            end += 1;
        }
    }
    if end < hi {
        own[end] = 0;
    }
}

// Lists the triples of each of the first `named` nodes that end at one of these, in the part of `own` where the index has all of
// the node's triples.
pub fn own_by_subject(triples: &[u16], index: &[u16], named: usize, own: &mut [u16])
    requires { (edges : ℕ) × OwnReady triples.now edges named own.old index.now }
    ensures { (edges : ℕ) → OwnReady triples.now edges named own.old index.now
        → OwnBySubject triples.now edges named own.new index.now }
{
    for n in 0..named {
        let at = n * INDEX_WIDTH;
        let lo = index[at] as usize;
        let hi = lo + index[at + 1] as usize;
        own_from(triples, lo, hi, named, own);
    }
}
