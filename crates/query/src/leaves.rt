// Parts that have no part, and stars.
ghost use Rattle.std.specs.Prelude.{length, drop, ◌+◌, ◌≤◌};
ghost use Rattle.grammar.specs.Parse.{name, leaf};
ghost use Rattle.query.specs.Reading.{labelled, CanRead, StarsPut, Reading};

use crate::kinds;
use crate::parts::pack;
use crate::scan::{is_at, run_end};
use meaning::MAX_NAME_BYTES;

// Where a reader stopped that found its part: the next byte and the next part.
pub type Read = Option<(usize, usize)>;

// Writes k stars from part n on.
pub fn put_stars(tree: &mut [u32], n: usize, k: usize)
    requires { n + k ≤ length tree.old }
    ensures { StarsPut tree.old tree.new n k }
{
    tree[n..n + k].fill(pack(kinds::STAR, 0, 0));
}

// Reads the rest of a label, whose opening mark stands before `at`.
fn read_label(q: &[u8], at: usize, kind: usize, tree: &mut [u32], n: usize) -> Read
    requires { CanRead q.now tree.old at n × ((3 ≤ kind) × (kind ≤ 4)) }
    ensures { Reading q.now tree.old tree.new at n result (labelled kind (drop at q.now)) }
{
    let end = run_end(q, at, kind);
    let mark = if kind == kinds::AT_IRI { b'>' } else { b'"' };
    if !is_at(q, end, mark) {
        return None;
    }
    tree[n] = pack(kind, at, end - at);
    Some((end + 1, n + 1))
}

// Reads a predicate name.
fn read_name(q: &[u8], at: usize, tree: &mut [u32], n: usize) -> Read
    requires { CanRead q.now tree.old at n }
    ensures { Reading q.now tree.old tree.new at n result (name (drop at q.now)) }
{
    let end = run_end(q, at, kinds::STEP);
    let size = end - at;
    if size == 0 {
        return None;
    }
    if MAX_NAME_BYTES < size {
        return None;
    }
    tree[n] = pack(kinds::STEP, at, size);
    Some((end, n + 1))
}

// Reads an atom that has no bracket.
pub fn read_leaf(q: &[u8], at: usize, tree: &mut [u32], n: usize) -> Read
    requires { CanRead q.now tree.old at n }
    ensures { Reading q.now tree.old tree.new at n result (leaf (drop at q.now)) }
{
    if is_at(q, at, b'<') {
        return read_label(q, at + 1, kinds::AT_IRI, tree, n);
    }
    if is_at(q, at, b'"') {
        return read_label(q, at + 1, kinds::AT_LITERAL, tree, n);
    }
    if is_at(q, at, b'_') {
        tree[n] = pack(kinds::ANY_STEP, 0, 0);
        return Some((at + 1, n + 1));
    }
    read_name(q, at, tree, n)
}
