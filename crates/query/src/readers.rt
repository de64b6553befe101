// The four readers, which call each other in a cycle: a union reads sequences, a sequence steps, a step an atom, and an
// atom in brackets a union again. `left` brackets may still be opened.
ghost use Rattle.std.specs.Prelude.{drop};
ghost use Rattle.grammar.specs.Grammar.{a_union, a_sequence, a_step, an_atom};
ghost use Rattle.grammar.specs.Parse.{parse};
ghost use Rattle.query.specs.Reading.{CanRead, Reading};

use crate::kinds;
use crate::leaves::{Read, put_stars, read_leaf};
use crate::parts::pack;
use crate::scan::{is_at, run_end};

// Reads sequences parted by "|".
#[cycle(readers)]
pub fn read_union(q: &[u8], at: usize, left: usize, tree: &mut [u32], n: usize) -> Read
    requires { CanRead q.now tree.old at n }
    ensures { Reading q.now tree.old tree.new at n result (parse a_union left (drop at q.now)) }
{
    let (mut end, mut m) = read_sequence(q, at, left, tree, n)?;
    while is_at(q, end, b'|') {
        let (past, k) = read_sequence(q, end + 1, left, tree, m)?;
        tree[k] = pack(kinds::UNION, m - 1, 0);
        end = past;
        m = k + 1;
    }
    Some((end, m))
}

// Reads steps parted by "/".
#[cycle(readers)]
fn read_sequence(q: &[u8], at: usize, left: usize, tree: &mut [u32], n: usize) -> Read
    requires { CanRead q.now tree.old at n }
    ensures { Reading q.now tree.old tree.new at n result (parse a_sequence left (drop at q.now)) }
{
    let (mut end, mut m) = read_step(q, at, left, tree, n)?;
    while is_at(q, end, b'/') {
        let (past, k) = read_step(q, end + 1, left, tree, m)?;
        tree[k] = pack(kinds::SEQUENCE, m - 1, 0);
        end = past;
        m = k + 1;
    }
    Some((end, m))
}

// Reads an atom and its stars.
#[cycle(readers)]
fn read_step(q: &[u8], at: usize, left: usize, tree: &mut [u32], n: usize) -> Read
    requires { CanRead q.now tree.old at n }
    ensures { Reading q.now tree.old tree.new at n result (parse a_step left (drop at q.now)) }
{
    let (end, m) = read_atom(q, at, left, tree, n)?;
    let past = run_end(q, end, kinds::STAR);
    let k = past - end;
    put_stars(tree, m, k);
    Some((past, m + k))
}

// Reads "()", a union in brackets, or an atom with no bracket.
#[cycle(readers)]
fn read_atom(q: &[u8], at: usize, left: usize, tree: &mut [u32], n: usize) -> Read
    requires { CanRead q.now tree.old at n }
    ensures { Reading q.now tree.old tree.new at n result (parse an_atom left (drop at q.now)) }
{
    if is_at(q, at, b'(') {
        if left == 0 {
            return None;
        }
        if is_at(q, at + 1, b')') {
            tree[n] = pack(kinds::STAY, 0, 0);
            return Some((at + 2, n + 1));
        }
        let (end, m) = read_union(q, at + 1, left - 1, tree, n)?;
        if !is_at(q, end, b')') {
            return None;
        }
        return Some((end + 1, m));
    }
    if is_at(q, at, b'[') {
        if left == 0 {
            return None;
        }
        let (end, m) = read_union(q, at + 1, left - 1, tree, n)?;
        if !is_at(q, end, b']') {
            return None;
        }
        tree[m] = pack(kinds::NESTED, 0, 0);
        return Some((end + 1, m + 1));
    }
    read_leaf(q, at, tree, n)
}
