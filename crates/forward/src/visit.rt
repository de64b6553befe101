// The states at named nodes to which a step leads, from those of a word.
ghost use Rattle.std.specs.Prelude.{get_or, length, ℕ, ◌*◌, ◌+◌, ◌<◌, ◌≤◌};
ghost use Rattle.index.specs.Subjects.{first_at};
ghost use Rattle.index.specs.Triples.{object_at};
ghost use Rattle.meaning.specs.Limits.{max_core_nodes, max_parts, max_triples, named_words, seen_words, state_words};
ghost use Rattle.query.specs.Tree.{kind_of};
ghost use Rattle.forward.specs.Own.{end_at};
ghost use Rattle.forward.specs.Steps.{Ahead, AllAhead, LeafOnward, ObjectAt, ObjectIn, PartsOnward, StateIn, StepFrom};
ghost use Rattle.forward.specs.Ready.{ReadyFor};
ghost use Rattle.states.specs.Lists.{lists_of};
ghost use Rattle.states.specs.Parts.{PartReady};
ghost use Rattle.walk.specs.Parts.{part_of};
ghost use Rattle.worklist.specs.Table.{AddsOnly, FromWord, InWord, Table, board_of};

use crate::Named;
use meaning::{INDEX_WIDTH, MAX_CORE_NODES, NAMED_WORDS, NODE_WORDS, WORD_BITS};
use query::kinds;
use query::parts::{first_number, kind_of};
use states::{Lists, takes_predicate};
use worklist::Board;

// A part that is a leaf: its kind, what its name or label asks for, and the part that comes after it.
#[derive(Clone, Copy)]
struct Leaf {
    kind: usize,
    want: u16,
    to: usize,
}

// Visits what comes after the leaf at the object of the triple k, if the leaf takes it.
fn visit_object(triples: &[u16], k: usize, leaf: Leaf, board: &mut Board)
    requires { ((k < max_triples) × (k * 3 + 3 ≤ length triples.now) × (object_at triples.now k < max_core_nodes))
        × (leaf.to ≤ max_parts) × Table seen_words (board_of board.old) }
    ensures { AddsOnly seen_words (ObjectAt triples.now k leaf.kind leaf.want leaf.to) (board_of board.old) (board_of board.new) }
{
    if takes_predicate(leaf.kind, leaf.want, triples[k * 3 + 1]) {
        let object = triples[k * 3 + 2] as usize;
        board.mark(leaf.to * MAX_CORE_NODES + object);
    }
}

// Visits what comes after the leaf at the objects of the triples listed from lo up to hi that it takes.
fn visit_objects(triples: &[u16], own: &[u16], lo: usize, hi: usize, leaf: Leaf, board: &mut Board)
    requires { Ahead triples.now own.now lo hi × (leaf.to ≤ max_parts) × Table seen_words (board_of board.old) }
    ensures { AddsOnly seen_words (ObjectIn triples.now own.now lo hi leaf.kind leaf.want leaf.to)
        (board_of board.old) (board_of board.new) }
{
    for &x in &own[lo..hi] {
        if x == 0 {
            return;
        }
        visit_object(triples, x as usize - 1, leaf, board);
    }
}

// Visits what comes after the leaf at the nodes to which it steps from those that the bits of a block say.
fn visit_steps(
    triples: &[u16],
    named: &Named,
    leaf: Leaf,
    block: usize,
    bits: u64,
    board: &mut Board,
)
    requires { ((block < named_words) × AllAhead triples.now named.now.own.now named.now.index.now block bits)
        × (leaf.to ≤ max_parts) × Table seen_words (board_of board.old) }
    ensures { AddsOnly seen_words (FromWord block bits (λ n. ObjectIn triples.now named.now.own.now
        (first_at named.now.index.now n) (end_at named.now.index.now n) leaf.kind leaf.want leaf.to))
        (board_of board.old) (board_of board.new) }
{
    // Members lowest first, by trailing_zeros: a form that document 01 names.
    let mut left = bits;
    while left != 0 {
        let n = block * WORD_BITS + u64::trailing_zeros(left) as usize;
        left &= left - 1;
        let at = n * INDEX_WIDTH;
        let lo = named.index[at] as usize;
        let hi = lo + named.index[at + 1] as usize;
        visit_objects(triples, named.own, lo, hi, leaf, board);
    }
}

// Visits what the leaf leads to from the nodes that the bits of a block say.
fn visit_leaf(
    triples: &[u16],
    named: &Named,
    leaf: Leaf,
    block: usize,
    bits: u64,
    board: &mut Board,
)
    requires { ((block < named_words) × AllAhead triples.now named.now.own.now named.now.index.now block bits)
        × (leaf.kind < 5) × (leaf.to ≤ max_parts) × Table seen_words (board_of board.old) }
    ensures { AddsOnly seen_words
        (FromWord block bits (LeafOnward triples.now named.now.own.now named.now.index.now leaf.kind leaf.want leaf.to))
        (board_of board.old) (board_of board.new) }
{
    let word = leaf.to * NAMED_WORDS + block;
    if leaf.kind == kinds::STAY {
        board.mark_word(word, bits);
    } else if leaf.kind < kinds::AT_IRI {
        visit_steps(triples, named, leaf, block, bits, board);
    } else if leaf.want as usize / WORD_BITS == block {
        let one = 1u64 << (leaf.want as usize % WORD_BITS);
        board.mark_word(word, bits & one);
    }
}

// Visits what the part i, which has parts, leads to at the nodes that the bits of a block say.
fn visit_parts(lists: &Lists, alive: &[u64], i: usize, block: usize, bits: u64, board: &mut Board)
    requires { (PartReady lists.now.tree.now lists.now.next.now i × (5 ≤ kind_of lists.now.tree.now i))
        × ((block < named_words) × (state_words ≤ length alive.now)) × Table seen_words (board_of board.old) }
    ensures { AddsOnly seen_words
        (FromWord block bits (PartsOnward alive.now (get_or lists.now.next.now i 0) (part_of lists.now.tree.now i)))
        (board_of board.old) (board_of board.new) }
{
    let kind = kind_of(lists.tree, i);
    let body = (i - 1) * NAMED_WORDS + block;
    let after = lists.next[i] as usize * NAMED_WORDS + block;
    if kind == kinds::NESTED {
        let held = alive[(i - 1) * NODE_WORDS + block];
        board.mark_word(after, bits & held);
        return;
    }
    if kind == kinds::STAR {
        board.mark_word(after, bits);
        board.mark_word(body, bits);
        return;
    }
    let left = first_number(lists.tree, i) * NAMED_WORDS + block;
    board.mark_word(left, bits);
    if kind != kinds::SEQUENCE {
        board.mark_word(body, bits);
    }
}

// Visits each state at a named node that a step leads to from the states that the bits of the word w say.
pub fn visit_onward(lists: &Lists, named: &Named, w: usize, bits: u64, board: &mut Board)
    requires { ReadyFor (lists_of lists.now) named.now
        × ((w < seen_words) × ((s : ℕ) → InWord w bits s → StateIn (lists_of lists.now) named.now.count s))
        × Table seen_words (board_of board.old) }
    ensures { AddsOnly seen_words (FromWord w bits (StepFrom (lists_of lists.now) named.now.count))
        (board_of board.old) (board_of board.new) }
{
    let i = w / NAMED_WORDS;
    let block = w % NAMED_WORDS;
    if lists.sizes.parts <= i {
        return;
    }
    let kind = kind_of(lists.tree, i);
    if kinds::NESTED <= kind {
        visit_parts(lists, named.alive, i, block, bits, board);
        return;
    }
    let leaf = Leaf {
        kind,
        want: lists.wanted[i],
        to: lists.next[i] as usize,
    };
    visit_leaf(lists.triples, named, leaf, block, bits, board);
}
