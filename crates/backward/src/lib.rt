// The states from which a step leads to one of a word, a word at a time where nodes do not change.
#![tactic(auto)]

ghost use Rattle.std.specs.Prelude.{get_or, length, ◌≡◌, ◌/◌, ◌<◌, ◌≤◌};
ghost use Rattle.backward.specs.Steps.{LeafBack, PartBack, Range, Ranges, SubjectAt, SubjectOn, SubjectTo, Turned};
ghost use Rattle.meaning.specs.Limits.{max_nodes, max_parts, max_predicates, node_words, state_words};
ghost use Rattle.query.specs.Tree.{kind_of};
ghost use Rattle.states.specs.Parts.{PartReady};
ghost use Rattle.walk.specs.Parts.{part_of};
ghost use Rattle.worklist.specs.Table.{AddsOnly, FromWord, Table, board_of};

use meaning::{MAX_NODES, MAX_PREDICATES, NODE_WORDS, WORD_BITS};
use query::kinds;
use query::parts::{first_number, kind_of};
use states::{Lists, takes_predicate};
use worklist::Board;

// A part without parts: its number, its kind, and the predicate or node that its name or label asks for.
#[derive(Clone, Copy)]
struct Leaf {
    part: usize,
    kind: usize,
    want: u16,
}

// Marks the leaf at the subject of a triple, if the step takes it; x is its subject and its predicate in one number.
fn mark_subject(x: usize, leaf: Leaf, board: &mut Board)
    requires { (x / max_predicates < max_nodes) × ((leaf.part < max_parts) × Table state_words (board_of board.old)) }
    ensures { AddsOnly state_words (SubjectAt x leaf.kind leaf.want leaf.part) (board_of board.old) (board_of board.new) }
{
    if takes_predicate(leaf.kind, leaf.want, (x % MAX_PREDICATES) as u16) {
        board.mark(leaf.part * MAX_NODES + x / MAX_PREDICATES);
    }
}

// Marks the leaf at the subjects of the triples from lo on, before hi, that the step takes.
fn mark_subjects(into: &[u16], lo: usize, hi: usize, leaf: Leaf, board: &mut Board)
    requires { Range into.now lo hi × ((leaf.part < max_parts) × Table state_words (board_of board.old)) }
    ensures { AddsOnly state_words (SubjectOn into.now lo hi leaf.kind leaf.want leaf.part) (board_of board.old) (board_of board.new) }
{
    // By number: the contract lets lo be after hi, where `&into[lo..hi]` would stop the program.
    for j in lo..hi {
        mark_subject(into[j] as usize, leaf, board);
    }
}

// Marks the leaf, a step, at the nodes from which it leads to a node of a block that the bits say.
fn mark_steps(starts: &[u16], into: &[u16], leaf: Leaf, block: usize, bits: u64, board: &mut Board)
    requires { Ranges starts.now into.now block bits × (((leaf.part < max_parts) × (block < node_words))
        × Table state_words (board_of board.old)) }
    ensures { AddsOnly state_words (FromWord block bits (SubjectTo starts.now into.now leaf.kind leaf.want leaf.part))
        (board_of board.old) (board_of board.new) }
{
    // Members lowest first, by trailing_zeros: a form that document 01 names.
    let mut left = bits;
    while left != 0 {
        let m = block * WORD_BITS + u64::trailing_zeros(left) as usize;
        left &= left - 1;
        mark_subjects(
            into,
            starts[m] as usize,
            starts[m + 1] as usize,
            leaf,
            board,
        );
    }
}

// Marks the leaf at the nodes from which it leads to a node of a block that the bits say.
fn mark_leaf(starts: &[u16], into: &[u16], leaf: Leaf, block: usize, bits: u64, board: &mut Board)
    requires { (Ranges starts.now into.now block bits × (leaf.kind < 5)) × (((leaf.part < max_parts) × (block < node_words))
        × Table state_words (board_of board.old)) }
    ensures { AddsOnly state_words (FromWord block bits (LeafBack starts.now into.now leaf.kind leaf.want leaf.part))
        (board_of board.old) (board_of board.new) }
{
    let word = leaf.part * NODE_WORDS + block;
    let node = leaf.want as usize;
    if leaf.kind == kinds::STAY {
        board.mark_word(word, bits);
    } else if leaf.kind < kinds::AT_IRI {
        mark_steps(starts, into, leaf, block, bits, board);
    } else if node / WORD_BITS == block {
        let here = bits & (1u64 << (node % WORD_BITS));
        board.mark_word(word, here);
    }
}

// The nodes of a block at which the part i, of this kind, which has parts, is alive by what is marked there.
fn turned(lists: &Lists, i: usize, kind: usize, block: usize, board: &Board) -> u64
    requires { (PartReady lists.now.tree.now lists.now.next.now i × ((kind ≡ kind_of lists.now.tree.now i) × (5 ≤ kind)))
        × ((block < node_words) × (state_words ≤ length board.now.marked.now)) }
    ensures { Turned result board.now.marked.now block (get_or lists.now.next.now i 0) (part_of lists.now.tree.now i) }
{
    if kinds::SEQUENCE <= kind {
        let first = board.marked[first_number(lists.tree, i) * NODE_WORDS + block];
        if kind == kinds::SEQUENCE {
            return first;
        }
        return first | board.marked[(i - 1) * NODE_WORDS + block];
    }
    let body = board.marked[(i - 1) * NODE_WORDS + block];
    let after = board.marked[lists.next[i] as usize * NODE_WORDS + block];
    if kind == kinds::NESTED {
        return body & after;
    }
    after | body
}

// Marks the part i at each node from which it leads to the part j at a node of a block that the bits say, or, if it has
// parts, at each of these nodes at which they make it alive.
pub fn mark_part(
    lists: &Lists,
    starts: &[u16],
    into: &[u16],
    i: usize,
    j: usize,
    block: usize,
    bits: u64,
    board: &mut Board,
)
    requires { Ranges starts.now into.now block bits × ((PartReady lists.now.tree.now lists.now.next.now i × (i < length lists.now.wanted.now))
        × ((block < node_words) × Table state_words (board_of board.old))) }
    ensures { AddsOnly state_words (FromWord block bits (PartBack starts.now into.now lists.now.tree.now lists.now.next.now lists.now.wanted.now
        board.old.marked.now i j))
        (board_of board.old) (board_of board.new) }
{
    let kind = kind_of(lists.tree, i);
    if kinds::NESTED <= kind {
        let here = turned(lists, i, kind, block, &*board) & bits;
        board.mark_word(i * NODE_WORDS + block, here);
    } else if lists.next[i] as usize == j {
        let leaf = Leaf {
            part: i,
            kind,
            want: lists.wanted[i],
        };
        mark_leaf(starts, into, leaf, block, bits, board);
    }
}
