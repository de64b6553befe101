// The states of a query over a graph in number lists from which the end is reached, found backward from the ends, a word of
// states at a time.
#![tactic(auto)]

mod links; // the parts that each part can make alive

ghost use Rattle.std.specs.Prelude.{length, ◌≡◌, ◌*◌, ◌-◌, ◌<◌, ◌≤◌};
ghost use Rattle.alive.specs.Links.{Caused};
ghost use Rattle.alive.specs.Steps.{AllAlive, AllMarked, BackTo, EndAt, RealNodes, StateAlive};
ghost use Rattle.index.specs.Objects.{ByObject};
ghost use Rattle.meaning.specs.Limits.{max_nodes, max_parts, state_words};
ghost use Rattle.states.specs.Fits.{ListsFit};
ghost use Rattle.states.specs.Lists.{lists_of};
ghost use Rattle.states.specs.Living.{Living, SomeAt};
ghost use Rattle.worklist.specs.Table.{Adds, AddsOnly, Blank, FromWord, Same, Stacked, Table, board_of};

use crate::links::link_parts;
use backward::mark_part;
use index::objects::list_by_object;
use meaning::{MAX_PARTS, MAX_PREDICATES, NODE_WORDS, TRIPLE_WIDTH, WORD_BITS};
use states::Lists;
use worklist::Board;

// Three for each part.
const MAX_LINKS: usize = MAX_PARTS * 3;

// The parts, the end, and one that stands for no part.
const MAX_CAUSES: usize = MAX_PARTS + 2;

// The nodes of a block that are among the first nodes.
fn real_nodes(nodes: usize, block: usize) -> u64
    requires { block * 64 < nodes }
    ensures { RealNodes nodes block result }
{
    let count = nodes - block * WORD_BITS;
    if WORD_BITS <= count {
        return u64::MAX;
    }
    (1u64 << count) - 1
}

// Marks the end at every node.
fn mark_ends(nodes: usize, parts: usize, board: &mut Board)
    requires { ((nodes ≤ max_nodes) × (parts ≤ max_parts)) × Blank state_words (board_of board.old) }
    ensures { AddsOnly state_words (EndAt nodes parts) (board_of board.old) (board_of board.new) }
{
    for block in 0..nodes.div_ceil(WORD_BITS) {
        board.mark_word(parts * NODE_WORDS + block, real_nodes(nodes, block));
    }
}

// Marks each state that one of the states of a word makes alive. The parts that a part can make alive are listed in `heads`
// and `links`.
fn mark_back(
    lists: &Lists,
    starts: &[u16],
    into: &[u16],
    heads: &[u16],
    links: &[u16],
    w: usize,
    bits: u64,
    board: &mut Board,
)
    requires { (ListsFit (lists_of lists.now)
        × (ByObject lists.now.triples.now lists.now.sizes.nodes lists.now.sizes.edges starts.now into.now
        × Caused (lists_of lists.now) heads.now links.now))
        × ((AllAlive (lists_of lists.now) board.old.marked.now × ((w < state_words) × AllMarked board.old.marked.now w bits))
        × Table state_words (board_of board.old)) }
    ensures { Adds state_words (StateAlive (lists_of lists.now)) (FromWord w bits (BackTo (lists_of lists.now) board.old.marked.now))
        (board_of board.old) (board_of board.new) }
{
    let j = w / NODE_WORDS;
    let block = w % NODE_WORDS;
    let lo = heads[j] as usize;
    let hi = heads[j + 1] as usize;
    for e in lo..hi {
        let i = links[e] as usize / MAX_PREDICATES;
        mark_part(lists, starts, into, i, j, block, bits, board);
    }
}

// Marks the states from which the end is reached, by lists of the parts that each part can make alive.
fn mark_all(
    lists: &Lists,
    starts: &[u16],
    into: &[u16],
    heads: &[u16],
    links: &[u16],
    board: &mut Board,
)
    requires { (ListsFit (lists_of lists.now)
        × (ByObject lists.now.triples.now lists.now.sizes.nodes lists.now.sizes.edges starts.now into.now
        × Caused (lists_of lists.now) heads.now links.now))
        × Blank state_words (board_of board.old) }
    ensures { Living (lists_of lists.now) board.new.marked.now × Stacked state_words board.new.waiting.now board.new.stack.now 0
        × (board.new.top ≡ 0) × Same (board_of board.old) (board_of board.new) }
{
    mark_ends(lists.sizes.nodes, lists.sizes.parts, board);
    while let Some((w, bits)) = board.take_word() {
        mark_back(lists, starts, into, heads, links, w, bits, board);
    }
}

// Marks the states from which the end is reached.
pub fn mark_alive(lists: &Lists, starts: &[u16], into: &[u16], board: &mut Board)
    requires { (ListsFit (lists_of lists.now)
        × ByObject lists.now.triples.now lists.now.sizes.nodes lists.now.sizes.edges starts.now into.now)
        × Blank state_words (board_of board.old) }
    ensures { Living (lists_of lists.now) board.new.marked.now × Stacked state_words board.new.waiting.now board.new.stack.now 0
        × (board.new.top ≡ 0) × Same (board_of board.old) (board_of board.new) }
{
    let mut causes = [0u16; MAX_LINKS * TRIPLE_WIDTH];
    let mut heads = [0u16; MAX_CAUSES + 2];
    let mut links = [0u16; MAX_LINKS];
    let parts = lists.sizes.parts;
    link_parts(lists.tree, lists.next, parts, &mut causes);
    list_by_object(&causes[..], MAX_CAUSES, parts * 3, &mut heads, &mut links);
    // On a board of its own, for speed: where its lists are is then known to the loops, and not read again for each triple.
    let mut own = Board {
        marked: &mut *board.marked,
        waiting: &mut *board.waiting,
        stack: &mut *board.stack,
        top: board.top,
    };
    mark_all(lists, starts, into, &heads[..], &links[..], &mut own);
    board.top = own.top;
}

// Whether the root is marked at some node.
pub fn some_alive(nodes: usize, parts: usize, alive: &[u64]) -> bool
    requires { ((nodes ≤ max_nodes) × ((0 < parts) × (parts ≤ max_parts))) × (state_words ≤ length alive.now) }
    ensures { SomeAt result alive.now nodes (parts - 1) }
{
    for block in 0..nodes.div_ceil(WORD_BITS) {
        if alive[(parts - 1) * NODE_WORDS + block] & real_nodes(nodes, block) != 0 {
            return true;
        }
    }
    false
}
