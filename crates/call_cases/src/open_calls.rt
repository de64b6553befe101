// The three calls, each with lists and buffers of which every entry is 165.
ghost use Rattle.std.specs.Prelude.{◌≤◌};

use crate::held::{FILLED, build_buffers_are, pairs_buffers_are, yes_no_buffers_are};
use crate::outcome::{
    say_buffers, say_clash, say_graph, say_list, say_pairs_kept, say_small_graph,
};
use crate::say::say_whether;
use build::build;
use meaning::refusal::Refusal;
use meaning::{
    HEADS_LENGTH, INDEX_LENGTH, NODE_LIST_LENGTH, PAIR_LIST_LENGTH, ROWS_LENGTH, SEEN_WORDS,
    STATE_WORDS, TRIPLE_LIST_LENGTH,
};
use pairs::{PairAnswer, pairs};
use yes_no::{YesNo, yes_no};

// Each list and buffer, three more than docs/BUFFERS.md states.
const NODES: usize = NODE_LIST_LENGTH + 3;

const TRIPLES: usize = TRIPLE_LIST_LENGTH + 3;

const INDEX: usize = INDEX_LENGTH + 3;

const PAIRS: usize = PAIR_LIST_LENGTH + 3;

const ROWS: usize = ROWS_LENGTH + 3;

const HEADS: usize = HEADS_LENGTH + 3;

const STATES: usize = STATE_WORDS + 3;

const SEEN: usize = SEEN_WORDS + 3;

// How many entries of a list or buffer are lent: all, three more than docs/BUFFERS.md states; but one less than it states, if
// `lending` is its number.
fn lent(lending: u8, buffer: u8, entries: usize) -> usize
    ensures { result ≤ entries }
{
    if lending == buffer {
        if 4 <= entries {
            return entries - 4;
        }
    }
    entries
}

// Build with these lists and buffers, and what is written of it.
fn call_build(
    pack: &[u8],
    nodes: &mut [u16],
    triples: &mut [u16],
    index: &mut [u16],
    rows: &mut [u16],
    heads: &mut [u64],
) {
    let graph = build(pack, nodes, triples, index, rows, heads);
    io::write_all(1, b"build:");
    say_graph(graph, nodes, triples, index);
    say_buffers(
        build_buffers_are(0, rows, heads),
        build_buffers_are(FILLED, rows, heads),
    );
    say_clash(graph);
    say_small_graph(graph, nodes, triples, index);
    io::write_all(1, b"\n");
}

pub fn ask_build(pack: &[u8], lending: u8) {
    let mut nodes = [165u16; NODES];
    let mut triples = [165u16; TRIPLES];
    let mut index = [165u16; INDEX];
    let mut rows = [165u16; ROWS];
    let mut heads = [165u64; HEADS];
    let n = lent(lending, 1, NODES);
    let t = lent(lending, 2, TRIPLES);
    let x = lent(lending, 3, INDEX);
    let r = lent(lending, 5, ROWS);
    let h = lent(lending, 6, HEADS);
    call_build(
        pack,
        &mut nodes[0..n],
        &mut triples[0..t],
        &mut index[0..x],
        &mut rows[0..r],
        &mut heads[0..h],
    );
}

// What is written of yes/no that left these lists and buffers.
fn say_yes_no(
    answer: Result<YesNo, Refusal>,
    nodes: &[u16],
    triples: &[u16],
    index: &[u16],
    rows: &[u16],
    heads: &[u64],
    alive: &[u64],
    waiting: &[u64],
    stack: &[u16],
) {
    let graph = answer.map(|a| a.size);
    io::write_all(1, b"yes/no:");
    if let Ok(a) = answer {
        say_whether(a.yes, b" yes,", b" no,");
    }
    say_graph(graph, nodes, triples, index);
    say_buffers(
        yes_no_buffers_are(0, rows, heads, alive, waiting, stack),
        yes_no_buffers_are(FILLED, rows, heads, alive, waiting, stack),
    );
    say_clash(graph);
    io::write_all(1, b"\n");
}

// Yes/no with these lists and buffers.
fn call_yes_no(
    pack: &[u8],
    query: &[u8],
    nodes: &mut [u16],
    triples: &mut [u16],
    index: &mut [u16],
    rows: &mut [u16],
    heads: &mut [u64],
    alive: &mut [u64],
    waiting: &mut [u64],
    stack: &mut [u16],
) {
    let answer = yes_no(
        pack, query, nodes, triples, index, rows, heads, alive, waiting, stack,
    );
    say_yes_no(
        answer, nodes, triples, index, rows, heads, alive, waiting, stack,
    );
}

pub fn ask_yes_no(pack: &[u8], query: &[u8], lending: u8) {
    let mut nodes = [165u16; NODES];
    let mut triples = [165u16; TRIPLES];
    let mut index = [165u16; INDEX];
    let mut rows = [165u16; ROWS];
    let mut heads = [165u64; HEADS];
    let mut alive = [165u64; STATES];
    let mut waiting = [165u64; STATES];
    let mut stack = [165u16; STATES];
    let n = lent(lending, 1, NODES);
    let t = lent(lending, 2, TRIPLES);
    let x = lent(lending, 3, INDEX);
    let r = lent(lending, 5, ROWS);
    let h = lent(lending, 6, HEADS);
    let a = lent(lending, 7, STATES);
    let w = lent(lending, 8, STATES);
    let k = lent(lending, 9, STATES);
    call_yes_no(
        pack,
        query,
        &mut nodes[0..n],
        &mut triples[0..t],
        &mut index[0..x],
        &mut rows[0..r],
        &mut heads[0..h],
        &mut alive[0..a],
        &mut waiting[0..w],
        &mut stack[0..k],
    );
}

// What is written of pairs that left these lists and buffers.
fn say_pairs_call(
    answer: Result<PairAnswer, Refusal>,
    nodes: &[u16],
    triples: &[u16],
    index: &[u16],
    list: &[u16],
    rows: &[u16],
    heads: &[u64],
    alive: &[u64],
    waiting: &[u64],
    stack: &[u16],
    seen: &[u64],
    own_nodes: &[u16],
    own_triples: &[u16],
    own_index: &[u16],
) {
    let graph = answer.map(|a| a.size);
    let count = answer.map_or(0, |a| a.pairs);
    io::write_all(1, b"pairs:");
    say_graph(graph, nodes, triples, index);
    say_pairs_kept(list, count);
    say_buffers(
        pairs_buffers_are(
            0,
            rows,
            heads,
            alive,
            waiting,
            stack,
            seen,
            own_nodes,
            own_triples,
            own_index,
        ),
        pairs_buffers_are(
            FILLED,
            rows,
            heads,
            alive,
            waiting,
            stack,
            seen,
            own_nodes,
            own_triples,
            own_index,
        ),
    );
    say_clash(graph);
    if answer.is_ok() {
        say_list(list, count);
    }
    io::write_all(1, b"\n");
}

// Pairs with these lists and buffers.
fn call_pairs(
    pack: &[u8],
    query: &[u8],
    nodes: &mut [u16],
    triples: &mut [u16],
    index: &mut [u16],
    list: &mut [u16],
    rows: &mut [u16],
    heads: &mut [u64],
    alive: &mut [u64],
    waiting: &mut [u64],
    stack: &mut [u16],
    seen: &mut [u64],
    own_nodes: &mut [u16],
    own_triples: &mut [u16],
    own_index: &mut [u16],
) {
    let answer = pairs(
        pack,
        query,
        nodes,
        triples,
        index,
        list,
        rows,
        heads,
        alive,
        waiting,
        stack,
        seen,
        own_nodes,
        own_triples,
        own_index,
    );
    say_pairs_call(
        answer,
        nodes,
        triples,
        index,
        list,
        rows,
        heads,
        alive,
        waiting,
        stack,
        seen,
        own_nodes,
        own_triples,
        own_index,
    );
}

pub fn ask_pairs(pack: &[u8], query: &[u8], lending: u8) {
    let mut nodes = [165u16; NODES];
    let mut triples = [165u16; TRIPLES];
    let mut index = [165u16; INDEX];
    let mut list = [165u16; PAIRS];
    let mut rows = [165u16; ROWS];
    let mut heads = [165u64; HEADS];
    let mut alive = [165u64; STATES];
    let mut waiting = [165u64; STATES];
    let mut stack = [165u16; STATES];
    let mut seen = [165u64; SEEN];
    let mut own_nodes = [165u16; NODES];
    let mut own_triples = [165u16; TRIPLES];
    let mut own_index = [165u16; INDEX];
    let n = lent(lending, 1, NODES);
    let t = lent(lending, 2, TRIPLES);
    let x = lent(lending, 3, INDEX);
    let l = lent(lending, 4, PAIRS);
    let r = lent(lending, 5, ROWS);
    let h = lent(lending, 6, HEADS);
    let a = lent(lending, 7, STATES);
    let w = lent(lending, 8, STATES);
    let k = lent(lending, 9, STATES);
    let s = lent(lending, 10, SEEN);
    let p = lent(lending, 11, NODES);
    let q = lent(lending, 12, TRIPLES);
    let y = lent(lending, 13, INDEX);
    call_pairs(
        pack,
        query,
        &mut nodes[0..n],
        &mut triples[0..t],
        &mut index[0..x],
        &mut list[0..l],
        &mut rows[0..r],
        &mut heads[0..h],
        &mut alive[0..a],
        &mut waiting[0..w],
        &mut stack[0..k],
        &mut seen[0..s],
        &mut own_nodes[0..p],
        &mut own_triples[0..q],
        &mut own_index[0..y],
    );
}
