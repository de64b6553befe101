// Pairs, an open call: the pairs of named nodes that a query joins in every finite graph that obeys a pack.
#![tactic(auto)]

ghost use Rattle.calls.specs.Call.{Zero, lent};
ghost use Rattle.pair_list.specs.Written.{TableRoom};
ghost use Rattle.pairs.specs.Answer.{PairsAnswers, buffers};
ghost use Rattle.pairs.specs.Inner.{Comes, CountedGraph, ForCounted, ListRoom, Room};

use calls::long_enough;
use graph::Size;
use meaning::refusal::Refusal;
use meaning::{
    HEADS_LENGTH, INDEX_LENGTH, MAX_PAIRS, MAX_PARTS, MAX_QUERY_BYTES, NODE_LIST_LENGTH,
    PAIR_LIST_LENGTH, ROWS_LENGTH, SEEN_WORDS, STATE_WORDS, TRIPLE_LIST_LENGTH,
};
use pair_list::find::find_pairs;
use pair_list::publish::publish;
use prepare::prepare;

// How many nodes and triples the pack's graph has, and how many pairs there are.
#[derive(Clone, Copy)]
pub struct PairAnswer {
    pub size: Size,
    pub pairs: usize,
}

// The answer in a graph whose nodes and triples stand in `points` and `links`, and their index in `marks`: 12, or the graph, its
// index and its pairs are written into the lent lists.
fn in_lists(
    tree: &[u32],
    parts: usize,
    wanted: &[u16],
    size: Size,
    points: &[u16],
    links: &[u16],
    marks: &[u16],
    nodes: &mut [u16],
    triples: &mut [u16],
    index: &mut [u16],
    pairs: &mut [u16],
    alive: &mut [u64],
    waiting: &mut [u64],
    stack: &mut [u16],
    seen: &mut [u64],
) -> Result<PairAnswer, Refusal>
    requires { CountedGraph tree.now parts wanted.now size points.now links.now marks.now
        × ListRoom nodes.old triples.old index.old pairs.old × TableRoom alive.old waiting.old stack.old seen.old }
    ensures { ForCounted tree.now parts wanted.now size points.now links.now marks.now
        (λ pack query. Comes pack query result (lent nodes) (lent triples) (lent index) (lent pairs)) }
{
    let mut found = [0u32; MAX_PAIRS];
    let Size {
        nodes: n,
        triples: t,
    } = size;
    let Ok(k) = find_pairs(
        tree, parts, wanted, points, n, links, t, marks, alive, waiting, stack, seen, &mut found,
    ) else {
        return Err(Refusal::TooManyPairs);
    };
    publish(
        points,
        n,
        links,
        t,
        marks,
        &found[..],
        k,
        nodes,
        triples,
        index,
        pairs,
    );
    Ok(PairAnswer { size, pairs: k })
}

// 2 to 12, or the graph and its pairs. The graph is built in `own_nodes`, `own_triples` and `own_index`, since 12 is known only
// later.
fn answer(
    pack: &[u8],
    query: &[u8],
    nodes: &mut [u16],
    triples: &mut [u16],
    index: &mut [u16],
    pairs: &mut [u16],
    rows: &mut [u16],
    heads: &mut [u64],
    alive: &mut [u64],
    waiting: &mut [u64],
    stack: &mut [u16],
    seen: &mut [u64],
    own_nodes: &mut [u16],
    own_triples: &mut [u16],
    own_index: &mut [u16],
) -> Result<PairAnswer, Refusal>
    requires { Room nodes.old triples.old index.old pairs.old rows.old heads.old alive.old waiting.old stack.old seen.old
        own_nodes.old own_triples.old own_index.old }
    ensures { Comes pack.now query.now result (lent nodes) (lent triples) (lent index) (lent pairs) }
{
    let mut tree = [0u32; MAX_QUERY_BYTES];
    let mut wanted = [0u16; MAX_PARTS];
    let prepared = prepare(
        pack,
        query,
        &mut tree,
        &mut wanted,
        own_nodes,
        own_triples,
        own_index,
        rows,
        heads,
    )?;
    in_lists(
        &tree[..],
        prepared.parts,
        &wanted[..],
        prepared.size,
        &own_nodes[..],
        &own_triples[..],
        &own_index[..],
        nodes,
        triples,
        index,
        pairs,
        alive,
        waiting,
        stack,
        seen,
    )
}

// Sets every number of the working buffers to 0.
fn clear(
    rows: &mut [u16],
    heads: &mut [u64],
    alive: &mut [u64],
    waiting: &mut [u64],
    stack: &mut [u16],
    seen: &mut [u64],
    own_nodes: &mut [u16],
    own_triples: &mut [u16],
    own_index: &mut [u16],
)
    ensures { Zero (buffers (lent rows) (lent heads) (lent alive) (lent waiting) (lent stack) (lent seen) (lent own_nodes) (lent own_triples) (lent own_index)) }
{
    rows.fill(0);
    heads.fill(0);
    alive.fill(0);
    waiting.fill(0);
    stack.fill(0);
    seen.fill(0);
    own_nodes.fill(0);
    own_triples.fill(0);
    own_index.fill(0);
}

// What each list and buffer must hold at least, in the order in which they are lent.
const LEAST_LENGTHS: [usize; 13] = [
    NODE_LIST_LENGTH,
    TRIPLE_LIST_LENGTH,
    INDEX_LENGTH,
    PAIR_LIST_LENGTH,
    ROWS_LENGTH,
    HEADS_LENGTH,
    STATE_WORDS, // alive
    STATE_WORDS, // waiting
    STATE_WORDS, // stack
    SEEN_WORDS,
    NODE_LIST_LENGTH, // own_nodes
    TRIPLE_LIST_LENGTH, // own_triples
    INDEX_LENGTH, // own_index
];

// The certain pairs at the front of `pairs`, with the graph of the pack at the front of the two lists and their index before it;
// or a refusal. The others are working buffers.
pub fn pairs(
    pack: &[u8],
    query: &[u8],
    nodes: &mut [u16],
    triples: &mut [u16],
    index: &mut [u16],
    pairs: &mut [u16],
    rows: &mut [u16],
    heads: &mut [u64],
    alive: &mut [u64],
    waiting: &mut [u64],
    stack: &mut [u16],
    seen: &mut [u64],
    own_nodes: &mut [u16],
    own_triples: &mut [u16],
    own_index: &mut [u16],
) -> Result<PairAnswer, Refusal>
    ensures { PairsAnswers pack.now query.now result (lent nodes) (lent triples) (lent index) (lent pairs) (lent rows) (lent heads)
        (lent alive) (lent waiting) (lent stack) (lent seen) (lent own_nodes) (lent own_triples) (lent own_index) }
{
    let asked = LEAST_LENGTHS;
    let lengths = [
        nodes.len(),
        triples.len(),
        index.len(),
        pairs.len(),
        rows.len(),
        heads.len(),
        alive.len(),
        waiting.len(),
        stack.len(),
        seen.len(),
        own_nodes.len(),
        own_triples.len(),
        own_index.len(),
    ];
    if !long_enough(&asked, &lengths) {
        return Err(Refusal::ShortBuffer);
    }
    let said = answer(
        pack,
        query,
        nodes,
        triples,
        index,
        pairs,
        rows,
        heads,
        alive,
        waiting,
        stack,
        seen,
        own_nodes,
        own_triples,
        own_index,
    );
    clear(
        rows,
        heads,
        alive,
        waiting,
        stack,
        seen,
        own_nodes,
        own_triples,
        own_index,
    );
    said
}
