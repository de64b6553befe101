// Yes/no, an open call: whether a query is satisfied in every finite graph that obeys a pack.
#![tactic(auto)]

ghost use Rattle.calls.specs.Call.{lent};
ghost use Rattle.yes_no.specs.Answer.{YesNoAnswers};
ghost use Rattle.yes_no.specs.Inner.{Comes, Room};

use calls::long_enough;
use evaluate::yes::yes;
use graph::Size;
use meaning::refusal::Refusal;
use meaning::{
    HEADS_LENGTH, INDEX_LENGTH, MAX_PARTS, MAX_QUERY_BYTES, NODE_LIST_LENGTH, ROWS_LENGTH,
    STATE_WORDS, TRIPLE_LIST_LENGTH,
};
use prepare::prepare;

// How many nodes and triples the pack's graph has, and the answer.
#[derive(Clone, Copy)]
pub struct YesNo {
    pub size: Size,
    pub yes: bool,
}

// 2 to 11, or yes or no.
fn answer(
    pack: &[u8],
    query: &[u8],
    nodes: &mut [u16],
    triples: &mut [u16],
    index: &mut [u16],
    rows: &mut [u16],
    heads: &mut [u64],
    alive: &mut [u64],
    waiting: &mut [u64],
    stack: &mut [u16],
) -> Result<YesNo, Refusal>
    requires { Room nodes.old triples.old index.old rows.old heads.old alive.old waiting.old stack.old }
    ensures { Comes pack.now query.now result (lent nodes) (lent triples) (lent index) }
{
    let mut tree = [0u32; MAX_QUERY_BYTES];
    let mut wanted = [0u16; MAX_PARTS];
    let prepared = prepare(
        pack,
        query,
        &mut tree,
        &mut wanted,
        nodes,
        triples,
        index,
        rows,
        heads,
    )?;
    let size = prepared.size;
    alive.fill(0);
    waiting.fill(0);
    let yes = yes(
        &tree[..],
        prepared.parts,
        &wanted[..],
        &nodes[..],
        size.nodes,
        &triples[..],
        size.triples,
        alive,
        waiting,
        stack,
    );
    Ok(YesNo { size, yes })
}

// What each list and buffer must hold at least, in the order in which they are lent.
const LEAST_LENGTHS: [usize; 8] = [
    NODE_LIST_LENGTH,
    TRIPLE_LIST_LENGTH,
    INDEX_LENGTH,
    ROWS_LENGTH,
    HEADS_LENGTH,
    STATE_WORDS, // alive
    STATE_WORDS, // waiting
    STATE_WORDS, // stack
];

// Whether the query is certain, with the graph of the pack at the front of the two lists and their index; or a refusal. `rows`,
// `heads`, `alive`, `waiting` and `stack` are working buffers.
pub fn yes_no(
    pack: &[u8],
    query: &[u8],
    nodes: &mut [u16],
    triples: &mut [u16],
    index: &mut [u16],
    rows: &mut [u16],
    heads: &mut [u64],
    alive: &mut [u64],
    waiting: &mut [u64],
    stack: &mut [u16],
) -> Result<YesNo, Refusal>
    ensures { YesNoAnswers pack.now query.now result (lent nodes) (lent triples) (lent index) (lent rows) (lent heads)
        (lent alive) (lent waiting) (lent stack) }
{
    let asked = LEAST_LENGTHS;
    let lengths = [
        nodes.len(),
        triples.len(),
        index.len(),
        rows.len(),
        heads.len(),
        alive.len(),
        waiting.len(),
        stack.len(),
    ];
    if !long_enough(&asked, &lengths) {
        return Err(Refusal::ShortBuffer);
    }
    let said = answer(
        pack, query, nodes, triples, index, rows, heads, alive, waiting, stack,
    );
    rows.fill(0);
    heads.fill(0);
    alive.fill(0);
    waiting.fill(0);
    stack.fill(0);
    said
}
