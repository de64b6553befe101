// Build, an open call: from a pack to its graph.
#![tactic(auto)]

ghost use Rattle.build.specs.Answer.{BuildAnswers};
ghost use Rattle.calls.specs.Call.{lent};

use calls::long_enough;
use construct::construct;
use graph::Size;
use meaning::refusal::Refusal;
use meaning::{
    HEADS_LENGTH, INDEX_LENGTH, NODE_LIST_LENGTH, ROWS_LENGTH, SETTING_LENGTH, TRIPLE_LIST_LENGTH,
};

// What each list and buffer must hold at least, in the order in which they are lent.
const LEAST_LENGTHS: [usize; 5] = [
    NODE_LIST_LENGTH,
    TRIPLE_LIST_LENGTH,
    INDEX_LENGTH,
    ROWS_LENGTH,
    HEADS_LENGTH,
];

// The graph of a pack at the front of the two lists, with their index, and its counts; or a refusal. `rows` and `heads` are
// working buffers.
pub fn build(
    pack: &[u8],
    nodes: &mut [u16],
    triples: &mut [u16],
    index: &mut [u16],
    rows: &mut [u16],
    heads: &mut [u64],
) -> Result<Size, Refusal>
    ensures { BuildAnswers pack.now result (lent nodes) (lent triples) (lent index) (lent rows) (lent heads) }
{
    let asked = LEAST_LENGTHS;
    let lengths = [
        nodes.len(),
        triples.len(),
        index.len(),
        rows.len(),
        heads.len(),
    ];
    if !long_enough(&asked, &lengths) {
        return Err(Refusal::ShortBuffer);
    }
    let mut numbers = [0u16; SETTING_LENGTH];
    let made = construct(pack, &mut numbers, nodes, triples, index, rows, heads);
    rows.fill(0);
    heads.fill(0);
    Ok(made?.size)
}
