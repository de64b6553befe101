// What was found, written at the front of the lent lists.
ghost use Rattle.std.specs.Prelude.{◌≡◌, ◌*◌};
ghost use Rattle.meaning.specs.Limits.{index_width, node_width, triple_width};
ghost use Rattle.pair_list.specs.Written.{CanCopy, PairsFit, with_pairs};
ghost use Rattle.sets.specs.Buffers.{overlaid};

use meaning::{INDEX_WIDTH, NODE_WIDTH, TRIPLE_WIDTH};
use reached::keys::{pair_from, pair_to};
use sets::buffers::copy_front;

// Writes the first k pairs at the front of the list, two numbers each; the rest of it keeps its numbers.
pub fn write_pairs(found: &[u32], k: usize, pairs: &mut [u16])
    requires { PairsFit k found.now pairs.old }
    ensures { pairs.new ≡ with_pairs k found.now pairs.old }
{
    for (i, &x) in found[..k].iter().enumerate() {
        pairs[2 * i] = pair_from(x);
        pairs[2 * i + 1] = pair_to(x);
    }
}

// Copies a graph from `points` and `links`, so many nodes and triples, and its index from `marks`, and writes the first k pairs.
pub fn publish(
    points: &[u16],
    count: usize,
    links: &[u16],
    edges: usize,
    marks: &[u16],
    found: &[u32],
    k: usize,
    nodes: &mut [u16],
    triples: &mut [u16],
    index: &mut [u16],
    pairs: &mut [u16],
)
    requires { CanCopy (count * node_width) points.now nodes.old × CanCopy (edges * triple_width) links.now triples.old
        × CanCopy (count * index_width) marks.now index.old × PairsFit k found.now pairs.old }
    ensures { (nodes.new ≡ overlaid (count * node_width) points.now nodes.old)
        × (triples.new ≡ overlaid (edges * triple_width) links.now triples.old)
        × (index.new ≡ overlaid (count * index_width) marks.now index.old)
        × (pairs.new ≡ with_pairs k found.now pairs.old) }
{
    copy_front(points, count * NODE_WIDTH, nodes);
    copy_front(links, edges * TRIPLE_WIDTH, triples);
    copy_front(marks, count * INDEX_WIDTH, index);
    write_pairs(found, k, pairs);
}
