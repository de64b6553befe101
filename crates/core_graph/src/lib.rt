// The core of a pack, in lent slices: its nodes and triples as ordered sets of keys, and its types as masks.
#![tactic(auto)]

ghost use Rattle.std.specs.Prelude.{◌≡◌, length};
ghost use Rattle.meaning.specs.Limits.{max_core_nodes, max_core_triples};
ghost use Rattle.sets.specs.Buffers.{zeros};
ghost use Rattle.shapes.specs.Shapes.{CodesFit};
ghost use Rattle.core_graph.specs.ForHeads.{ForHeads};
ghost use Rattle.core_graph.specs.Outcomes.{CoreAnswer};

use crate::heads::RuleHeads;
use meaning::ShapeTable;
use sets::ordered::Full;

pub mod heads; // the numbers of a rule's head
mod keys; // the node keys of a match
mod counted; // adding to an ordered set in a slice
mod nodes; // the nodes
mod triples; // the triples
mod typing; // the types

// How many nodes and triples the core has, and in how many rounds its types spread.
#[derive(Clone, Copy)]
pub struct CoreSize {
    pub nodes: usize,
    pub triples: usize,
    pub rounds: usize,
}

// The core of the pack whose shapes and heads these are, or that it is too large; the masks are zero at the start.
pub fn core(
    shapes: ShapeTable,
    heads: &RuleHeads,
    nodes: &mut [u64],
    triples: &mut [u64],
    masks: &mut [u16],
) -> Result<CoreSize, Full>
    requires { CodesFit shapes × (length nodes.old ≡ max_core_nodes)
        × (length triples.old ≡ max_core_triples) × (length masks.old ≡ max_core_nodes) × (masks.old ≡ zeros (length masks.old)) }
    ensures { ForHeads heads.now (CoreAnswer result shapes) nodes.new triples.new masks.new }
{
    let n = crate::nodes::nodes(heads, nodes)?;
    let t = crate::triples::triples(heads, &nodes[..n], triples)?;
    let rounds = crate::typing::typing(shapes, heads, &nodes[..n], &triples[..t], masks);
    Ok(CoreSize {
        nodes: n,
        triples: t,
        rounds,
    })
}
