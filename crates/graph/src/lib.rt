// The pack's graph as records in the two lists, or that it has none.
#![tactic(auto)]

ghost use Rattle.std.specs.Prelude.{length, ◌≤◌};
ghost use Rattle.graph.specs.Build.{BuildShown};
ghost use Rattle.core_lists.specs.Input.{KeysSmall};
ghost use Rattle.meaning.specs.Limits.{node_list_length, triple_list_length};
ghost use Rattle.shapes.specs.Shapes.{CodesFit};

use clash::find_clash;
use core_lists::Core;
use invent::invent;
use meaning::{Arities, SET_WORDS, ShapeTable, TYPE_SETS};
use mixed::mixed;
use node_list::{list_nodes, node_sets};
use triple_list::list_triples;

// How many nodes and triples a graph has.
#[derive(Clone, Copy)]
pub struct Size {
    pub nodes: usize,
    pub triples: usize,
}

// Why a pack has no graph: the place of a clash (refusal 10), or that kinds are mixed (refusal 11).
#[derive(Clone, Copy)]
pub enum NoGraph {
    Clash(usize),
    Mixed,
}

// Writes the graph of a core, unless the pack has none.
pub fn build(
    shapes: ShapeTable,
    arities: Arities,
    core: &Core,
    records: &mut [u16],
    edges: &mut [u16],
) -> Result<Size, NoGraph>
    requires { KeysSmall core.now.nodes.now × CodesFit shapes × (node_list_length ≤ length records.old)
        × (triple_list_length ≤ length edges.old) }
    ensures { BuildShown shapes arities core.now records.old records.new edges.old edges.new result }
{
    if let Some(i) = find_clash(&shapes, core) {
        return Err(NoGraph::Clash(i));
    }
    let mut flags = [0u64; SET_WORDS];
    invent(&shapes, core, &mut flags);
    if mixed(core.nodes, core.masks, &flags) {
        return Err(NoGraph::Mixed);
    }
    let mut sets = [0u16; TYPE_SETS];
    let mut places = [0u16; TYPE_SETS];
    let count = node_sets(&flags, &mut sets);
    let sets = &sets[..count];
    let n = list_nodes(arities, core.nodes, core.masks, sets, &mut places, records);
    let t = list_triples(&shapes, core, sets, &places, edges);
    Ok(Size {
        nodes: n,
        triples: t,
    })
}
