// From a pack's bytes to its graph: its records are loaded as numbers and checked, and the graph is built from the numbers.
#![tactic(auto)]

ghost use Rattle.std.specs.Prelude.{◌≤◌, length};
ghost use Rattle.calls.specs.Call.{lent};
ghost use Rattle.construct.specs.Loaded.{LoadedIf, size_of};
ghost use Rattle.construct.specs.Outcome.{Constructs};
ghost use Rattle.construct.specs.Steps.{CoreGiven, FromCore, FromHeads, FromRows, HeadsGiven, OfCore, OfHeads};
ghost use Rattle.meaning.specs.Limits.{heads_length, index_length, node_list_length, rows_length, setting_length, triple_list_length};
ghost use Rattle.names.specs.PackGiven.{ForResolvedOf, HoldsResolved};

use checks::check;
use clash::clash_records;
use core_graph::heads::RuleHeads;
use core_lists::Core;
use depends::is_broken;
use graph::{NoGraph, Size, build};
use index::subjects::index_subjects;
use meaning::refusal::Refusal;
use meaning::{Arities, BODIES, CANDIDATES_LENGTH, MAX_CORE_NODES, MAX_CORE_TRIPLES, ShapeTable};
use records::setting::LoadedSetting;
use rule_heads::{AllHeads, all_heads};
use tables::arities::arities;
use tables::heads::head_table;
use tables::shape_tables::shape_table;

// How many nodes and triples a pack's graph has, and how many records each of its bodies has.
#[derive(Clone, Copy)]
pub struct PackGraph {
    pub size: Size,
    pub counts: [usize; BODIES],
}

// From the core: 10, 11 or the graph.
fn from_core(
    shapes: ShapeTable,
    arities: Arities,
    core: &Core,
    nodes: &mut [u16],
    triples: &mut [u16],
    index: &mut [u16],
) -> Result<Size, Refusal>
    requires { CoreGiven shapes arities core.now × (node_list_length ≤ length nodes.old)
        × (triple_list_length ≤ length triples.old) × (index_length ≤ length index.old) }
    ensures { OfCore shapes arities core.now (λ P. FromCore P result (lent nodes) (lent triples) (lent index)) }
{
    match build(shapes, arities, core, nodes, triples) {
        Ok(size) => {
            index_subjects(&triples[..], size.nodes, size.triples, index);
            Ok(size)
        }
        Err(NoGraph::Clash(i)) => Err(Refusal::Clash(clash_records(arities, core, i))),
        Err(NoGraph::Mixed) => Err(Refusal::MixedKinds),
    }
}

// From the heads: 9, or what the core comes to.
fn from_heads(
    setting: &LoadedSetting,
    found: AllHeads,
    heads: &[u64],
    nodes: &mut [u16],
    triples: &mut [u16],
    index: &mut [u16],
) -> Result<Size, Refusal>
    requires { HeadsGiven setting.now.counts setting.now.numbers.now found heads.now × (heads_length ≤ length heads.now) × (node_list_length ≤ length nodes.old)
        × (triple_list_length ≤ length triples.old) × (index_length ≤ length index.old) }
    ensures { OfHeads setting.now.counts setting.now.numbers.now found heads.now
        (λ P. FromHeads P result (lent nodes) (lent triples) (lent index)) }
{
    let shapes = shape_table(setting);
    let found_heads = RuleHeads {
        rules: &head_table(setting),
        count: found.count,
        keys: heads,
        counts: &found.counts,
    };
    let mut keys = [0u64; MAX_CORE_NODES];
    let mut edges = [0u64; MAX_CORE_TRIPLES];
    let mut masks = [0u16; MAX_CORE_NODES];
    let Ok(size) = core_graph::core(shapes, &found_heads, &mut keys, &mut edges, &mut masks) else {
        return Err(Refusal::CoreTooLarge);
    };
    let core = Core {
        nodes: &keys[..size.nodes],
        triples: &edges[..size.triples],
        masks: &masks,
    };
    from_core(shapes, arities(setting), &core, nodes, triples, index)
}

// From a setting's numbers and rows, which need no pack's bytes: 8 to 11, or the graph.
pub fn from_rows(
    setting: &LoadedSetting,
    rows: &[u16],
    nodes: &mut [u16],
    triples: &mut [u16],
    index: &mut [u16],
    heads: &mut [u64],
) -> Result<Size, Refusal>
    requires { HoldsResolved setting.now rows.now × (node_list_length ≤ length nodes.old)
        × (triple_list_length ≤ length triples.old) × (index_length ≤ length index.old) × (heads_length ≤ length heads.old) }
    ensures { ForResolvedOf setting.now rows.now (λ P. FromRows P result (lent nodes) (lent triples) (lent index)) }
{
    if is_broken(setting, rows) {
        return Err(Refusal::BrokenDependency);
    }
    let mut work = [0u64; CANDIDATES_LENGTH];
    let Ok(found) = all_heads(setting, rows, heads, &mut work) else {
        return Err(Refusal::CoreTooLarge); // a rule has too many heads
    };
    from_heads(setting, found, heads, nodes, triples, index)
}

// The graph of any pack, written at the front of the lists; or its refusal of 3 to 11, and the lists keep their contents.
// Where there is a graph, the setting's numbers are left in `numbers`.
pub fn construct(
    pack: &[u8],
    numbers: &mut [u16],
    nodes: &mut [u16],
    triples: &mut [u16],
    index: &mut [u16],
    rows: &mut [u16],
    heads: &mut [u64],
) -> Result<PackGraph, Refusal>
    requires { (node_list_length ≤ length nodes.old) × (triple_list_length ≤ length triples.old) × (index_length ≤ length index.old) × (rows_length ≤ length rows.old)
        × (heads_length ≤ length heads.old) × (setting_length ≤ length numbers.old) }
    ensures { Constructs pack.now (size_of result) (lent nodes) (lent triples) (lent index) × LoadedIf pack.now result numbers.new }
{
    let counts = check(pack, numbers, rows)?;
    let setting = LoadedSetting {
        counts,
        numbers: &numbers[..],
    };
    let size = from_rows(&setting, rows, nodes, triples, index, heads)?;
    Ok(PackGraph { size, counts })
}
