// Triple records, written into a lent slice.
#![tactic(auto)]

ghost use Rattle.std.specs.Prelude.{length, map, ◌≡◌, ℕ, min, ◌+◌, ◌*◌, ◌<◌, ◌≤◌};
ghost use mathlib.Core.List.{flatten};
ghost use Rattle.spread.specs.Keys.{origin_at};
ghost use Rattle.core_lists.specs.Origin.{keys_before};
ghost use Rattle.invent.specs.Invent.{OfDemand, OfTable, Upto};
ghost use Rattle.node_list.specs.Records.{SetPlaces, SetsFit, overwritten};
ghost use Rattle.triple_list.specs.Triples.{EdgeFrom, IriEdge, NodeEdge, RecordsListed, SetEdge, SubjectEdge, TriplesShown, edge_record};
ghost use Rattle.meaning.specs.Limits.{max_core_nodes, max_core_triples, max_iris, max_nodes, max_predicates, max_triples, triple_list_length, triple_width, type_sets};
ghost use Rattle.shapes.specs.Shapes.{CodesFit};

use core_lists::{Core, PREDICATES};
use invent::SETS;
use meaning::{FIRST_LITERAL, PLACE_ROOM, ShapeTable, TRIPLE_WIDTH};
use node_list::write_record;
use sets::ordered::rank;
use shapes::demand::{DemandTable, demand_table, demands_of, required_in, targets_in};

// Where the next triple is written, and how far the core's triples are passed.
#[derive(Clone, Copy)]
pub struct Next {
    pub triple: usize,
    pub at: usize,
}

// Writes these edges of a subject and a predicate, from a triple number on.
fn list_edges(edges: &[u64], subject: usize, p: usize, first: usize, out: &mut [u16])
    requires { (subject < max_nodes) × (p < max_predicates) × (first + length edges.now ≤ max_triples) × (triple_list_length ≤ length out.old) }
    ensures { out.new ≡ overwritten (first * triple_width) (flatten (map (edge_record subject p) edges.now)) out.old }
{
    for (i, &key) in edges.iter().enumerate() {
        let object = (key % PLACE_ROOM) as u16;
        let triple = [subject as u16, p as u16, object];
        write_record(out, (first + i) * TRIPLE_WIDTH, &triple);
    }
}

// What edges come from: what each type demands, the core, and the number of each invented node by its mask.
#[derive(Clone, Copy)]
struct Source<'a> {
    demands: &'a DemandTable,
    core: Core<'a>,
    places: &'a [u16],
    ghost room: { type_sets ≤ length places.now },
}

impl Source<'_> {
    // Writes the edges of a subject and a predicate: the core's, or else the one to the invented node of its p-targets.
    fn list_origin(
        &self,
        subject: usize,
        demand: u16,
        p: usize,
        next: Next,
        out: &mut [u16],
    ) -> Next
        requires { (subject < max_nodes) × (p < max_predicates)
            × (next.at ≡ keys_before (origin_at subject p) self.now.core.triples.now)
            × (next.triple + keys_before (origin_at subject p + 1) self.now.core.triples.now + 1 ≤ max_triples + next.at) × (triple_list_length ≤ length out.old) }
        ensures { ((mask : ℕ) → RecordsListed (OfDemand mask p demand) (λ P. EdgeFrom P self.now.core.triples.now self.now.places.now subject mask p) next.triple
            out.old out.new result.triple) × (result.triple + next.at ≤ next.triple + 1 + result.at)
            × (result.at ≡ keys_before (origin_at subject p + 1) self.now.core.triples.now) }
    {
        let from = next.at;
        let at = self.core.after((subject * PREDICATES + p) as u64, from);
        if at != from {
            list_edges(&self.core.triples[from..at], subject, p, next.triple, out);
            return Next {
                triple: next.triple + (at - from),
                at,
            };
        }
        if !required_in(demand) {
            return next;
        }
        let object = self.places[(targets_in(demand) % SETS) as usize];
        let triple = [subject as u16, p as u16, object];
        write_record(out, next.triple * TRIPLE_WIDTH, &triple);
        Next {
            triple: next.triple + 1,
            at,
        }
    }

    // The same for every predicate.
    fn list_subject(&self, subject: usize, mask: u16, first: Next, out: &mut [u16]) -> Next
        requires { (subject < max_nodes)
            × (first.at ≡ keys_before (origin_at subject 0) self.now.core.triples.now)
            × (first.triple + max_predicates + keys_before (origin_at subject max_predicates) self.now.core.triples.now ≤ max_triples + first.at)
            × (triple_list_length ≤ length out.old) }
        ensures { RecordsListed (OfTable self.now.demands.now) (λ P. SubjectEdge P self.now.core.triples.now self.now.places.now subject mask)
            first.triple out.old out.new result.triple × (result.triple + first.at ≤ first.triple + max_predicates + result.at)
            × (result.at ≡ keys_before (origin_at subject max_predicates) self.now.core.triples.now) }
    {
        let row = demands_of(self.demands, mask);
        let mut next = first;
        for (p, &demand) in row.iter().enumerate() {
            next = self.list_origin(subject, demand, p, next, out);
        }
        next
    }

    // Those of every IRI: literals come after all IRIs and have no edges.
    fn list_iris(&self, out: &mut [u16]) -> usize
        requires { triple_list_length ≤ length out.old }
        ensures { RecordsListed (OfTable self.now.demands.now)
            (IriEdge self.now.core.nodes.now self.now.core.triples.now self.now.core.masks.now self.now.places.now) 0 out.old out.new result
            × (result ≤ max_core_triples + max_iris * max_predicates) }
    {
        let iris = rank(self.core.nodes, FIRST_LITERAL);
        let masks = &self.core.masks[..iris];
        let mut next = Next { triple: 0, at: 0 };
        for (s, &mask) in masks.iter().enumerate() {
            next = self.list_subject(s, mask, next, out);
        }
        next.triple
    }

    // Those of an invented node, which comes after all subjects of the core: the invented literal has no edges.
    fn list_set(&self, node: usize, types: u16, first: usize, out: &mut [u16]) -> usize
        requires { (length self.now.core.nodes.now ≤ node) × (node < max_nodes)
            × (first + max_predicates ≤ max_triples) × (triple_list_length ≤ length out.old) }
        ensures { RecordsListed (OfTable self.now.demands.now) (NodeEdge self.now.core.triples.now self.now.places.now node types) first
            out.old out.new result × (result ≤ first + min 1 types * max_predicates) }
    {
        if types == 0 {
            return first;
        }
        let from = Next {
            triple: first,
            at: self.core.triples.len(),
        };
        let next = self.list_subject(node, types, from, out);
        next.triple
    }

    // Those of every invented node: the first comes after the core's nodes.
    fn list_sets(&self, sets: &[u16], first: usize, out: &mut [u16]) -> usize
        requires { SetsFit sets.now × (first ≤ max_core_triples + max_iris * max_predicates) × (triple_list_length ≤ length out.old) }
        ensures { RecordsListed (OfTable self.now.demands.now)
            (λ P. Upto (SetEdge self.now.core.triples.now sets.now self.now.places.now (length self.now.core.nodes.now) P) (length sets.now)) first
            out.old out.new result × (result ≤ max_triples) }
    {
        let node = self.core.nodes.len();
        let mut next = first;
        for (i, &types) in sets.iter().enumerate() {
            next = self.list_set(node + i, types, next, out);
        }
        next
    }
}

// Writes the records of all edges, ascending; returns how many there are.
pub fn list_triples(
    shapes: &ShapeTable,
    core: &Core,
    sets: &[u16],
    places: &[u16],
    out: &mut [u16],
) -> usize
    requires { SetsFit sets.now × SetPlaces sets.now (length core.now.nodes.now) places.now
        × (type_sets ≤ length places.now) × (triple_list_length ≤ length out.old) × CodesFit shapes.now }
    ensures { TriplesShown shapes.now core.now sets.now out.old out.new result }
{
    let demands = demand_table(shapes);
    let source = Source {
        demands: &demands,
        core: *core,
        places,
    };
    let next = source.list_iris(out);
    source.list_sets(sets, next, out)
}
