// A graph and a query in number lists, as walks take them; a state is a part of the query, or its end, and a node.
#![tactic(auto)]

ghost use Rattle.std.specs.Prelude.{◌≡◌};
ghost use Rattle.states.specs.Parts.{takes};

use query::kinds;

// How many nodes, triples and parts there are.
#[derive(Clone, Copy)]
pub struct Sizes {
    pub nodes: usize,
    pub edges: usize,
    pub parts: usize,
}

// The triples, three numbers each, and for each part of the query its number, what is to be done after it, and the predicate or
// node that its name or label asks for.
#[derive(Clone, Copy)]
pub struct Lists<'a> {
    pub sizes: Sizes,
    pub triples: &'a [u16],
    pub tree: &'a [u32],
    pub next: &'a [u16],
    pub wanted: &'a [u16],
}

// Whether a step of this kind takes the predicate.
pub fn takes_predicate(kind: usize, want: u16, predicate: u16) -> bool
    ensures { result ≡ takes kind want predicate }
{
    kind == kinds::ANY_STEP || predicate == want
}
