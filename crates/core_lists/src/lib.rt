// The core in lists of keys, as the graph is built from it, and laws of places and origins.
#![tactic(auto)]

ghost use Rattle.std.specs.Prelude.{◌≡◌, ◌+◌};
ghost use Rattle.core_lists.specs.Input.{CoreFits};
ghost use Rattle.core_lists.specs.Origin.{keys_before};
ghost use Rattle.core_lists.specs.Props.{CoreFits-prop};

use meaning::{PLACE_ROOM, PREDICATE_ROOM};

// The predicates of an origin, as a length.
pub const PREDICATES: usize = PREDICATE_ROOM as usize;

// A core: the keys of its nodes and of its triples, ascending, and each node's types as a mask.
#[derive(Clone, Copy)]
pub struct Core<'a> {
    pub nodes: &'a [u64],
    pub triples: &'a [u64],
    pub masks: &'a [u16],
    pub ghost fits: { CoreFits nodes.now triples.now masks.now } by { CoreFits-prop nodes.now triples.now masks.now },
}

impl Core<'_> {
    // The place after the triples of an origin, which stand from place `from` on.
    // A loop and no `position`: the place is one of the whole list, and `position` would count from `from`.
    pub fn after(&self, origin: u64, from: usize) -> usize
        requires { from ≡ keys_before origin self.now.triples.now }
        ensures { result ≡ keys_before (origin + 1) self.now.triples.now }
    {
        for at in from..self.triples.len() {
            if self.triples[at] / PLACE_ROOM != origin {
                return at;
            }
        }
        self.triples.len()
    }
}
