// The triples of all heads, as an ordered set of keys by the places of their nodes.
ghost use Rattle.std.specs.Prelude.{◌≡◌, ◌<◌, ◌≤◌, length};
ghost use Rattle.meaning.specs.Limits.{max_core_nodes, max_core_triples};
ghost use Rattle.meaning.specs.Ordered.{InOrder};
ghost use Rattle.core_graph.specs.ForHeads.{ForHeads};
ghost use Rattle.core_graph.specs.Outcomes.{TriplesAnswer};
ghost use Rattle.core_graph.specs.Collected.{triple_keys};

use crate::counted::{Gives, add_all};
use crate::heads::{Head, KIND, NAMED, RuleHeads};
use meaning::{PLACE_ROOM, PREDICATE_ROOM};
use sets::ordered::{Full, OrderedSet, rank_near};

// A match gives its triple, unless the head gives a type.
#[derive(Clone, Copy)]
struct TripleKeys<'a> {
    nodes: &'a [u64],
}

impl<'a> Gives for TripleKeys<'a> {
    ghost ready = { λ s. InOrder ◌<◌ s.nodes.now × (length s.nodes.now ≤ max_core_nodes) };

    ghost gives = { λ s head k. triple_keys s.nodes.now head k };

    // near holds where the last subject, object and triple stood: each is looked for there first.
    fn add(
        &self,
        head: Head,
        k: u64,
        near: &mut [usize; 3],
        triples: &mut OrderedSet,
    ) -> Result<(), Full> {
        if head[KIND] == 0 {
            return Ok(());
        }
        let subject = crate::keys::subject_key(head, k);
        let object = crate::keys::object_key(head, k);
        let s = rank_near(self.nodes, near[0], subject);
        let o = rank_near(self.nodes, near[1], object);
        let key = (s as u64 * PREDICATE_ROOM + head[NAMED]) * PLACE_ROOM + o as u64;
        let at = triples.rank_near(near[2], key);
        near[0] = s;
        near[1] = o;
        near[2] = at;
        triples.insert_at(at, key)?;
        Ok(())
    }
}

// The triples of all heads, or that they are too many.
pub fn triples(heads: &RuleHeads, nodes: &[u64], triples: &mut [u64]) -> Result<usize, Full>
    requires { InOrder ◌<◌ nodes.now × (length nodes.now ≤ max_core_nodes) × (length triples.old ≡ max_core_triples) }
    ensures { ForHeads heads.now (TriplesAnswer result nodes.now) triples.old triples.new }
{
    let mut set = OrderedSet::empty(triples);
    add_all(&TripleKeys { nodes }, heads, &mut set)?;
    Ok(set.count)
}
