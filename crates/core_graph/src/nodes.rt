// The nodes of all heads, as an ordered set of keys.
ghost use Rattle.std.specs.Prelude.{◌≡◌, length};
ghost use Rattle.core_graph.specs.ForHeads.{ForHeads};
ghost use Rattle.core_graph.specs.Outcomes.{NodesAnswer};
ghost use Rattle.core_graph.specs.Collected.{node_keys};
ghost use Rattle.meaning.specs.Limits.{max_core_nodes};

use crate::counted::{Gives, add_all};
use crate::heads::{Head, KIND, RuleHeads};
use meaning::{FIRST_LITERAL, MAX_IRIS};
use sets::ordered::{Full, OrderedSet, rank};

// A match gives its subject, and its object unless the head gives a type.
struct NodeKeys;

impl Gives for NodeKeys {
    ghost ready = { λ _. Unit {0} };

    ghost gives = { λ _ head k. node_keys head k };

    // near holds where the last subject and object stood: each is looked for there first.
    fn add(
        &self,
        head: Head,
        k: u64,
        near: &mut [usize; 3],
        nodes: &mut OrderedSet,
    ) -> Result<(), Full> {
        let subject = crate::keys::subject_key(head, k);
        let s = nodes.rank_near(near[0], subject);
        near[0] = s;
        nodes.insert_at(s, subject)?;
        if head[KIND] == 0 {
            return Ok(());
        }
        let object = crate::keys::object_key(head, k);
        let o = nodes.rank_near(near[1], object);
        near[1] = o;
        nodes.insert_at(o, object)?;
        Ok(())
    }
}

// The nodes of all heads, or that they have too many IRIs: a full slice has, since there is at most one literal a value.
pub fn nodes(heads: &RuleHeads, nodes: &mut [u64]) -> Result<usize, Full>
    requires { length nodes.old ≡ max_core_nodes }
    ensures { ForHeads heads.now (NodesAnswer result) nodes.old nodes.new }
{
    let mut set = OrderedSet::empty(nodes);
    add_all(&NodeKeys, heads, &mut set)?;
    if rank(set.members(), FIRST_LITERAL) > MAX_IRIS {
        return Err(Full);
    }
    Ok(set.count)
}
