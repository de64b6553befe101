// The named nodes, which come first in the node list.
ghost use Rattle.std.specs.Prelude.{◌*◌, ◌≤◌, length};
ghost use Rattle.evaluate.specs.Kinds.{FirstInvented};
ghost use Rattle.meaning.specs.Limits.{max_nodes, node_width};

use meaning::NODE_WIDTH;

// How many nodes come before the first invented one.
pub fn named(nodes: &[u16], count: usize) -> usize
    requires { (count ≤ max_nodes) × (count * node_width ≤ length nodes.now) }
    ensures { FirstInvented nodes.now count result }
{
    for n in 0..count {
        if nodes[n * NODE_WIDTH] >= 2 {
            return n;
        }
    }
    count
}
