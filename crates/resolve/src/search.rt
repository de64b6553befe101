// A node by its numbers.
ghost use Rattle.std.specs.Prelude.{length, true, ◌↔◌, ◌≡◌, ◌+◌, ◌*◌, ◌≤◌};
ghost use Rattle.meaning.specs.Limits.{node_width};
ghost use Rattle.resolve.specs.Listed.{Roomy};
ghost use Rattle.resolve.specs.Search.{HasNumbers, First};

use meaning::{MAX_ARGUMENTS, NODE_WIDTH};

// Whether the record of node m has the kind, the number and the arguments.
fn has_numbers(
    nodes: &[u16],
    m: usize,
    kind: u16,
    number: u16,
    arguments: [u16; MAX_ARGUMENTS],
) -> bool
    requires { m * node_width + node_width ≤ length nodes.now }
    ensures { (result ≡ true) ↔ HasNumbers nodes.now kind number arguments m }
{
    let at = m * NODE_WIDTH;
    if nodes[at] != kind {
        return false;
    }
    if nodes[at + 1] != number {
        return false;
    }
    nodes[at + 3..at + NODE_WIDTH] == arguments[..]
}

// The first of the count nodes whose record has the kind, the number and the arguments.
pub fn find_node(
    nodes: &[u16],
    count: usize,
    kind: u16,
    number: u16,
    arguments: [u16; MAX_ARGUMENTS],
) -> Option<u16>
    requires { Roomy nodes.now count }
    ensures { First (HasNumbers nodes.now kind number arguments) count result }
{
    (0..count)
        .position(|m| has_numbers(nodes, m, kind, number, arguments))
        .map(|m| m as u16)
}
