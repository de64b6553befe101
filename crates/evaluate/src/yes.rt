// Whether a query is satisfied in every finite graph that obeys a pack.
ghost use Rattle.evaluate.specs.Answered.{ForReady, IsReady, YesIn};
ghost use Rattle.meaning.specs.Limits.{state_words};
ghost use Rattle.worklist.specs.Table.{Unmarked};

use answers::some_joined;
use meaning::MAX_PARTS;
use states::{Lists, Sizes};
use walk::thread;
use worklist::Board;

// The answer for a query in its tree of parts, with the number that each part wants, over the graph in its two lists.
pub fn yes(
    tree: &[u32],
    parts: usize,
    wanted: &[u16],
    nodes: &[u16],
    count: usize,
    triples: &[u16],
    edges: usize,
    alive: &mut [u64],
    waiting: &mut [u64],
    stack: &mut [u16],
) -> bool
    requires { IsReady tree.now parts wanted.now nodes.now count triples.now edges × Unmarked state_words alive.old waiting.old stack.old }
    ensures { ForReady tree.now parts wanted.now nodes.now count triples.now edges
        (λ pack query. YesIn pack query nodes.now count triples.now edges result) }
{
    let mut next = [0u16; MAX_PARTS];
    thread(tree, parts, &mut next);
    let lists = Lists {
        sizes: Sizes {
            nodes: count,
            edges,
            parts,
        },
        triples,
        tree,
        next: &next[..],
        wanted,
    };
    let mut board = Board {
        marked: alive,
        waiting,
        stack,
        top: 0,
    };
    some_joined(&lists, &mut board)
}
