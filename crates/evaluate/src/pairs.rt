// The pairs of named nodes that a query joins in every finite graph that obeys a pack.
ghost use Rattle.std.specs.Prelude.{◌≤◌, length};
ghost use Rattle.answers.specs.Ready.{Unseen};
ghost use Rattle.evaluate.specs.Answered.{ForReady, IsReady, PairsIn};
ghost use Rattle.index.specs.Subjects.{BySubject};
ghost use Rattle.meaning.specs.Limits.{max_pairs, state_words};
ghost use Rattle.worklist.specs.Table.{Unmarked};

use crate::named::named;
use answers::joined_pairs;
use meaning::MAX_PARTS;
use reached::pairs::TooMany;
use states::{Lists, Sizes};
use walk::thread;
use worklist::Board;

// How many pairs there are, as numbers (reached, keys) ascending at the front of `found`; or that they are too many. `wanted` has
// the number that each part wants.
pub fn pairs(
    tree: &[u32],
    parts: usize,
    wanted: &[u16],
    nodes: &[u16],
    count: usize,
    triples: &[u16],
    edges: usize,
    index: &[u16],
    alive: &mut [u64],
    waiting: &mut [u64],
    stack: &mut [u16],
    seen: &mut [u64],
    found: &mut [u32],
) -> Result<usize, TooMany>
    requires { IsReady tree.now parts wanted.now nodes.now count triples.now edges
        × BySubject triples.now count edges index.now × Unmarked state_words alive.old waiting.old stack.old
        × Unseen seen.old × (max_pairs ≤ length found.old) }
    ensures { ForReady tree.now parts wanted.now nodes.now count triples.now edges
        (λ pack query. PairsIn pack query nodes.now count triples.now edges result found.new) }
{
    let mut next = [0u16; MAX_PARTS];
    thread(tree, parts, &mut next);
    let lists = Lists {
        sizes: Sizes {
            nodes: count,
            edges,
            parts,
        },
        triples,
        tree,
        next: &next[..],
        wanted,
    };
    let mut board = Board {
        marked: alive,
        waiting,
        stack,
        top: 0,
    };
    joined_pairs(&lists, named(nodes, count), index, &mut board, seen, found)
}
