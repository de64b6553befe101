// The pairs that a query joins in the graph of a pack, found with cleared tables.
ghost use Rattle.std.specs.Prelude.{length, ◌≤◌};
ghost use Rattle.evaluate.specs.Answered.{ForReady, IsReady, PairsIn};
ghost use Rattle.index.specs.Subjects.{BySubject};
ghost use Rattle.meaning.specs.Limits.{max_pairs};
ghost use Rattle.pair_list.specs.Written.{TableRoom};

use evaluate::pairs::pairs;
use reached::pairs::TooMany;

// How many pairs there are, as numbers at the front of `found`; or that they are too many.
pub fn find_pairs(
    tree: &[u32],
    parts: usize,
    wanted: &[u16],
    nodes: &[u16],
    count: usize,
    triples: &[u16],
    edges: usize,
    index: &[u16],
    alive: &mut [u64],
    waiting: &mut [u64],
    stack: &mut [u16],
    seen: &mut [u64],
    found: &mut [u32],
) -> Result<usize, TooMany>
    requires { IsReady tree.now parts wanted.now nodes.now count triples.now edges
        × BySubject triples.now count edges index.now × TableRoom alive.old waiting.old stack.old seen.old × (max_pairs ≤ length found.old) }
    ensures { ForReady tree.now parts wanted.now nodes.now count triples.now edges
        (λ pack query. PairsIn pack query nodes.now count triples.now edges result found.new) }
{
    alive.fill(0);
    waiting.fill(0);
    seen.fill(0);
    pairs(
        tree, parts, wanted, nodes, count, triples, edges, index, alive, waiting, stack, seen,
        found,
    )
}
