// A query's answers over a graph in number lists: yes or no by the states that are alive, pairs by a walk from each start.
#![tactic(auto)]

ghost use Rattle.answers.specs.Ready.{PairsReady, YesReady};
ghost use Rattle.reached.specs.Walked.{PairsAre};
ghost use Rattle.states.specs.Lists.{lists_of};
ghost use Rattle.states.specs.Living.{Yes};
ghost use Rattle.worklist.specs.Table.{Same, board_of};

use alive::{mark_alive, some_alive};
use forward::Named;
use forward::own::own_by_subject;
use index::objects::list_by_object;
use meaning::{MAX_NODES, MAX_TRIPLES};
use reached::pairs::{TooMany, list_pairs};
use states::Lists;
use worklist::Board;

// Whether the query joins some two nodes.
pub fn some_joined(lists: &Lists, board: &mut Board) -> bool
    requires { YesReady (lists_of lists.now) (board_of board.old) }
    ensures { Yes result (lists_of lists.now) × Same (board_of board.old) (board_of board.new) }
{
    let mut starts = [0u16; MAX_NODES + 2];
    let mut into = [0u16; MAX_TRIPLES];
    let sizes = lists.sizes;
    list_by_object(
        lists.triples,
        sizes.nodes,
        sizes.edges,
        &mut starts,
        &mut into,
    );
    mark_alive(lists, &starts[..], &into[..], board);
    let alive = &*board.marked;
    some_alive(sizes.nodes, sizes.parts, alive)
}

// Lists the pairs of named nodes, which are the first ones, that the query joins, and answers how many they are. Which states are
// alive is found on the board; then its room for what waits is that of the walks. The list by object is of use no longer when
// these begin, and its room is that of the triples between named nodes.
pub fn joined_pairs(
    lists: &Lists,
    named: usize,
    index: &[u16],
    board: &mut Board,
    seen: &mut [u64],
    pairs: &mut [u32],
) -> Result<usize, TooMany>
    requires { YesReady (lists_of lists.now) (board_of board.old)
        × PairsReady (lists_of lists.now) named index.now seen.old pairs.old }
    ensures { PairsAre result (lists_of lists.now) named pairs.new × Same (board_of board.old) (board_of board.new) }
{
    let mut starts = [0u16; MAX_NODES + 2];
    let mut into = [0u16; MAX_TRIPLES];
    let sizes = lists.sizes;
    list_by_object(
        lists.triples,
        sizes.nodes,
        sizes.edges,
        &mut starts,
        &mut into,
    );
    mark_alive(lists, &starts[..], &into[..], board);
    own_by_subject(lists.triples, index, named, &mut into);
    let alive = &mut *board.marked;
    let named = Named {
        count: named,
        own: &into[..],
        index,
        alive: &alive[..],
    };
    let mut walked = Board {
        marked: seen,
        waiting: &mut *board.waiting,
        stack: &mut *board.stack,
        top: board.top,
    };
    list_pairs(lists, &named, &mut walked, pairs)
}
