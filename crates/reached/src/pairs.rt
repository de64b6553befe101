// The pairs of named nodes that a query joins, ascending.
ghost use Rattle.std.specs.Prelude.{length, ◌+◌, ◌<◌, ◌≡◌, ◌≤◌};
ghost use Rattle.meaning.specs.Limits.{max_core_nodes, max_pairs, max_parts, seen_words};
ghost use Rattle.reached.specs.Keys.{pair_key};
ghost use Rattle.forward.specs.Ready.{ReadyFor};
ghost use Rattle.reached.specs.Walked.{EndsAre, ListedBelow, ListedUpTo, PairsAre, Walked, ends_from};
ghost use Rattle.states.specs.Lists.{lists_of};
ghost use Rattle.worklist.specs.Table.{Blank, Same, Stacked, board_of};

use crate::keys::pair_key;
use forward::Named;
use forward::visit::visit_onward;
use meaning::{MAX_CORE_NODES, MAX_NODES, MAX_PAIRS, NAMED_WORDS, WORD_BITS};
use states::Lists;
use worklist::{Board, clear_words, has};

// There are more pairs than are listed.
#[derive(Clone, Copy)]
pub struct TooMany;

// Marks the states at named nodes that are reached from the root at `start`.
fn walk(lists: &Lists, named: &Named, start: usize, board: &mut Board)
    requires { ReadyFor (lists_of lists.now) named.now × (start < named.now.count) × Blank seen_words (board_of board.old) }
    ensures { Walked (lists_of lists.now) named.now.count start board.new.marked.now
        × (seen_words ≤ length board.new.marked.now) × Stacked seen_words board.new.waiting.now board.new.stack.now 0
        × (board.new.top ≡ 0) × Same (board_of board.old) (board_of board.new) }
{
    let root = lists.sizes.parts - 1;
    board.mark(root * MAX_CORE_NODES + start);
    while let Some((w, bits)) = board.take_word() {
        visit_onward(lists, named, w, bits, board);
    }
}

// Lists the pairs of `start` and each of the first `named` nodes at which the end is marked; k are listed already, and it answers
// how many are then. A turn goes to the next marked end of a word, or to the next word.
fn list_ends(
    named: usize,
    parts: usize,
    start: usize,
    seen: &[u64],
    pairs: &mut [u32],
    k: usize,
) -> Result<usize, TooMany>
    requires { ((named ≤ max_core_nodes) × (start < max_core_nodes)) × ((parts ≤ max_parts) × (seen_words ≤ length seen.now))
        × ((k ≤ max_pairs) × (max_pairs ≤ length pairs.old)) }
    ensures { EndsAre result (ends_from seen.now parts start 0 named) pairs.old k pairs.new }
{
    let mut listed = k;
    let mut e = 0;
    while e < named {
        let ends = seen[parts * NAMED_WORDS + e / WORD_BITS] >> (e % WORD_BITS);
        if ends == 0 {
            e = (e / WORD_BITS + 1) * WORD_BITS;
        } else {
            e += u64::trailing_zeros(ends) as usize;
            if e < named {
                if listed == MAX_PAIRS {
                    return Err(TooMany);
                }
                pairs[listed] = pair_key(start, e);
                listed += 1;
            }
            e += 1;
        }
    }
    Ok(listed)
}

// Lists the pairs that begin at `start`; k are listed already, of the starts before it, and it answers how many are then.
fn list_from(
    lists: &Lists,
    named: &Named,
    start: usize,
    board: &mut Board,
    pairs: &mut [u32],
    k: usize,
) -> Result<usize, TooMany>
    requires { ReadyFor (lists_of lists.now) named.now
        × (start < named.now.count) × Blank seen_words (board_of board.old)
        × ListedBelow (lists_of lists.now) named.now.count (pair_key start 0) pairs.old k × (max_pairs ≤ length pairs.old) }
    ensures { ListedUpTo result (lists_of lists.now) named.now.count (pair_key (start + 1) 0) pairs.new
        × Blank seen_words (board_of board.new) × Same (board_of board.old) (board_of board.new) }
{
    let root = lists.sizes.parts - 1;
    if !has(named.alive, root * MAX_NODES + start) {
        return Ok(k);
    }
    walk(lists, named, start, board);
    let seen = &mut *board.marked;
    let listed = list_ends(named.count, lists.sizes.parts, start, &seen[..], pairs, k);
    clear_words(seen, (lists.sizes.parts + 1) * NAMED_WORDS);
    listed
}

// Lists the pairs of named nodes that the query joins, and answers how many they are.
pub fn list_pairs(
    lists: &Lists,
    named: &Named,
    board: &mut Board,
    pairs: &mut [u32],
) -> Result<usize, TooMany>
    requires { ReadyFor (lists_of lists.now) named.now × Blank seen_words (board_of board.old) × (max_pairs ≤ length pairs.old) }
    ensures { PairsAre result (lists_of lists.now) named.now.count pairs.new × Same (board_of board.old) (board_of board.new) }
{
    let mut k = 0;
    for start in 0..named.count {
        k = list_from(lists, named, start, board, pairs, k)?;
    }
    Ok(k)
}
