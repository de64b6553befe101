// Types passed along the core's triples until none is added.
#![tactic(auto)]

ghost use Rattle.std.specs.Prelude.{length, true, ◌≡◌, ◌<◌, ◌≤◌};
ghost use Rattle.meaning.specs.Limits.{max_core_nodes, max_core_triples};
ghost use Rattle.sets.specs.Progress.{Progress};
ghost use Rattle.shapes.specs.Shapes.{CodesFit};
ghost use Rattle.spread.specs.Rounds.{RoundOn, RoundsMadeOn, SomeAdded, turn_at};
ghost use Rattle.spread.specs.Spread.{AllTriplesFit, PassShown, SpreadFrom, TripleFits, mask_room};

use meaning::{MAX_CORE_TRIPLES, PLACE_ROOM, PREDICATE_ROOM, SUBJECT_ROOM, ShapeTable};

// Passes the subject's types along one triple; says whether that added to the object's.
fn pass(shapes: &ShapeTable, key: u64, masks: &mut [u16]) -> bool
    requires { CodesFit shapes.now × TripleFits key × (max_core_nodes ≤ length masks.old) }
    ensures { PassShown shapes.now key masks.old masks.new × Progress mask_room result masks.old masks.new
        × (result ≡ true → SomeAdded masks.old masks.new) }
{
    let s = (key / SUBJECT_ROOM) as usize;
    let p = (key / PLACE_ROOM % PREDICATE_ROOM) as usize;
    let o = (key % PLACE_ROOM) as usize;
    let old = masks[o];
    let new = old | shapes::targets(shapes, masks[s], p);
    if new == old {
        return false;
    }
    masks[o] = new;
    true
}

// The place of the i-th of n triples in a walk over them, which may go back from the last.
fn turn(n: usize, back: bool, i: usize) -> usize
    requires { i < n }
    ensures { result ≡ turn_at back n i }
{
    if back {
        return n - 1 - i;
    }
    i
}

// Passes along every triple whose subject's types are not those that passed last; says whether anything was added.
fn round(
    shapes: &ShapeTable,
    triples: &[u64],
    back: bool,
    passed: &mut [u16; MAX_CORE_TRIPLES],
    masks: &mut [u16],
) -> bool
    requires { CodesFit shapes.now × AllTriplesFit triples.now × (length triples.now ≤ max_core_triples) × (max_core_nodes ≤ length masks.old) }
    ensures { RoundOn shapes.now triples.now back result passed.old passed.new masks.old masks.new
        × Progress mask_room result masks.old masks.new }
{
    let mut changed = false;
    for i in 0..triples.len() {
        let at = turn(triples.len(), back, i);
        let key = triples[at];
        let from = masks[(key / SUBJECT_ROOM) as usize];
        if passed[at] == from {
            continue;
        }
        passed[at] = from;
        changed |= pass(shapes, key, masks);
    }
    changed
}

// Passes along the triples until a round adds nothing, every other round from the last triple back; says how many rounds were
// made. At the start nothing has passed along any.
pub fn spread(shapes: &ShapeTable, triples: &[u64], masks: &mut [u16]) -> usize
    requires { CodesFit shapes.now × AllTriplesFit triples.now × (length triples.now ≤ max_core_triples) × (length masks.old ≡ max_core_nodes) }
    ensures { SpreadFrom shapes.now triples.now masks.old masks.new
        × RoundsMadeOn shapes.now triples.now result masks.old masks.new }
{
    let mut passed = [0u16; MAX_CORE_TRIPLES];
    let mut rounds = 0;
    while round(shapes, triples, rounds % 2 == 1, &mut passed, masks) {
        rounds += 1;
    }
    rounds + 1
}
