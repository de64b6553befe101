// Refusal 10: a node with two p-objects and a type that allows one.
#![tactic(auto)]

ghost use Rattle.std.specs.Prelude.{get_or, length, slice_index, ◌≡◌, ◌+◌, ◌<◌};
ghost use Rattle.spread.specs.Keys.{predicate_of, subject_of};
ghost use Rattle.core_lists.specs.Input.{KeysSmall};
ghost use Rattle.node_list.specs.Records.{core_numbers};
ghost use Rattle.clash.specs.Clash.{ClashRecorded, ClashShown, Clashes};
ghost use Rattle.meaning.specs.Limits.{max_predicates};

use core_lists::Core;
use meaning::{
    Arities, CLASH_WIDTH, NODE_WIDTH, PLACE_ROOM, PREDICATE_ROOM, SUBJECT_ROOM, ShapeTable,
};
use node_list::{core_node, write_record};
use shapes::limited;

// Whether the triple at a place and the one before clash: they have one subject and predicate, which a type limits to one object.
pub fn clashes(shapes: &ShapeTable, triples: &[u64], masks: &[u16], i: usize) -> bool
    requires { (0 < i) × (i < length triples.now) × (subject_of (get_or triples.now i 0) < length masks.now) × (predicate_of (get_or triples.now i 0) < max_predicates) }
    ensures { Clashes shapes.now triples.now masks.now i result }
{
    let key = triples[i];
    if triples[i - 1] / PLACE_ROOM != key / PLACE_ROOM {
        return false;
    }
    let subject = (key / SUBJECT_ROOM) as usize;
    limited(
        shapes,
        masks[subject],
        (key / PLACE_ROOM % PREDICATE_ROOM) as usize,
    )
}

// Looks for the first clash. Triples ascend by subject, predicate and object: so the objects of a subject and a predicate stand side
// by side, and the first two triples that clash are those asked for. A loop and no `position`: what `clashes` says is no equation.
pub fn find_clash(shapes: &ShapeTable, core: &Core) -> Option<usize>
    ensures { ClashShown shapes.now core.now result }
{
    for i in 1..core.triples.len() {
        if clashes(shapes, core.triples, core.masks, i) {
            return Some(i - 1);
        }
    }
    None
}

// Where the objects' records stand in a clash.
const FIRST_OBJECT: usize = NODE_WIDTH + 1;

const SECOND_OBJECT: usize = FIRST_OBJECT + NODE_WIDTH;

// The record of the core node at a place.
fn record_at(arities: Arities, core: &Core, i: usize) -> [u16; NODE_WIDTH]
    requires { KeysSmall core.now.nodes.now × (i < length core.now.nodes.now) }
    ensures { result ≡ core_numbers arities (slice_index core.now.nodes.now i) (slice_index core.now.masks.now i) }
{
    core_node(arities, core.nodes[i], core.masks[i])
}

// The clash at a place as numbers: the subject's record, the predicate, the records of both objects.
pub fn clash_records(arities: Arities, core: &Core, i: usize) -> [u16; CLASH_WIDTH]
    requires { KeysSmall core.now.nodes.now × (i + 1 < length core.now.triples.now) }
    ensures { ClashRecorded arities core.now i result }
{
    let first = core.triples[i];
    let second = core.triples[i + 1];
    let s = (first / SUBJECT_ROOM) as usize;
    let a = (first % PLACE_ROOM) as usize;
    let b = (second % PLACE_ROOM) as usize;
    let mut numbers = [0u16; CLASH_WIDTH];
    write_record(&mut numbers, 0, &record_at(arities, core, s));
    numbers[NODE_WIDTH] = (first / PLACE_ROOM % PREDICATE_ROOM) as u16;
    write_record(&mut numbers, FIRST_OBJECT, &record_at(arities, core, a));
    write_record(&mut numbers, SECOND_OBJECT, &record_at(arities, core, b));
    numbers
}
