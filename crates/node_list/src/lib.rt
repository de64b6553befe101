// Node records, written into a lent slice.
#![tactic(auto)]

ghost use Rattle.std.specs.Prelude.{◌≡◌, ◌+◌, ◌*◌, ◌<◌, ◌≤◌, [], ◌∷◌, map, length, count_ones};
ghost use mathlib.Core.List.{flatten};
ghost use Rattle.core_lists.specs.Input.{KeysSmall};
ghost use Rattle.node_list.specs.NodeList.{NodesShown};
ghost use Rattle.node_list.specs.Records.{argument_at, core_numbers, core_records, NodeSets, NodeWord, overwritten, set_numbers, SetPlaces, SetsFit, WordListed};
ghost use Rattle.meaning.specs.Limits.{first_literal, max_core_nodes, max_nodes, max_values, node_list_length, node_width, set_words, type_sets};

use invent::TYPE_WORDS;
use meaning::{
    Arities, FIRST_LITERAL, LITERAL_WEIGHT, NODE_WIDTH, TERM_ROOM, UNUSED, VALUE_ROOM, WORD_BITS,
};

// How many lists of two and of three values there are.
const TWO_VALUES: u64 = VALUE_ROOM * VALUE_ROOM;

const THREE_VALUES: u64 = TWO_VALUES * VALUE_ROOM;

// A node's record: kind, number, type set and four arguments.
type Record = [u16; NODE_WIDTH];

// Writes a record from a place on.
pub fn write_record(out: &mut [u16], at: usize, numbers: &[u16])
    requires { at + length numbers.now ≤ length out.old }
    ensures { out.new ≡ overwritten at numbers.now out.old }
{
    out[at..at + numbers.len()].copy_from_slice(numbers);
}

// An argument of a key, if the constructor has it.
fn argument(value: u64, present: bool) -> u16
    ensures { result ≡ argument_at present value }
{
    if present {
        return (value % VALUE_ROOM) as u16;
    }
    UNUSED
}

// A core node's record.
pub fn core_node(arities: Arities, key: u64, mask: u16) -> Record
    requires { key < first_literal + max_values }
    ensures { result ≡ core_numbers arities key mask }
{
    let types = mask % LITERAL_WEIGHT;
    if key >= FIRST_LITERAL {
        let value = (key - FIRST_LITERAL) as u16;
        return [1, value, types, UNUSED, UNUSED, UNUSED, UNUSED];
    }
    let c = key / TERM_ROOM;
    let arity = arities[c as usize];
    let first = argument(key / THREE_VALUES, 0 < arity);
    let second = argument(key / TWO_VALUES, 1 < arity);
    let third = argument(key / VALUE_ROOM, 2 < arity);
    let fourth = argument(key, 3 < arity);
    [0, c as u16, types, first, second, third, fourth]
}

// Writes the records of the core nodes.
fn list_core(arities: Arities, nodes: &[u64], masks: &[u16], out: &mut [u16])
    requires { KeysSmall nodes.now × (length nodes.now ≤ max_core_nodes) × (length nodes.now ≤ length masks.now) × (node_list_length ≤ length out.old) }
    ensures { out.new ≡ overwritten 0 (flatten (core_records arities nodes.now masks.now)) out.old }
{
    for (i, &key) in nodes.iter().enumerate() {
        write_record(out, i * NODE_WIDTH, &core_node(arities, key, masks[i]));
    }
}

// A word of the sets in node order: that of {Literal} has the place of the empty set, which has no node.
fn node_word(flags: &[u64], w: usize) -> u64
    requires { (w < set_words) × (set_words ≤ length flags.now) }
    ensures { NodeWord flags.now w result }
{
    let bits = flags[w];
    if w != 0 {
        return bits;
    }
    bits - bits % 2 + flags[TYPE_WORDS] % 2
}

// Writes the numbers of the word w that the bits say after the first `at`; returns how many there are then. The bits are taken
// lowest first by trailing_zeros, a form that document 01 names.
fn list_word(w: usize, bits: u64, at: usize, sets: &mut [u16]) -> usize
    requires { (w < set_words) × (at + count_ones bits ≤ type_sets) × (type_sets ≤ length sets.old) }
    ensures { WordListed w bits at sets.old sets.new result }
{
    let mut end = at;
    let mut left = bits;
    while left != 0 {
        sets[end] = (w * WORD_BITS + u64::trailing_zeros(left) as usize) as u16;
        left &= left - 1;
        end += 1;
    }
    end
}

// Writes the marked sets in node order, each as the mask of its types: 0 is {Literal}. Returns how many there are.
pub fn node_sets(flags: &[u64], sets: &mut [u16]) -> usize
    requires { (set_words ≤ length flags.now) × (type_sets ≤ length sets.old) }
    ensures { NodeSets flags.now sets.new result }
{
    let mut count = 0;
    for w in 0..TYPE_WORDS {
        count = list_word(w, node_word(flags, w), count, sets);
    }
    count
}

// An invented node's record.
fn set_node(types: u16) -> Record
    ensures { result ≡ set_numbers types }
{
    let kind = if types == 0 { 2 } else { 3 };
    [kind, 0, types, UNUSED, UNUSED, UNUSED, UNUSED]
}

// Writes the records of the invented nodes from a node number on, and the number of each.
fn list_sets(sets: &[u16], first: usize, places: &mut [u16], out: &mut [u16])
    requires { SetsFit sets.now × (type_sets ≤ length places.old) × (first ≤ max_core_nodes) × (node_list_length ≤ length out.old) }
    ensures { (out.new ≡ overwritten (first * node_width) (flatten (map set_numbers sets.now)) out.old)
        × SetPlaces sets.now first places.new }
{
    for (i, &types) in sets.iter().enumerate() {
        let node = first + i;
        write_record(out, node * NODE_WIDTH, &set_node(types));
        places[types as usize] = node as u16;
    }
}

// Writes the records of all nodes in node order, and the number of each invented one; returns how many nodes there are.
pub fn list_nodes(
    arities: Arities,
    nodes: &[u64],
    masks: &[u16],
    sets: &[u16],
    places: &mut [u16],
    out: &mut [u16],
) -> usize
    requires { KeysSmall nodes.now × (length nodes.now ≤ max_core_nodes) × (length nodes.now ≤ length masks.now)
        × SetsFit sets.now × (type_sets ≤ length places.old) × (node_list_length ≤ length out.old) }
    ensures { NodesShown arities nodes.now masks.now sets.now out.old out.new result
        × SetPlaces sets.now (length nodes.now) places.new }
{
    list_core(arities, nodes, masks, out);
    list_sets(sets, nodes.len(), places, out);
    nodes.len() + sets.len()
}
