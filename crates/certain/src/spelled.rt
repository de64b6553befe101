// Nodes by their records, spelled: <IRI> or "literal". Texts stand in the pack's bytes, at the places that were loaded.
use checks::check;
use meaning::{
    CONSTRUCTOR_WIDTH, CONSTRUCTORS_AT, MAX_VALUE_BYTES, NODE_WIDTH, PAIR_WIDTH, ROWS_LENGTH,
    SETTING_LENGTH, TEXT_WIDTH, UNUSED, VALUES_AT,
};
use spelling::write::write_segment;

// A byte of a value is spelled as at most three.
const MAX_SEGMENT_BYTES: usize = 3 * MAX_VALUE_BYTES;

// A value's segment.
fn say_segment(value: &[u8]) {
    let mut text = [0u8; MAX_SEGMENT_BYTES];
    if let Some(n) = write_segment(value, &mut text, 0) {
        if n <= MAX_SEGMENT_BYTES {
            io::write_all(1, &text[..n]);
        }
    }
}

// A text of the pack, by the two numbers at the front of `place`.
fn text_at<'a>(pack: &'a [u8], place: &[u16]) -> Option<&'a [u8]> {
    let start = *place.first()? as usize;
    let len = *place.get(1)? as usize;
    pack.get(start..start + len)
}

// The segment of value v.
fn say_value(pack: &[u8], numbers: &[u16], v: u16) {
    let at = VALUES_AT + v as usize * TEXT_WIDTH;
    if let Some(value) = numbers.get(at..).and_then(|place| text_at(pack, place)) {
        say_segment(value);
    }
}

// The prefix of constructor c.
fn say_prefix(pack: &[u8], numbers: &[u16], c: u16) {
    let at = CONSTRUCTORS_AT + c as usize * CONSTRUCTOR_WIDTH + 1;
    if let Some(prefix) = numbers.get(at..).and_then(|place| text_at(pack, place)) {
        io::write_all(1, prefix);
    }
}

// An argument behind a "/", if there is one.
fn say_further(pack: &[u8], numbers: &[u16], v: u16) {
    if v != UNUSED {
        io::write_all(1, b"/");
        say_value(pack, numbers, v);
    }
}

fn say_iri(pack: &[u8], numbers: &[u16], node: &[u16]) {
    if node.len() != NODE_WIDTH {
        return;
    }
    io::write_all(1, b"<");
    say_prefix(pack, numbers, node[1]);
    say_value(pack, numbers, node[3]);
    say_further(pack, numbers, node[4]);
    say_further(pack, numbers, node[5]);
    say_further(pack, numbers, node[6]);
    io::write_all(1, b">");
}

fn say_literal(pack: &[u8], numbers: &[u16], node: &[u16]) {
    if node.len() != NODE_WIDTH {
        return;
    }
    io::write_all(1, b"\"");
    say_value(pack, numbers, node[1]);
    io::write_all(1, b"\"");
}

// The node of a number, by its record.
fn say_node(pack: &[u8], numbers: &[u16], nodes: &[u16], n: u16) {
    let at = n as usize * NODE_WIDTH;
    if let Some(node) = nodes.get(at..at + NODE_WIDTH) {
        if node[0] == 0 {
            say_iri(pack, numbers, node);
        } else {
            say_literal(pack, numbers, node);
        }
    }
}

// The pairs, one to a line.
fn say_each(pack: &[u8], numbers: &[u16], nodes: &[u16], list: &[u16], count: usize) {
    for pair in list.chunks_exact(PAIR_WIDTH).take(count) {
        say_node(pack, numbers, nodes, pair[0]);
        io::write_all(1, b" ");
        say_node(pack, numbers, nodes, pair[1]);
        io::write_all(1, b"\n");
    }
}

// The pairs of a pack that is well formed, as one is that has a graph.
pub fn say_pairs(pack: &[u8], nodes: &[u16], list: &[u16], count: usize) {
    let mut numbers = [0u16; SETTING_LENGTH];
    let mut rows = [0u16; ROWS_LENGTH];
    if check(pack, &mut numbers, &mut rows).is_ok() {
        say_each(pack, &numbers[..], nodes, list, count);
    }
}
