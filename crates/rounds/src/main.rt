// In how many rounds a pack's types spread: packs that are compared, not proved. Standard input and the output expected are
// written by tests/second (src/bin/rounds.rs).
//
// Standard input has a pack after another. A pack: length of its title (one byte) and of the pack (three bytes, the lowest first);
// title; pack.
#![tactic(auto)]

mod count; // the rounds of a pack

ghost use Rattle.std.specs.Prelude.{◌≤◌, length};

use crate::count::count_rounds;
use core_graph::CoreSize;
use meaning::MAX_PACK_BYTES;
use meaning::refusal::Refusal;

// One byte more than a pack may have, so that one that is too long is refused as such.
const ROOM: usize = MAX_PACK_BYTES + 1;

// Three bytes as a number, the lowest first.
fn number(low: u8, middle: u8, high: u8) -> usize {
    low as usize + 256 * (middle as usize) + 65536 * (high as usize)
}

// A text and a number.
fn say(key: &[u8], n: usize) {
    io::write_all(1, key);
    io::print_decimal(1, n as u64);
}

// The core's size and the rounds, or the refusal.
fn say_count(count: Result<CoreSize, Refusal>) {
    match count {
        Ok(core) => {
            say(b": nodes ", core.nodes);
            say(b", triples ", core.triples);
            say(b", rounds ", core.rounds);
        }
        Err(e) => say(b": refused ", e.number() as usize),
    }
    io::write_all(1, b"\n");
}

// Writes the title that is next in the input, of `n` bytes.
fn say_title(text: &mut [u8], n: usize) -> bool
    requires { n ≤ length text.old }
{
    if io::read_full(0, &mut text[0..n]) < n {
        return false;
    }
    io::write_all(1, &text[0..n]);
    true
}

// Reads a pack of `n` bytes and counts its rounds.
fn say_pack(pack: &mut [u8], n: usize) -> bool
    requires { n ≤ length pack.old }
{
    if io::read_full(0, &mut pack[0..n]) < n {
        return false;
    }
    say_count(count_rounds(&pack[0..n]));
    true
}

// The next pack; false at the input's end, or where a length is too large.
fn next_pack() -> bool {
    let mut head = [0u8; 4];
    if io::read_full(0, &mut head) < 4 {
        return false;
    }
    let m = number(head[0], 0, 0);
    let n = number(head[1], head[2], head[3]);
    if m > 255 || n > ROOM {
        return false;
    }
    let mut title = [0u8; 255];
    if !say_title(&mut title, m) {
        return false;
    }
    let mut pack = [0u8; ROOM];
    say_pack(&mut pack, n)
}

// At most 65,536 packs.
fn main() {
    for i in 0..65536u64 {
        if !next_pack() {
            return;
        }
    }
}
