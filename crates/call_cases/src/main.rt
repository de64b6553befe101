// Cases of build, yes/no and pairs that are compared, not proved. Standard input and the output expected are written by
// tests/second (src/bin/call_cases), which says what the cases are.
//
// Standard input has a pack after another. A pack: lengths of its title, of the pack (three bytes) and number of its queries
// (two bytes), lowest byte first; how much is lent for build (src/open_calls.rt); title; pack; queries. A query: how much is lent,
// length (two bytes), text.
#![tactic(auto)]

mod open_calls; // the calls
mod held; // what lists and buffers hold
mod outcome; // what is written of a call
mod say; // what is written of numbers and lists

ghost use Rattle.std.specs.Prelude.{length, ◌≤◌};

use crate::open_calls::{ask_build, ask_pairs, ask_yes_no};

// Three bytes as a number, the lowest first.
fn number(low: u8, middle: u8, high: u8) -> usize {
    low as usize + 256 * (middle as usize) + 65536 * (high as usize)
}

// Asks the query that is next in the input, of `n` bytes.
fn ask_query(pack: &[u8], lending: u8, query: &mut [u8], n: usize) -> bool
    requires { n ≤ length query.old }
{
    if io::read_full(0, &mut query[0..n]) < n {
        return false;
    }
    ask_yes_no(pack, &query[0..n], lending);
    ask_pairs(pack, &query[0..n], lending);
    true
}

// The next query; false if the input has not so many bytes.
fn next_query(pack: &[u8]) -> bool {
    let mut head = [0u8; 3];
    if io::read_full(0, &mut head) < 3 {
        return false;
    }
    let n = number(head[1], head[2], 0);
    if n > 1024 {
        return false;
    }
    let mut query = [0u8; 1024];
    ask_query(pack, head[0], &mut query, n)
}

// Builds a pack, then asks that many queries; false if the input has not so many.
fn ask(pack: &[u8], lending: u8, queries: usize) -> bool {
    ask_build(pack, lending);
    for i in 0..queries {
        if !next_query(pack) {
            return false;
        }
    }
    true
}

// Writes the title that is next in the input, of `n` bytes.
fn say_title(text: &mut [u8], n: usize) -> bool
    requires { n ≤ length text.old }
{
    if io::read_full(0, &mut text[0..n]) < n {
        return false;
    }
    io::write_all(1, &text[0..n]);
    io::write_all(1, b"\n");
    true
}

// Reads a pack of `n` bytes and asks that many queries.
fn ask_pack(pack: &mut [u8], n: usize, lending: u8, queries: usize) -> bool
    requires { n ≤ length pack.old }
{
    if io::read_full(0, &mut pack[0..n]) < n {
        return false;
    }
    ask(&pack[0..n], lending, queries)
}

// The next pack with its queries; false at the input's end.
fn next_pack() -> bool {
    let mut head = [0u8; 7];
    if io::read_full(0, &mut head) < 7 {
        return false;
    }
    let m = number(head[0], 0, 0);
    let n = number(head[1], head[2], head[3]);
    if m > 255 || n > 66000 {
        return false;
    }
    let mut title = [0u8; 255];
    if !say_title(&mut title, m) {
        return false;
    }
    let mut pack = [0u8; 66000];
    ask_pack(&mut pack, n, head[6], number(head[4], head[5], 0))
}

// At most 65,536 packs.
fn main() {
    for i in 0..65536u64 {
        if !next_pack() {
            return;
        }
    }
}
