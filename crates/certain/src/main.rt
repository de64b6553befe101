// The program certain: reads the pack from catalogue.pack and the query from standard input, and prints whether the query is
// certain, how many certain pairs it has, and the pairs, spelled.
#![tactic(auto)]

mod input; // the pack and the query
mod spelled; // nodes, spelled

use crate::input::{query_length, read_pack};
use crate::spelled::say_pairs;
use meaning::refusal::Refusal;
use meaning::{
    HEADS_LENGTH, INDEX_LENGTH, MAX_PACK_BYTES, MAX_QUERY_BYTES, NODE_LIST_LENGTH,
    PAIR_LIST_LENGTH, ROWS_LENGTH, SEEN_WORDS, STATE_WORDS, TRIPLE_LIST_LENGTH,
};
use pairs::pairs;
use yes_no::yes_no;

// A refusal's number.
fn say_refused(e: Refusal) {
    io::write_all(1, b"refused ");
    io::print_decimal(1, e.number() as u64);
    io::write_all(1, b"\n");
}

// The answer and the pair count.
fn say_answer(yes: bool, count: usize) {
    if yes {
        io::write_all(1, b"certain yes\npairs ");
    } else {
        io::write_all(1, b"certain no\npairs ");
    }
    io::print_decimal(1, count as u64);
    io::write_all(1, b"\n");
}

// Asks both calls and prints what they answer; a refusal by either is handed back.
fn answer(pack: &[u8], query: &[u8]) -> Result<(), Refusal> {
    let mut nodes = [0u16; NODE_LIST_LENGTH];
    let mut triples = [0u16; TRIPLE_LIST_LENGTH];
    let mut index = [0u16; INDEX_LENGTH];
    let mut rows = [0u16; ROWS_LENGTH];
    let mut heads = [0u64; HEADS_LENGTH];
    let mut alive = [0u64; STATE_WORDS];
    let mut waiting = [0u64; STATE_WORDS];
    let mut stack = [0u16; STATE_WORDS];
    let first = yes_no(
        pack,
        query,
        &mut nodes,
        &mut triples,
        &mut index,
        &mut rows,
        &mut heads,
        &mut alive,
        &mut waiting,
        &mut stack,
    )?;
    let mut list = [0u16; PAIR_LIST_LENGTH];
    let mut seen = [0u64; SEEN_WORDS];
    let mut own_nodes = [0u16; NODE_LIST_LENGTH];
    let mut own_triples = [0u16; TRIPLE_LIST_LENGTH];
    let mut own_index = [0u16; INDEX_LENGTH];
    let second = pairs(
        pack,
        query,
        &mut nodes,
        &mut triples,
        &mut index,
        &mut list,
        &mut rows,
        &mut heads,
        &mut alive,
        &mut waiting,
        &mut stack,
        &mut seen,
        &mut own_nodes,
        &mut own_triples,
        &mut own_index,
    )?;
    say_answer(first.yes, second.pairs);
    say_pairs(pack, &nodes[..], &list[..], second.pairs);
    Ok(())
}

fn main(rt: HostRuntime) {
    let mut pack = [0u8; MAX_PACK_BYTES + 1];
    let mut query = [0u8; MAX_QUERY_BYTES + 2];
    let n = read_pack(&rt, &mut pack);
    let m = query_length(&mut query);
    if let Err(e) = answer(&pack[..n], &query[..m]) {
        say_refused(e);
    }
}
