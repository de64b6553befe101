// What is written of a call: the refusal, for 10 with the clash's 22 numbers, or the graph's counts and digests of its lists;
// whether the lists kept what they held past the counts; what the working buffers hold; short lists in full.
ghost use Rattle.std.specs.Prelude.{length, ◌≤◌};

use crate::held::{FILLED, all, node_end, pair_end, triple_end};
use crate::say::{say_count, say_digest, say_records, say_whether};
use graph::Size;
use meaning::refusal::Refusal;

// Whether a list kept what it held from an entry on.
fn say_kept(list: &[u16], end: usize, good: &[u8], bad: &[u8])
    requires { end ≤ length list.now }
{
    say_whether(all(FILLED as u16, &list[end..]), good, bad);
}

// The refusal, or the graph's counts and digests of its lists.
fn say_outcome(graph: Result<Size, Refusal>, nodes: &[u16], triples: &[u16], index: &[u16]) {
    match graph {
        Ok(size) => {
            say_count(b" graph", size.nodes);
            say_count(b"", size.triples);
            io::write_all(1, b" digests");
            say_digest(&nodes[0..node_end(nodes, size.nodes)]);
            say_digest(&triples[0..triple_end(triples, size.triples)]);
            say_digest(&index[0..pair_end(index, size.nodes)]);
        }
        Err(e) => say_count(b" refused", e.number() as usize),
    }
}

// The counts of a graph, zero of a refusal.
fn size_of(graph: Result<Size, Refusal>) -> Size {
    graph.unwrap_or(Size {
        nodes: 0,
        triples: 0,
    })
}

// The same, and whether the lists kept what they held past the counts.
pub fn say_graph(graph: Result<Size, Refusal>, nodes: &[u16], triples: &[u16], index: &[u16]) {
    let size = size_of(graph);
    say_outcome(graph, nodes, triples, index);
    say_kept(
        nodes,
        node_end(nodes, size.nodes),
        b", nodes kept",
        b", nodes changed",
    );
    say_kept(
        triples,
        triple_end(triples, size.triples),
        b", triples kept",
        b", triples changed",
    );
    say_kept(
        index,
        pair_end(index, size.nodes),
        b", index kept",
        b", index changed",
    );
}

// Whether working buffers are clear or hold what they held before the call.
pub fn say_buffers(clear: bool, filled: bool) {
    if clear {
        io::write_all(1, b", buffers clear");
    } else {
        say_whether(filled, b", buffers kept", b", buffers changed");
    }
}

// The clash of 10.
pub fn say_clash(graph: Result<Size, Refusal>) {
    if let Err(Refusal::Clash(clash)) = graph {
        say_records(b"clash", &clash, 22);
    }
}

// The records of a graph that has not many.
pub fn say_small_graph(
    graph: Result<Size, Refusal>,
    nodes: &[u16],
    triples: &[u16],
    index: &[u16],
) {
    let size = size_of(graph);
    if size.nodes <= 16 {
        say_records(b"node", &nodes[0..node_end(nodes, size.nodes)], 7);
        say_records(b"triple", &triples[0..triple_end(triples, size.triples)], 3);
        say_records(b"index", &index[0..pair_end(index, size.nodes)], 2);
    }
}

// Whether the pair list kept what it held past the count.
pub fn say_pairs_kept(list: &[u16], count: usize) {
    say_kept(
        list,
        pair_end(list, count),
        b", pairs kept",
        b", pairs changed",
    );
}

// The pair count, and the pairs, or their digest if they are many.
pub fn say_list(list: &[u16], count: usize) {
    let end = pair_end(list, count);
    say_count(b"\npairs", count);
    if count <= 16 {
        say_records(b"pair", &list[0..end], 2);
    } else {
        io::write_all(1, b" digest");
        say_digest(&list[0..end]);
    }
}
