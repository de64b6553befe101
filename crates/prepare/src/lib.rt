// What every call with a query does first: it reads the query, builds the graph of the pack, and resolves the query's names
// and labels.
#![tactic(auto)]

ghost use Rattle.std.specs.Prelude.{length, ◌≤◌};
ghost use Rattle.calls.specs.Call.{lent};
ghost use Rattle.meaning.specs.Limits.{heads_length, index_length, max_parts, max_query_bytes, node_list_length, rows_length, triple_list_length};
ghost use Rattle.prepare.specs.Prepared.{Prepares, ResolvedIf};

use construct::construct;
use graph::Size;
use meaning::SETTING_LENGTH;
use meaning::refusal::Refusal;
use query::read_query;
use records::setting::LoadedSetting;
use resolve::resolve;

// How many nodes and triples the pack's graph has, and how many parts the query.
#[derive(Clone, Copy)]
pub struct Prepared {
    pub size: Size,
    pub parts: usize,
}

// The parts of the query in `tree`, the graph of the pack at the front of the lists, and in `wanted` the number of the
// predicate or node that each part wants; or a refusal of 2 to 11.
pub fn prepare(
    pack: &[u8],
    query: &[u8],
    tree: &mut [u32],
    wanted: &mut [u16],
    nodes: &mut [u16],
    triples: &mut [u16],
    index: &mut [u16],
    rows: &mut [u16],
    heads: &mut [u64],
) -> Result<Prepared, Refusal>
    requires { (max_query_bytes ≤ length tree.old) × (max_parts ≤ length wanted.old)
        × (node_list_length ≤ length nodes.old) × (triple_list_length ≤ length triples.old)
        × (index_length ≤ length index.old) × (rows_length ≤ length rows.old) × (heads_length ≤ length heads.old) }
    ensures { Prepares pack.now query.now tree.new result (lent nodes) (lent triples) (lent index)
        × ResolvedIf pack.now query.now tree.new result nodes.new wanted.new }
{
    let parts = read_query(query, tree).ok_or(Refusal::NoExpression)?;
    let mut numbers = [0u16; SETTING_LENGTH];
    let loaded = construct(pack, &mut numbers, nodes, triples, index, rows, heads)?;
    let size = loaded.size;
    let counts = loaded.counts;
    let setting = LoadedSetting {
        counts,
        numbers: &numbers[..],
    };
    resolve(
        pack,
        &setting,
        query,
        &tree[..],
        parts,
        &nodes[..],
        size.nodes,
        wanted,
    );
    Ok(Prepared { size, parts })
}
