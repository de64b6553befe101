// The four open calls, exported for C and whatever calls C: numbers, slices and one array in the place of an answer's struct.
#![tactic(auto)]

ghost use Rattle.calls.specs.Call.{lent};
ghost use Rattle.ciravehy.specs.Exported.{Builds, Decides, Finds, Reads, clash_of, refusal_number};
ghost use Rattle.report.specs.Report.{reported};
ghost use Rattle.std.specs.Prelude.{◌≡◌};

use build::build;
use meaning::refusal::Refusal;
use meaning::{CLASH_WIDTH, REPORT_LENGTH, TERM_LENGTH, UNUSED};
use pairs::pairs as find_pairs;
use readback::read_back;
use report::{numbers, said, term};
use yes_no::yes_no;

// A refusal's number, 0 where there is none.
fn refusal_number<T: Copy>(answer: Result<T, Refusal>) -> u8
    ensures { result ≡ refusal_number answer }
{
    match answer {
        Ok(_) => 0,
        Err(e) => e.number(),
    }
}

// The report of a refusal: the clash of 10, all else zero.
fn refused(e: Refusal) -> [u16; REPORT_LENGTH]
    ensures { result ≡ reported 0 0 0 (clash_of e) }
{
    match e {
        Refusal::Clash(clash) => numbers(0, 0, 0, clash),
        _ => [0; REPORT_LENGTH],
    }
}

// `build::build`. The result is the refusal's number, 0 where there is none; the rest of the answer is in `report`.
#[unsafe(no_mangle)]
pub extern "C" fn ciravehy_build(
    pack: &[u8],
    nodes: &mut [u16],
    triples: &mut [u16],
    index: &mut [u16],
    rows: &mut [u16],
    heads: &mut [u64],
    report: &mut [u16; REPORT_LENGTH],
) -> u8
    ensures { Builds pack.now result (lent nodes) (lent triples) (lent index) (lent rows) (lent heads) report.new }
{
    let built = build(pack, nodes, triples, index, rows, heads);
    *report = match built {
        Ok(size) => numbers(size.nodes, size.triples, 0, [0; CLASH_WIDTH]),
        Err(e) => refused(e),
    };
    refusal_number(built)
}

// `yes_no::yes_no`, in the same way.
#[unsafe(no_mangle)]
pub extern "C" fn ciravehy_yes_no(
    pack: &[u8],
    query: &[u8],
    nodes: &mut [u16],
    triples: &mut [u16],
    index: &mut [u16],
    rows: &mut [u16],
    heads: &mut [u64],
    alive: &mut [u64],
    waiting: &mut [u64],
    stack: &mut [u16],
    report: &mut [u16; REPORT_LENGTH],
) -> u8
    ensures { Decides pack.now query.now result (lent nodes) (lent triples) (lent index) (lent rows) (lent heads) (lent alive)
        (lent waiting) (lent stack) report.new }
{
    let decided = yes_no(
        pack, query, nodes, triples, index, rows, heads, alive, waiting, stack,
    );
    *report = match decided {
        Ok(a) => numbers(a.size.nodes, a.size.triples, said(a.yes), [0; CLASH_WIDTH]),
        Err(e) => refused(e),
    };
    refusal_number(decided)
}

// `pairs::pairs`, in the same way.
#[unsafe(no_mangle)]
pub extern "C" fn ciravehy_pairs(
    pack: &[u8],
    query: &[u8],
    nodes: &mut [u16],
    triples: &mut [u16],
    index: &mut [u16],
    pairs: &mut [u16],
    rows: &mut [u16],
    heads: &mut [u64],
    alive: &mut [u64],
    waiting: &mut [u64],
    stack: &mut [u16],
    seen: &mut [u64],
    own_nodes: &mut [u16],
    own_triples: &mut [u16],
    own_index: &mut [u16],
    report: &mut [u16; REPORT_LENGTH],
) -> u8
    ensures { Finds pack.now query.now result (lent nodes) (lent triples) (lent index) (lent pairs) (lent rows) (lent heads) (lent alive)
        (lent waiting) (lent stack) (lent seen) (lent own_nodes) (lent own_triples) (lent own_index) report.new }
{
    let found = find_pairs(
        pack,
        query,
        nodes,
        triples,
        index,
        pairs,
        rows,
        heads,
        alive,
        waiting,
        stack,
        seen,
        own_nodes,
        own_triples,
        own_index,
    );
    *report = match found {
        Ok(a) => numbers(a.size.nodes, a.size.triples, a.pairs, [0; CLASH_WIDTH]),
        Err(e) => refused(e),
    };
    refusal_number(found)
}

// `readback::read_back`, in the same way.
#[unsafe(no_mangle)]
pub extern "C" fn ciravehy_read_back(
    pack: &[u8],
    text: &[u8],
    report: &mut [u16; TERM_LENGTH],
) -> u8
    ensures { Reads pack.now text.now result report.new }
{
    let read = read_back(pack, text);
    *report = match read {
        Ok(t) => term(t.constructor, t.values),
        Err(_) => [UNUSED; TERM_LENGTH],
    };
    refusal_number(read)
}
