// What lists and buffers hold after a call, and where the records of a count end.
ghost use Rattle.std.specs.Prelude.{length, ◌≤◌};

// What every entry of a list or buffer holds before a call.
pub const FILLED: u8 = 165;

// Whether every entry of a list is x.
pub fn all<T: Drop + PartialEq>(x: T, list: &[T]) -> bool {
    list.iter().all(|y| *y == x)
}

// Whether the buffers that build works in hold x alone.
pub fn build_buffers_are(x: u8, rows: &[u16], heads: &[u64]) -> bool {
    all(x as u16, rows) && all(x as u64, heads)
}

// Whether the buffers that yes/no works in hold x alone.
pub fn yes_no_buffers_are(
    x: u8,
    rows: &[u16],
    heads: &[u64],
    alive: &[u64],
    waiting: &[u64],
    stack: &[u16],
) -> bool {
    build_buffers_are(x, rows, heads)
        && all(x as u64, alive)
        && all(x as u64, waiting)
        && all(x as u16, stack)
}

// Whether the buffers that pairs works in hold x alone.
pub fn pairs_buffers_are(
    x: u8,
    rows: &[u16],
    heads: &[u64],
    alive: &[u64],
    waiting: &[u64],
    stack: &[u16],
    seen: &[u64],
    own_nodes: &[u16],
    own_triples: &[u16],
    own_index: &[u16],
) -> bool {
    yes_no_buffers_are(x, rows, heads, alive, waiting, stack)
        && all(x as u64, seen)
        && all(x as u16, own_nodes)
        && all(x as u16, own_triples)
        && all(x as u16, own_index)
}

// A count, so small that a multiple of it is a number too.
fn small(count: usize) -> usize
    ensures { result ≤ 65535 }
{
    if count > 65535 {
        return 0;
    }
    count
}

// An end within a list; its start, if the list is shorter.
fn within(list: &[u16], end: usize) -> usize
    ensures { result ≤ length list.now }
{
    if end > list.len() {
        return 0;
    }
    end
}

// Where the first nodes of a list end.
pub fn node_end(list: &[u16], count: usize) -> usize
    ensures { result ≤ length list.now }
{
    within(list, 7 * small(count))
}

// Where the first triples of a list end.
pub fn triple_end(list: &[u16], count: usize) -> usize
    ensures { result ≤ length list.now }
{
    within(list, 3 * small(count))
}

// Where the first pairs of a list end, or the first entries of an index.
pub fn pair_end(list: &[u16], count: usize) -> usize
    ensures { result ≤ length list.now }
{
    within(list, 2 * small(count))
}
