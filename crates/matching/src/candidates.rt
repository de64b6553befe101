// An atom's candidate rows, each by the key of its columns that matter; rows that agree on these are one, and rows that
// give a variable two values are none.
ghost use Rattle.std.specs.Prelude.{length, take, ◌≡◌, ◌≤◌, ◌<◌, ◌*◌};
ghost use Rattle.meaning.specs.Member.{◌∈◌};
ghost use Rattle.meaning.specs.Ordered.{ListOf};
ghost use Rattle.sets.specs.OrderedSet.{set_of, members_of};
ghost use Rattle.matching.specs.Plan.{
  Stored,
  Among,
  KeyVariables,
  Bindings,
  column_of,
  FirstColumns,
  ColumnsBytes,
  KeyFrom,
  RowsBytes,
  Candidate,
  AtomsBelow,
  AtomsBytes,
  SameVariables,
  Prepared,
  Unmatched,
};
ghost use Rattle.meaning.specs.Limits.{candidates_length, key_width, max_atoms, rows_length, row_width};

use meaning::{
    ATOM_WIDTH, KEY_WIDTH, MAX_ATOMS, MAX_ROWS, MAX_VARIABLES, ROW_WIDTH, UNUSED, VALUE_ROOM,
};
use sets::ordered::OrderedSet;

// The first column that has the variable; the count of the columns where none has.
fn column_of(own: &[u8], v: u8) -> usize
    ensures { result ≡ column_of own.now v }
{
    own.iter().position(|&w| w == v).unwrap_or(own.len())
}

// The first column of each of the variables.
fn columns(own: &[u8], vars: &[u8]) -> [usize; KEY_WIDTH]
    requires { length vars.now ≤ key_width }
    ensures { FirstColumns own.now vars.now result }
{
    let mut cols = [0usize; KEY_WIDTH];
    for (i, &v) in vars.iter().enumerate() {
        cols[i] = column_of(own, v);
    }
    cols
}

// The key of the row whose cells start at a place: the first variable has the lowest weight, and those bound from the start
// have their values.
fn row_key(
    rows: &[u16],
    at: usize,
    order: &[u8],
    cols: &[usize; KEY_WIDTH],
    start: &[u16; MAX_VARIABLES],
) -> u64
    requires { KeyVariables order.now × Bindings start.now × ColumnsBytes rows.now at cols.now (length order.now) × (length cols.now ≡ key_width) }
    ensures { KeyFrom result rows.now at order.now cols.now start.now }
{
    let mut key: u64 = 0;
    let mut c = order.len();
    while c > 0 {
        c -= 1;
        let x = start[order[c] as usize];
        if x == UNUSED {
            key = key * VALUE_ROOM + rows[at + cols[c]] as u64;
        } else {
            key = key * VALUE_ROOM + x as u64;
        }
    }
    key
}

// Adds a key to the set, which has room.
pub fn store(set: &mut OrderedSet, key: u64)
    requires { set.old.count < length set.old.keys.now }
    ensures { Stored key (set_of set.old) (set_of set.new) }
{
    match set.insert(key) {
        Ok(_) => (),
        Err(_) => unreachable!(),
    }
}

// The same, where the key is most often the last that was added.
fn store_next(set: &mut OrderedSet, last: u64, key: u64)
    requires { (set.old.count < length set.old.keys.now) × (0 < set.old.count → last ∈ members_of (set_of set.old)) }
    ensures { Stored key (set_of set.old) (set_of set.new) }
{
    if set.count > 0 {
        if key == last {
            return;
        }
    }
    store(set, key);
}

// The set of the keys of a relation's rows.
fn candidates(
    rows: &[u16],
    relation: u16,
    own: &[u8],
    order: &[u8],
    start: [u16; MAX_VARIABLES],
    out: &mut [u64],
) -> usize
    requires { KeyVariables own.now × KeyVariables order.now × Among order.now own.now × Bindings start
        × RowsBytes rows.now relation (length own.now) × (length rows.now ≤ length out.old * row_width) }
    ensures { (result ≤ length out.old) × ListOf ◌<◌ (Candidate rows.now relation own.now order.now start) (take result out.new) }
{
    let firsts = columns(own, own);
    let cols = columns(own, order);
    let mut set = OrderedSet::empty(out);
    let mut last: u64 = 0;
    'rows: for r in 0..rows.len() / ROW_WIDTH {
        if rows[r * ROW_WIDTH] != relation {
            continue 'rows;
        }
        let at = r * ROW_WIDTH + 1;
        for c in 0..own.len() {
            if rows[at + c] != rows[at + firsts[c]] {
                continue 'rows;
            }
        }
        let key = row_key(rows, at, order, &cols, &start);
        store_next(&mut set, last, key);
        last = key;
    }
    set.count
}

// Those of each atom, in its own part of the slice.
pub fn all_candidates(
    rows: &[u16],
    atoms: &[u8],
    orders: &[u8],
    count: usize,
    start: [u16; MAX_VARIABLES],
    out: &mut [u64],
) -> [u16; MAX_ATOMS]
    requires { AtomsBelow atoms.now count × AtomsBelow orders.now count × SameVariables atoms.now orders.now count × Bindings start
        × AtomsBytes rows.now atoms.now count × (length rows.now ≤ rows_length) × (candidates_length ≤ length out.old) }
    ensures { Prepared rows.now atoms.now orders.now start count out.new result }
{
    let mut counts = [0u16; MAX_ATOMS];
    for j in 0..count {
        let own = j * ATOM_WIDTH + 2;
        let arity = atoms[j * ATOM_WIDTH + 1] as usize;
        let kept = orders[j * ATOM_WIDTH + 1] as usize;
        let relation = atoms[j * ATOM_WIDTH] as u16;
        let first = j * MAX_ROWS;
        let n = candidates(
            rows,
            relation,
            &atoms[own..own + arity],
            &orders[own..own + kept],
            start,
            &mut out[first..first + MAX_ROWS],
        );
        counts[j] = n as u16;
    }
    counts
}

// Whether one of the atoms has no candidate.
pub fn unmatched(counts: [u16; MAX_ATOMS], count: usize) -> bool
    requires { count ≤ max_atoms }
    ensures { Unmatched result counts count }
{
    counts[..count].contains(&0)
}
