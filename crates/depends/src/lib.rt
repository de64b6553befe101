// Refusal 8 on loaded rows: rows break a dependency. A row's left columns, and its right ones, are compared as one number.
#![tactic(auto)]

ghost use Rattle.std.specs.Prelude.{◌≡◌, ◌+◌, ◌≤◌, length, take};
ghost use Rattle.std.proofs.Math.Seq.{slice};
ghost use Rattle.meaning.specs.Limits.{max_columns, max_rows, rows_length};
ghost use Rattle.meaning.specs.WellFormed.{broken};
ghost use Rattle.names.specs.PackGiven.{ForResolvedOf, HoldsResolved};
ghost use Rattle.depends.specs.Answer.{dependency_of, SaysBreaks, SaysBroken};
ghost use Rattle.depends.specs.Keys.{columns_at, columns_key, differs, has_left};

use meaning::{
    DEPENDENCIES_AT, DEPENDENCIES_BODY, DEPENDENCY_WIDTH, MAX_COLUMNS, MAX_ROWS, ROW_WIDTH,
    ROWS_BODY, VALUE_ROOM,
};
use records::setting::LoadedSetting;

// Left columns that decide right columns of a relation.
#[derive(Drop)]
pub struct Depends {
    pub relation: u16,
    pub left: u16,
    pub right: u16,
}

// The columns that the mask names, as one number, where those of a row stand from a place on.
fn key(rows: &[u16], mask: u16, first: usize) -> u64
    requires { first + max_columns ≤ length rows.now }
    ensures { result ≡ columns_key mask (columns_at rows.now first) }
{
    let mut key: u64 = 0;
    let mut rest = mask;
    for c in 0..MAX_COLUMNS {
        if rest == 0 {
            return key;
        }
        let at = first + c;
        let bit = rest % 2;
        rest /= 2;
        if bit != 0 {
            key = key * VALUE_ROOM + rows[at] as u64 % VALUE_ROOM;
        }
    }
    key
}

// Whether one of the four left keys from a place on is this one: no branch stands between them, for speed.
fn has_left(lefts: &[u64; MAX_ROWS], i: usize, left: u64) -> bool
    requires { (i + 4 ≤ max_rows) × (length lefts.now ≡ max_rows) }
    ensures { result ≡ has_left left (slice i (i + 4) lefts.now) }
{
    (lefts[i] == left) | (lefts[i + 1] == left) | (lefts[i + 2] == left) | (lefts[i + 3] == left)
}

// Whether one of the entries of a part of the lists has this left key and another right key.
fn differs_in(
    lefts: &[u64; MAX_ROWS],
    rights: &[u64; MAX_ROWS],
    from: usize,
    to: usize,
    left: u64,
    right: u64,
) -> bool
    requires { (from ≤ to) × (to ≤ max_rows) × (length lefts.now ≡ max_rows) × (length rights.now ≡ max_rows) }
    ensures { result ≡ differs left right (slice from to lefts.now) (slice from to rights.now) }
{
    lefts[from..to]
        .iter()
        .zip(&rights[from..to])
        .any(|(x, y)| *x == left && *y != right)
}

// Whether one of the first n entries of the lists has this left key and another right key. For speed the left keys are
// looked at four at a time, and the right keys where one of the four is equal.
fn some_differs(
    lefts: &[u64; MAX_ROWS],
    rights: &[u64; MAX_ROWS],
    n: usize,
    left: u64,
    right: u64,
) -> bool
    requires { (n ≤ max_rows) × (length lefts.now ≡ max_rows) × (length rights.now ≡ max_rows) }
    ensures { result ≡ differs left right (take n lefts.now) (take n rights.now) }
{
    let mut i = 0;
    while i + 3 < n {
        if has_left(lefts, i, left) {
            if differs_in(lefts, rights, i, i + 4, left, right) {
                return true;
            }
        }
        i += 4;
    }
    differs_in(lefts, rights, i, n, left, right)
}

// Whether two rows break a dependency. The keys of its relation's rows are listed in the lent arrays, and each row is
// compared with those before it.
fn some_break(
    d: Depends,
    rows: &[u16],
    lefts: &mut [u64; MAX_ROWS],
    rights: &mut [u64; MAX_ROWS],
) -> bool
    requires { (length rows.now ≤ rows_length) × (length lefts.old ≡ max_rows) × (length rights.old ≡ max_rows) }
    ensures { SaysBreaks (dependency_of d) rows.now result × (length lefts.new ≡ max_rows) × (length rights.new ≡ max_rows) }
{
    let count = rows.len() / ROW_WIDTH;
    let mut n = 0;
    for i in 0..count {
        let at = i * ROW_WIDTH;
        if rows[at] != d.relation {
            continue;
        }
        let l = key(rows, d.left, at + 1);
        let r = key(rows, d.right, at + 1);
        if some_differs(lefts, rights, n, l, r) {
            return true;
        }
        lefts[n] = l;
        rights[n] = r;
        n += 1;
    }
    false
}

// Whether the rows break one of the dependencies.
fn some_broken(dependencies: &[u16], rows: &[u16]) -> bool
    requires { length rows.now ≤ rows_length }
    ensures { SaysBroken dependencies.now rows.now result }
{
    let mut lefts = [0u64; MAX_ROWS];
    let mut rights = [0u64; MAX_ROWS];
    let count = dependencies.len() / DEPENDENCY_WIDTH;
    for i in 0..count {
        let at = i * DEPENDENCY_WIDTH;
        let d = Depends {
            relation: dependencies[at],
            left: dependencies[at + 1],
            right: dependencies[at + 2],
        };
        if some_break(d, rows, &mut lefts, &mut rights) {
            return true;
        }
    }
    false
}

// Refusal 8, after refusal 7: whether the rows break a dependency of the setting.
pub fn is_broken(setting: &LoadedSetting, rows: &[u16]) -> bool
    requires { HoldsResolved setting.now rows.now }
    ensures { ForResolvedOf setting.now rows.now (λ P. result ≡ broken P) }
{
    let end = DEPENDENCIES_AT + setting.counts[DEPENDENCIES_BODY] * DEPENDENCY_WIDTH;
    let many = setting.counts[ROWS_BODY] * ROW_WIDTH;
    some_broken(&setting.numbers[DEPENDENCIES_AT..end], &rows[..many])
}
