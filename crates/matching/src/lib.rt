// Matching: the keys of a rule's heads over all matches of its atoms.
#![tactic(auto)]

mod keys; // a head's key under bindings
mod spans; // the candidate rows that bindings leave
mod binding; // an atom's variables bound to a candidate row
mod search; // every way to match the atoms
mod marks; // the variables that matter
mod candidates; // an atom's candidate rows
mod orders; // the order of an atom's variables

ghost use Rattle.std.specs.Prelude.{length, ◌≤◌};
ghost use Rattle.matching.specs.Rule.{RuleGiven, RuleHeads};
ghost use Rattle.meaning.specs.Limits.{candidates_length};

use crate::candidates::{all_candidates, unmatched};
use crate::marks::fresh;
use crate::orders::all_orders;
use crate::search::add_heads;
use meaning::{ATOMS_LENGTH, MAX_HEAD_VARIABLES};
use sets::ordered::{Full, OrderedSet};

// The keys of one rule's heads over all matches of its atoms, ascending at the front of keys; says how many there are, or that
// they are more than keys holds.
pub fn rule_heads(
    rows: &[u16],
    atoms: [u8; ATOMS_LENGTH],
    atom_count: usize,
    vars: [u8; MAX_HEAD_VARIABLES],
    var_count: usize,
    keys: &mut [u64],
    work: &mut [u64],
) -> Result<usize, Full>
    requires { RuleGiven rows.now atoms atom_count vars var_count × (candidates_length ≤ length work.old) }
    ensures { RuleHeads result rows.now atoms atom_count vars var_count keys.new }
{
    let orders = all_orders(&atoms[..], atom_count, work);
    let start = fresh(&orders[..], atom_count, &vars[..var_count]);
    let counts = all_candidates(rows, &atoms[..], &orders[..], atom_count, start, work);
    if unmatched(counts, atom_count) {
        return Ok(0);
    }
    let mut set = OrderedSet::empty(keys);
    add_heads(
        &orders[..],
        atom_count,
        &vars[..var_count],
        &work[..],
        counts,
        0,
        start,
        &mut set,
    )?;
    Ok(set.count)
}
