// The order of an atom's variables in its candidates' keys: each once, and those that earlier atoms bind last, with the
// highest weights. The candidates that agree with the bindings then follow one another. Which order it is matters for time
// only.
ghost use Rattle.std.specs.Prelude.{length, take, ◌≡◌, ◌≤◌, ◌<◌};
ghost use Rattle.meaning.specs.Ordered.{ListOf};
ghost use Rattle.matching.specs.Plan.{rank_by, Ranked, KeyVariables, OrderWritten, AtomsBelow, SameVariables};
ghost use Rattle.meaning.specs.Limits.{key_width, max_atoms, max_columns};

use crate::candidates::store;
use crate::marks::mark;
use meaning::{ATOM_WIDTH, ATOMS_LENGTH, MAX_VARIABLES};
use sets::ordered::OrderedSet;

const VARIABLE_ROOM: u64 = MAX_VARIABLES as u64;

// A variable's place in the order, by its mark: those that are marked come last.
fn rank(mark: u16, v: u8) -> u64
    ensures { result ≡ rank_by mark v }
{
    if mark == 0 {
        return v as u64;
    }
    v as u64 + VARIABLE_ROOM
}

// The set of the ranks of an atom's variables.
fn ranks(own: &[u8], seen: [u16; MAX_VARIABLES], out: &mut [u64]) -> usize
    requires { KeyVariables own.now × (key_width ≤ length out.old) }
    ensures { (result ≤ length own.now) × ListOf ◌<◌ (Ranked own.now seen) (take result out.new) }
{
    let mut set = OrderedSet::empty(out);
    for &v in own {
        store(&mut set, rank(seen[v as usize], v));
    }
    set.count
}

// Writes the variables of these ranks for atom j.
fn written(orders: [u8; ATOMS_LENGTH], j: usize, set: &[u64]) -> [u8; ATOMS_LENGTH]
    requires { (j < max_atoms) × (length set.now ≤ max_columns) }
    ensures { OrderWritten orders j set.now result }
{
    let mut next = orders;
    next[j * ATOM_WIDTH + 1] = set.len() as u8;
    for (i, &key) in set.iter().enumerate() {
        next[j * ATOM_WIDTH + 2 + i] = (key % VARIABLE_ROOM) as u8;
    }
    next
}

// The order of each atom's variables, in the form of the atoms, without their relations.
pub fn all_orders(atoms: &[u8], count: usize, out: &mut [u64]) -> [u8; ATOMS_LENGTH]
    requires { AtomsBelow atoms.now count × (key_width ≤ length out.old) }
    ensures { AtomsBelow result count × SameVariables atoms.now result count }
{
    let mut orders = [0u8; ATOMS_LENGTH];
    let mut seen = [0u16; MAX_VARIABLES];
    for j in 0..count {
        let own = j * ATOM_WIDTH + 2;
        let arity = atoms[j * ATOM_WIDTH + 1] as usize;
        let n = ranks(&atoms[own..own + arity], seen, out);
        let more = written(orders, j, &out[..n]);
        let next = mark(seen, &atoms[own..own + arity]);
        orders = more;
        seen = next;
    }
    orders
}
