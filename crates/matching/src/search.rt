// Every way to match the atoms: each atom in turn is tried against its candidate rows.
ghost use Rattle.std.specs.Prelude.{◌≤◌};
ghost use Rattle.sets.specs.OrderedSet.{set_of};
ghost use Rattle.matching.specs.Plan.{Bindings, Plan, Reaches, Solution, KeysGrown};

use crate::binding::bind_row;
use crate::keys::{add_head, settled};
use crate::spans::rows_left;
use meaning::{ATOM_WIDTH, MAX_ATOMS, MAX_ROWS, MAX_VARIABLES};
use sets::ordered::{Full, OrderedSet};

// Adds to the set the head's key for each way to match the atoms from `at` on that keeps the bindings.
pub fn add_heads(
    atoms: &[u8],
    atom_count: usize,
    vars: &[u8],
    cands: &[u64],
    counts: [u16; MAX_ATOMS],
    at: usize,
    env: [u16; MAX_VARIABLES],
    set: &mut OrderedSet,
) -> Result<(), Full>
    requires { Plan atoms.now atom_count vars.now cands.now counts × (at ≤ atom_count) × Bindings env
        × Reaches atoms.now atom_count vars.now cands.now counts at env }
    ensures { KeysGrown result (Solution atoms.now atom_count vars.now cands.now counts at env) (set_of set.old) (set_of set.new) }
{
    if at == atom_count {
        return add_head(vars, env, set);
    }
    if settled(vars, env, set.members()) {
        return Ok(());
    }
    let arity = atoms[at * ATOM_WIDTH + 1] as usize;
    let first = at * ATOM_WIDTH + 2;
    let own = &atoms[first..first + arity];
    let place = at * MAX_ROWS;
    let rows = &cands[place..place + counts[at] as usize];
    for r in rows_left(own, env, rows) {
        let mut next = env;
        if !bind_row(own, rows[r], &mut next) {
            continue;
        }
        add_heads(atoms, atom_count, vars, cands, counts, at + 1, next, set)?;
    }
    Ok(())
}
