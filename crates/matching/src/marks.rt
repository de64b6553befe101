// The variables that matter: one that occurs once, over the atoms' orders and the head, is bound from the start, and its
// column counts for nothing.
ghost use Rattle.std.specs.Prelude.{replicate, ◌≡◌};
ghost use mathlib.Core.List.{foldl, ◌++◌};
ghost use Rattle.matching.specs.Plan.{AreVariables, AtomsBelow, mark_of, marked, variables_from};
ghost use Rattle.meaning.specs.Limits.{max_variables};

use meaning::{ATOM_WIDTH, MAX_VARIABLES, UNUSED};

// A variable's mark once it occurs: 1 for the first time, UNUSED from the second on.
fn noted(x: u16) -> u16
    ensures { result ≡ mark_of x }
{
    if x == 0 {
        return 1;
    }
    UNUSED
}

// Marks each variable.
pub fn mark(seen: [u16; MAX_VARIABLES], own: &[u8]) -> [u16; MAX_VARIABLES]
    requires { AreVariables own.now }
    ensures { result ≡ foldl marked seen own.now }
{
    let mut marks = seen;
    for &v in own {
        marks[v as usize] = noted(marks[v as usize]);
    }
    marks
}

// The bindings that a search starts with.
pub fn fresh(atoms: &[u8], count: usize, vars: &[u8]) -> [u16; MAX_VARIABLES]
    requires { AtomsBelow atoms.now count × AreVariables vars.now }
    ensures { result ≡ foldl marked (replicate max_variables 0) (variables_from atoms.now 0 count ++ vars.now) }
{
    let mut seen = [0u16; MAX_VARIABLES];
    for j in 0..count {
        let own = j * ATOM_WIDTH + 2;
        let arity = atoms[j * ATOM_WIDTH + 1] as usize;
        let next = mark(seen, &atoms[own..own + arity]);
        seen = next;
    }
    mark(seen, vars)
}
