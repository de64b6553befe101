// What a type set's shapes say of a predicate. A cell of the shape table is a target code and a multiplicity, 0 for no shape.
// "The members of a type set are taken from the lowest number upward."
#![tactic(auto)]

ghost use Rattle.std.specs.Prelude.{◌<◌};
ghost use Rattle.meaning.specs.Limits.{max_predicates};
ghost use Rattle.meaning.specs.Pack.{limits as Limits};
ghost use Rattle.shapes.specs.Shapes.{CodesFit, SomePasses, TargetsOf};

use meaning::{MULTIPLICITY_ROOM, ShapeTable, TYPE_SETS};

pub mod demand;

// The types of a mask: all but Literal.
pub const TYPES: u16 = (TYPE_SETS - 1) as u16;

// The mask of the targets of p in the members' shapes.
pub fn targets(shapes: &ShapeTable, mask: u16, p: usize) -> u16
    requires { (p < max_predicates) × CodesFit shapes.now }
    ensures { TargetsOf shapes.now mask p result }
{
    // Members lowest first, by trailing_zeros: a form that document 01 names.
    let mut left = mask & TYPES;
    let mut all = 0u16;
    while left != 0 {
        let t = u16::trailing_zeros(left) as usize;
        left &= left - 1;
        let cell = shapes[t][p];
        if cell != 0 {
            all |= 1u16 << (cell / MULTIPLICITY_ROOM);
        }
    }
    all
}

// Whether some member's shape limits p to one object.
pub fn limited(shapes: &ShapeTable, mask: u16, p: usize) -> bool
    requires { p < max_predicates }
    ensures { SomePasses Limits shapes.now mask p result }
{
    // Members lowest first, by trailing_zeros: a form that document 01 names.
    let mut left = mask & TYPES;
    while left != 0 {
        let t = u16::trailing_zeros(left) as usize;
        left &= left - 1;
        let cell = shapes[t][p];
        if cell != 0 {
            if meaning::limits_edges((cell % MULTIPLICITY_ROOM) as u8) {
                return true;
            }
        }
    }
    false
}
