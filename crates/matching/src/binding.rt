// An atom's variables bound to a candidate row, column by column.
ghost use Rattle.std.specs.Prelude.{length, ◌^◌, ◌<◌};
ghost use Rattle.meaning.specs.Limits.{max_values};
ghost use Rattle.matching.specs.Plan.{Bindings, KeyVariables, RowBound};

use meaning::{MAX_VARIABLES, UNUSED, VALUE_ROOM};

// Binds the variables to the values of the row that has the key. False where one is bound to another value; the bindings are then
// of no use.
pub fn bind_row(own: &[u8], key: u64, env: &mut [u16; MAX_VARIABLES]) -> bool
    requires { KeyVariables own.now × (key < max_values ^ length own.now) × Bindings env.old }
    ensures { RowBound result own.now key env.old env.new }
{
    let mut rest = key;
    for &c in own {
        let v = c as usize;
        let x = (rest % VALUE_ROOM) as u16;
        if env[v] != UNUSED && env[v] != x {
            return false;
        }
        env[v] = x;
        rest = rest / VALUE_ROOM;
    }
    true
}
