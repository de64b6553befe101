// The candidate rows that bindings leave: those whose keys lie between two bounds.
ghost use Rattle.std.specs.Prelude.{◌<◌};
ghost use Rattle.meaning.specs.Ordered.{InOrder};
ghost use Rattle.matching.specs.Plan.{Bindings, KeyVariables, SpanOf};

use meaning::{MAX_VARIABLES, UNUSED, VALUE_ROOM};
use sets::ordered;
use std::ops::Range;

const LAST_VALUE: u64 = VALUE_ROOM - 1;

// The rows between the lowest and the highest key that the atom's row can have under the bindings: most often none or one.
pub fn rows_left(own: &[u8], env: [u16; MAX_VARIABLES], keys: &[u64]) -> Range<usize>
    requires { KeyVariables own.now × Bindings env × InOrder ◌<◌ keys.now }
    ensures { SpanOf result own.now env keys.now }
{
    let mut low: u64 = 0;
    let mut high: u64 = 0;
    let mut c = own.len();
    while c > 0 {
        c -= 1;
        let x = env[own[c] as usize];
        if x == UNUSED {
            low = low * VALUE_ROOM;
            high = high * VALUE_ROOM + LAST_VALUE;
        } else {
            low = low * VALUE_ROOM + x as u64;
            high = high * VALUE_ROOM + x as u64;
        }
    }
    let from = ordered::rank(keys, low);
    if from < keys.len() {
        if keys[from] > high {
            return from..from;
        }
    }
    if from + 1 < keys.len() {
        if keys[from + 1] > high {
            return from..from + 1;
        }
    }
    let last = ordered::rank(keys, high);
    if last < keys.len() {
        return from..last + 1;
    }
    from..last
}
