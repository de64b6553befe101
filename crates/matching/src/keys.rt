// A head's key: the values of its variables, in argument order, as one number.
ghost use Rattle.std.specs.Prelude.{map, ◌≡◌, ◌<◌};
ghost use Rattle.meaning.specs.Ordered.{InOrder};
ghost use Rattle.meaning.specs.Tables.{packed};
ghost use Rattle.sets.specs.OrderedSet.{set_of};
ghost use Rattle.matching.specs.Plan.{Bindings, binding_of, KeysGrown, KeyVariables, BoundKey, AllBound, Settled};

use meaning::{MAX_VARIABLES, UNUSED, VALUE_ROOM};
use sets::ordered;
use sets::ordered::{Full, OrderedSet};

// The head's key, if all its variables are bound.
fn head_key(vars: &[u8], env: [u16; MAX_VARIABLES]) -> Option<u64>
    requires { KeyVariables vars.now × Bindings env }
    ensures { BoundKey result vars.now env }
{
    let mut key: u64 = 0;
    for &v in vars {
        let x = env[v as usize];
        if x == UNUSED {
            return None;
        }
        key = key * VALUE_ROOM + x as u64;
    }
    Some(key)
}

// Adds the head's key, whose variables are all bound, to the set.
pub fn add_head(vars: &[u8], env: [u16; MAX_VARIABLES], set: &mut OrderedSet) -> Result<(), Full>
    requires { KeyVariables vars.now × Bindings env × AllBound vars.now env }
    ensures { KeysGrown result (λ k. k ≡ packed (map (binding_of env) vars.now)) (set_of set.old) (set_of set.new) }
{
    let Some(key) = head_key(vars, env) else {
        unreachable!();
    };
    set.insert(key)?;
    Ok(())
}

// Whether the head's key is known, and in the set.
pub fn settled(vars: &[u8], env: [u16; MAX_VARIABLES], set: &[u64]) -> bool
    requires { KeyVariables vars.now × Bindings env × InOrder ◌<◌ set.now }
    ensures { Settled result vars.now env set.now }
{
    match head_key(vars, env) {
        Some(key) => ordered::find(set, key).is_some(),
        None => false,
    }
}
