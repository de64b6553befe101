// What every open call does with the lists and working buffers that it is lent: in specs/, and the test for 1.
#![tactic(auto)]

ghost use Rattle.std.specs.Prelude.{T, length, ◌↔◌, ◌≡◌, ◌≤◌};
ghost use Rattle.calls.specs.Call.{Each₂};

// Whether each length that is lent is the one asked, or more.
pub fn long_enough(asked: &[usize], lent: &[usize]) -> bool
    requires { length asked.now ≡ length lent.now }
    ensures { T result ↔ Each₂ ◌≤◌ asked.now lent.now }
{
    asked.iter().zip(lent).all(|(least, have)| least <= have)
}
