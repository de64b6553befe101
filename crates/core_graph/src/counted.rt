// An ordered set that grows by the keys that all matches give.
ghost use Rattle.std.specs.Prelude.{List, ℕ};
ghost use Rattle.meaning.specs.Member.{◌∈◌};
ghost use Rattle.sets.specs.OrderedSet.{set_of};
ghost use Rattle.core_graph.specs.Bounds.{HeadFits, KeyFits, KeysFit};
ghost use Rattle.core_graph.specs.Collected.{Adding, FromKeys, FromRules};
ghost use Rattle.core_graph.specs.ForHeads.{ForHeads};

use crate::heads::{Head, RuleHeads};
use sets::ordered::{Full, OrderedSet};

// Keys that a match gives, and how they are added to such a set. near holds where keys like them stood last.
pub trait Gives {
    ghost ready: { Self → Type 0 };

    ghost gives: { Self → List ℕ → ℕ → List ℕ };

    fn add(
        &self,
        head: Head,
        k: u64,
        near: &mut [usize; 3],
        set: &mut OrderedSet,
    ) -> Result<(), Full>
        requires { ready self.now × HeadFits head × KeyFits head k }
        ensures { Adding result (λ y. y ∈ gives self.now head k) (set_of set.old) (set_of set.new) };
}

// Adds those of all matches of one rule.
fn add_rule<G: Gives>(of: &G, head: Head, keys: &[u64], set: &mut OrderedSet) -> Result<(), Full>
    requires { G.ready of.now × HeadFits head × KeysFit head keys.now }
    ensures { Adding result (FromKeys (λ k y. y ∈ G.gives of.now head k) keys.now) (set_of set.old) (set_of set.new) }
{
    let mut near = [0usize; 3];
    for &k in keys {
        of.add(head, k, &mut near, set)?;
    }
    Ok(())
}

// Adds those of all rules.
pub fn add_all<G: Gives>(of: &G, heads: &RuleHeads, set: &mut OrderedSet) -> Result<(), Full>
    requires { G.ready of.now }
    ensures { Adding result (ForHeads heads.now (FromRules (λ head k y. y ∈ G.gives of.now head k))) (set_of set.old) (set_of set.new) }
{
    for r in 0..heads.count {
        add_rule(of, heads.rules[r], heads.keys_of(r), set)?;
    }
    Ok(())
}
