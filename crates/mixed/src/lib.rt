// Refusal 11: a literal with a type, an IRI with Literal, an invented node with both.
#![tactic(auto)]

ghost use Rattle.std.specs.Prelude.{T, length, ◌↔◌, ◌≡◌, ◌≤◌};
ghost use Rattle.mixed.specs.Mixed.{mixed_node, MixedCore, MixedFlags, MixedShown};
ghost use Rattle.meaning.specs.Limits.{set_words};

use invent::TYPE_WORDS;
use meaning::{FIRST_LITERAL, LITERAL_WEIGHT, SET_WORDS};

// Whether a core node is of mixed kind.
fn mixed_node(key: u64, mask: u16) -> bool
    ensures { result ≡ mixed_node key mask }
{
    if key < FIRST_LITERAL {
        return mask >= LITERAL_WEIGHT;
    }
    mask % LITERAL_WEIGHT != 0
}

// Whether some core node is.
fn mixed_core(nodes: &[u64], masks: &[u16]) -> bool
    requires { length nodes.now ≤ length masks.now }
    ensures { T result ↔ MixedCore nodes.now masks.now }
{
    nodes
        .iter()
        .zip(masks)
        .any(|(&key, &mask)| mixed_node(key, mask))
}

// Whether some invented set has Literal and a type: the first of the sets that have Literal is {Literal}, which has no type.
fn mixed_sets(flags: &[u64]) -> bool
    requires { set_words ≤ length flags.now }
    ensures { T result ↔ MixedFlags flags.now }
{
    flags[TYPE_WORDS] > 1
        || flags[TYPE_WORDS + 1..SET_WORDS]
            .iter()
            .any(|&word| word != 0)
}

// Whether the pack is refused by 11.
pub fn mixed(nodes: &[u64], masks: &[u16], flags: &[u64]) -> bool
    requires { (length nodes.now ≤ length masks.now) × (set_words ≤ length flags.now) }
    ensures { MixedShown nodes.now masks.now flags.now result }
{
    mixed_core(nodes, masks) || mixed_sets(flags)
}
