// The types of the nodes, as masks by place: those of the heads, then those that spread along the triples.
ghost use Rattle.std.specs.Prelude.{◌≡◌, ◌<◌, ◌≤◌, length};
ghost use Rattle.meaning.specs.Limits.{max_core_nodes, max_core_triples};
ghost use Rattle.meaning.specs.Ordered.{InOrder};
ghost use Rattle.sets.specs.Buffers.{zeros};
ghost use Rattle.shapes.specs.Shapes.{CodesFit};
ghost use Rattle.core_graph.specs.Bounds.{HeadFits, KeyFits, KeysFit};
ghost use Rattle.core_graph.specs.Collected.{FromKeys, FromRules, KnownMatch, KnownKeys, KnownRules, TypesMarked, HeadType};
ghost use Rattle.core_graph.specs.ForHeads.{ForHeads};
ghost use Rattle.core_graph.specs.Outcomes.{TypesAnswer};
ghost use Rattle.spread.specs.Spread.{AllTriplesFit};

use crate::heads::{Head, KIND, NAMED, RuleHeads};
use meaning::ShapeTable;

// Marks the type of one match, if the head gives one. Looks for the subject at near first, and answers its place, or near
// if there is no type.
fn mark_match(head: Head, k: u64, nodes: &[u64], near: usize, masks: &mut [u16]) -> usize
    requires { HeadFits head × KeyFits head k × InOrder ◌<◌ nodes.now × KnownMatch nodes.now head k × (length nodes.now ≤ length masks.old) }
    ensures { TypesMarked (HeadType nodes.now head k) masks.old masks.new }
{
    if head[KIND] != 0 {
        return near;
    }
    let subject = crate::keys::subject_key(head, k);
    let at = sets::ordered::rank_near(nodes, near, subject);
    masks[at] |= 1u16 << head[NAMED];
    at
}

// Marks those of all matches of one rule. Not by add_rule of counted: what grows is no set of keys, and there is always room.
fn mark_rule(head: Head, keys: &[u64], nodes: &[u64], masks: &mut [u16])
    requires { HeadFits head × KeysFit head keys.now × InOrder ◌<◌ nodes.now × KnownKeys nodes.now head keys.now × (length nodes.now ≤ length masks.old) }
    ensures { TypesMarked (FromKeys (HeadType nodes.now head) keys.now) masks.old masks.new }
{
    let mut near = 0;
    for &k in keys {
        near = mark_match(head, k, nodes, near, masks);
    }
}

// Marks those of all rules.
fn mark_rules(heads: &RuleHeads, nodes: &[u64], masks: &mut [u16])
    requires { InOrder ◌<◌ nodes.now × ForHeads heads.now (KnownRules nodes.now) × (length nodes.now ≤ length masks.old) }
    ensures { TypesMarked (ForHeads heads.now (FromRules (HeadType nodes.now))) masks.old masks.new }
{
    for r in 0..heads.count {
        mark_rule(heads.rules[r], heads.keys_of(r), nodes, masks);
    }
}

// The types of the nodes, in masks that are zero at the start; says in how many rounds they spread.
pub fn typing(
    shapes: ShapeTable,
    heads: &RuleHeads,
    nodes: &[u64],
    triples: &[u64],
    masks: &mut [u16],
) -> usize
    requires { CodesFit shapes × InOrder ◌<◌ nodes.now × (length nodes.now ≤ max_core_nodes)
        × ForHeads heads.now (KnownRules nodes.now) × AllTriplesFit triples.now × (length triples.now ≤ max_core_triples)
        × (length masks.old ≡ max_core_nodes) × (masks.old ≡ zeros (length masks.old)) }
    ensures { ForHeads heads.now (TypesAnswer result shapes) nodes.now triples.now masks.new }
{
    mark_rules(heads, nodes, masks);
    spread::spread(&shapes, triples, masks)
}
