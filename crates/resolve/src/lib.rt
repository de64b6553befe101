// The names and labels of a query, resolved against a pack whose setting is loaded and its node list (document 01, "The
// query").
#![tactic(auto)]

mod labels;
mod predicates;
mod search;

ghost use Rattle.std.specs.Prelude.{length, unwrap_or, ◌≤◌};
ghost use Rattle.meaning.specs.Limits.{unused};
ghost use Rattle.checks.specs.Checked.{LoadedFrom};
ghost use Rattle.resolve.specs.Listed.{Roomy};
ghost use Rattle.resolve.specs.Wanted.{OfGraph, Wants, WantedWritten};

use crate::labels::{node_of_iri, node_of_literal};
use crate::predicates::predicate_named;
use meaning::UNUSED;
use query::kinds;
use query::parts::{first_number, kind_of, second_number};
use records::setting::LoadedSetting;

// The number that a part of this kind and text wants.
fn number_wanted(
    pack: &[u8],
    setting: &LoadedSetting,
    kind: usize,
    text: &[u8],
    nodes: &[u16],
    count: usize,
) -> Option<u16>
    requires { LoadedFrom pack.now setting.now × Roomy nodes.now count }
    ensures { OfGraph pack.now nodes.now count (λ P in_order. Wants P in_order kind text.now (unwrap_or result unused)) }
{
    match kind {
        kinds::STEP => predicate_named(pack, setting, text),
        kinds::AT_IRI => node_of_iri(pack, setting, text, nodes, count),
        kinds::AT_LITERAL => node_of_literal(pack, setting, text, nodes, count),
        _ => None,
    }
}

// Writes the number that each of the n parts of the tree wants: the predicate of a name, the node of a label, or UNUSED
// where there is none. A text is cut at the query's end, since a tree may place an empty label past it.
pub fn resolve(
    pack: &[u8],
    setting: &LoadedSetting,
    query: &[u8],
    tree: &[u32],
    n: usize,
    nodes: &[u16],
    count: usize,
    wanted: &mut [u16],
)
    requires { LoadedFrom pack.now setting.now × Roomy nodes.now count × (n ≤ length tree.now) × (n ≤ length wanted.old) }
    ensures { WantedWritten pack.now query.now tree.now nodes.now n count wanted.old wanted.new }
{
    for i in 0..n {
        let start = first_number(tree, i).min(query.len());
        let end = (start + second_number(tree, i)).min(query.len());
        let text = &query[start..end];
        wanted[i] = number_wanted(pack, setting, kind_of(tree, i), text, nodes, count).unwrap_or(
            UNUSED,
        );
    }
}
