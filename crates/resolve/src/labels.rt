// A node by its label.
ghost use Rattle.std.specs.Prelude.{unwrap_or};
ghost use Rattle.meaning.specs.Limits.{unused};
ghost use Rattle.checks.specs.Checked.{LoadedFrom};
ghost use Rattle.resolve.specs.Listed.{Roomy};
ghost use Rattle.resolve.specs.Wanted.{OfGraph, IriIs, LiteralIs};

use crate::search::find_node;
use iris::arguments::find_value;
use iris::iri::read_iri;
use meaning::{MAX_ARGUMENTS, UNUSED};
use records::setting::LoadedSetting;

const IRI: u16 = 0;

const LITERAL: u16 = 1;

// The number of the node whose IRI the text is.
pub fn node_of_iri(
    pack: &[u8],
    setting: &LoadedSetting,
    text: &[u8],
    nodes: &[u16],
    count: usize,
) -> Option<u16>
    requires { LoadedFrom pack.now setting.now × Roomy nodes.now count }
    ensures { OfGraph pack.now nodes.now count (λ P in_order. IriIs P in_order text.now (unwrap_or result unused)) }
{
    let term = read_iri(pack, setting, text)?;
    find_node(nodes, count, IRI, term.constructor, term.values)
}

// The number of the literal whose value's segment the text is.
pub fn node_of_literal(
    pack: &[u8],
    setting: &LoadedSetting,
    text: &[u8],
    nodes: &[u16],
    count: usize,
) -> Option<u16>
    requires { LoadedFrom pack.now setting.now × Roomy nodes.now count }
    ensures { OfGraph pack.now nodes.now count (λ P in_order. LiteralIs P in_order text.now (unwrap_or result unused)) }
{
    let v = find_value(pack, setting, text)?;
    find_node(nodes, count, LITERAL, v as u16, [UNUSED; MAX_ARGUMENTS])
}
