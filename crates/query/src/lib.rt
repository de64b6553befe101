// The query reader: a text becomes the parts of its expression, or refusal 2 (document 01, "The query").
#![tactic(auto)]

pub mod kinds;
mod leaves;
pub mod parts;
mod readers;
mod scan;

ghost use Rattle.std.specs.Prelude.{length, ◌≤◌};
ghost use Rattle.meaning.specs.Limits.{max_parts};
ghost use Rattle.query.specs.Answer.{Answered};

use crate::readers::read_union;
use meaning::{MAX_OPEN_BRACKETS, MAX_QUERY_BYTES};

// Reads a whole text into the list of parts: how many the expression has, or none where the text is refused (2).
pub fn read_query(q: &[u8], tree: &mut [u32]) -> Option<usize>
    requires { max_parts ≤ length tree.old }
    ensures { Answered result q.now tree.new }
{
    if MAX_QUERY_BYTES < q.len() {
        return None;
    }
    let (at, n) = read_union(q, 0, MAX_OPEN_BRACKETS, tree, 0)?;
    if at != q.len() {
        return None;
    }
    Some(n)
}
