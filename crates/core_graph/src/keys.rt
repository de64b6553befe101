// The node keys of a match.
ghost use Rattle.std.specs.Prelude.{◌≡◌, ◌^◌, ◌<◌, ◌≤◌};
ghost use Rattle.core_graph.specs.Bounds.{HeadFits, KeyFits};
ghost use Rattle.core_graph.specs.Collected.{subject_key, object_key};
ghost use Rattle.meaning.specs.Limits.{max_arguments, max_values};

use crate::heads::{Head, KIND, OBJECT, OBJECT_ARGUMENTS, SUBJECT, SUBJECT_ARGUMENTS};
use meaning::{FIRST_LITERAL, MAX_ARGUMENTS, TERM_ROOM, VALUE_ROOM};

const ARGUMENTS: u64 = MAX_ARGUMENTS as u64;

// How many lists of n values there are.
fn lists(n: u64) -> u64
    requires { n ≤ max_arguments }
    ensures { result ≡ max_values ^ n }
{
    1u64 << (8 * n)
}

// The key of the subject.
pub fn subject_key(head: Head, k: u64) -> u64
    requires { HeadFits head × KeyFits head k }
    ensures { result ≡ subject_key head k }
{
    let after = lists(head[OBJECT_ARGUMENTS]);
    let pad = lists(ARGUMENTS - head[SUBJECT_ARGUMENTS]);
    head[SUBJECT] * TERM_ROOM + k / after * pad
}

// The key of the object.
pub fn object_key(head: Head, k: u64) -> u64
    requires { HeadFits head }
    ensures { result ≡ object_key head k }
{
    if head[KIND] != 1 {
        return FIRST_LITERAL + k % VALUE_ROOM;
    }
    let after = lists(head[OBJECT_ARGUMENTS]);
    let pad = lists(ARGUMENTS - head[OBJECT_ARGUMENTS]);
    head[OBJECT] * TERM_ROOM + k % after * pad
}
