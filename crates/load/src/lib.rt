// A pack's records as numbers, body by body; refusal 4 where a body is not whole, or over its limit.
#![tactic(auto)]

ghost use Rattle.std.specs.Prelude.{length, false, ◌≡◌, ◌*◌, ◌≤◌, ◌<◌};
ghost use Rattle.load.specs.Loaded.{BodyShown, PackShown, PartShown, BodyRoom};
ghost use Rattle.meaning.specs.Limits.{bodies, max_pack_bytes, rows_length, setting_length};
ghost use Rattle.pack.specs.Contents.{bad_size};
ghost use Rattle.records.specs.PackHeld.{width};

pub mod bodies;

use crate::bodies::{layout, width};
use meaning::{BODIES, ROWS_BODY};
use pack::contents::body;
use pack::cursor::Cursor;
use pack::kinds::Kind;
use records::record::load_record;

// Writes the numbers of a body's records, one after another, and returns how many records there are; or nothing, where it is
// not whole, or over its limit.
pub fn load_body(body: Cursor, kind: Kind, limit: usize, out: &mut [u16]) -> Option<usize>
    requires { (length body.bytes.now ≤ max_pack_bytes) × (limit * width kind ≤ length out.old) }
    ensures { BodyShown kind body.entry limit out.new result }
{
    let size = width(kind);
    let mut c = body;
    let mut n = 0;
    let mut at = 0;
    while c.at < c.end {
        if limit <= n {
            return None;
        }
        c = load_record(c, kind, out, at)?;
        n += 1;
        at += size;
    }
    Some(n)
}

// Loads body i, from its place on.
fn load_part(s: &[u8], i: usize, out: &mut [u16]) -> Option<usize>
    requires { (bad_size s.now ≡ false) × (i < bodies) × BodyRoom i out.old }
    ensures { PartShown i s.now out.old out.new result }
{
    let (kind, limit, at) = layout(i);
    load_body(body(s, i), kind, limit, &mut out[at..])
}

// Loads a pack: the setting's bodies, each at its place, and the rows. How many records each body has, in the order of the
// bodies; or nothing, where a body is not whole, or over its limit.
pub fn load(s: &[u8], numbers: &mut [u16], rows: &mut [u16]) -> Option<[usize; BODIES]>
    requires { (bad_size s.now ≡ false) × (setting_length ≤ length numbers.old) × (rows_length ≤ length rows.old) }
    ensures { PackShown s.now result numbers.new rows.new }
{
    let mut counts = [0; BODIES];
    for i in 0..ROWS_BODY {
        counts[i] = load_part(s, i, numbers)?;
    }
    counts[ROWS_BODY] = load_part(s, ROWS_BODY, rows)?;
    Some(counts)
}
