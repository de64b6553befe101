// The contents: a length for each body, where it stands, and refusal 3.
ghost use Rattle.std.specs.Prelude.{false, ◌≡◌, ◌+◌, ◌≤◌, ◌<◌, length};
ghost use Rattle.meaning.specs.Limits.{bodies, contents_bytes};
ghost use Rattle.pack.specs.Contents.{word, start_of, bad_size};
ghost use Rattle.pack.specs.Shown.{BodyAt};

use crate::cursor::Cursor;
use meaning::{BODIES, CONTENTS_BYTES, MAX_PACK_BYTES};

// The 32-bit number at a place, lowest byte first.
pub fn word(s: &[u8], i: usize) -> u64
    requires { i + 3 < length s.now }
    ensures { (result ≡ word s.now i) × (result < 4294967296) }
{
    u32::from_le_bytes([s[i], s[i + 1], s[i + 2], s[i + 3]]) as u64
}

// Where body k starts, by the lengths before it. The sum does not wrap, whatever the bytes.
fn start(s: &[u8], k: usize) -> u64
    requires { (contents_bytes ≤ length s.now) × (k ≤ bodies) }
    ensures { result ≡ start_of s.now k }
{
    let mut at = CONTENTS_BYTES as u64;
    for i in 0..k {
        at += word(s, 4 * i);
    }
    at
}

// Refusal 3.
pub fn bad_size(s: &[u8]) -> bool
    ensures { result ≡ bad_size s.now }
{
    if !(CONTENTS_BYTES..=MAX_PACK_BYTES).contains(&s.len()) {
        return true;
    }
    start(s, BODIES) != s.len() as u64
}

// A cursor at the start of body k.
pub fn body(s: &[u8], k: usize) -> Cursor<'_>
    requires { (bad_size s.now ≡ false) × (k < bodies) }
    ensures { BodyAt s.now k result }
{
    let at = start(s, k) as usize;
    let end = start(s, k + 1) as usize;
    Cursor { bytes: s, at, end }
}
