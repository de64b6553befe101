// Writing a value's segment into a lent slice.
ghost use Rattle.std.specs.Prelude.{leb, length, ◌≡◌, ◌<◌, ◌≤◌, ◌+◌};
ghost use Rattle.spelling.specs.Segment.{hex_digit, spelled_byte, segment};
ghost use Rattle.spelling.specs.Writing.{written, place_after, written_if_room};

use crate::table::stays;

// The upper-case hexadecimal digit n.
pub fn hex_digit(n: u8) -> u8
    requires { n < 16 }
    ensures { result ≡ hex_digit n }
{
    if n < 10 { n + 48 } else { n + 55 }
}

// How many bytes the spelling of b has.
fn byte_len(b: u8) -> usize
    ensures { result ≡ length (spelled_byte b) }
{
    if stays(b) { 1 } else { 3 }
}

// Whether the value's segment has at most `room` bytes.
fn fits(value: &[u8], room: usize) -> bool
    ensures { result ≡ leb (length (segment value.now)) room }
{
    let mut left = room;
    for &b in value {
        let n = byte_len(b);
        if left < n {
            return false;
        }
        left -= n;
    }
    true
}

// Writes the spelling of b from `at` on, and returns the place behind it.
fn write_byte(b: u8, dst: &mut [u8], at: usize) -> usize
    requires { at + length (spelled_byte b) ≤ length dst.old }
    ensures { (result ≡ at + length (spelled_byte b)) × (dst.new ≡ written (spelled_byte b) at dst.old) }
{
    if stays(b) {
        dst[at] = b;
        return at + 1;
    }
    let escape = [b'%', hex_digit(b / 16), hex_digit(b % 16)];
    dst[at..at + 3].copy_from_slice(&escape);
    at + 3
}

// Writes the value's segment from `at` on, if there is room for all of it, and returns the place behind it.
pub fn write_segment(value: &[u8], dst: &mut [u8], at: usize) -> Option<usize>
    ensures { (result ≡ place_after (segment value.now) at dst.old) × (dst.new ≡ written_if_room (segment value.now) at dst.old) }
{
    if dst.len() < at {
        return None;
    }
    if !fits(value, dst.len() - at) {
        return None;
    }
    let mut to = at;
    for &b in value {
        to = write_byte(b, dst, to);
    }
    Some(to)
}
