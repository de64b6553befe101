// Comparing texts: whether a value's segment, or a prefix, stands in a text.
ghost use Rattle.std.specs.Prelude.{◌≡◌};
ghost use Rattle.meaning.specs.Tests.{same_text, begins};
ghost use Rattle.spelling.specs.Segment.{spelled_byte, segment};
ghost use Rattle.spelling.specs.Matching.{match_at};

use crate::table::stays;
use crate::write::hex_digit;

// The place behind the spelling of b, if it stands in the text at a place.
fn byte_end(b: u8, text: &[u8], at: usize) -> Option<usize>
    ensures { result ≡ match_at (spelled_byte b) text.now at }
{
    let rest = text.get(at..)?;
    if stays(b) {
        return rest.starts_with(&[b]).then_some(at + 1);
    }
    let escape = [b'%', hex_digit(b / 16), hex_digit(b % 16)];
    rest.starts_with(&escape).then_some(at + 3)
}

// The place behind the value's segment, if it stands in the text at a place.
pub fn segment_end(value: &[u8], text: &[u8], at: usize) -> Option<usize>
    ensures { result ≡ match_at (segment value.now) text.now at }
{
    let mut to = at;
    for &b in value {
        to = byte_end(b, text, to)?;
    }
    Some(to)
}

// Whether the text is the value's segment: so a label is held to a literal.
pub fn is_segment(value: &[u8], text: &[u8]) -> bool
    ensures { result ≡ same_text (segment value.now) text.now }
{
    match segment_end(value, text, 0) {
        None => false,
        Some(to) => to == text.len(),
    }
}

// Whether the prefix begins the text, or equals it.
pub fn begins_text(prefix: &[u8], text: &[u8]) -> bool
    ensures { result ≡ begins prefix.now text.now }
{
    text.starts_with(prefix)
}
