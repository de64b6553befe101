// The values whose segments stand between the "/" of a text.
ghost use Rattle.std.specs.Prelude.{length, ◌≡◌, ◌≤◌};
ghost use Rattle.checks.specs.Checked.{LoadedFrom};
ghost use Rattle.iris.specs.Read.{arguments_of, first_part, found_of};
ghost use Rattle.meaning.specs.Limits.{max_arguments};
ghost use Rattle.pack.specs.Checked.{OfPack};
ghost use Rattle.spelling.specs.ReadBack.{arguments_by, find_by};
ghost use Rattle.spelling.specs.Segment.{segment};

use meaning::{MAX_ARGUMENTS, TEXT_WIDTH, UNUSED, VALUES_AT, VALUES_BODY};
use records::setting::LoadedSetting;
use spelling::compare::is_segment;

// The first value whose segment is the part.
pub fn find_value(pack: &[u8], setting: &LoadedSetting, part: &[u8]) -> Option<usize>
    requires { LoadedFrom pack.now setting.now }
    ensures { OfPack pack.now (λ P. result ≡ found_of (find_by segment P.setting.values part.now)) }
{
    let n = setting.counts[VALUES_BODY];
    for v in 0..n {
        let at = VALUES_AT + v * TEXT_WIDTH;
        let start = setting.numbers[at] as usize;
        let end = start + setting.numbers[at + 1] as usize;
        if is_segment(&pack[start..end], part) {
            return Some(v);
        }
    }
    None
}

// How many bytes stand before the first "/"; all of them where there is none.
fn part_len(text: &[u8]) -> usize
    ensures { result ≡ length (first_part text.now) }
{
    text.iter().position(|b| *b == b'/').unwrap_or(text.len())
}

// The values whose segments, joined by "/", are the text: as many as the arity; in argument order, UNUSED in places unused.
pub fn read_arguments(
    pack: &[u8],
    setting: &LoadedSetting,
    text: &[u8],
    arity: usize,
) -> Option<[u16; MAX_ARGUMENTS]>
    requires { LoadedFrom pack.now setting.now × (arity ≤ max_arguments) }
    ensures { OfPack pack.now (λ P. result ≡ arguments_of (arguments_by segment P.setting.values arity text.now)) }
{
    let mut values = [UNUSED; MAX_ARGUMENTS];
    let mut rest = text;
    for n in 0..arity {
        let end = part_len(rest);
        let v = find_value(pack, setting, &rest[..end])?;
        values[n] = v as u16;
        if end == rest.len() {
            return if n + 1 == arity { Some(values) } else { None };
        }
        rest = &rest[end + 1..];
    }
    None
}
