// Tests on runs of bytes.
ghost use Rattle.std.specs.Prelude.{◌≡◌, ◌+◌, ◌≤◌, length};
ghost use Rattle.std.proofs.Math.Seq.{slice};
ghost use Rattle.std.specs.List.{list_all};
ghost use Rattle.meaning.specs.Tests.{every};
ghost use Rattle.pack.specs.Records.{prefix_byte};
ghost use Rattle.pack.specs.Classes.{in_class};

use meaning::MAX_VARIABLES;

// What the bytes of a text may be.
#[derive(Clone, Copy)]
pub enum Class {
    Any,
    Letter,
    Prefix,
    Variable,
}

// The bytes of a prefix: letters, digits and - . _ ~ : / #.
pub fn prefix_byte(b: u8) -> bool
    ensures { result ≡ prefix_byte b }
{
    b.is_ascii_alphanumeric() || b"-._~:/#".contains(&b)
}

pub fn byte_passes(class: Class, b: u8) -> bool
    ensures { result ≡ in_class class b }
{
    match class {
        Class::Any => true,
        Class::Letter => b.is_ascii_lowercase(),
        Class::Prefix => prefix_byte(b),
        Class::Variable => (b as usize) < MAX_VARIABLES,
    }
}

// Whether each of the n bytes at a place is of the class; any byte is of the class Any.
pub fn all_pass(s: &[u8], at: usize, n: usize, class: Class) -> bool
    requires { at + n ≤ length s.now }
    ensures { result ≡ every (in_class class) (slice at (at + n) s.now) }
{
    match class {
        Class::Any => true,
        _ => each_passes(&s[at..at + n], class),
    }
}

fn each_passes(part: &[u8], class: Class) -> bool
    ensures { result ≡ list_all (in_class class) part.now }
{
    part.iter().all(|b| byte_passes(class, *b))
}
