// Texts in the bytes, compared where they stand.
ghost use Rattle.std.specs.Prelude.{◌≡◌, ◌+◌, ◌*◌, ◌≤◌, ◌<◌, length};
ghost use Rattle.meaning.specs.Tests.{begins, same_text};
ghost use Rattle.pack.specs.Contents.{word};
ghost use Rattle.texts.specs.Places.{SameBytes};
ghost use Rattle.pack.specs.Shown.{text_at};

use pack::contents::word;

// The 64-bit number at a place, lowest byte first.
fn eight(s: &[u8], i: usize) -> u64
    requires { i + 7 < length s.now }
    ensures { result ≡ word s.now i + 4294967296 * word s.now (i + 4) }
{
    word(s, i) + 4294967296 * word(s, i + 4)
}

// How many bytes at a and at b are known to agree, n at most: they are looked at eight at a time, for speed.
fn agreeing(s: &[u8], a: usize, b: usize, n: usize) -> usize
    requires { (a + n ≤ length s.now) × (b + n ≤ length s.now) }
    ensures { (result ≤ n) × SameBytes s.now a b result }
{
    let mut i = 0;
    while i + 8 <= n {
        if eight(s, a + i) != eight(s, b + i) {
            return i;
        }
        i += 8;
    }
    i
}

// Whether the text at a begins the text at b, or equals it.
pub fn begins_at(s: &[u8], a: usize, n: usize, b: usize, m: usize) -> bool
    requires { (a + n ≤ length s.now) × (b + m ≤ length s.now) }
    ensures { result ≡ begins (text_at s.now a n) (text_at s.now b m) }
{
    if m < n {
        return false;
    }
    let i = agreeing(s, a, b, n);
    s[b + i..b + m].starts_with(&s[a + i..a + n])
}

// Whether the texts are equal. Most texts that are not differ in their lengths or in their last bytes, so these are looked at
// first, for speed.
pub fn same_at(s: &[u8], a: usize, n: usize, b: usize, m: usize) -> bool
    requires { (a + n ≤ length s.now) × (b + m ≤ length s.now) }
    ensures { result ≡ same_text (text_at s.now a n) (text_at s.now b m) }
{
    if n != m {
        return false;
    }
    if n == 0 {
        return true;
    }
    if s[a + (n - 1)] != s[b + (n - 1)] {
        return false;
    }
    begins_at(s, a, n, b, m)
}
