// The cases of document 01's "The query" that are compared, not proved. Standard input has a text to a line, and the
// program writes what the reader says of it, how many parts its expression has or `refused 2`, and the text again. Texts
// that a line can't hold stand here. The last three lines say which bytes are read by themselves, after a letter and
// between two letters.
#![tactic(auto)]

ghost use Rattle.std.specs.Prelude.{length, ◌≤◌};

use query::read_query;

// Whether the text is read.
fn is_read(q: &[u8]) -> bool {
    let mut tree = [0u32; 256];
    read_query(q, &mut tree).is_some()
}

fn say(q: &[u8]) {
    let mut tree = [0u32; 256];
    match read_query(q, &mut tree) {
        Some(n) => {
            io::print_decimal(1, n as u64);
        }
        None => {
            io::write_all(1, b"refused 2");
        }
    }
}

// A line's text and what is said of it.
fn say_line(line: &[u8]) {
    say(line);
    io::write_all(1, b" ");
    io::write_all(1, line);
    io::write_all(1, b"\n");
}

// The lines of a text, one after another, each without its line feed.
fn say_lines(s: &[u8]) {
    for line in s.split_inclusive(|b| *b == b'\n') {
        say_line(line.strip_suffix(b"\n").unwrap_or(line));
    }
}

fn say_about(q: &[u8], what: &[u8]) {
    say(q);
    io::write_all(1, what);
}

// 255 to 258 bytes, a label in angle brackets.
fn lengths() {
    let mut q = [97u8; 258];
    q[0] = 60;
    q[254] = 62;
    say_about(&q[..255], b" 255 bytes\n");
    q[254] = 97;
    q[255] = 62;
    say_about(&q[..256], b" 256 bytes\n");
    q[255] = 97;
    q[256] = 62;
    say_about(&q[..257], b" 257 bytes\n");
    q[256] = 97;
    q[257] = 62;
    say_about(&q, b" 258 bytes\n");
}

fn others() {
    let mut steps = [42u8; 256];
    steps[0] = 95;
    say_about(&steps, b" 255 stars\n");
    let opens = [40u8; 65536];
    say_about(&opens, b" 65536 brackets\n");
    say_about(b"<\n\x00>", b" line feed and zero in a label\n");
    say_about(b"name\n", b" line feed behind a name\n");
}

// Which bytes are read between two letters, or with only the part from..to of these three.
fn stray(key: &[u8], from: usize, to: usize)
    requires { (from ≤ to) × (to ≤ 3) }
{
    io::write_all(1, key);
    for b in 0..=255u8 {
        let q = [b'a', b, b'a'];
        if is_read(&q[from..to]) {
            io::write_all(1, b" ");
            io::print_decimal(1, b as u64);
        }
    }
    io::write_all(1, b"\n");
}

fn main() {
    let mut input = io::buffer();
    let n = io::read_full(0, &mut input);
    say_lines(&input[..n]);
    lengths();
    others();
    stray(b"alone:", 1, 2);
    stray(b"behind a letter:", 0, 2);
    stray(b"between letters:", 0, 3);
}
