// What is written of numbers and lists.
ghost use Rattle.std.specs.Prelude.{◌<◌};

// A space and a number.
fn say_number(n: u16) {
    io::write_all(1, b" ");
    io::print_decimal(1, n as u64);
}

// A text and a number.
pub fn say_count(key: &[u8], n: usize) {
    io::write_all(1, key);
    io::write_all(1, b" ");
    io::print_decimal(1, n as u64);
}

// One of two texts.
pub fn say_whether(holds: bool, good: &[u8], bad: &[u8]) {
    if holds {
        io::write_all(1, good);
    } else {
        io::write_all(1, bad);
    }
}

// A list in lines of `width` numbers, each line with its key.
pub fn say_records(key: &[u8], list: &[u16], width: usize)
    requires { 0 < width }
{
    for (i, n) in list.iter().enumerate() {
        if i % width == 0 {
            io::write_all(1, b"\n");
            io::write_all(1, key);
        }
        say_number(*n);
    }
}

// The digest of a list with one more number. The modulus is the largest prime of 32 bits.
fn digested(d: u32, x: u16) -> u32 {
    ((d as u64 * 1000003 + x as u64) % 4294967291) as u32
}

// A number by which lists are compared.
fn digest(list: &[u16]) -> u32 {
    list.iter().fold(0, |d, x| digested(d, *x))
}

pub fn say_digest(list: &[u16]) {
    io::write_all(1, b" ");
    io::print_decimal(1, digest(list) as u64);
}
