// Numbers written one after another.
ghost use Rattle.std.specs.Prelude.{length, ◌+◌, ◌≤◌};
ghost use Rattle.records.specs.Kept.{Put};

// Writes numbers from a place on.
pub fn put(numbers: &[u16], out: &mut [u16], at: usize)
    requires { at + length numbers.now ≤ length out.old }
    ensures { Put numbers.now at out.old out.new }
{
    out[at..at + numbers.len()].copy_from_slice(numbers);
}

// Writes bytes as numbers from a place on.
pub fn put_bytes(bytes: &[u8], out: &mut [u16], at: usize)
    requires { at + length bytes.now ≤ length out.old }
    ensures { Put bytes.now at out.old out.new }
{
    for (i, b) in bytes.iter().enumerate() {
        out[at + i] = *b as u16;
    }
}
