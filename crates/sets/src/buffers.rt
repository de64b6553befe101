// Lent buffers, overlaid from the front.
ghost use Rattle.std.specs.Prelude.{◌≡◌, ◌≤◌, length};
ghost use Rattle.sets.specs.Buffers.{overlaid};

// Copies the first n numbers of src over the first n of dst; dst keeps the others. By number: the library's copy becomes a call of
// memmove, which an archive for C would need from outside.
pub fn copy_front(src: &[u16], n: usize, dst: &mut [u16])
    requires { (n ≤ length src.now) × (n ≤ length dst.old) }
    ensures { dst.new ≡ overlaid n src.now dst.old }
{
    for i in 0..n {
        dst[i] = src[i];
    }
}
