// The count at a shelf's beginning, and bytes copied from one slice into another. `logbuffer` has the like, but shows no function that asks for
// bounds to other crates.
ghost use Rattle.std.specs.Prelude.{◌≡◌, ◌+◌, ◌≤◌, ◌<◌, length, take, drop};
ghost use Rattle.model.specs.Bytes.{le4, u32 as word_of, splice};

// The bytes of the count.
pub(crate) const COUNT_LENGTH: usize = 4;

pub(crate) fn count_on(shelf: &[u8]) -> usize
    requires { 4 ≤ length shelf.now }
    ensures { (result ≡ word_of shelf.now) × (result < 4294967296) }
{
    u32::from_le_bytes([shelf[0], shelf[1], shelf[2], shelf[3]]) as usize
}

pub(crate) fn put_count(out: &mut [u8], n: usize)
    requires { (4 ≤ length out.old) × (n < 4294967296) }
    ensures { out.new ≡ splice out.old 0 (le4 n) }
{
    out[..COUNT_LENGTH].copy_from_slice(&(n as u32).to_le_bytes());
}

pub(crate) fn copy(dst: &mut [u8], b: usize, src: &[u8], a: usize, n: usize)
    requires { (b + n ≤ length dst.old) × (a + n ≤ length src.now) }
    ensures { dst.new ≡ splice dst.old b (take n (drop a src.now)) }
{
    dst[b..b + n].copy_from_slice(&src[a..a + n]);
}
