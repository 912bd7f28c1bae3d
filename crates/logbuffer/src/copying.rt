// Message bytes, copied from one slice into another at nearly the speed of memcpy.
ghost use Rattle.std.specs.Prelude.{◌≡◌, ◌+◌, ◌≤◌, length, take, drop};
ghost use Rattle.model.specs.Bytes.{splice};

// How many bytes are copied at once.
const CHUNK_LENGTH: usize = 65536;

// At most a chunk, by way of a local array, which no other slice can overlap: so LLVM makes one call of memmove of the two copies, and the array goes. Of one
// copy from slice to slice it makes two, for slices that overlap and for those that do not, and asks at each call which they are.
fn copy_chunk(dst: &mut [u8], b: usize, src: &[u8], a: usize, n: usize)
    requires { (b + n ≤ length dst.old) × ((a + n ≤ length src.now) × (n ≤ 65536)) }
    ensures { dst.new ≡ splice dst.old b (take n (drop a src.now)) }
{
    let mut chunk = [0; CHUNK_LENGTH];
    chunk[..n].copy_from_slice(&src[a..a + n]);
    dst[b..b + n].copy_from_slice(&chunk[..n]);
}

// n bytes from an index on, laid at an index of the other slice, a chunk a turn.
pub(crate) fn copy(dst: &mut [u8], b: usize, src: &[u8], a: usize, n: usize)
    requires { (b + n ≤ length dst.old) × (a + n ≤ length src.now) }
    ensures { dst.new ≡ splice dst.old b (take n (drop a src.now)) }
{
    let mut i = 0;
    while i < n {
        let m = (n - i).min(CHUNK_LENGTH);
        copy_chunk(dst, b + i, src, a + i, m);
        i += m;
    }
}
