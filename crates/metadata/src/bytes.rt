// Little-endian fields of a section, at any index inside it, and bytes of 0. `logbuffer` has the like, but shows no function that asks for bounds
// to other crates.
ghost use Rattle.std.specs.Prelude.{◌≡◌, ◌+◌, ◌≤◌, length, drop};
ghost use Rattle.model.specs.Bytes.{le4, le8, u32 as word_at, i32 as int_at, i64 as long_int_at, word as bits_of, long as long_bits_of, zeros, splice};
ghost use Rattle.metadata.specs.Metadata.{zero_from};

// The number in four bytes, and in four and eight bytes with its sign.
pub(crate) fn get_u32(s: &[u8], at: usize) -> u32
    requires { at + 4 ≤ length s.now }
    ensures { result ≡ word_at (drop at s.now) }
{
    u32::from_le_bytes([s[at], s[at + 1], s[at + 2], s[at + 3]])
}

pub(crate) fn get_i32(s: &[u8], at: usize) -> i32
    requires { at + 4 ≤ length s.now }
    ensures { result ≡ int_at (drop at s.now) }
{
    get_u32(s, at).cast_signed()
}

pub(crate) fn get_i64(s: &[u8], at: usize) -> i64
    requires { at + 8 ≤ length s.now }
    ensures { result ≡ long_int_at (drop at s.now) }
{
    i64::from_le_bytes([
        s[at],
        s[at + 1],
        s[at + 2],
        s[at + 3],
        s[at + 4],
        s[at + 5],
        s[at + 6],
        s[at + 7],
    ])
}

// The four, eight bytes of a signed number.
pub(crate) fn put_i32(out: &mut [u8], at: usize, value: i32)
    requires { at + 4 ≤ length out.old }
    ensures { out.new ≡ splice out.old at (le4 (bits_of value)) }
{
    out[at..at + 4].copy_from_slice(&value.to_le_bytes());
}

pub(crate) fn put_i64(out: &mut [u8], at: usize, value: i64)
    requires { at + 8 ≤ length out.old }
    ensures { out.new ≡ splice out.old at (le8 (long_bits_of value)) }
{
    out[at..at + 8].copy_from_slice(&value.to_le_bytes());
}

// n bytes of 0, and whether n bytes are 0.
pub(crate) fn put_zeros(out: &mut [u8], at: usize, n: usize)
    requires { at + n ≤ length out.old }
    ensures { out.new ≡ splice out.old at (zeros n) }
{
    out[at..at + n].fill(0);
}

pub(crate) fn is_zero(s: &[u8], at: usize, n: usize) -> bool
    requires { at + n ≤ length s.now }
    ensures { result ≡ zero_from n s.now at }
{
    s[at..at + n].iter().all(|byte| *byte == 0)
}
