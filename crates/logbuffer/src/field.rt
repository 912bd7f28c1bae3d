// Little-endian fields of a log, at any index inside it.
ghost use Rattle.std.specs.Prelude.{◌≡◌, ◌+◌, ◌<◌, ◌≤◌, length, drop, slice_index};
ghost use Rattle.model.specs.Bytes.{le2, le4, le8, u16 as half_at, u32 as word_at, u64 as long_at, splice};

pub(crate) fn byte(log: &[u8], at: usize) -> usize
    requires { at < length log.now }
    ensures { (result ≡ slice_index log.now at) × (result < 256) }
{
    log[at] as usize
}

// The number in two, four, eight bytes.
pub(crate) fn half(log: &[u8], at: usize) -> usize
    requires { at + 2 ≤ length log.now }
    ensures { (result ≡ half_at (drop at log.now)) × (result < 65536) }
{
    u16::from_le_bytes([log[at], log[at + 1]]) as usize
}

pub(crate) fn word4(log: &[u8], at: usize) -> usize
    requires { at + 4 ≤ length log.now }
    ensures { (result ≡ word_at (drop at log.now)) × (result < 4294967296) }
{
    u32::from_le_bytes([log[at], log[at + 1], log[at + 2], log[at + 3]]) as usize
}

pub(crate) fn long8(log: &[u8], at: usize) -> usize
    requires { at + 8 ≤ length log.now }
    ensures { result ≡ long_at (drop at log.now) }
{
    u64::from_le_bytes([
        log[at],
        log[at + 1],
        log[at + 2],
        log[at + 3],
        log[at + 4],
        log[at + 5],
        log[at + 6],
        log[at + 7],
    ]) as usize
}

// The lowest two, four, eight bytes of n, the lowest first.
pub(crate) fn put2(log: &mut [u8], at: usize, n: usize)
    requires { at + 2 ≤ length log.old }
    ensures { log.new ≡ splice log.old at (le2 n) }
{
    log[at..at + 2].copy_from_slice(&((n & 0xffff) as u16).to_le_bytes());
}

pub(crate) fn put4(log: &mut [u8], at: usize, n: usize)
    requires { at + 4 ≤ length log.old }
    ensures { log.new ≡ splice log.old at (le4 n) }
{
    log[at..at + 4].copy_from_slice(&((n & 0xffff_ffff) as u32).to_le_bytes());
}

pub(crate) fn put8(log: &mut [u8], at: usize, n: usize)
    requires { at + 8 ≤ length log.old }
    ensures { log.new ≡ splice log.old at (le8 n) }
{
    log[at..at + 8].copy_from_slice(&(n as u64).to_le_bytes());
}
