// The parts of the lent buffer, one for each session, and a body put behind the bytes that a part holds.
ghost use Rattle.std.specs.Prelude.{◌≡◌, ◌+◌, ◌*◌, ◌/◌, ◌<◌, ◌≤◌, length, take, drop};
ghost use Rattle.model.specs.Bytes.{splice};

use crate::copying;

// The body of n bytes at an index of the log, laid into part k behind `from` bytes. Nothing grows: the caller has seen that it fits.
pub(crate) fn append(
    buffer: &mut [u8],
    k: usize,
    part: usize,
    from: usize,
    log: &[u8],
    at: usize,
    n: usize,
)
    requires { (part ≡ length buffer.old / 16) × ((k < 16) × ((from + n ≤ part) × (at + n ≤ length log.now))) }
    ensures { buffer.new ≡ splice buffer.old (k * part + from) (take n (drop at log.now)) }
{
    copying::copy(buffer, k * part + from, log, at, n);
}
