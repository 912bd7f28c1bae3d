// A filled term laid on the shelf, in one walk: each byte is written once. Read taking next.
ghost use Rattle.std.specs.Prelude.{◌≡◌, true, ◌+◌, ◌*◌, ◌≤◌, ◌<◌, length};
ghost use Rattle.shelf.specs.Scatter.{Scattered};
ghost use Rattle.shelf.specs.Shelf.{frames_of, filled, shelf_of};

use crate::bytes::COUNT_LENGTH;
use crate::{bytes, frames};
use logbuffer::data_frame_header::HEADER_LENGTH;

// The header at an index of a term, that of frame k of n: byte b of it is byte k of column b.
fn scatter(term: &[u8], at: usize, out: &mut [u8], n: usize, k: usize)
    requires { (at + 32 ≤ length term.now) × ((k < n) × (4 + 32 * n ≤ length out.old)) }
    ensures { Scattered term.now at n k 32 out.old out.new }
{
    for b in 0..HEADER_LENGTH {
        out[COUNT_LENGTH + b * n + k] = term[at + b];
    }
}

// The count, and each frame's header and body.
pub(crate) fn lay(term: &[u8], n: usize, out: &mut [u8])
    requires filled { filled term.now ≡ true }
    requires count { n ≡ length (frames_of term.now) }
    requires term_length { length term.now ≤ 1073741824 }
    requires out_length { length out.old ≡ length term.now + 4 }
    ensures { out.new ≡ shelf_of term.now }
{
    bytes::put_count(out, n);
    let mut at = 0;
    let mut to = COUNT_LENGTH + HEADER_LENGTH * n;
    for k in 0..n {
        let z = frames::size(term, at, term.len() - at).unwrap();
        scatter(term, at, out, n, k);
        let body = z - HEADER_LENGTH;
        bytes::copy(out, to, term, at + HEADER_LENGTH, body);
        to += body;
        at += z;
    }
}
