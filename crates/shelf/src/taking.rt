// A shelf judged, and taken down: the term is written from its beginning to its end, each byte once.
ghost use Rattle.std.specs.Prelude.{◌≡◌, true, ◌+◌, ◌*◌, ◌≤◌, ◌<◌, length};
ghost use Rattle.model.specs.Bytes.{splice};
ghost use Rattle.shelf.specs.Shelf.{header_on, fits as fits_on, accepted, term_of};

use crate::bytes::COUNT_LENGTH;
use crate::{bytes, frames};
use logbuffer::data_frame_header::HEADER_LENGTH;

// Header k of a shelf of n frames, put together at an index of the output.
fn gather(shelf: &[u8], n: usize, k: usize, out: &mut [u8], to: usize)
    requires { (k < n) × ((4 + 32 * n ≤ length shelf.now) × (to + 32 ≤ length out.old)) }
    ensures { out.new ≡ splice out.old to (header_on shelf.now n k) }
{
    for b in 0..HEADER_LENGTH {
        out[to + b] = shelf[COUNT_LENGTH + b * n + k];
    }
}

// The headers have sizes, and these add up to the term.
fn fits(shelf: &[u8], n: usize, term: usize) -> bool
    requires { 4 + 32 * n ≤ length shelf.now }
    ensures { result ≡ fits_on shelf.now n n 0 term }
{
    let mut room = term;
    for k in 0..n {
        let mut header = [0; HEADER_LENGTH];
        gather(shelf, n, k, &mut header, 0);
        let Some(z) = frames::size(&header, 0, room) else {
            return false;
        };
        room -= z;
    }
    room == 0
}

// Whether a term of so many bytes gives this shelf. The headers that are counted must have room in it, so that they can be looked at.
pub(crate) fn accepts(shelf: &[u8], term: usize) -> bool
    requires { term ≤ 1073741824 }
    ensures { result ≡ accepted term shelf.now }
{
    if shelf.len() != term + COUNT_LENGTH {
        return false;
    }
    let n = bytes::count_on(shelf);
    if n > term / HEADER_LENGTH {
        return false;
    }
    fits(shelf, n, term)
}

// Header and body of each frame in turn.
pub(crate) fn take_down(shelf: &[u8], out: &mut [u8])
    requires { accepted (length out.old) shelf.now ≡ true }
    ensures { out.new ≡ term_of (length out.old) shelf.now }
{
    let n = bytes::count_on(shelf);
    let mut at = 0;
    let mut from = COUNT_LENGTH + HEADER_LENGTH * n;
    for k in 0..n {
        gather(shelf, n, k, out, at);
        let z = frames::size(out, at, out.len() - at).unwrap();
        let body = z - HEADER_LENGTH;
        bytes::copy(out, at + HEADER_LENGTH, shelf, from, body);
        from += body;
        at += z;
    }
}
