// The frames of a term: the size of each, and how many fill it.
ghost use Rattle.std.specs.Prelude.{◌≡◌, cond, length, drop, Some, None};
ghost use Rattle.shelf.specs.Shelf.{size_at, size_found, frames_of, filled};

use logbuffer::data_frame_header::HEADER_LENGTH;
use logbuffer::frame_descriptor;
use logbuffer::frame_descriptor::FRAME_ALIGNMENT;
use model::Frame;

// The aligned length of the sound, finished frame at an index, with so many bytes to the term's end.
pub(crate) fn size(s: &[u8], at: usize, room: usize) -> Option<usize>
    ensures { result ≡ size_found (size_at (drop at s.now) room) }
{
    match frame_descriptor::frame_at(s, at, room) {
        Frame::Absent | Frame::Unsound(_) => None,
        Frame::Padding(n) => Some(n.next_multiple_of(FRAME_ALIGNMENT)),
        Frame::Data(n) => Some(n.next_multiple_of(FRAME_ALIGNMENT)),
    }
}

// How many frames a term has, if they reach its end. The bytes of the bodies are added up, and the headers are the rest: of a count that rises
// by one, the compiler would carry the starts of all 32 columns through the loop.
pub(crate) fn count(term: &[u8]) -> Option<usize>
    ensures { result ≡ cond (filled term.now) (Some (length (frames_of term.now))) None }
{
    let mut at = 0;
    let mut bodies = 0;
    while let Some(z) = size(term, at, term.len() - at) {
        at += z;
        bodies += z - HEADER_LENGTH;
    }
    if at != term.len() {
        return None;
    }
    Some((at - bodies) / HEADER_LENGTH)
}
