// What is asked of a call on an image before it reads: its arguments, the record, whether the image is closed, its position.
ghost use Rattle.std.specs.Prelude.{◌≡◌, ◌&&◌, ◌*◌, ◌≤◌, Ok};
ghost use Rattle.model.specs.declared.ReadVerdict.TheVariants.{Read};
ghost use Rattle.model.specs.TermReader.{good_entries, good_control};
ghost use Rattle.model.specs.Bytes.{long};
ghost use Rattle.model.specs.Image.{readable as readable_of, reachable as reachable_of};
ghost use Rattle.image.specs.Images.{state_of, TermLength};

use crate::{Image, limits};
use logbuffer::frame_descriptor::FRAME_ALIGNMENT;
use logbuffer::{argument, cast, log_buffer_descriptor};
use model::{Error, ReadVerdict, Reading};

// Lent entries: not fewer than the fragment limit, two numbers an entry.
pub(crate) fn good_entries(slots: usize, limit: usize) -> bool
    ensures { result ≡ good_entries slots limit }
{
    if slots > 2147483647 {
        return false;
    }
    limit <= slots / 2
}

// Row 1 of a controlled call: entries and actions, neither fewer than the fragment limit.
pub(crate) fn good_control(slots: usize, limit: usize, actions: &[u8]) -> bool
    ensures { result ≡ (good_entries slots limit && good_control actions.now limit) }
{
    if !good_entries(slots, limit) {
        return false;
    }
    argument::good_control(actions, limit)
}

// In order: 1, 2, closed, 3.
pub(crate) fn readable(good: bool, v: Reading, n: usize, image: Image) -> Result<ReadVerdict, Error>
    ensures { result ≡ readable_of good v n (state_of image) (Ok Read) }
{
    if !good {
        return Err(Error::IllegalArgument);
    }
    if !log_buffer_descriptor::is_sound(v, n) {
        return Err(Error::IllegalRecord);
    }
    if image.is_closed {
        return Ok(ReadVerdict::Closed);
    }
    let p = cast::long(image.position);
    if p > v.term * 2147483648 {
        return Err(Error::PositionOutOfRange);
    }
    if p % FRAME_ALIGNMENT != 0 {
        return Err(Error::PositionOutOfRange);
    }
    Ok(ReadVerdict::Read)
}

// 15, 16: from the current position to the end of its term, on a frame's boundary.
fn reachable(v: Reading, current: usize, new: usize) -> Result<ReadVerdict, Error>
    requires { TermLength v.term × (current ≤ v.term * 2147483648) }
    ensures { result ≡ reachable_of v current new (Ok Read) }
{
    let term = v.term;
    if new < current {
        return Err(Error::NewPositionOutOfRange);
    }
    if new > current - limits::offset_of(term, current) + term {
        return Err(Error::NewPositionOutOfRange);
    }
    if new % FRAME_ALIGNMENT != 0 {
        return Err(Error::NewPositionNotAligned);
    }
    Ok(ReadVerdict::Read)
}

// In order: 1, 2, closed, 3, 15, 16.
pub(crate) fn reach(
    good: bool,
    v: Reading,
    n: usize,
    image: Image,
    new: usize,
) -> Result<ReadVerdict, Error>
    ensures { result ≡ readable_of good v n (state_of image) (reachable_of v (long image.position) new (Ok Read)) }
{
    match readable(good, v, n, image)? {
        ReadVerdict::Closed => Ok(ReadVerdict::Closed),
        ReadVerdict::Read => reachable(v, cast::long(image.position), new),
    }
}
