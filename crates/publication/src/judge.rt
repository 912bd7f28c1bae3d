// The refusals of an offer that leave everything as it was, in document 01's order.
ghost use Rattle.std.specs.Prelude.{◌≡◌, ◌*◌, ◌≤◌, ◌<◌, Ok};
ghost use Rattle.std.specs.Int.Count.{ones};
ghost use Rattle.model.specs.Publication.{too_long, pressed, after_closed, before_append};
ghost use Rattle.model.proofs.Sound.{Bounds};

use logbuffer::data_frame_header::HEADER_LENGTH;
use logbuffer::frame_descriptor::MAX_MESSAGE_LENGTH;
use logbuffer::log_buffer_descriptor;
use model::{Error, Reading};

// Over both the payload limit and the message limit.
pub(crate) fn too_long(v: Reading, m: usize) -> bool
    requires { 32 ≤ v.mtu }
    ensures { result ≡ too_long v m }
{
    let term = v.term;
    let mtu = v.mtu;
    if m <= mtu - HEADER_LENGTH {
        return false;
    }
    if term / 8 <= MAX_MESSAGE_LENGTH {
        return m > term / 8;
    }
    m > MAX_MESSAGE_LENGTH
}

// The position at which the active term begins: its count, by the bits to shift.
pub(crate) fn begin_position(v: Reading) -> usize
    requires { Bounds v × (ones v.term ≡ 1) }
    ensures { result ≡ v.count * v.term }
{
    let count = v.count;
    let bits = log_buffer_descriptor::position_bits_to_shift(v.term as u32);
    count << bits
}

// Not below the limit: 7, 8 or 9. The active term begins at `begin`.
fn back_pressure(v: Reading, begin: usize, m: usize) -> Error
    requires { Bounds v × ((begin ≡ v.count * v.term) × (m ≤ 2147483647)) }
    ensures { result ≡ pressed v m }
{
    let term = v.term;
    let offset = v.offset;
    let connected = v.connected;
    if begin + offset + m >= term * 2147483648 {
        return Error::MaxPositionExceeded;
    }
    if connected == 1 {
        return Error::BackPressured;
    }
    Error::NotConnected
}

// What both ask once they are not closed: 6 (count), 7/8/9.
pub(crate) fn after_closed(v: Reading, m: usize) -> Result<(), Error>
    requires { Bounds v × (((v.id < 4294967296) × (v.initial < 4294967296)) × ((m ≤ 2147483647) × (ones v.term ≡ 1))) }
    ensures { result ≡ after_closed v m (Ok tt) }
{
    let id = v.id;
    let initial = v.initial;
    let count = v.count;
    let offset = v.offset;
    let limit = v.limit;
    if log_buffer_descriptor::id_minus(id as u32, initial as u32) as usize != count {
        return Err(Error::AdminAction);
    }
    let begin = begin_position(v);
    if limit <= begin + offset {
        return Err(back_pressure(v, begin, m));
    }
    Ok(())
}

// Of an offer, all but 11, which the appender refuses.
pub(crate) fn before_offer(v: Reading, n: usize, m: usize) -> Result<(), Error>
    requires { (v.id < 4294967296) × (v.initial < 4294967296) }
    ensures { result ≡ before_append v n m (Ok tt) }
{
    if m > 2147483647 {
        return Err(Error::IllegalArgument);
    }
    if !log_buffer_descriptor::is_sound(v, n) {
        return Err(Error::IllegalRecord);
    }
    if v.closed {
        return Err(Error::PublicationClosed);
    }
    after_closed(v, m)?;
    if too_long(v, m) {
        return Err(Error::ExceedsMaxMessageLength);
    }
    Ok(())
}
