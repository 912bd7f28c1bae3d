// The refusals of a claim that leave everything as it was, in document 01's order but for R-3 of document 02: closed (5) before its length (4).
ghost use Rattle.std.specs.Prelude.{◌≡◌, ◌<◌};
ghost use Rattle.model.specs.Publication.{claim_verdict};

use crate::judge;
use logbuffer::data_frame_header::HEADER_LENGTH;
use logbuffer::frame_descriptor::{ALIGNMENT_MASK, FRAME_ALIGNMENT};
use logbuffer::log_buffer_descriptor;
use model::{Error, Reading};

pub(crate) fn before_claim(v: Reading, n: usize, m: usize) -> Result<(), Error>
    requires { (v.id < 4294967296) × (v.initial < 4294967296) }
    ensures { result ≡ claim_verdict v n m }
{
    if m > 2147483647 {
        return Err(Error::IllegalArgument);
    }
    if !log_buffer_descriptor::is_sound(v, n) {
        return Err(Error::IllegalRecord);
    }
    let mtu = v.mtu;
    let payload = mtu - HEADER_LENGTH;
    let closed = v.closed;
    if closed {
        return Err(Error::PublicationClosed);
    }
    if m > payload {
        return Err(Error::ExceedsMaxPayloadLength);
    }
    judge::after_closed(v, m)?;
    let offset = v.offset;
    if offset + (m + HEADER_LENGTH + ALIGNMENT_MASK) / FRAME_ALIGNMENT * FRAME_ALIGNMENT
        > 2147483647
    {
        return Err(Error::TailOverflow);
    }
    Ok(())
}
