// The rows that the two positions of a walk meet: 1, 2, 3. Read step next.
ghost use Rattle.std.specs.Prelude.{◌≡◌, ◌≤◌, Ok};
ghost use Rattle.model.specs.LogBufferDescriptor.{good_position};
ghost use Rattle.tally.specs.Span.{good_span, span_rows};

use logbuffer::frame_descriptor::FRAME_ALIGNMENT;
use logbuffer::{cast, log_buffer_descriptor};
use model::{Error, LogRecord, Reading};

// In order, and at most three terms apart. Two numbers in order are less than 2^64 apart, so that the difference of their bits is exact.
fn good_span(term_length: i32, from: i64, to: i64) -> bool
    ensures { result ≡ good_span term_length from to }
{
    if to < from {
        return false;
    }
    let apart = cast::long(to).wrapping_sub(cast::long(from));
    let term = cast::word(term_length);
    if term > 2147483647 {
        return false;
    }
    apart <= 3 * term
}

// Row 3.
fn good_position(v: Reading, p: usize) -> bool
    requires { v.term ≤ 1073741824 }
    ensures { result ≡ good_position v p }
{
    p <= v.term * 2147483648 && p % FRAME_ALIGNMENT == 0
}

// In order: 1, 2 for a log of so many bytes, 3 for either position.
pub fn rows(rec: LogRecord, log_length: usize, from: i64, to: i64) -> Result<(), Error>
    ensures { result ≡ span_rows rec log_length from to (Ok tt) }
{
    if !good_span(rec.term_length, from, to) {
        return Err(Error::IllegalArgument);
    }
    let v = log_buffer_descriptor::read_active(rec);
    if !log_buffer_descriptor::is_sound(v, log_length) {
        return Err(Error::IllegalRecord);
    }
    if !good_position(v, cast::long(from)) || !good_position(v, cast::long(to)) {
        return Err(Error::PositionOutOfRange);
    }
    Ok(())
}
