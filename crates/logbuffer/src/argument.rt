// The place that a reader names, and what rows 1 and 2 ask of its numbers.
ghost use Rattle.std.specs.Prelude.{◌≡◌, ◌<◌, ◌&&◌, Ok};
ghost use Rattle.model.specs.LogBufferDescriptor.{sound, within_term, good_partition, good_offset, place_of, first_rows};
ghost use Rattle.model.specs.TermReader.{natural as natural_of, good_actions, good_control, good_start};

use crate::frame_descriptor::FRAME_ALIGNMENT;
use crate::{cast, log_buffer_descriptor};
use model::{Error, LogRecord, Place, Reading};

// A limit; one below 0 is 0.
pub fn natural(limit: i32) -> usize
    ensures { (result ≡ natural_of limit) × (result < 2147483648) }
{
    limit.max(0).cast_unsigned() as usize
}

// n is at most the term length, and that is none below 0.
pub fn within_term(offset: usize, numbers: Reading) -> bool
    ensures { result ≡ within_term offset numbers }
{
    let term = numbers.term;
    if offset > term {
        return false;
    }
    term <= 2147483647
}

// The place that a reader names.
pub(crate) fn place(rec: LogRecord, partition: i32, offset: i32) -> Place
    ensures { (result ≡ place_of rec partition offset) × ((result.partition < 4294967296) × (result.offset < 4294967296)) }
{
    Place {
        read: log_buffer_descriptor::read_active(rec),
        partition: cast::word(partition),
        offset: cast::word(offset),
    }
}

// Its partition is one, and its offset the place of a frame there.
pub(crate) fn good_place(p: Place) -> bool
    requires { p.offset < 4294967296 }
    ensures { result ≡ (good_partition p.partition && good_offset p.offset p.read) }
{
    if p.partition > 2 {
        return false;
    }
    if p.offset % FRAME_ALIGNMENT != 0 {
        return false;
    }
    within_term(p.offset + 1, p.read)
}

// The same for the start of a read, which may also be the term's end.
pub(crate) fn good_start(p: Place) -> bool
    ensures { result ≡ (good_partition p.partition && good_start p.offset p.read) }
{
    if p.partition > 2 {
        return false;
    }
    if p.offset % FRAME_ALIGNMENT != 0 {
        return false;
    }
    within_term(p.offset, p.read)
}

// The handler's answers: each 1 to 4.
pub fn good_actions(actions: &[u8]) -> bool
    ensures { result ≡ good_actions actions.now }
{
    for &action in actions {
        if action < 1 {
            return false;
        }
        if action > 4 {
            return false;
        }
    }
    true
}

// And not fewer than the fragment limit.
pub fn good_control(actions: &[u8], limit: usize) -> bool
    ensures { result ≡ good_control actions.now limit }
{
    if !good_actions(actions) {
        return false;
    }
    if actions.len() > 2147483647 {
        return false;
    }
    limit <= actions.len()
}

// Rows 1 and 2: whether the arguments are good, and whether the record is sound for a log of n bytes.
pub(crate) fn first_rows(good: bool, v: Reading, n: usize) -> Result<(), Error>
    ensures { result ≡ first_rows good (sound v n) (Ok tt) }
{
    if !good {
        return Err(Error::IllegalArgument);
    }
    if !log_buffer_descriptor::is_sound(v, n) {
        return Err(Error::IllegalRecord);
    }
    Ok(())
}
