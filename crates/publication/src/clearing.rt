// Terms used again (R-4 of document 02): the position of the slowest reader is raised, and the partition due next is cleared. Both are answered of a
// closed publication too.
ghost use Rattle.std.specs.Prelude.{◌≡◌, true, ◌≤◌, ◌<◌, length};
ghost use Rattle.model.specs.Bytes.{zeros};
ghost use Rattle.model.specs.LogBufferDescriptor.{good_position, with_mark};
ghost use Rattle.model.specs.Publication.{raise_verdict, raise_of, not_due, clear_verdict, clear_of, clear_bytes};
ghost use Rattle.model.proofs.Sound.{Bounds};

use logbuffer::frame_descriptor::FRAME_ALIGNMENT;
use logbuffer::log_buffer_descriptor::PARTITION_COUNT;
use logbuffer::{cast, log_buffer_descriptor};
use model::{Error, LogRecord, Reading, RecordReply};

// ---- the slowest reader

// Row 3.
fn is_good(v: Reading, position: usize) -> bool
    requires { v.term ≤ 1073741824 }
    ensures { result ≡ good_position v position }
{
    if position > v.term * 2147483648 {
        return false;
    }
    position % FRAME_ALIGNMENT == 0
}

// In order: 2 of the record as it stands, 3, 15.
fn before_raise(v: Reading, position: usize) -> Result<(), Error>
    ensures { result ≡ raise_verdict v position }
{
    if !log_buffer_descriptor::is_sound_record(v) {
        return Err(Error::IllegalRecord);
    }
    if !is_good(v, position) {
        return Err(Error::PositionOutOfRange);
    }
    if position < v.slowest {
        return Err(Error::NewPositionOutOfRange);
    }
    Ok(())
}

// The position that every reader has reached. It may only rise; the one that it has is taken again.
pub fn set_slowest_position(rec: LogRecord, position: i64) -> RecordReply
    ensures { result ≡ raise_of rec position }
{
    let v = log_buffer_descriptor::read_active(rec);
    match before_raise(v, cast::long(position)) {
        Err(e) => RecordReply {
            next: rec,
            answer: Err(e),
        },
        Ok(()) => {
            let mut next = rec;
            next.slowest_position = position;
            RecordReply {
                next: next,
                answer: Ok(()),
            }
        }
    }
}

// ---- clearing

// Every byte is 0.
pub(crate) fn clear(bytes: &mut [u8])
    ensures { bytes.new ≡ zeros (length bytes.old) }
{
    bytes.fill(0);
}

// Another partition than the one due next, or one that the slowest reader may still read.
fn not_due(v: Reading, k: usize) -> bool
    requires { Bounds v }
    ensures { result ≡ not_due v k }
{
    let count = v.count;
    let term = v.term;
    let slowest = v.slowest;
    if k != (count + 1) % PARTITION_COUNT {
        return true;
    }
    if count < 2 {
        return false;
    }
    let end = (count - 1) * term;
    slowest < end
}

// In order: 1, 2 for a log of so many bytes, 20.
fn before_clear(v: Reading, log_length: usize, k: usize) -> Result<(), Error>
    ensures { result ≡ clear_verdict v log_length k }
{
    if k > 2 {
        return Err(Error::IllegalArgument);
    }
    if !log_buffer_descriptor::is_sound(v, log_length) {
        return Err(Error::IllegalRecord);
    }
    if not_due(v, k) {
        return Err(Error::NotDue);
    }
    Ok(())
}

fn marked(rec: LogRecord, k: usize) -> LogRecord
    requires { k < 3 }
    ensures { result ≡ with_mark rec k true }
{
    let mut next = rec;
    next.is_cleared[k] = true;
    next
}

// The partition is zeroed and marked. A second time changes nothing.
pub fn clear_partition(rec: LogRecord, log: &mut [u8], partition: i32) -> RecordReply
    ensures value { result ≡ clear_of rec log.old partition }
    ensures log_after { log.new ≡ clear_bytes rec log.old partition }
{
    let k = cast::word(partition);
    let v = log_buffer_descriptor::read_active(rec);
    match before_clear(v, log.len(), k) {
        Err(e) => RecordReply {
            next: rec,
            answer: Err(e),
        },
        Ok(()) => {
            let term = v.term;
            let from = k * term;
            let to = from + term;
            clear(&mut log[from..to]);
            RecordReply {
                next: marked(rec, k),
                answer: Ok(()),
            }
        }
    }
}
