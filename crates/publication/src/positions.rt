// Position, limit and window of a publication, its limit changed, and its close: calls on the record alone.
ghost use Rattle.std.specs.Prelude.{◌≡◌, true};
ghost use Rattle.model.specs.LogBufferDescriptor.{reading, sound_record, publisher_position};
ghost use Rattle.publication.specs.Numbers.{number_verdict};
ghost use Rattle.model.specs.Publication.{change_of, limit_of, close_of, position_call, limit_call, window_call};

use logbuffer::log_buffer_descriptor;
use model::{Error, LogRecord, Reading, RecordReply};

// ---- changes, judged on the record that they would make

fn change(rec: LogRecord, next: LogRecord) -> RecordReply
    ensures { result ≡ change_of rec next }
{
    let v = log_buffer_descriptor::read_active(next);
    if !log_buffer_descriptor::is_sound_record(v) {
        return RecordReply {
            next: rec,
            answer: Err(Error::IllegalRecord),
        };
    }
    RecordReply {
        next: next,
        answer: Ok(()),
    }
}

pub fn set_publication_limit(rec: LogRecord, limit: i64) -> RecordReply
    ensures { result ≡ limit_of rec limit }
{
    let mut next = rec;
    next.publication_limit = limit;
    change(rec, next)
}

pub fn close(rec: LogRecord) -> RecordReply
    ensures { result ≡ close_of rec }
{
    let mut next = rec;
    next.is_closed = true;
    change(rec, next)
}

// ---- numbers

// The publisher's position of a sound record, by the bits to shift.
fn publisher_position(rec: LogRecord, v: Reading) -> i64
    requires { (v ≡ reading rec) × (sound_record v ≡ true) }
    ensures { result ≡ publisher_position v }
{
    let count = v.count;
    let term = v.term;
    let raw = rec.tails[count % 3];
    let offset = log_buffer_descriptor::term_offset(raw, term);
    let bits = log_buffer_descriptor::position_bits_to_shift(term as u32);
    let id = log_buffer_descriptor::term_id(raw);
    let answer = log_buffer_descriptor::compute_position(
        id,
        offset as u32,
        bits,
        rec.initial_term_id,
    );
    let Ok(position) = answer else {
        return 0;
    };
    position
}

// Whether the numbers below are answered: 2, 5.
fn refusal(v: Reading) -> Result<(), Error>
    ensures { result ≡ number_verdict v }
{
    if !log_buffer_descriptor::is_sound_record(v) {
        return Err(Error::IllegalRecord);
    }
    if v.closed {
        return Err(Error::PublicationClosed);
    }
    Ok(())
}

pub fn position(rec: LogRecord) -> Result<i64, Error>
    ensures { result ≡ position_call rec }
{
    let v = log_buffer_descriptor::read_active(rec);
    refusal(v)?;
    Ok(publisher_position(rec, v))
}

pub fn publication_limit(rec: LogRecord) -> Result<i64, Error>
    ensures { result ≡ limit_call rec }
{
    let v = log_buffer_descriptor::read_active(rec);
    refusal(v)?;
    Ok(rec.publication_limit)
}

// What is left up to the limit; below 0 where the position is past it.
pub fn available_window(rec: LogRecord) -> Result<i64, Error>
    ensures { result ≡ window_call rec }
{
    let v = log_buffer_descriptor::read_active(rec);
    refusal(v)?;
    let position = publisher_position(rec, v);
    Ok(rec.publication_limit - position)
}
