// A log is opened: zeroed, with the record of an empty log.
ghost use Rattle.std.specs.Prelude.{◌≡◌};
ghost use Rattle.model.specs.LogBufferDescriptor.{raw_of};
ghost use Rattle.model.specs.Publication.{opened_record, open_of, open_bytes};

use crate::clearing;
use logbuffer::{cast, log_buffer_descriptor};
use model::{Error, LogRecord, RecordReply};

// The raw tail at the start of the term of an id, by its 32 bits.
fn raw_tail(id: u32) -> i64
    ensures { result ≡ raw_of id 0 }
{
    cast::to_i64((id as usize) * 4294967296)
}

// The record of an empty log.
fn opened(
    term_length: i32,
    mtu_length: i32,
    initial_term_id: i32,
    session_id: i32,
    stream_id: i32,
) -> LogRecord
    ensures { result ≡ opened_record term_length mtu_length initial_term_id session_id stream_id }
{
    let id = cast::word(initial_term_id) as u32;
    let first = raw_tail(id);
    let second = raw_tail(log_buffer_descriptor::id_minus(id, 2));
    let third = raw_tail(log_buffer_descriptor::id_minus(id, 1));
    LogRecord {
        tails: [first, second, third],
        active_term_count: 0,
        initial_term_id: initial_term_id,
        term_length: term_length,
        mtu_length: mtu_length,
        session_id: session_id,
        stream_id: stream_id,
        is_connected: 1,
        publication_limit: 0,
        end_of_stream_position: 9223372036854775807,
        is_closed: false,
        slowest_position: 0,
        is_cleared: [false, true, true],
        active_transport_count: 0,
        correlation_id: 0,
        page_size: 0,
    }
}

// `open` is a word of the language.
pub fn open_log(
    log: &mut [u8],
    term_length: i32,
    mtu_length: i32,
    initial_term_id: i32,
    session_id: i32,
    stream_id: i32,
) -> RecordReply
    ensures value { result ≡ open_of log.old term_length mtu_length initial_term_id session_id stream_id }
    ensures log_after { log.new ≡ open_bytes log.old term_length mtu_length initial_term_id session_id stream_id }
{
    let rec = opened(
        term_length,
        mtu_length,
        initial_term_id,
        session_id,
        stream_id,
    );
    let v = log_buffer_descriptor::read_active(rec);
    if !log_buffer_descriptor::is_sound(v, log.len()) {
        return RecordReply {
            next: log_buffer_descriptor::no_record(),
            answer: Err(Error::IllegalRecord),
        };
    }
    clearing::clear(log);
    RecordReply {
        next: rec,
        answer: Ok(()),
    }
}
