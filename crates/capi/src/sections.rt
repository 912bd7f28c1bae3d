// The metadata section under its C names: the refusal's number, 0 where nothing was refused. What a section does not hold, session, stream, limit, closed,
// marks and slowest reader, is taken from the record that is given.
ghost use Rattle.std.specs.Prelude.{◌≡◌, length};
ghost use Rattle.metadata.specs.Metadata.{beside_of};
ghost use Rattle.metadata.specs.Calls.{answer_number, write_of, write_bytes, read_of};
ghost use Rattle.capi.specs.Words.{record_in};
ghost use Rattle.capi.specs.Sections.{read_out};

use crate::words;
use metadata::{Beside, MetadataError};
use model::LogRecord;

fn beside_of(rec: LogRecord) -> Beside
    ensures { result ≡ beside_of rec }
{
    let marks = rec.is_cleared;
    Beside {
        session_id: rec.session_id,
        stream_id: rec.stream_id,
        publication_limit: rec.publication_limit,
        is_closed: rec.is_closed,
        slowest_position: rec.slowest_position,
        is_cleared: marks,
    }
}

fn answer_code(answer: Result<(), MetadataError>) -> i32
    ensures { result ≡ answer_number answer }
{
    match answer {
        Ok(()) => 0,
        Err(e) => metadata::error_number(e),
    }
}

#[unsafe(no_mangle)]
pub extern "C" fn logbuffer_write_metadata(rec: &[i64; 14], out: &mut [u8]) -> i32
    ensures value { result ≡ answer_number (write_of (record_in rec.now) (length out.old)) }
    ensures out_after { out.new ≡ write_bytes (record_in rec.now) out.old }
{
    answer_code(metadata::write_metadata(words::record_in(rec), out))
}

#[unsafe(no_mangle)]
pub extern "C" fn logbuffer_read_metadata(rec: &mut [i64; 14], bytes: &[u8]) -> i32
    ensures value { result ≡ answer_number (read_of bytes.now (beside_of (record_in rec.old))).answer }
    ensures rec_after { rec.new ≡ read_out rec.old (read_of bytes.now (beside_of (record_in rec.old))) }
{
    let beside = beside_of(words::record_in(rec));
    let o = metadata::read_metadata(bytes, beside);
    let next = o.next;
    let answer = o.answer;
    match answer {
        Ok(()) => {
            words::record_filled(rec, next);
            0
        }
        Err(e) => metadata::error_number(e),
    }
}
