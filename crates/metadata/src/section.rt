// A section written, judged and read: its four parts in turn, with the zeros behind them. Read bytes next.
ghost use Rattle.std.specs.Prelude.{◌≡◌};
ghost use Rattle.model.specs.Bytes.{splice};
ghost use Rattle.metadata.specs.Metadata.{counters, connection, ids, lengths, section, accepted, tails_from, record_from};

use crate::{Beside, bytes};
use logbuffer::data_frame_header::HEADER_LENGTH;
use model::LogRecord;

// Where each field is, by the Rust's names; and where the zeros begin.
const TERM_TAIL_COUNTER_OFFSET: usize = 0;

const LOG_ACTIVE_TERM_COUNT_OFFSET: usize = 24;

const PAD1_OFFSET: usize = 28;

const LOG_END_OF_STREAM_POSITION_OFFSET: usize = 128;

const LOG_IS_CONNECTED_OFFSET: usize = 136;

const LOG_ACTIVE_TRANSPORT_COUNT: usize = 140;

const PAD2_OFFSET: usize = 144;

const LOG_CORRELATION_ID_OFFSET: usize = 256;

const LOG_INITIAL_TERM_ID_OFFSET: usize = 264;

const LOG_DEFAULT_FRAME_HEADER_LENGTH_OFFSET: usize = 268;

const LOG_MTU_LENGTH_OFFSET: usize = 272;

const LOG_TERM_LENGTH_OFFSET: usize = 276;

const LOG_PAGE_SIZE_OFFSET: usize = 280;

const PAD3_OFFSET: usize = 284;

pub(crate) const METADATA_LENGTH: usize = 320;

// How many zeros there are.
const PAD1_LENGTH: usize = 100;

const PAD2_LENGTH: usize = 112;

const PAD3_LENGTH: usize = 36;

// ---- written

fn put_counters(rec: LogRecord, out: &mut [u8; METADATA_LENGTH])
    ensures { out.new ≡ splice out.old 0 (counters rec) }
{
    bytes::put_i64(out, TERM_TAIL_COUNTER_OFFSET, rec.tails[0]);
    bytes::put_i64(out, TERM_TAIL_COUNTER_OFFSET + 8, rec.tails[1]);
    bytes::put_i64(out, TERM_TAIL_COUNTER_OFFSET + 16, rec.tails[2]);
    bytes::put_i32(out, LOG_ACTIVE_TERM_COUNT_OFFSET, rec.active_term_count);
    bytes::put_zeros(out, PAD1_OFFSET, PAD1_LENGTH);
}

fn put_connection(rec: LogRecord, out: &mut [u8; METADATA_LENGTH])
    ensures { out.new ≡ splice out.old 128 (connection rec) }
{
    bytes::put_i64(
        out,
        LOG_END_OF_STREAM_POSITION_OFFSET,
        rec.end_of_stream_position,
    );
    bytes::put_i32(out, LOG_IS_CONNECTED_OFFSET, rec.is_connected);
    bytes::put_i32(out, LOG_ACTIVE_TRANSPORT_COUNT, rec.active_transport_count);
    bytes::put_zeros(out, PAD2_OFFSET, PAD2_LENGTH);
}

fn put_ids(rec: LogRecord, out: &mut [u8; METADATA_LENGTH])
    ensures { out.new ≡ splice out.old 256 (ids rec) }
{
    bytes::put_i64(out, LOG_CORRELATION_ID_OFFSET, rec.correlation_id);
    bytes::put_i32(out, LOG_INITIAL_TERM_ID_OFFSET, rec.initial_term_id);
    bytes::put_i32(
        out,
        LOG_DEFAULT_FRAME_HEADER_LENGTH_OFFSET,
        HEADER_LENGTH as i32,
    );
}

fn put_lengths(rec: LogRecord, out: &mut [u8; METADATA_LENGTH])
    ensures { out.new ≡ splice out.old 272 (lengths rec) }
{
    bytes::put_i32(out, LOG_MTU_LENGTH_OFFSET, rec.mtu_length);
    bytes::put_i32(out, LOG_TERM_LENGTH_OFFSET, rec.term_length);
    bytes::put_i32(out, LOG_PAGE_SIZE_OFFSET, rec.page_size);
    bytes::put_zeros(out, PAD3_OFFSET, PAD3_LENGTH);
}

pub(crate) fn put(rec: LogRecord, out: &mut [u8; METADATA_LENGTH])
    ensures { out.new ≡ section rec }
{
    put_counters(rec, out);
    put_connection(rec, out);
    put_ids(rec, out);
    put_lengths(rec, out);
}

// ---- read

// The zeros, and the header length.
#[tactic(auto, unfolding(crate::specs::Metadata::accepted))]
pub(crate) fn accepts(s: &[u8; METADATA_LENGTH]) -> bool
    ensures { result ≡ accepted s.now }
{
    bytes::is_zero(s, PAD1_OFFSET, PAD1_LENGTH)
        && bytes::is_zero(s, PAD2_OFFSET, PAD2_LENGTH)
        && bytes::is_zero(s, PAD3_OFFSET, PAD3_LENGTH)
        && bytes::get_u32(s, LOG_DEFAULT_FRAME_HEADER_LENGTH_OFFSET) as usize == HEADER_LENGTH
}

fn tails_from(s: &[u8; METADATA_LENGTH]) -> [i64; 3]
    ensures { result ≡ tails_from s.now }
{
    [
        bytes::get_i64(s, TERM_TAIL_COUNTER_OFFSET),
        bytes::get_i64(s, TERM_TAIL_COUNTER_OFFSET + 8),
        bytes::get_i64(s, TERM_TAIL_COUNTER_OFFSET + 16),
    ]
}

pub(crate) fn record_from(s: &[u8; METADATA_LENGTH], beside: Beside) -> LogRecord
    ensures { result ≡ record_from s.now beside }
{
    let marks = beside.is_cleared;
    LogRecord {
        tails: tails_from(s),
        active_term_count: bytes::get_i32(s, LOG_ACTIVE_TERM_COUNT_OFFSET),
        initial_term_id: bytes::get_i32(s, LOG_INITIAL_TERM_ID_OFFSET),
        term_length: bytes::get_i32(s, LOG_TERM_LENGTH_OFFSET),
        mtu_length: bytes::get_i32(s, LOG_MTU_LENGTH_OFFSET),
        session_id: beside.session_id,
        stream_id: beside.stream_id,
        is_connected: bytes::get_i32(s, LOG_IS_CONNECTED_OFFSET),
        publication_limit: beside.publication_limit,
        end_of_stream_position: bytes::get_i64(s, LOG_END_OF_STREAM_POSITION_OFFSET),
        is_closed: beside.is_closed,
        slowest_position: beside.slowest_position,
        is_cleared: marks,
        active_transport_count: bytes::get_i32(s, LOG_ACTIVE_TRANSPORT_COUNT),
        correlation_id: bytes::get_i64(s, LOG_CORRELATION_ID_OFFSET),
        page_size: bytes::get_i32(s, LOG_PAGE_SIZE_OFFSET),
    }
}
