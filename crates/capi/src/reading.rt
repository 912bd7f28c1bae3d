// Header fields, frame lengths, reads, views and scans of a term under their C names. Read images next.
ghost use Rattle.std.specs.Prelude.{◌≡◌};
ghost use Rattle.model.specs.Parts.{located_number};
ghost use Rattle.model.specs.TermReader.{header_call, length_call, read_of, read_entries, view_of};
ghost use Rattle.model.specs.TermScan.{scan_of, gap_of, availability_of};
ghost use Rattle.capi.specs.Words.{record_in};
ghost use Rattle.capi.specs.Replies.{span_reply, header_reply, frame_length_reply, read_reply, scan_reply, gap_reply, availability_reply};

use crate::replies::{
    AvailabilityReply, FrameLengthReply, GapReply, HeaderReply, ReadReply, ScanReply, SpanReply,
};
use crate::{replies, words};
use logbuffer::{frame_descriptor, header, term_reader, term_scan};

#[unsafe(no_mangle)]
pub extern "C" fn logbuffer_header_fields(
    rec: &[i64; 14],
    log: &[u8],
    partition: i32,
    offset: i32,
) -> HeaderReply
    ensures { result ≡ header_reply (header_call (record_in rec.now) log.now partition offset) }
{
    replies::header_read(header::fields(words::record_in(rec), log, partition, offset))
}

#[unsafe(no_mangle)]
pub extern "C" fn logbuffer_frame_length(
    rec: &[i64; 14],
    log: &[u8],
    partition: i32,
    offset: i32,
) -> FrameLengthReply
    ensures { result ≡ frame_length_reply (length_call (record_in rec.now) log.now partition offset) }
{
    replies::frame_length_read(frame_descriptor::frame_length_at(
        words::record_in(rec),
        log,
        partition,
        offset,
    ))
}

#[unsafe(no_mangle)]
pub extern "C" fn logbuffer_read(
    rec: &[i64; 14],
    log: &[u8],
    partition: i32,
    offset: i32,
    fragment_limit: i32,
    entries: &mut [i32],
) -> ReadReply
    ensures value { result ≡ read_reply (read_of (record_in rec.now) log.now partition offset fragment_limit entries.old) }
    ensures entries_after { entries.new ≡ read_entries (record_in rec.now) log.now partition offset fragment_limit entries.old }
{
    replies::term_read(term_reader::read(
        words::record_in(rec),
        log,
        partition,
        offset,
        fragment_limit,
        entries,
    ))
}

#[unsafe(no_mangle)]
pub extern "C" fn logbuffer_view(
    rec: &[i64; 14],
    log: &[u8],
    partition: i32,
    offset: i32,
    length: i32,
) -> SpanReply
    ensures { result ≡ span_reply (view_of (record_in rec.now) log.now partition offset length) }
{
    replies::located(term_reader::view_span(words::record_in(rec), log, partition, offset, length))
}

#[unsafe(no_mangle)]
pub extern "C" fn logbuffer_view_number(
    rec: &[i64; 14],
    log: &[u8],
    partition: i32,
    offset: i32,
    length: i32,
) -> i32
    ensures { result ≡ located_number (view_of (record_in rec.now) log.now partition offset length) }
{
    term_reader::view_number(words::record_in(rec), log, partition, offset, length)
}

#[unsafe(no_mangle)]
pub extern "C" fn logbuffer_scan(
    rec: &[i64; 14],
    log: &[u8],
    partition: i32,
    offset: i32,
    limit: i32,
) -> ScanReply
    ensures { result ≡ scan_reply (scan_of (record_in rec.now) log.now partition offset limit) }
{
    replies::scanned(term_scan::scan(words::record_in(rec), log, partition, offset, limit))
}

#[unsafe(no_mangle)]
pub extern "C" fn logbuffer_scan_for_gap(
    rec: &[i64; 14],
    log: &[u8],
    partition: i32,
    term_id: i32,
    offset: i32,
    high_mark: i32,
) -> GapReply
    ensures { result ≡ gap_reply (gap_of (record_in rec.now) log.now partition term_id offset high_mark) }
{
    replies::gap_scanned(term_scan::scan_for_gap(
        words::record_in(rec),
        log,
        partition,
        term_id,
        offset,
        high_mark,
    ))
}

#[unsafe(no_mangle)]
pub extern "C" fn logbuffer_scan_for_availability(
    rec: &[i64; 14],
    log: &[u8],
    partition: i32,
    offset: i32,
    maximum: i32,
) -> AvailabilityReply
    ensures { result ≡ availability_reply (availability_of (record_in rec.now) log.now partition offset maximum) }
{
    replies::availability_scanned(term_scan::scan_for_availability(
        words::record_in(rec),
        log,
        partition,
        offset,
        maximum,
    ))
}
