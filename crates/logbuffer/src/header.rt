// Headers and frames, written, and a header's fields, read. Writing a header sets 24 bytes: the reserved value behind it is only touched by
// a message's frame. A frame's length is stored negated at first and as it is last of all, so that a frame whose writing breaks off is
// one that is still being written.
ghost use Rattle.std.specs.Prelude.{◌≡◌, ◌+◌, ◌^◌, ◌<◌, ◌≤◌, length, drop, ◌+ℤ◌, count_ones};
ghost use Rattle.model.specs.Bytes.{splice};
ghost use Rattle.model.specs.FrameDescriptor.{negated as negated_of};
ghost use Rattle.model.specs.DataFrameHeader.{header_at};
ghost use Rattle.model.specs.LogBufferDescriptor.{position_of};
ghost use Rattle.model.specs.TermReader.{alignℤ, fields_of, header_call};
ghost use Rattle.model.specs.TermAppender.{header, fragment, fragment_bytes, padded, claimed};

use crate::data_frame_header::{
    FLAGS_FIELD_OFFSET, HDR_TYPE_DATA, HDR_TYPE_PAD, HEADER_LENGTH, RESERVED_VALUE_FIELD_OFFSET,
    SESSION_ID_FIELD_OFFSET, STREAM_ID_FIELD_OFFSET, TERM_ID_FIELD_OFFSET,
    TERM_OFFSET_FIELD_OFFSET, TYPE_FIELD_OFFSET, VERSION_FIELD_OFFSET,
};
use crate::frame_descriptor::UNFRAGMENTED;
use crate::{argument, cast, copying, field, log_buffer_descriptor};
use model::{Error, HeaderFields, LogRecord, Reading};

// A header at an offset of the record's term. The second word holds version 0, flags and type.
fn write_header(
    log: &mut [u8],
    at: usize,
    v: Reading,
    offset: usize,
    len: usize,
    flags: usize,
    kind: usize,
)
    requires { (at + 24 ≤ length log.old) × ((v.id < 4294967296) × ((flags < 256) × (kind < 65536))) }
    ensures { log.new ≡ splice log.old at (header v offset len flags kind) }
{
    field::put4(log, at, len);
    field::put4(log, at + VERSION_FIELD_OFFSET, flags * 256 + kind * 65536);
    field::put4(log, at + TERM_OFFSET_FIELD_OFFSET, offset);
    field::put4(log, at + SESSION_ID_FIELD_OFFSET, v.session);
    field::put4(log, at + STREAM_ID_FIELD_OFFSET, v.stream);
    field::put4(log, at + TERM_ID_FIELD_OFFSET, v.id);
}

// The bits of minus a frame's length.
fn negated(n: usize) -> usize
    requires { (0 < n) × (n ≤ 2147483647) }
    ensures { result ≡ negated_of n }
{
    let frame_length = n as i32;
    cast::word(-frame_length)
}

// A data frame.
pub(crate) fn write_fragment(
    log: &mut [u8],
    at: usize,
    v: Reading,
    offset: usize,
    flags: usize,
    reserved: usize,
    body: &[u8],
)
    requires { (at + (length body.now + 32) ≤ length log.old) × ((v.id < 4294967296) × ((flags < 256) × (length body.now + 32 ≤ 2147483647))) }
    ensures { log.new ≡ splice log.old at (fragment_bytes v offset (fragment flags reserved body.now)) }
{
    let n = body.len();
    write_header(
        log,
        at,
        v,
        offset,
        negated(n + HEADER_LENGTH),
        flags,
        HDR_TYPE_DATA,
    );
    field::put8(log, at + RESERVED_VALUE_FIELD_OFFSET, reserved);
    copying::copy(log, at + HEADER_LENGTH, body, 0, n);
    field::put4(log, at, n + HEADER_LENGTH);
}

// One padding frame over the rest of the term.
pub(crate) fn write_padding(log: &mut [u8], base: usize, v: Reading)
    requires { (base + v.term ≤ length log.old) × ((v.id < 4294967296) × ((v.term ≤ 2147483647) × ((v.offset < v.term) → v.offset + 24 ≤ v.term))) }
    ensures { log.new ≡ padded v log.old base }
{
    let offset = v.offset;
    let term = v.term;
    if offset < term {
        let n = term - offset;
        write_header(
            log,
            base + offset,
            v,
            offset,
            negated(n),
            UNFRAGMENTED,
            HDR_TYPE_PAD,
        );
        field::put4(log, base + offset, n);
    }
}

// The frame of a claim of n bytes: its length stored negative, the rest left as it is.
pub(crate) fn write_claim(log: &mut [u8], base: usize, v: Reading, n: usize)
    requires { (base + (v.offset + 24) ≤ length log.old) × ((v.id < 4294967296) × (n + 32 ≤ 2147483647)) }
    ensures { log.new ≡ claimed v log.old base n }
{
    let offset = v.offset;
    write_header(
        log,
        base + offset,
        v,
        offset,
        negated(n + HEADER_LENGTH),
        UNFRAGMENTED,
        HDR_TYPE_DATA,
    );
}

// ---- read

// The next multiple of 32 of a frame length, which is negative while the frame is being written.
fn aligned_length(length: i32) -> i64
    ensures { result ≡ alignℤ length }
{
    (((length as i64) + 31) >> 5) * 32
}

// The position past a frame: that of its term id and offset, by the bits to shift, and its aligned length.
fn position_past(id: usize, initial: usize, bits: u32, at: usize, length: i32) -> i64
    requires { (id < 4294967296) × ((initial < 4294967296) × ((bits ≤ 30) × (at < 4294967296))) }
    ensures { result ≡ position_of id initial (2 ^ bits) at +ℤ alignℤ length }
{
    let begin = log_buffer_descriptor::term_begin(id, initial, bits);
    begin + (at as i64) + aligned_length(length)
}

// The fields of the header at an index, of a frame at an offset of its term.
fn fields_at(v: Reading, log: &[u8], index: usize, at: usize) -> HeaderFields
    requires { (index + 32 ≤ length log.now) × ((v.initial < 4294967296) × ((v.term ≤ 1073741824) × ((at < 4294967296) × (count_ones v.term ≡ 1)))) }
    ensures { result ≡ fields_of v at (header_at (drop index log.now)) }
{
    let frame_length = cast::to_i32(field::word4(log, index));
    let term_id = field::word4(log, index + TERM_ID_FIELD_OFFSET);
    let position = position_past(
        term_id,
        v.initial,
        log_buffer_descriptor::position_bits_to_shift(v.term as u32),
        at,
        frame_length,
    );
    let version = log[index + VERSION_FIELD_OFFSET];
    let flags = log[index + FLAGS_FIELD_OFFSET];
    HeaderFields {
        frame_length: frame_length,
        version: version,
        flags: flags,
        frame_type: field::half(log, index + TYPE_FIELD_OFFSET) as u16,
        term_offset: cast::to_i32(field::word4(log, index + TERM_OFFSET_FIELD_OFFSET)),
        session_id: cast::to_i32(field::word4(log, index + SESSION_ID_FIELD_OFFSET)),
        stream_id: cast::to_i32(field::word4(log, index + STREAM_ID_FIELD_OFFSET)),
        term_id: cast::to_i32(term_id),
        reserved_value: cast::to_i64(field::long8(log, index + RESERVED_VALUE_FIELD_OFFSET)),
        position: position,
    }
}

// The fields of a frame's header, as the specification lays them out, and the position past the frame.
pub fn fields(
    rec: LogRecord,
    log: &[u8],
    partition: i32,
    offset: i32,
) -> Result<HeaderFields, Error>
    ensures { result ≡ header_call rec log.now partition offset }
{
    let p = argument::place(rec, partition, offset);
    argument::first_rows(argument::good_place(p), p.read, log.len())?;
    let index = p.partition * p.read.term + p.offset;
    Ok(fields_at(p.read, log, index, p.offset))
}
