// Frames as readers meet them: the length word by its sign, which is asked for nowhere else, the frame at a place, the refusal of an unsound one, the
// end of a message, the longest message.
ghost use Rattle.std.specs.Prelude.{◌≡◌, ◌+◌, ◌/◌, ◌<◌, ◌≤◌, min, true, length, drop, ◌==◌, slice_index};
ghost use Rattle.model.specs.Bytes.{word, u16 as half_of, u32 as word_of};
ghost use Rattle.model.specs.FrameDescriptor.{frame_length_of, is_finished, is_writing, length_at, frame_by, frame_at, unsound_frame, flags_at, ends};
ghost use Rattle.model.specs.DataFrameHeader.{header_at};
ghost use Rattle.model.specs.TermReader.{length_call};
ghost use Rattle.logbuffer.specs.Whole.{length_found, whole_frame};

use crate::data_frame_header::{
    FLAGS_FIELD_OFFSET, HDR_TYPE_PAD, HEADER_LENGTH, TERM_ID_FIELD_OFFSET, TYPE_FIELD_OFFSET,
};
use crate::{argument, cast, field};
use model::{Error, Frame, FrameLength, LogRecord};

pub const FRAME_ALIGNMENT: usize = 32;
// What is added before a number is cut to a multiple of the alignment.
pub const ALIGNMENT_MASK: usize = 31;

pub const BEGIN_FRAG: usize = 0x80;

pub const END_FRAG: usize = 0x40;

pub const UNFRAGMENTED: usize = 0xc0;

pub const MAX_MESSAGE_LENGTH: usize = 16777216;

// 0 is free, a negative length is being written, a positive one is finished. The size of -2147483648 has no i32, so it is taken of the bits.
pub fn frame_length(length: i32) -> FrameLength
    ensures { result ≡ frame_length_of (word length) }
{
    let bits = cast::word(length);
    if length == 0 {
        return FrameLength::Free;
    }
    if length < 0 {
        return FrameLength::Writing(4294967296 - bits);
    }
    FrameLength::Finished(bits)
}

// The longest message: an eighth of a term, at most 16 MiB.
pub fn compute_max_message_length(term_length: u32) -> usize
    ensures { result ≡ min (term_length / 8) 16777216 }
{
    (term_length as usize / 8).min(MAX_MESSAGE_LENGTH)
}

// The byte that lies i behind an index, and 0 past the log's end.
fn byte_behind(log: &[u8], at: usize, i: usize) -> usize
    ensures { (result ≡ slice_index (drop at log.now) i) × (result < 256) }
{
    let behind = log.get(at..).unwrap_or(&[]);
    behind.get(i).copied().unwrap_or(0) as usize
}

// A frame's length word at any index; bytes past the log's end count as 0.
fn length_word(log: &[u8], at: usize) -> usize
    ensures { (result ≡ word_of (drop at log.now)) × (result < 4294967296) }
{
    let n = log.len();
    if n >= 4 {
        if at <= n - 4 {
            return field::word4(log, at);
        }
    }
    byte_behind(log, at, 0)
        + 256 * byte_behind(log, at, 1)
        + 65536 * byte_behind(log, at, 2)
        + MAX_MESSAGE_LENGTH * byte_behind(log, at, 3)
}

// Its type, in the same way.
fn frame_type(log: &[u8], at: usize) -> usize
    ensures { result ≡ half_of (drop 6 (drop at log.now)) }
{
    let n = log.len();
    if n >= 8 {
        if at <= n - 8 {
            return field::half(log, at + TYPE_FIELD_OFFSET);
        }
    }
    byte_behind(log, at, 6) + 256 * byte_behind(log, at, 7)
}

// The length at any index, by its sign.
pub fn length_at(log: &[u8], at: usize) -> FrameLength
    ensures { result ≡ length_at (drop at log.now) }
{
    frame_length(cast::to_i32(length_word(log, at)))
}

// Whether nothing stands at an index.
pub(crate) fn is_free(log: &[u8], at: usize) -> bool
    ensures { result ≡ (word_of (drop at log.now) == 0) }
{
    matches!(length_at(log, at), FrameLength::Free)
}

// Whether a frame is being written there.
pub(crate) fn is_writing(log: &[u8], at: usize) -> bool
    ensures { result ≡ is_writing (length_at (drop at log.now)) }
{
    matches!(length_at(log, at), FrameLength::Writing(_))
}

// The length of a finished frame: there is no other answer then.
pub(crate) fn finished_length(log: &[u8], at: usize) -> usize
    requires { is_finished (length_at (drop at log.now)) ≡ true }
    ensures { (result ≡ word_of (drop at log.now)) × (result < 2147483648) }
{
    let FrameLength::Finished(n) = length_at(log, at) else {
        unreachable!()
    };
    n
}

// The frame length reader: whether a place of the log is free, being written or finished. It tells an empty place from a claim that nobody
// has finished, and does not judge whether the length is sound.
pub fn frame_length_at(
    rec: LogRecord,
    log: &[u8],
    partition: i32,
    offset: i32,
) -> Result<FrameLength, Error>
    ensures { result ≡ length_call rec log.now partition offset }
{
    let p = argument::place(rec, partition, offset);
    argument::first_rows(argument::good_place(p), p.read, log.len())?;
    Ok(length_at(log, p.partition * p.read.term + p.offset))
}

// What a frame is by its length word, its type and the bytes to the term's end. Zero and less are one question, so that a reader asks no more than it must.
fn frame_by(length: i32, kind: usize, room: usize) -> Frame
    ensures { result ≡ frame_by kind room (frame_length_of (word length)) }
{
    if length < 1 {
        return Frame::Absent;
    }
    let n = cast::word(length);
    if n < HEADER_LENGTH {
        return Frame::Unsound(n);
    }
    if room < (n + ALIGNMENT_MASK) / FRAME_ALIGNMENT * FRAME_ALIGNMENT {
        return Frame::Unsound(n);
    }
    if kind == HDR_TYPE_PAD {
        return Frame::Padding(n);
    }
    Frame::Data(n)
}

// What stands at an index of a log, with so many bytes to the term's end. No index is refused.
pub fn frame_at(log: &[u8], at: usize, room: usize) -> Frame
    ensures { result ≡ frame_at (drop at log.now) room }
{
    frame_by(
        cast::to_i32(length_word(log, at)),
        frame_type(log, at),
        room,
    )
}

// The same at an index that has a header's room before the log's end, where no byte can lie past it.
pub(crate) fn frame_inside(log: &[u8], at: usize, room: usize) -> Frame
    requires { at + 32 ≤ length log.now }
    ensures { result ≡ frame_at (drop at log.now) room }
{
    let word = field::word4(log, at);
    frame_by(
        cast::to_i32(word),
        field::half(log, at + TYPE_FIELD_OFFSET),
        room,
    )
}

// The length of the frame at an index if it holds a whole message, which its type and both flags say; else none, and where no header has room before
// the log's end.
pub fn whole_length(log: &[u8], at: usize, room: usize) -> Option<usize>
    ensures { result ≡ length_found (whole_frame log.now at room) }
{
    let size = log.len();
    if size < HEADER_LENGTH {
        return None;
    }
    if at > size - HEADER_LENGTH {
        return None;
    }
    let Frame::Data(n) = frame_inside(log, at, room) else {
        return None;
    };
    if field::byte(log, at + FLAGS_FIELD_OFFSET) / END_FRAG % 4 != 3 {
        return None;
    }
    Some(n)
}

// The refusal of an unsound frame, by its length and its offset in its term: too short for a header, or past the term's end.
pub fn unsound_frame(length: usize, place: u32) -> Error
    ensures { result ≡ unsound_frame length place }
{
    if length < HEADER_LENGTH {
        return Error::FrameTooShort(place);
    }
    Error::FramePastTerm(place)
}

// Whether the frame at an index ends a message.
pub(crate) fn ends_message(log: &[u8], at: usize) -> bool
    requires { at + 8 ≤ length log.now }
    ensures { result ≡ ends (flags_at (drop at log.now)) }
{
    let flags = field::byte(log, at + FLAGS_FIELD_OFFSET);
    flags / END_FRAG % 2 == 1
}

// The flags of the frame at an index; 0 past the log's end.
pub fn flags_at(log: &[u8], at: usize) -> usize
    ensures { result ≡ flags_at (drop at log.now) }
{
    byte_behind(log, at, FLAGS_FIELD_OFFSET)
}

// The 32 bits of the term id in the header at an index; bytes past the log's end count as 0.
pub fn term_id_at(log: &[u8], at: usize) -> usize
    ensures { result ≡ (header_at (drop at log.now)).id }
{
    let n = log.len();
    if n >= HEADER_LENGTH {
        if at <= n - HEADER_LENGTH {
            return field::word4(log, at + TERM_ID_FIELD_OFFSET);
        }
    }
    byte_behind(log, at, 20)
        + 256 * byte_behind(log, at, 21)
        + 65536 * byte_behind(log, at, 22)
        + 16777216 * byte_behind(log, at, 23)
}
