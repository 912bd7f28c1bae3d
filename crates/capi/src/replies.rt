// What crosses to C: each answer as 01's number, 0 where nothing was refused, and its values, 0 where there are none. An enum does not
// cross, so each family of answers has its structs here, and a function for each number in them. A reply refused 22 or 23 has the place of the frame in
// 01's first value, which a refusal leaves free; the assembler's and a replay's has it in `start`. A reply of 16 bytes comes back in two registers, so a
// number that 32 bits hold stands beside the code. A claim is two words, stored as wide as they are handed back.
ghost use Rattle.std.specs.Prelude.{◌≡◌, ◌-◌, [], Ok};
ghost use Rattle.model.specs.Answers.{answered};
ghost use Rattle.capi.specs.Replies.{outcome_number, cut32, position_reply, offer_reply, claim_reply, span_reply, append_reply, append_claim_reply, fields_at, header_reply, frame_length_reply, read_reply, scan_reply, gap_reply, availability_reply, poll_reply, peek_reply, block_reply, end_of_stream_reply, assembly_reply, next_reply, batch_reply, count_reply};

use crate::words;
use logbuffer::{cast, errors};
use model::{
    Appended, AppendedClaim, Assembled, Block, Claimed, Error, FrameLength, GapScanned,
    HeaderFields, Peeked, Polled, Replayed, Rule, Span, TermRead,
};
use publication::rule;
use replay::Counted;

#[repr(C)]
#[derive(Clone, Copy)]
pub struct PositionReply {
    pub code: i32,
    pub position: i64,
}

#[repr(C)]
#[derive(Clone, Copy)]
pub struct OfferReply {
    pub code: i32,
    pub rule: u32,
    pub position: i64,
}

#[repr(C)]
#[derive(Clone, Copy)]
pub struct ClaimReply {
    pub code: i32,
    pub rule: u32,
    pub position: i64,
    pub claim: [i64; 2],
}

#[repr(C)]
#[derive(Clone, Copy)]
pub struct SpanReply {
    pub code: i32,
    pub start: usize,
    pub length: usize,
}

#[repr(C)]
#[derive(Clone, Copy)]
pub struct AppendReply {
    pub code: i32,
    pub is_tripped: bool,
    pub offset: usize,
}

#[repr(C)]
#[derive(Clone, Copy)]
pub struct AppendClaimReply {
    pub code: i32,
    pub is_tripped: bool,
    pub offset: usize,
    pub claim: [i64; 2],
}

#[repr(C)]
#[derive(Clone, Copy)]
pub struct HeaderReply {
    pub code: i32,
    pub fields: HeaderFields,
}

// The state is 0 for a free place, 1 for a frame being written, 2 for a finished one.
#[repr(C)]
#[derive(Clone, Copy)]
pub struct FrameLengthReply {
    pub code: i32,
    pub state: i32,
    pub length: usize,
}

#[repr(C)]
#[derive(Clone, Copy)]
pub struct ReadReply {
    pub code: i32,
    pub fragments: u32,
    pub offset: usize,
}

#[repr(C)]
#[derive(Clone, Copy)]
pub struct ScanReply {
    pub code: i32,
    pub offset: usize,
}

#[repr(C)]
#[derive(Clone, Copy)]
pub struct GapReply {
    pub code: i32,
    pub is_gap: bool,
    pub is_being_written: bool,
    pub term_id: i32,
    pub offset: usize,
    pub length: usize,
}

#[repr(C)]
#[derive(Clone, Copy)]
pub struct AvailabilityReply {
    pub code: i32,
    pub padding: u32,
    pub available: usize,
}

#[repr(C)]
#[derive(Clone, Copy)]
pub struct PollReply {
    pub code: i32,
    pub fragments: u32,
    pub entries: u32,
    pub partition: i32,
}

#[repr(C)]
#[derive(Clone, Copy)]
pub struct PeekReply {
    pub code: i32,
    pub entries: u32,
    pub position: i64,
    pub partition: i32,
}

#[repr(C)]
#[derive(Clone, Copy)]
pub struct BlockReply {
    pub code: i32,
    pub partition: i32,
    pub offset: usize,
    pub length: usize,
    pub session_id: i32,
    pub term_id: i32,
}

#[repr(C)]
#[derive(Clone, Copy)]
pub struct EndOfStreamReply {
    pub code: i32,
    pub is_eos: bool,
}

#[repr(C)]
#[derive(Clone, Copy)]
pub struct AssemblyReply {
    pub code: i32,
    pub place: i32,
    pub start: usize,
    pub length: usize,
}

#[repr(C)]
#[derive(Clone, Copy)]
pub struct NextReply {
    pub code: i32,
    pub place: i32,
    pub start: usize,
    pub length: usize,
}

#[repr(C)]
#[derive(Clone, Copy)]
pub struct BatchReply {
    pub code: i32,
    pub messages: usize,
}

#[repr(C)]
#[derive(Clone, Copy)]
pub struct CountReply {
    pub code: i32,
    pub messages: usize,
    pub bytes: usize,
}

// A number that stands beside a code: none that a call gives is cut (`NothingCut` of specs/Theorems.antt).
fn narrow(n: usize) -> u32
    ensures { result ≡ cut32 n }
{
    n.min(4294967295) as u32
}

// What was done, by number alone.
pub fn outcome_code(answer: Result<(), Error>) -> i32
    ensures { result ≡ outcome_number answer }
{
    match answer {
        Ok(()) => 0,
        Err(e) => errors::number(e),
    }
}

pub fn positioned(answer: Result<i64, Error>) -> PositionReply
    ensures { result ≡ position_reply answer }
{
    match answer {
        Ok(p) => PositionReply {
            code: 0,
            position: p,
        },
        Err(e) => PositionReply {
            code: errors::number(e),
            position: 0,
        },
    }
}

pub fn offered(answer: Result<i64, Error>, rule: Rule) -> OfferReply
    ensures { result ≡ offer_reply answer rule }
{
    let place = rule::place(rule);
    match answer {
        Ok(p) => OfferReply {
            code: 0,
            rule: place,
            position: p,
        },
        Err(e) => OfferReply {
            code: errors::number(e),
            rule: place,
            position: 0,
        },
    }
}

pub fn claimed(answer: Result<Claimed, Error>, rule: Rule) -> ClaimReply
    ensures { result ≡ claim_reply answer rule }
{
    let place = rule::place(rule);
    match answer {
        Ok(claimed) => ClaimReply {
            code: 0,
            rule: place,
            position: claimed.position,
            claim: words::claim_words(claimed.claim),
        },
        Err(e) => ClaimReply {
            code: errors::number(e),
            rule: place,
            position: 0,
            claim: [0; 2],
        },
    }
}

// The difference; 0 where there is none.
fn difference(to: usize, from: usize) -> usize
    ensures { result ≡ to - from }
{
    to.saturating_sub(from)
}

// A part of the log, by its first index and its length.
pub fn located(answer: Result<Span, Error>) -> SpanReply
    ensures { result ≡ span_reply answer }
{
    match answer {
        Ok(span) => SpanReply {
            code: 0,
            start: span.start,
            length: difference(span.end, span.start),
        },
        Err(e) => SpanReply {
            code: errors::number(e),
            start: 0,
            length: 0,
        },
    }
}

pub fn appended(answer: Appended) -> AppendReply
    ensures { result ≡ append_reply answer }
{
    match answer {
        Appended::Offset(end) => AppendReply {
            code: 0,
            is_tripped: false,
            offset: end,
        },
        Appended::Tripped => AppendReply {
            code: 0,
            is_tripped: true,
            offset: 0,
        },
        Appended::Refused(e) => AppendReply {
            code: errors::number(e),
            is_tripped: false,
            offset: 0,
        },
    }
}

pub fn appended_claim(answer: AppendedClaim) -> AppendClaimReply
    ensures { result ≡ append_claim_reply answer }
{
    match answer {
        AppendedClaim::Claimed(end, claim) => AppendClaimReply {
            code: 0,
            is_tripped: false,
            offset: end,
            claim: words::claim_words(claim),
        },
        AppendedClaim::Tripped => AppendClaimReply {
            code: 0,
            is_tripped: true,
            offset: 0,
            claim: [0; 2],
        },
        AppendedClaim::Refused(e) => AppendClaimReply {
            code: errors::number(e),
            is_tripped: false,
            offset: 0,
            claim: [0; 2],
        },
    }
}

// The fields of a refused call.
fn no_fields() -> HeaderFields
    ensures { result ≡ fields_at (answered []) }
{
    HeaderFields {
        frame_length: 0,
        version: 0,
        flags: 0,
        frame_type: 0,
        term_offset: 0,
        session_id: 0,
        stream_id: 0,
        term_id: 0,
        reserved_value: 0,
        position: 0,
    }
}

pub fn header_read(answer: Result<HeaderFields, Error>) -> HeaderReply
    ensures { result ≡ header_reply answer }
{
    match answer {
        Ok(fields) => HeaderReply {
            code: 0,
            fields: fields,
        },
        Err(e) => HeaderReply {
            code: errors::number(e),
            fields: no_fields(),
        },
    }
}

fn frame_length(length: FrameLength) -> FrameLengthReply
    ensures { result ≡ frame_length_reply (Ok length) }
{
    match length {
        FrameLength::Free => FrameLengthReply {
            code: 0,
            state: 0,
            length: 0,
        },
        FrameLength::Writing(size) => FrameLengthReply {
            code: 0,
            state: 1,
            length: size,
        },
        FrameLength::Finished(size) => FrameLengthReply {
            code: 0,
            state: 2,
            length: size,
        },
    }
}

pub fn frame_length_read(answer: Result<FrameLength, Error>) -> FrameLengthReply
    ensures { result ≡ frame_length_reply answer }
{
    match answer {
        Ok(length) => frame_length(length),
        Err(e) => FrameLengthReply {
            code: errors::number(e),
            state: 0,
            length: 0,
        },
    }
}

pub fn term_read(answer: Result<TermRead, Error>) -> ReadReply
    ensures { result ≡ read_reply answer }
{
    match answer {
        Ok(read) => ReadReply {
            code: 0,
            offset: read.offset,
            fragments: narrow(read.fragments),
        },
        Err(e) => ReadReply {
            code: errors::number(e),
            offset: errors::place(e) as usize,
            fragments: 0,
        },
    }
}

pub fn scanned(answer: Result<usize, Error>) -> ScanReply
    ensures { result ≡ scan_reply answer }
{
    match answer {
        Ok(offset) => ScanReply {
            code: 0,
            offset: offset,
        },
        Err(e) => ScanReply {
            code: errors::number(e),
            offset: errors::place(e) as usize,
        },
    }
}

// Without a gap the offset is where the walk came to.
pub fn gap_scanned(answer: Result<GapScanned, Error>) -> GapReply
    ensures { result ≡ gap_reply answer }
{
    match answer {
        Ok(GapScanned::Gap(term_id, offset, length, written)) => GapReply {
            code: 0,
            is_gap: true,
            is_being_written: written,
            term_id: term_id,
            offset: offset,
            length: length,
        },
        Ok(GapScanned::NoGap(offset)) => GapReply {
            code: 0,
            is_gap: false,
            is_being_written: false,
            term_id: 0,
            offset: offset,
            length: 0,
        },
        Err(e) => GapReply {
            code: errors::number(e),
            is_gap: false,
            is_being_written: false,
            term_id: 0,
            offset: errors::place(e) as usize,
            length: 0,
        },
    }
}

// The two numbers apart: the upper 32 bits, and the lower.
pub fn availability_scanned(answer: Result<i64, Error>) -> AvailabilityReply
    ensures { result ≡ availability_reply answer }
{
    match answer {
        Ok(outcome) => {
            let bits = cast::long(outcome);
            AvailabilityReply {
                code: 0,
                padding: (bits / 4294967296) as u32,
                available: bits % 4294967296,
            }
        }
        Err(e) => AvailabilityReply {
            code: errors::number(e),
            padding: 0,
            available: errors::place(e) as usize,
        },
    }
}

pub fn polled(answer: Result<Polled, Error>, partition: i32) -> PollReply
    ensures { result ≡ poll_reply partition answer }
{
    match answer {
        Ok(polled) => PollReply {
            code: 0,
            fragments: narrow(polled.fragments),
            entries: narrow(polled.entries),
            partition: partition,
        },
        Err(e) => PollReply {
            code: errors::number(e),
            fragments: narrow(errors::place(e) as usize),
            entries: 0,
            partition: 0,
        },
    }
}

pub fn peeked(answer: Result<Peeked, Error>, partition: i32) -> PeekReply
    ensures { result ≡ peek_reply partition answer }
{
    match answer {
        Ok(peeked) => PeekReply {
            code: 0,
            entries: narrow(peeked.entries),
            position: peeked.position,
            partition: partition,
        },
        Err(e) => PeekReply {
            code: errors::number(e),
            entries: 0,
            position: errors::place(e) as i64,
            partition: 0,
        },
    }
}

pub fn block_polled(answer: Result<Block, Error>, partition: i32) -> BlockReply
    ensures { result ≡ block_reply partition answer }
{
    match answer {
        Ok(block) => BlockReply {
            code: 0,
            partition: partition,
            offset: block.offset,
            length: block.length,
            session_id: block.session_id,
            term_id: block.term_id,
        },
        Err(e) => BlockReply {
            code: errors::number(e),
            partition: 0,
            offset: errors::place(e) as usize,
            length: 0,
            session_id: 0,
            term_id: 0,
        },
    }
}

pub fn end_of_stream(answer: Result<bool, Error>) -> EndOfStreamReply
    ensures { result ≡ end_of_stream_reply answer }
{
    match answer {
        Ok(b) => EndOfStreamReply { code: 0, is_eos: b },
        Err(e) => EndOfStreamReply {
            code: errors::number(e),
            is_eos: false,
        },
    }
}

// Where a message lies: 0 there is none, 1 in the log, 2 in the lent buffer.
pub fn assembled(answer: Result<Assembled, Error>) -> AssemblyReply
    ensures { result ≡ assembly_reply answer }
{
    match answer {
        Ok(Assembled::Nothing) => AssemblyReply {
            code: 0,
            place: 0,
            start: 0,
            length: 0,
        },
        Ok(Assembled::Fragment(at, n)) => AssemblyReply {
            code: 0,
            place: 1,
            start: at,
            length: n,
        },
        Ok(Assembled::Message(at, n)) => AssemblyReply {
            code: 0,
            place: 2,
            start: at,
            length: n,
        },
        Err(e) => AssemblyReply {
            code: errors::number(e),
            place: 0,
            start: errors::place(e) as usize,
            length: 0,
        },
    }
}

pub fn replayed(answer: Result<Replayed, Error>) -> NextReply
    ensures { result ≡ next_reply answer }
{
    match answer {
        Ok(Replayed::End) => NextReply {
            code: 0,
            place: 0,
            start: 0,
            length: 0,
        },
        Ok(Replayed::InLog(at, n)) => NextReply {
            code: 0,
            place: 1,
            start: at,
            length: n,
        },
        Ok(Replayed::InBuffer(at, n)) => NextReply {
            code: 0,
            place: 2,
            start: at,
            length: n,
        },
        Err(e) => NextReply {
            code: errors::number(e),
            place: 0,
            start: errors::place(e) as usize,
            length: 0,
        },
    }
}

pub fn batched(answer: Result<usize, Error>) -> BatchReply
    ensures { result ≡ batch_reply answer }
{
    match answer {
        Ok(messages) => BatchReply {
            code: 0,
            messages: messages,
        },
        Err(e) => BatchReply {
            code: errors::number(e),
            messages: errors::place(e) as usize,
        },
    }
}

pub fn counted(answer: Result<Counted, Error>) -> CountReply
    ensures { result ≡ count_reply answer }
{
    match answer {
        Ok(counted) => CountReply {
            code: 0,
            messages: counted.messages,
            bytes: counted.bytes,
        },
        Err(e) => CountReply {
            code: errors::number(e),
            messages: errors::place(e) as usize,
            bytes: 0,
        },
    }
}
