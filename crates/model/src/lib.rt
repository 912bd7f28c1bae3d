// The plain types of the log: the record, a claim, the refusals, and the answers of each family of calls. No function runs here.
// What every call means is in specs/: read specs/Lib.antt next.
#![tactic(auto)]

// The log record, as document 01 lists it and document 02 adds to it. A raw tail has a term id in its upper 32 bits and an offset in its lower.
// The last three fields are carried and never read: only the metadata section shows them.
#[repr(C)]
#[derive(Clone, Copy)]
pub struct LogRecord {
    pub tails: [i64; 3],
    pub active_term_count: i32,
    pub initial_term_id: i32,
    pub term_length: i32,
    pub mtu_length: i32,
    pub session_id: i32,
    pub stream_id: i32,
    pub is_connected: i32,
    pub publication_limit: i64,
    pub end_of_stream_position: i64,
    pub is_closed: bool,
    pub slowest_position: i64,
    pub is_cleared: [bool; 3],
    pub active_transport_count: i32,
    pub correlation_id: i64,
    pub page_size: i32,
}

// What a claim answers beside its position: partition, offset of the frame in its term, frame length, term id.
#[repr(C)]
#[derive(Clone, Copy)]
pub struct Claim {
    pub partition: i32,
    pub offset: i32,
    pub length: i32,
    pub term_id: i32,
}

// The refusals, in the order of document 01's table, and then as document 02 adds them; specs/Errors.antt gives each its number. The Rust's names
// where it has one. A refusal of a frame carries its place, its offset in its term. What is printed of one is its cause in a few words; docs/ERRORS.md says it whole.
#[derive(Clone, Copy, Debug, PartialEq, Eq, thiserror::Error)]
pub enum Error {
    #[error("an argument is out of its range")]
    IllegalArgument,
    #[error("the record or the log breaks its ranges")]
    IllegalRecord,
    #[error("the image's position is negative, over the greatest, or not a multiple of 32")]
    PositionOutOfRange,
    #[error("claim longer than the payload limit, mtu - 32")]
    ExceedsMaxPayloadLength,
    #[error("the publication is closed")]
    PublicationClosed,
    #[error("the term was full and the log has been rotated, or count and term id differ")]
    AdminAction,
    #[error("the greatest position is reached")]
    MaxPositionExceeded,
    #[error("the publication limit is reached")]
    BackPressured,
    #[error("the publication limit is reached and nobody is connected")]
    NotConnected,
    #[error("message longer than the payload limit and than the message limit")]
    ExceedsMaxMessageLength,
    #[error("tail offset and need together over 2147483647")]
    TailOverflow,
    #[error("the term is full and there is no next one")]
    LastTerm,
    #[error("the tail's term id is not the one given to the appender")]
    ActionPossiblyDelayed,
    #[error("the frame's header does not show this open claim")]
    ClaimMismatch,
    #[error("the new position is before the current one or past the term's end")]
    NewPositionOutOfRange,
    #[error("the new position is not a multiple of 32")]
    NewPositionNotAligned,
    #[error("begin frame of a 17th session, or fragments longer together than their part of the buffer")]
    AssemblyFull,
    #[error("the term was full and the next partition is not cleared")]
    NotCleared,
    #[error("another partition is due next, or the slowest reader may still read this one")]
    NotDue,
    #[error("the first frame has a length of 1 to 31, at offset {0}")]
    FrameTooShort(u32),
    #[error("the first frame runs past its term's end, at offset {0}")]
    FramePastTerm(u32),
}

// The record's numbers as they are judged, none of them signed, with one partition's tail taken apart. A term id is its 32
// bits; any other negative number shows as one above its range. specs/LogBufferDescriptor.antt says how a record is read.
#[derive(Clone, Copy)]
pub struct Reading {
    pub term: usize,
    pub mtu: usize,
    pub count: usize,
    pub initial: usize,
    pub session: usize,
    pub stream: usize,
    pub connected: usize,
    pub limit: usize,
    pub id: usize,
    pub offset: usize,
    pub closed: bool,
    pub slowest: usize,
}

// A place that a reader names: the record as it is read, a partition, and an offset of its term.
#[derive(Clone, Copy)]
pub struct Place {
    pub read: Reading,
    pub partition: usize,
    pub offset: usize,
}

// Whether a call on an image that nothing refuses reads: a closed image is left alone.
#[derive(Clone, Copy)]
pub enum ReadVerdict {
    Read,
    Closed,
}

// The next record with it: opening, limit change, close, rotation.
#[derive(Clone, Copy)]
pub struct RecordReply {
    pub next: LogRecord,
    pub answer: Result<(), Error>,
}

// How an append goes, before anything is written: refused, at another term (13), past the term's end, or into the term.
#[derive(Clone, Copy)]
pub enum Course {
    Refuse(Error),
    Stray,
    Trip,
    Fit,
}

// An appender's answer: the offset after the frames, or that the append tripped (-2 in the Rust).
#[derive(Clone, Copy)]
pub enum Appended {
    Offset(usize),
    Tripped,
    Refused(Error),
}

#[derive(Clone, Copy)]
pub struct AppendReply {
    pub next: LogRecord,
    pub answer: Appended,
}

// The claiming appender's.
#[derive(Clone, Copy)]
pub enum AppendedClaim {
    Claimed(usize, Claim),
    Tripped,
    Refused(Error),
}

#[derive(Clone, Copy)]
pub struct AppendClaimReply {
    pub next: LogRecord,
    pub answer: AppendedClaim,
}

// Which check decided an offer or a claim (R-10 of document 02), in the order of the checks. The names are those of the refusals, but for 6 and 7,
// which two checks give each; the last three accept. specs/Rule.antt gives each its number, its place and its test.
#[derive(Clone, Copy)]
pub enum Rule {
    IllegalArgument,
    IllegalRecord,
    PublicationClosed,
    ExceedsMaxPayloadLength,
    CountOutOfStep,
    LimitPastMaxPosition,
    BackPressured,
    NotConnected,
    ExceedsMaxMessageLength,
    TailOverflow,
    TripPastMaxPosition,
    LastTerm,
    NotCleared,
    TermRotated,
    Unfragmented,
    Fragmented,
    Claimed,
}

// An offer: the position behind the message.
#[derive(Clone, Copy)]
pub struct OfferReply {
    pub next: LogRecord,
    pub answer: Result<i64, Error>,
    pub rule: Rule,
}

// A claim that was taken: the position behind its frame, and its record.
#[derive(Clone, Copy)]
pub struct Claimed {
    pub position: i64,
    pub claim: Claim,
}

#[derive(Clone, Copy)]
pub struct ClaimReply {
    pub next: LogRecord,
    pub answer: Result<Claimed, Error>,
    pub rule: Rule,
}

// Where a part of the log lies: its first index, and the index after its last.
#[derive(Clone, Copy)]
pub struct Span {
    pub start: usize,
    pub end: usize,
}

// A frame's length word by its sign: 0 is free; negative, a frame being written, with its size, 1 to 2147483648; positive, a finished one, with
// its length. It says nothing of soundness.
#[derive(Clone, Copy)]
pub enum FrameLength {
    Free,
    Writing(usize),
    Finished(usize),
}

// What stands at a place of a log: no finished frame, or the length of an unsound one, of a padding or of a data frame.
#[derive(Clone, Copy)]
pub enum Frame {
    Absent,
    Unsound(usize),
    Padding(usize),
    Data(usize),
}

// The fields of a frame's header, and the position past the frame.
#[repr(C)]
#[derive(Clone, Copy)]
pub struct HeaderFields {
    pub frame_length: i32,
    pub version: u8,
    pub flags: u8,
    pub frame_type: u16,
    pub term_offset: i32,
    pub session_id: i32,
    pub stream_id: i32,
    pub term_id: i32,
    pub reserved_value: i64,
    pub position: i64,
}

// A walk over frames: entries written, fragments that count, bytes moved, and bytes up to the last whole message or padding.
#[derive(Clone, Copy)]
pub struct Walk {
    pub entries: usize,
    pub fragments: usize,
    pub moved: usize,
    pub settled: usize,
}

// What the frame reader (`read_frames`) answers.
#[derive(Clone, Copy)]
pub enum FramesRead {
    Walked(Walk),
    Refused(Error),
}

// A read of a term: the offset it came to, and the fragments read.
#[derive(Clone, Copy)]
pub struct TermRead {
    pub offset: usize,
    pub fragments: usize,
}

// A gap: the term id given, its offset, its length, and whether it starts on a frame being written; or none, with the offset that the walk
// came to.
#[derive(Clone, Copy)]
pub enum GapScanned {
    Gap(i32, usize, usize, bool),
    NoGap(usize),
}

// A poll: the fragments read, and the entries written.
#[derive(Clone, Copy)]
pub struct Polled {
    pub fragments: usize,
    pub entries: usize,
}

// A peek: the position it came to, and the entries written.
#[derive(Clone, Copy)]
pub struct Peeked {
    pub position: i64,
    pub entries: usize,
}

// A block: its offset in the term, its length, session and term id; four zeros where it is empty.
#[derive(Clone, Copy)]
pub struct Block {
    pub offset: usize,
    pub length: usize,
    pub session_id: i32,
    pub term_id: i32,
}

// What the assembler does with a frame. The first number is the session's place among the 16, the second what it held before.
#[derive(Clone, Copy)]
pub enum Joining {
    Through,
    Ignore,
    Full,
    TooLong(usize),
    Join(usize, usize),
    Complete(usize, usize),
}

// The assembler's answer: nothing yet; the body of this frame, by its offset in the term and its length; a message put together, by
// its place in the lent buffer and its length.
#[derive(Clone, Copy)]
pub enum Assembled {
    Nothing,
    Fragment(usize, usize),
    Message(usize, usize),
}

// A message that a replay gives: its first index in the log or in the lent buffer, and its length; or the end.
#[derive(Clone, Copy)]
pub enum Replayed {
    InLog(usize, usize),
    InBuffer(usize, usize),
    End,
}
