// Data frames as they lie in a log: where the record is sound and the image open, a replay finds them without a poll, and hands a whole
// message out without the assembler. Read gathering next.
ghost use Rattle.std.specs.Prelude.{◌≡◌, ◌*◌, ◌/◌, ◌%◌, ◌≤◌, ◌<◌, length};
ghost use Rattle.model.specs.LogBufferDescriptor.{partition_of, reading};
ghost use Rattle.image.specs.Images.{state_of as image_state};
ghost use Rattle.logbuffer.specs.Assembler.{sessions_as, join_of};
ghost use Rattle.replay.specs.InPlace.{TermOrNone, TermsOf, stop_at, index_at, whole_at, whole_with, found_none, open_term, whole_in, over_by, kept_by, replied_by};
ghost use Rattle.replay.specs.Gather.{gathered_as, is_end};

use image::Image;
use logbuffer::data_frame_header::HEADER_LENGTH;
use logbuffer::frame_descriptor::{ALIGNMENT_MASK, FRAME_ALIGNMENT};
use logbuffer::log_buffer_descriptor::PARTITION_COUNT;
use logbuffer::{cast, fragment_assembler, frame_descriptor, log_buffer_descriptor};
use model::{Assembled, Error, LogRecord, Reading, Replayed};

// A whole message as it lies: the index of its frame, and the frame's length.
#[derive(Clone, Copy)]
pub struct Whole {
    pub index: usize,
    pub length: usize,
}

// Where a position lies in a log of such terms, by shift and mask.
pub(crate) fn index_at(term: usize, p: usize) -> usize
    requires { (0 < term) × TermOrNone term }
    ensures { result ≡ index_at term p }
{
    let bits = log_buffer_descriptor::position_bits_to_shift(term as u32);
    let k = log_buffer_descriptor::index_by_position(p as u64, bits);
    k * term + (p & (term - 1))
}

// ---- one whole message after another

// A whole message as a walk finds it, if there is one; and for the next step the count of a term and where the partition of that term begins.
#[derive(Clone, Copy)]
pub(crate) struct Found {
    pub number: usize,
    pub base: usize,
    pub frame: Option<Whole>,
}

// None.
fn none(number: usize, base: usize) -> Found
    ensures { result ≡ found_none number base }
{
    Found {
        number: number,
        base: base,
        frame: None,
    }
}

// Where the partition of a position begins, for a caller who has it of some term: it is worked out anew where another term begins, so that in one term no
// step has to wait for a remainder by 3.
fn base_at(number: usize, base: usize, term: usize, p: usize, count: usize) -> usize
    requires { (term ≤ 1073741824) × ((base ≡ number % 3 * term) × (count ≡ p / term)) }
    ensures { (result ≡ partition_of p term * term) × (result ≤ 2147483648) }
{
    if count == number {
        return base;
    }
    count % PARTITION_COUNT * term
}

// The whole message at a position below a stop, which both flags say, of a log of three such terms. The count of a term and where its partition begins are
// handed on from step to step; those of the first term, 0 both, are good to begin with.
pub(crate) fn whole_from(
    log: &[u8],
    number: usize,
    base: usize,
    term: usize,
    stop: usize,
    p: usize,
) -> Found
    requires { TermsOf (length log.now) term × (base ≡ number % 3 * term) }
    ensures { (result.frame ≡ whole_with (index_at term p) (whole_at log.now term stop p)) × (result.base ≡ result.number % 3 * term) }
{
    if p >= stop {
        return none(number, base);
    }
    if term == 0 {
        return none(number, base);
    }
    if p % FRAME_ALIGNMENT != 0 {
        return none(number, base);
    }
    let count = p >> log_buffer_descriptor::position_bits_to_shift(term as u32);
    let begin = base_at(number, base, term, p, count);
    let offset = p & (term - 1);
    let index = begin + offset;
    let frame = match frame_descriptor::whole_length(log, index, term - offset) {
        Some(length) => Some(Whole {
            index: index,
            length: length,
        }),
        None => None,
    };
    Found {
        number: count,
        base: begin,
        frame: frame,
    }
}

// The publisher's position, where a replay stops; 0 where it is below.
pub(crate) fn stop_at(v: Reading) -> usize
    requires { (v.id < 4294967296) × ((v.initial < 4294967296) × (v.term < 4294967296)) }
    ensures { result ≡ stop_at v }
{
    let count = log_buffer_descriptor::id_minus(v.id as u32, v.initial as u32) as usize;
    if count > 2147483647 {
        return 0;
    }
    let begin = count * v.term;
    if v.offset < v.term {
        begin + v.offset
    } else {
        begin + v.term
    }
}

// Whether a replay that stands at a position is over: where rows 2 and 3 refuse nothing and it is not below the publisher's.
pub(crate) fn is_over(v: Reading, n: usize, p: usize) -> bool
    requires { (v.id < 4294967296) × ((v.initial < 4294967296) × (v.term < 4294967296)) }
    ensures { result ≡ over_by v n p }
{
    if !log_buffer_descriptor::is_sound(v, n) {
        return false;
    }
    if p > v.term * 2147483648 {
        return false;
    }
    if p % FRAME_ALIGNMENT != 0 {
        return false;
    }
    p >= stop_at(v)
}

// The term length where frames may be taken as they lie: the lent buffer passes row 1, the image is open, and record and log pass row 2.
// Else 0.
pub(crate) fn open_term(image: Image, v: Reading, n: usize, lent: usize) -> usize
    ensures { result ≡ open_term (image_state image) v n lent }
{
    if lent > 2147483647 {
        return 0;
    }
    if image.is_closed {
        return 0;
    }
    if !log_buffer_descriptor::is_sound(v, n) {
        return 0;
    }
    v.term
}

// How far frames may be taken as they lie: the length of a term, 0 where none may, and the position where the replay stops.
#[derive(Clone, Copy)]
pub(crate) struct Reach {
    pub term: usize,
    pub stop: usize,
}

pub(crate) fn reach_of(image: Image, rec: LogRecord, n: usize, lent: usize) -> Reach
    ensures { (result.term ≡ open_term (image_state image) (reading rec) n lent) × (result.stop ≡ stop_at (reading rec)) }
{
    let v = log_buffer_descriptor::read_active(rec);
    Reach {
        term: open_term(image, v, n, lent),
        stop: stop_at(v),
    }
}

// Where the frame at the image's position lies and how long it is, if it is a whole message that the next reply gives. For a caller who
// keeps the replay elsewhere and need not fetch it all.
pub fn next_whole(image: Image, rec: LogRecord, log: &[u8], lent: usize) -> Option<Whole>
    ensures { result ≡ whole_in rec log.now (image_state image) lent }
{
    let v = log_buffer_descriptor::read_active(rec);
    let term = open_term(image, v, log.len(), lent);
    let p = cast::long(image.position);
    let found = whole_from(log, 0, 0, term, stop_at(v), p);
    found.frame
}

// ---- a fragment, given to the assembler's core

// What it leads to, beside the sessions that are lent: how many are entered, and the answer.
#[derive(Clone, Copy)]
pub(crate) struct Given {
    pub count: usize,
    pub answer: Result<Assembled, Error>,
}

// The frame at an index of the log. Its session is entered, unless it is refused: then the sessions stay as they were.
pub(crate) fn give(
    count: usize,
    ids: &mut [i32; 16],
    held: &mut [usize; 16],
    log: &[u8],
    buffer: &mut [u8],
    index: usize,
    offset: usize,
) -> Given
    ensures answer_value { result.answer ≡ (join_of (sessions_as count ids.old held.old) buffer.old log.now index offset).answer }
    ensures held_after { sessions_as result.count ids.new held.new ≡ kept_by (sessions_as count ids.old held.old) (join_of (sessions_as count ids.old held.old) buffer.old log.now index offset) }
    ensures buffer_after { buffer.new ≡ (join_of (sessions_as count ids.old held.old) buffer.old log.now index offset).buffer }
{
    let joined = fragment_assembler::join(count, ids, held, log, buffer, index, offset);
    let answer = joined.answer;
    let place = joined.place;
    if answer.is_err() {
        return Given {
            count: count,
            answer: answer,
        };
    }
    if place >= 16 {
        return Given {
            count: count,
            answer: answer,
        };
    }
    let session = joined.session;
    ids[place] = session;
    held[place] = joined.held;
    Given {
        count: fragment_assembler::entered_with(count, place),
        answer: answer,
    }
}

// The reply by the answer to the data frame of n bytes at an index; the body of one that passes through lies behind its header.
pub(crate) fn reply_by(
    answer: Result<Assembled, Error>,
    index: usize,
    n: usize,
) -> Result<Replayed, Error>
    requires { (index < 4294967296) × (32 ≤ n) }
    ensures { result ≡ replied_by index n answer }
{
    match answer? {
        Assembled::Nothing => Ok(Replayed::End),
        Assembled::Fragment(_, _) => Ok(Replayed::InLog(index + HEADER_LENGTH, n - HEADER_LENGTH)),
        Assembled::Message(at, length) => Ok(Replayed::InBuffer(at, length)),
    }
}

// ---- data frames one after another

// Where they lead: how many sessions are entered and turns left, the position, and the reply; End where nothing came of them.
#[derive(Clone, Copy)]
pub(crate) struct Gathered {
    pub count: usize,
    pub left: usize,
    pub position: usize,
    pub answer: Result<Replayed, Error>,
}

pub(crate) fn gathered_as(
    count: usize,
    left: usize,
    position: usize,
    answer: Result<Replayed, Error>,
) -> Gathered
    ensures { result ≡ gathered_as count left position answer }
{
    Gathered {
        count: count,
        left: left,
        position: position,
        answer: answer,
    }
}

// Whether nothing came of them.
pub(crate) fn is_end(answer: Result<Replayed, Error>) -> bool
    ensures { result ≡ is_end answer }
{
    matches!(answer, Ok(Replayed::End))
}
