// Data frames one after another, given to the assembler as they lie, with the sessions lent in place. While frames of one session follow each other, what it
// holds is kept at hand. Read lib next.
ghost use Rattle.std.specs.Prelude.{◌≡◌, ◌%◌, ◌≤◌, ◌<◌, min, length, take, get_or, set};
ghost use Rattle.model.specs.FragmentAssembler.{place_in};
ghost use Rattle.logbuffer.specs.Assembler.{sessions_as, join_of};
ghost use Rattle.replay.specs.InPlace.{TermOrNone, TermsOf, index_at};
ghost use Rattle.replay.specs.Gather.{frame_found, FrameHere, current_of, Knows, at_hand, led_by, gathering_of, gather_from};

use crate::frames;
use crate::frames::Gathered;
use logbuffer::data_frame_header::HEADER_LENGTH;
use logbuffer::fragment_assembler;
use logbuffer::frame_descriptor::{ALIGNMENT_MASK, FRAME_ALIGNMENT};
use model::Replayed;

// A data frame as a walk finds it: the index where it lies, its length, its flags and its session.
#[derive(Clone, Copy)]
pub(crate) struct DataFrame {
    pub index: usize,
    pub length: usize,
    pub flags: usize,
    pub session: i32,
}

// The data frame at a position below a stop, if there is one, of a log of three such terms.
fn data_at(log: &[u8], term: usize, stop: usize, p: usize) -> Option<DataFrame>
    requires { TermsOf (length log.now) term }
    ensures { result ≡ frame_found log.now term stop p }
{
    if p >= stop {
        return None;
    }
    if term == 0 {
        return None;
    }
    if p % FRAME_ALIGNMENT != 0 {
        return None;
    }
    let index = frames::index_at(term, p);
    let fragment = fragment_assembler::fragment_at(log, index, term - (p & (term - 1)))?;
    Some(DataFrame {
        index: index,
        length: fragment.length,
        flags: fragment.flags,
        session: fragment.session,
    })
}

// A data frame of n bytes given to the assembler's core, and where that leads. A frame that is refused is not passed.
fn give_one(
    count: usize,
    ids: &mut [i32; 16],
    held: &mut [usize; 16],
    log: &[u8],
    buffer: &mut [u8],
    term: usize,
    p: usize,
    index: usize,
    n: usize,
    left: usize,
) -> Gathered
    requires { ((0 < term) × TermOrNone term) × ((0 < left) × ((index ≡ index_at term p) × (((32 ≤ n) × (n < 2147483648)) × (p < 2305843009213693952)))) }
    ensures { gathering_of result ids.new held.new buffer.new ≡ led_by left p n index (sessions_as count ids.old held.old) (join_of (sessions_as count ids.old held.old) buffer.old log.now index (p % term)) }
{
    let given = frames::give(count, ids, held, log, buffer, index, p & (term - 1));
    let answer = given.answer;
    let reply = frames::reply_by(answer, index, n);
    if answer.is_err() {
        return frames::gathered_as(given.count, left, p, reply);
    }
    let end = p + (n + ALIGNMENT_MASK) / FRAME_ALIGNMENT * FRAME_ALIGNMENT;
    frames::gathered_as(given.count, left - 1, end, reply)
}

// ---- the session at hand

// Its place, its id and the bytes that it holds; the array's number for that place is out of date meanwhile. None is at place 16.
#[derive(Clone, Copy)]
pub(crate) struct Current {
    pub place: usize,
    pub session: i32,
    pub bytes: usize,
}

fn current_as(place: usize, session: i32, bytes: usize) -> Current
    ensures { result ≡ current_of place session bytes }
{
    Current {
        place: place,
        session: session,
        bytes: bytes,
    }
}

// The array's number is brought up to date. It is stored only where it differs, so that a copy of the array has no store to wait for.
fn settle(held: &mut [usize], place: usize, bytes: usize)
    ensures { held.new ≡ set held.old place bytes }
{
    if place < held.len() {
        if held[place] != bytes {
            held[place] = bytes;
        }
    }
}

// A session's id, entered in the same way.
fn enter(ids: &mut [i32], place: usize, session: i32)
    ensures { ids.new ≡ set ids.old place session }
{
    if place < ids.len() {
        if ids[place] != session {
            ids[place] = session;
        }
    }
}

// The session of a frame taken in hand. Where it is another one, the array's number is brought up to date, and its place is looked for.
fn turn_to(
    count: usize,
    ids: &[i32; 16],
    held: &mut [usize; 16],
    current: Current,
    next: i32,
) -> Current
    requires { Knows count ids.now current }
    ensures place_value { ((result.place ≡ place_in (take (min count 16) ids.now) next) × (result.session ≡ next)) × (result.bytes ≡ get_or (set held.old current.place current.bytes) result.place 0) }
    ensures bytes_after { set held.new result.place result.bytes ≡ set held.old current.place current.bytes }
{
    if current.place < 16 {
        if current.session == next {
            return current;
        }
    }
    settle(held, current.place, current.bytes);
    let place = fragment_assembler::place_of(count, ids, next);
    current_as(place, next, fragment_assembler::held_at(held, place))
}

// ---- one frame after another

// Where a frame leads, and the session at hand behind it.
#[derive(Clone, Copy)]
pub(crate) struct Step {
    pub current: Current,
    pub gathered: Gathered,
}

// A data frame taken: its body is laid behind what its session holds. Where that cannot be, it is given to the assembler's core.
fn take(
    count: usize,
    ids: &mut [i32; 16],
    held: &mut [usize; 16],
    current: Current,
    log: &[u8],
    buffer: &mut [u8],
    term: usize,
    p: usize,
    frame: DataFrame,
    left: usize,
) -> Step
    requires { (TermsOf (length log.now) term × ((0 < term) × (p < 2305843009213693952))) × ((0 < left) × (FrameHere log.now term p frame × Knows count ids.old current)) }
    ensures buffer_after { gathering_of result.gathered ids.new (set held.new result.current.place result.current.bytes) buffer.new ≡ led_by left p frame.length (index_at term p) (at_hand count ids.old held.old current) (join_of (at_hand count ids.old held.old current) buffer.old log.now (index_at term p) (p % term)) }
    ensures knows { Knows result.gathered.count ids.new result.current }
{
    let n = frame.length;
    let at = frame.index;
    let now = turn_to(count, ids, held, current, frame.session);
    let place = now.place;
    let bytes = now.bytes;
    let flags = frame.flags;
    let body = at + HEADER_LENGTH;
    let Some(laid) = fragment_assembler::lay_fragment(
        count,
        place,
        bytes,
        flags,
        n - HEADER_LENGTH,
        log,
        buffer,
        body,
    ) else {
        settle(held, place, bytes);
        let gathered = give_one(count, ids, held, log, buffer, term, p, at, n, left);
        return Step {
            current: current_as(16, 0, 0),
            gathered: gathered,
        };
    };
    let session = now.session;
    enter(ids, place, session);
    let entered = fragment_assembler::entered_with(count, place);
    let end = p + (n + ALIGNMENT_MASK) / FRAME_ALIGNMENT * FRAME_ALIGNMENT;
    if laid.ends {
        let from = place * (buffer.len() / 16);
        return Step {
            current: current_as(place, session, 0),
            gathered: frames::gathered_as(
                entered,
                left - 1,
                end,
                Ok(Replayed::InBuffer(from, laid.held)),
            ),
        };
    }
    Step {
        current: current_as(place, session, laid.held),
        gathered: frames::gathered_as(entered, left - 1, end, Ok(Replayed::End)),
    }
}

// Data frames from a position on, until one gives a reply. It stops before what is no data frame, for a poll to read, and before a frame that is refused.
pub(crate) fn gather(
    count: usize,
    ids: &mut [i32; 16],
    held: &mut [usize; 16],
    log: &[u8],
    buffer: &mut [u8],
    term: usize,
    stop: usize,
    position: usize,
    most: usize,
) -> Gathered
    requires { TermsOf (length log.now) term × (0 < term → stop ≤ 2305843009213693952) }
    ensures { gathering_of result ids.new held.new buffer.new ≡ gather_from most log.now term stop position (sessions_as count ids.old held.old) buffer.old }
{
    let mut current = current_as(16, 0, 0);
    let mut entered = count;
    let mut p = position;
    for taken in 0..most {
        let left = most - taken;
        let Some(frame) = data_at(log, term, stop, p) else {
            settle(held, current.place, current.bytes);
            return frames::gathered_as(entered, left, p, Ok(Replayed::End));
        };
        let step = take(
            entered, ids, held, current, log, buffer, term, p, frame, left,
        );
        let gathered = step.gathered;
        let answer = gathered.answer;
        current = step.current;
        if !frames::is_end(answer) {
            settle(held, current.place, current.bytes);
            return gathered;
        }
        entered = gathered.count;
        p = gathered.position;
    }
    settle(held, current.place, current.bytes);
    frames::gathered_as(entered, 0, p, Ok(Replayed::End))
}
