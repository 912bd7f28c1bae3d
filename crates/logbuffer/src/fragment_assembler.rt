// Fragments put together to messages again: up to 16 sessions over one lent buffer, cut into 16 equal parts. The bookkeeping is a value;
// a call takes it and hands the next one back.
ghost use Rattle.std.specs.Prelude.{◌≡◌, ◌+◌, ◌-◌, ◌*◌, ◌/◌, ◌<◌, ◌≤◌, min, true, ◌||◌, ltb, length, take, drop, if◌then◌else◌, ◌==◌, nat_le, nat_lt, slice_index};
ghost use Rattle.model.specs.declared.Joining.TheVariants.{Through, Ignore, Full, TooLong, Join, Complete};
ghost use Rattle.model.specs.Bytes.{word, u32 as word_at};
ghost use Rattle.model.specs.FrameDescriptor.{is_finished, length_at, unsound_length};
ghost use Rattle.model.specs.FragmentAssembler.{fresh, place_in, joining as joining_of, good_frame, good_assembly, assemble_verdict, assemble_of, joined_at};
ghost use Rattle.logbuffer.specs.Assembler.{sessions_of, sessions_as, entered_with, Framed, is_framed, Enters, join_of, leaving};
ghost use Rattle.logbuffer.specs.Fragments.{fragment_at, joins as joins_of, behind as behind_of, laid_of, laid_bytes};

use crate::data_frame_header::{FLAGS_FIELD_OFFSET, HEADER_LENGTH, SESSION_ID_FIELD_OFFSET};
use crate::frame_descriptor::{ALIGNMENT_MASK, BEGIN_FRAG, END_FRAG, FRAME_ALIGNMENT};
use crate::{argument, buffer_builder, cast, field, frame_descriptor};
use model::{Assembled, Error, Frame, FrameLength, Joining, LogRecord, Place};

// How many sessions are entered, their ids, and how many bytes each holds.
#[repr(C)]
#[derive(Clone, Copy)]
pub struct FragmentAssembler {
    pub count: usize,
    pub ids: [i32; 16],
    pub held: [usize; 16],
}

#[derive(Clone, Copy)]
pub struct AssemblyReply {
    pub next: FragmentAssembler,
    pub answer: Result<Assembled, Error>,
}

// What a frame leads to: the place whose session it enters, that session and the bytes that it then holds, and the answer. No session has
// place 16.
#[derive(Clone, Copy)]
pub struct Joined {
    pub place: usize,
    pub session: i32,
    pub held: usize,
    pub answer: Result<Assembled, Error>,
}

impl FragmentAssembler {
    // No session is entered.
    pub fn new() -> FragmentAssembler
        ensures { sessions_of result ≡ fresh }
    {
        FragmentAssembler {
            count: 0,
            ids: [0; 16],
            held: [0; 16],
        }
    }
}

// ---- the sessions, as they are lent: how many are entered, their ids, and how many bytes each holds

// A count over 16 is taken as 16.
fn entered(count: usize) -> usize
    ensures { (result ≡ min count 16) × (result ≤ 16) }
{
    count.min(16)
}

// The session's place among the first n ids, or the place after them.
fn place_in(ids: &[i32], n: usize, session: i32) -> usize
    requires { n ≤ length ids.now }
    ensures { (result ≡ place_in (take n ids.now) session) × (result ≤ n) }
{
    for (i, &id) in ids[..n].iter().enumerate() {
        if id == session {
            return i;
        }
    }
    n
}

// How many are entered once place k is.
pub fn entered_with(count: usize, place: usize) -> usize
    ensures { result ≡ entered_with count place }
{
    let n = entered(count);
    if place < n {
        return n;
    }
    if place < 16 { place + 1 } else { n }
}

// More than a part has room for: held + n > part, without a sum that could wrap.
fn too_long(part: usize, held: usize, n: usize) -> bool
    ensures { result ≡ nat_lt part (held + n) }
{
    if held > part {
        return true;
    }
    n > part - held
}

// What is done with a begin frame of a body of n bytes: it drops what its session held.
fn begun(k: usize, n: usize, part: usize) -> Joining
    ensures { result ≡ (if nat_le 16 k then Full else (if ltb part n then TooLong k else Join k 0)) }
{
    if k >= 16 {
        return Joining::Full;
    }
    if n > part {
        return Joining::TooLong(k);
    }
    Joining::Join(k, 0)
}

// With one that neither begins nor passes through, for a session at place k of `entered` that holds `from` bytes.
fn continued(k: usize, entered: usize, from: usize, n: usize, part: usize, ends: bool) -> Joining
    ensures { result ≡ (if nat_le entered k || from == 0 then Ignore else (if ltb part (from + n) then TooLong k else (if ends then Complete k from else Join k from))) }
{
    if k >= entered {
        return Joining::Ignore;
    }
    if from == 0 {
        return Joining::Ignore;
    }
    if too_long(part, from, n) {
        return Joining::TooLong(k);
    }
    if ends {
        return Joining::Complete(k, from);
    }
    Joining::Join(k, from)
}

// How many bytes the session at a place holds; 0 past the last place.
pub fn held_at(held: &[usize], k: usize) -> usize
    ensures { result ≡ slice_index held.now k }
{
    held.get(k).copied().unwrap_or(0)
}

// What is done with a frame of a body of n bytes.
fn joining(
    count: usize,
    ids: &[i32],
    held: &[usize],
    session: i32,
    flags: usize,
    n: usize,
    part: usize,
) -> Joining
    requires { length ids.now ≡ 16 }
    ensures { result ≡ joining_of (sessions_as count ids.now held.now) session flags n part }
{
    let begins = flags / BEGIN_FRAG % 2 == 1;
    let ends = flags / END_FRAG % 2 == 1;
    let known = entered(count);
    if begins {
        if ends {
            return Joining::Through;
        }
        return begun(place_in(ids, known, session), n, part);
    }
    let k = place_in(ids, known, session);
    continued(k, known, held_at(held, k), n, part, ends)
}

// ---- the entry point

// Row 1 of a frame: its length word lies in the log and is above 0.
fn good_frame(log: &[u8], at: usize) -> bool
    ensures { result ≡ good_frame log.now at }
{
    let n = log.len();
    if n < 4 {
        return false;
    }
    if at > n - 4 {
        return false;
    }
    let FrameLength::Finished(_) = frame_descriptor::length_at(log, at) else {
        return false;
    };
    true
}

// A length that no frame has, or that reaches past its term.
fn unsound_length(n: usize, room: usize) -> bool
    requires { n < 4294967296 }
    ensures { result ≡ unsound_length n room }
{
    if n < HEADER_LENGTH {
        return true;
    }
    room < (n + ALIGNMENT_MASK) / FRAME_ALIGNMENT * FRAME_ALIGNMENT
}

// Row 1: the lent buffer, the place, the frame there.
fn good_assembly(p: Place, log: &[u8], lent: usize) -> bool
    requires { p.offset < 4294967296 }
    ensures { result ≡ good_assembly p.read log.now lent p.partition p.offset }
{
    if lent > 2147483647 {
        return false;
    }
    if !argument::good_place(p) {
        return false;
    }
    good_frame(log, p.partition * p.read.term + p.offset)
}

// Rows 1, 2, 22 and 23.
fn assemble_verdict(p: Place, log: &[u8], lent: usize) -> Result<(), Error>
    requires { p.offset < 4294967296 }
    ensures { result ≡ assemble_verdict p.read log.now lent p.partition p.offset }
{
    let good = good_assembly(p, log, lent);
    argument::first_rows(good, p.read, log.len())?;
    let term = p.read.term;
    let length = frame_descriptor::finished_length(log, p.partition * term + p.offset);
    if unsound_length(length, term - p.offset) {
        return Err(frame_descriptor::unsound_frame(length, p.offset as u32));
    }
    Ok(())
}

fn holding(place: usize, session: i32, held: usize, answer: Result<Assembled, Error>) -> Joined
    ensures { result ≡ leaving place session held answer }
{
    Joined {
        place: place,
        session: session,
        held: held,
        answer: answer,
    }
}

// The whole frame at an index, joined: `at` is its offset in the term.
fn join_frame(
    count: usize,
    ids: &[i32],
    held: &[usize],
    log: &[u8],
    buffer: &mut [u8],
    place: usize,
    at: usize,
) -> Joined
    requires { (at < 4294967296) × (Framed log.now place × (length ids.now ≡ 16)) }
    ensures enters { Enters (sessions_as count ids.now held.now) result (joined_at (sessions_as count ids.now held.now) buffer.old (drop place log.now) at) }
    ensures buffer_after { buffer.new ≡ (joined_at (sessions_as count ids.now held.now) buffer.old (drop place log.now) at).buffer }
{
    let n = frame_descriptor::finished_length(log, place) - HEADER_LENGTH;
    let session = cast::to_i32(field::word4(log, place + SESSION_ID_FIELD_OFFSET));
    let flags = field::byte(log, place + FLAGS_FIELD_OFFSET);
    let part = buffer.len() / 16;
    match joining(count, ids, held, session, flags, n, part) {
        Joining::Through => holding(
            16,
            session,
            0,
            Ok(Assembled::Fragment(at + HEADER_LENGTH, n)),
        ),
        Joining::Ignore => holding(16, session, 0, Ok(Assembled::Nothing)),
        Joining::Full => holding(16, session, 0, Err(Error::AssemblyFull)),
        Joining::TooLong(k) => holding(k, session, 0, Err(Error::AssemblyFull)),
        Joining::Join(k, from) => {
            buffer_builder::append(buffer, k, part, from, log, place + HEADER_LENGTH, n);
            holding(k, session, from + n, Ok(Assembled::Nothing))
        }
        Joining::Complete(k, from) => {
            buffer_builder::append(buffer, k, part, from, log, place + HEADER_LENGTH, n);
            holding(k, session, 0, Ok(Assembled::Message(k * part, from + n)))
        }
    }
}

// Whether a finished frame lies whole at an index of the log.
fn is_whole(log: &[u8], index: usize) -> bool
    ensures { result ≡ is_framed log.now index }
{
    let FrameLength::Finished(n) = frame_descriptor::length_at(log, index) else {
        return false;
    };
    if n < HEADER_LENGTH {
        return false;
    }
    let size = log.len();
    if index > size {
        return false;
    }
    n <= size - index
}

// The frame at an index of the log, for a caller who keeps the sessions and enters what is answered, if it is not refused; `offset` is the
// frame's place in its term. 1 where the ids are not 16, no frame lies whole at the index, or the offset is over 32 bits.
pub fn join(
    count: usize,
    ids: &[i32],
    held: &[usize],
    log: &[u8],
    buffer: &mut [u8],
    index: usize,
    offset: usize,
) -> Joined
    ensures enters { Enters (sessions_as count ids.now held.now) result (join_of (sessions_as count ids.now held.now) buffer.old log.now index offset) }
    ensures buffer_after { buffer.new ≡ (join_of (sessions_as count ids.now held.now) buffer.old log.now index offset).buffer }
{
    if !is_whole(log, index) {
        return holding(16, 0, 0, Err(Error::IllegalArgument));
    }
    if offset > 4294967295 {
        return holding(16, 0, 0, Err(Error::IllegalArgument));
    }
    if ids.len() != 16 {
        return holding(16, 0, 0, Err(Error::IllegalArgument));
    }
    join_frame(count, ids, held, log, buffer, index, offset)
}

// ---- the same in steps, for a reader who takes one fragment after another and keeps the sessions himself

// A session's place: its first among the ids that are entered, or the place after them.
pub fn place_of(count: usize, ids: &[i32], session: i32) -> usize
    ensures { result ≡ place_in (take (min count 16) ids.now) session }
{
    let known = entered(count);
    let n = ids.len();
    if n < known {
        return place_in(ids, n, session);
    }
    place_in(ids, known, session)
}

// What the steps ask of a data frame: its length, its flags and its session.
#[derive(Clone, Copy)]
pub struct FragmentHeader {
    pub length: usize,
    pub flags: usize,
    pub session: i32,
}

// The data frame at an index of a log, with so many bytes to the term's end, if there is one and it lies whole in the log.
pub fn fragment_at(log: &[u8], at: usize, room: usize) -> Option<FragmentHeader>
    ensures { result ≡ fragment_at log.now at room }
{
    let size = log.len();
    if size < HEADER_LENGTH {
        return None;
    }
    if at > size - HEADER_LENGTH {
        return None;
    }
    let Frame::Data(n) = frame_descriptor::frame_inside(log, at, room) else {
        return None;
    };
    if n > size - at {
        return None;
    }
    Some(FragmentHeader {
        length: n,
        flags: field::byte(log, at + FLAGS_FIELD_OFFSET),
        session: cast::to_i32(field::word4(log, at + SESSION_ID_FIELD_OFFSET)),
    })
}

// Whether a frame joins a message: it begins one that it does not end, or its session is entered and holds a byte.
fn joins(count: usize, place: usize, held: usize, flags: usize) -> bool
    ensures { result ≡ joins_of count place held flags }
{
    if flags / BEGIN_FRAG % 2 == 1 {
        return flags / END_FRAG % 2 != 1;
    }
    if place >= count {
        return false;
    }
    held > 0
}

// How many bytes its body is laid behind.
fn behind(held: usize, flags: usize) -> usize
    ensures { result ≡ behind_of held flags }
{
    if flags / BEGIN_FRAG % 2 == 1 { 0 } else { held }
}

// What the session holds behind a body that was laid, and whether its frame ends the message.
#[derive(Clone, Copy)]
pub struct Laid {
    pub held: usize,
    pub ends: bool,
}

// A body that joins a message, laid into the part of its session behind what that holds: so many bytes at an index of the log, by the flags of its frame. Nothing
// is laid where the frame joins none, the body is empty or does not fit, or the place is none of the 16.
pub fn lay_fragment(
    count: usize,
    place: usize,
    held: usize,
    flags: usize,
    body_length: usize,
    log: &[u8],
    buffer: &mut [u8],
    index: usize,
) -> Option<Laid>
    ensures value { result ≡ laid_of count place held flags body_length (length log.now) (length buffer.old) index }
    ensures buffer_after { buffer.new ≡ laid_bytes count place held flags body_length log.now buffer.old index }
{
    if place >= 16 {
        return None;
    }
    if !joins(count, place, held, flags) {
        return None;
    }
    if body_length == 0 {
        return None;
    }
    let part = buffer.len() / 16;
    let from = behind(held, flags);
    if too_long(part, from, body_length) {
        return None;
    }
    let size = log.len();
    if index > size {
        return None;
    }
    if body_length > size - index {
        return None;
    }
    buffer_builder::append(buffer, place, part, from, log, index, body_length);
    Some(Laid {
        held: from + body_length,
        ends: flags / END_FRAG % 2 == 1,
    })
}

impl FragmentAssembler {
    // One frame of a term, by its partition and offset: nothing yet, its body as it lies in the log, or the message that it ends, as it
    // lies in the lent buffer. A refusal leaves the buffer as it was, and the bookkeeping too, but for fragments that are too long for
    // their part (18): their session stays entered, emptied. A 17th session (18 too) changes nothing.
    pub fn on_fragment(
        mut self,
        rec: LogRecord,
        log: &[u8],
        buffer: &mut [u8],
        partition: i32,
        offset: i32,
    ) -> AssemblyReply
        ensures answer_value { (result.answer ≡ (assemble_of rec log.now (sessions_of self) buffer.old partition offset).answer) × (sessions_of result.next ≡ (assemble_of rec log.now (sessions_of self) buffer.old partition offset).next) }
        ensures buffer_after { buffer.new ≡ (assemble_of rec log.now (sessions_of self) buffer.old partition offset).buffer }
    {
        let p = argument::place(rec, partition, offset);
        match assemble_verdict(p, log, buffer.len()) {
            Err(e) => AssemblyReply {
                next: self,
                answer: Err(e),
            },
            Ok(()) => {
                let index = p.partition * p.read.term + p.offset;
                let ids = self.ids;
                let held = self.held;
                let joined = join(self.count, &ids, &held, log, buffer, index, p.offset);
                let answer = joined.answer;
                let k = joined.place;
                let session = joined.session;
                if k < 16 {
                    self.count = entered_with(self.count, k);
                    self.ids[k] = session;
                    self.held[k] = joined.held;
                }
                AssemblyReply {
                    next: self,
                    answer: answer,
                }
            }
        }
    }
}
