// A replay: polls of one fragment each into an assembler, from wherever its image stands, until one gives a message. Demand 3 says what it
// gives of a log that was made by any list of calls; read `next_of` in the definitions.
#![tactic(auto)]

ghost use Rattle.std.specs.Prelude.{◌≡◌, cond, Some, None, ◌-◌, ◌≤◌, ◌<◌, length, pos};
ghost use Rattle.model.specs.TermReader.{natural};
ghost use Rattle.model.specs.Image.{new_image};
ghost use Rattle.model.specs.FragmentAssembler.{fresh};
ghost use Rattle.model.specs.LogBufferDescriptor.{reading};
ghost use Rattle.model.specs.Replay.{next_from, next_of};
ghost use Rattle.image.specs.Images.{state_of as image_state};
ghost use Rattle.logbuffer.specs.Assembler.{sessions_of};
ghost use Rattle.replay.specs.InPlace.{open_term, stop_at};
ghost use Rattle.replay.specs.Gather.{lent_reply_of};
ghost use Rattle.replay.specs.Batches.{batch_reply_of, batch_of};
ghost use Rattle.replay.specs.Replays.{replay_of, state_of, refusal_by, next_reply_of, added_to, elsewhere_on, elsewhere_by, elsewhere_next, gives_by, length_by, counted_by, count_of, turned, turn_of, fragment_given};

use crate::frames::Reach;
use image::Image;
use logbuffer::data_frame_header::HEADER_LENGTH;
use logbuffer::fragment_assembler::FragmentAssembler;
use logbuffer::frame_descriptor::{ALIGNMENT_MASK, FRAME_ALIGNMENT};
use logbuffer::{argument, cast, log_buffer_descriptor};
use model::{Assembled, Error, LogRecord, Polled, Replayed};

pub mod frames;
mod gathering;
mod laying;

#[repr(C)]
#[derive(Clone, Copy)]
pub struct Replay {
    pub image: Image,
    pub assembler: FragmentAssembler,
}

#[derive(Clone, Copy)]
pub struct NextReply {
    pub next: Replay,
    pub answer: Result<Replayed, Error>,
}

// A replay whose sessions are lent: its image, how many sessions are entered, and its answer.
#[derive(Clone, Copy)]
pub struct LentReply {
    pub image: Image,
    pub count: usize,
    pub answer: Result<Replayed, Error>,
}

// Many messages at once: how many were laid into the lent numbers.
#[derive(Clone, Copy)]
pub struct BatchReply {
    pub next: Replay,
    pub answer: Result<usize, Error>,
}

// A quick look at a log: how many messages, and how many bytes they have together.
#[derive(Clone, Copy)]
pub struct Counted {
    pub messages: usize,
    pub bytes: usize,
}

// A turn: the replay's answer, or none where it goes on.
#[derive(Clone, Copy)]
pub struct TurnReply {
    pub answer: Option<Result<Replayed, Error>>,
    pub next: Replay,
}

// The offset of a frame, from the offset of its body.
fn frame_offset(entry: i32) -> usize
    ensures { (result ≡ natural entry - 32) × (result < 2147483648) }
{
    let body = argument::natural(entry);
    if body < HEADER_LENGTH {
        0
    } else {
        body - HEADER_LENGTH
    }
}

// The replay stays where it is, and this is its answer.
fn stopped(replay: Replay, answer: Result<Replayed, Error>) -> TurnReply
    ensures { (result.answer ≡ Some answer) × (result.next ≡ replay) }
{
    TurnReply {
        answer: Some(answer),
        next: replay,
    }
}

// What a poll that read nothing answers.
fn refusal(answer: Result<Polled, Error>) -> Result<Replayed, Error>
    ensures { result ≡ refusal_by answer }
{
    answer?;
    Ok(Replayed::End)
}

// The turn by an assembler's answer that is no part of the log: nothing yet, a message in the lent buffer, a refusal, which leaves the
// replay before the fragment.
fn elsewhere(before: Replay, next: Replay, answer: Result<Assembled, Error>) -> TurnReply
    ensures { (result.answer ≡ cond (elsewhere_on answer) None (Some (elsewhere_by answer))) × (result.next ≡ elsewhere_next before next answer) }
{
    match answer {
        Ok(Assembled::Nothing) => TurnReply {
            answer: None,
            next: next,
        },
        Ok(Assembled::Fragment(_, _)) => stopped(next, Ok(Replayed::End)),
        Ok(Assembled::Message(at, n)) => stopped(next, Ok(Replayed::InBuffer(at, n))),
        Err(e) => stopped(before, Err(e)),
    }
}

// A fragment of a partition, given to the assembler: the image has passed it.
fn give(
    before: Replay,
    passed: Image,
    rec: LogRecord,
    log: &[u8],
    buffer: &mut [u8],
    k: usize,
    entry: i32,
) -> TurnReply
    requires { k < 3 }
    ensures { turned result buffer.new ≡ fragment_given rec log.now (state_of before buffer.old) (image_state passed) k entry }
{
    let v = log_buffer_descriptor::read_active(rec);
    let assembler = before.assembler;
    let reply = assembler.on_fragment(rec, log, buffer, k as i32, frame_offset(entry) as i32);
    let assembler = reply.next;
    let answer = reply.answer;
    let next = Replay {
        image: passed,
        assembler: assembler,
    };
    let Ok(assembled) = answer else {
        return elsewhere(before, next, answer);
    };
    let Assembled::Fragment(at, n) = assembled else {
        return elsewhere(before, next, answer);
    };
    stopped(next, Ok(Replayed::InLog(k * v.term + at, n)))
}

// One turn.
fn turn(replay: Replay, rec: LogRecord, log: &[u8], buffer: &mut [u8]) -> TurnReply
    ensures { turned result buffer.new ≡ turn_of rec log.now (state_of replay buffer.old) }
{
    let v = log_buffer_descriptor::read_active(rec);
    let term = v.term;
    let image = replay.image;
    let assembler = replay.assembler;
    let p = cast::long(image.position);
    if frames::is_over(v, log.len(), p) {
        return stopped(replay, Ok(Replayed::End));
    }
    let one = image.poll_one(rec, log);
    let polled = one.polled;
    let next = polled.next;
    let answer = polled.answer;
    let Ok(read) = answer else {
        return stopped(replay, refusal(answer));
    };
    if read.entries != 0 {
        let bits = log_buffer_descriptor::position_bits_to_shift(term as u32);
        let k = log_buffer_descriptor::index_by_position(p as u64, bits);
        return give(replay, next, rec, log, buffer, k, one.entry);
    }
    if cast::long(next.position) == p {
        return stopped(replay, Ok(Replayed::End));
    }
    TurnReply {
        answer: None,
        next: Replay {
            image: next,
            assembler: assembler,
        },
    }
}

fn replay_of(image: Image, count: usize, ids: [i32; 16], held: [usize; 16]) -> Replay
    ensures { result ≡ replay_of image count ids held }
{
    Replay {
        image: image,
        assembler: FragmentAssembler {
            count: count,
            ids: ids,
            held: held,
        },
    }
}

impl Replay {
    // From a position, with nothing entered.
    pub fn new(position: i64, session_id: i32) -> Replay
        ensures { (image_state result.image ≡ new_image position session_id) × (sessions_of result.assembler ≡ fresh) }
    {
        Replay {
            image: Image::new(position, session_id),
            assembler: FragmentAssembler::new(),
        }
    }

    // The turns left, each by a poll. Each that goes on moves the image, so three terms bound them.
    fn turns(self, rec: LogRecord, log: &[u8], buffer: &mut [u8], most: usize) -> NextReply
        ensures { next_reply_of result buffer.new ≡ next_from most rec log.now (state_of self buffer.old) }
    {
        let mut replay = self;
        for _ in 0..most {
            let t = turn(replay, rec, log, buffer);
            replay = t.next;
            if let Some(answer) = t.answer {
                return NextReply {
                    next: replay,
                    answer: answer,
                };
            }
        }
        NextReply {
            next: replay,
            answer: Ok(Replayed::End),
        }
    }
}

// The next message where no whole one lies, with the sessions lent. Data frames are taken as they lie. Behind them, where a padding, the end or a frame that
// is refused is met, the turns that are left go by polls.
fn next_lent(
    start: Image,
    count: usize,
    ids: &mut [i32; 16],
    held: &mut [usize; 16],
    rec: LogRecord,
    log: &[u8],
    buffer: &mut [u8],
    reach: Reach,
) -> LentReply
    requires { (length buffer.old ≤ 2147483647) × ((reach.term ≡ open_term (image_state start) (reading rec) (length log.now) (length buffer.old)) × (reach.stop ≡ stop_at (reading rec))) }
    ensures { lent_reply_of result ids.new held.new buffer.new ≡ next_of rec log.now (state_of (replay_of start count ids.old held.old) buffer.old) }
{
    let most = 3 * cast::word(rec.term_length) + 1;
    let p = cast::long(start.position);
    let term = reach.term;
    let gathered = gathering::gather(count, ids, held, log, buffer, term, reach.stop, p, most);
    let answer = gathered.answer;
    let mut image = start;
    let position = cast::to_i64(gathered.position);
    image.position = position;
    if !frames::is_end(answer) {
        return LentReply {
            image: image,
            count: gathered.count,
            answer: answer,
        };
    }
    let replay = replay_of(image, gathered.count, *ids, *held);
    let reply = replay.turns(rec, log, buffer, gathered.left);
    let answer = reply.answer;
    let next = reply.next;
    let assembler = next.assembler;
    let last_ids = assembler.ids;
    let last_held = assembler.held;
    *ids = last_ids;
    *held = last_held;
    let image = next.image;
    LentReply {
        image: image,
        count: assembler.count,
        answer: answer,
    }
}

impl Replay {
    // The next message for a caller who has looked for a whole one already, by `frames::next_whole`. Where no frame may be taken as it lies, all goes by polls.
    pub fn next_by_turns(self, rec: LogRecord, log: &[u8], buffer: &mut [u8]) -> NextReply
        ensures { next_reply_of result buffer.new ≡ next_of rec log.now (state_of self buffer.old) }
    {
        if buffer.len() > 2147483647 {
            return NextReply {
                next: self,
                answer: Err(Error::IllegalArgument),
            };
        }
        let image = self.image;
        let assembler = self.assembler;
        let mut ids = assembler.ids;
        let mut held = assembler.held;
        let reach = frames::reach_of(image, rec, log.len(), buffer.len());
        if reach.term == 0 {
            return self.turns(rec, log, buffer, 3 * cast::word(rec.term_length) + 1);
        }
        let count = assembler.count;
        let reply = next_lent(image, count, &mut ids, &mut held, rec, log, buffer, reach);
        let answer = reply.answer;
        let image = reply.image;
        NextReply {
            next: replay_of(image, reply.count, ids, held),
            answer: answer,
        }
    }

    // The next message: where it lies in the log or in the lent buffer; or that there is none. A whole message is handed out as it lies,
    // and the assembler is not touched. What is refused leaves the replay before the frame that was refused, so that the next call refuses
    // the same.
    pub fn next(mut self, rec: LogRecord, log: &[u8], buffer: &mut [u8]) -> NextReply
        ensures { next_reply_of result buffer.new ≡ next_of rec log.now (state_of self buffer.old) }
    {
        if buffer.len() > 2147483647 {
            return NextReply {
                next: self,
                answer: Err(Error::IllegalArgument),
            };
        }
        let mut image = self.image;
        let Some(whole) = frames::next_whole(image, rec, log, buffer.len()) else {
            return self.next_by_turns(rec, log, buffer);
        };
        let n = whole.length;
        let p = cast::long(image.position);
        image.position = (p + (n + ALIGNMENT_MASK) / FRAME_ALIGNMENT * FRAME_ALIGNMENT) as i64;
        self.image = image;
        NextReply {
            next: self,
            answer: Ok(Replayed::InLog(whole.index + HEADER_LENGTH, n - HEADER_LENGTH)),
        }
    }
}

// A batch that ends with a reply of `next`, after so many messages.
fn batch_reply(next: Replay, answer: Result<usize, Error>) -> BatchReply
    ensures { (result.next ≡ next) × (result.answer ≡ answer) }
{
    BatchReply {
        next: next,
        answer: answer,
    }
}

impl Replay {
    // Up to so many messages as four lent numbers hold: where each lies (1 in the log, 2 in the lent buffer), from, its length, the position
    // behind it; and how many there are. A message in the lent buffer is the last of its batch. What is refused ends a batch, and is
    // answered where nothing came before it.
    pub fn next_batch(
        self,
        rec: LogRecord,
        log: &[u8],
        buffer: &mut [u8],
        numbers: &mut [usize],
    ) -> BatchReply
        ensures { batch_reply_of result buffer.new numbers.new ≡ batch_of rec log.now (state_of self buffer.old) numbers.old }
    {
        if buffer.len() > 2147483647 {
            return batch_reply(self, Err(Error::IllegalArgument));
        }
        if numbers.len() > 2147483647 {
            return batch_reply(self, Err(Error::IllegalArgument));
        }
        let most = numbers.len() / 4;
        let mut image = self.image;
        let assembler = self.assembler;
        let mut count = assembler.count;
        let mut ids = assembler.ids;
        let mut held = assembler.held;
        let reach = frames::reach_of(image, rec, log.len(), buffer.len());
        let mut number: usize = 0;
        let mut base: usize = 0;
        for laid in 0..most {
            let p = cast::long(image.position);
            let found = frames::whole_from(log, number, base, reach.term, reach.stop, p);
            number = found.number;
            base = found.base;
            if let Some(whole) = found.frame {
                let n = whole.length;
                let end = p + (n + ALIGNMENT_MASK) / FRAME_ALIGNMENT * FRAME_ALIGNMENT;
                let from = whole.index + HEADER_LENGTH;
                laying::lay(numbers, laid, 1, from, n - HEADER_LENGTH, end);
                image.position = end as i64;
                continue;
            }
            let reply = next_lent(image, count, &mut ids, &mut held, rec, log, buffer, reach);
            let answer = reply.answer;
            image = reply.image;
            count = reply.count;
            let Ok(Replayed::InLog(from, length)) = answer else {
                let answer = laying::last(numbers, laid, answer, cast::long(image.position));
                return batch_reply(replay_of(image, count, ids, held), answer);
            };
            laying::lay(numbers, laid, 1, from, length, cast::long(image.position));
        }
        batch_reply(replay_of(image, count, ids, held), Ok(most))
    }
}

// A sum of bytes that stays in 64 bits; no log has so many.
fn added(bytes: usize, n: usize) -> usize
    ensures { result ≡ added_to bytes n }
{
    if n > 18446744073709551615 - bytes {
        return 18446744073709551615;
    }
    bytes + n
}

// Whether an answer gives a message, and its length.
fn gives(answer: Result<Replayed, Error>) -> bool
    ensures { result ≡ gives_by answer }
{
    matches!(answer, Ok(Replayed::InLog(_, _) | Replayed::InBuffer(_, _)))
}

fn length_of(answer: Result<Replayed, Error>) -> usize
    ensures { result ≡ length_by answer }
{
    match answer {
        Ok(Replayed::InLog(_, n) | Replayed::InBuffer(_, n)) => n,
        _ => 0,
    }
}

// What was counted, unless the replay was refused.
fn count_of(
    answer: Result<Replayed, Error>,
    messages: usize,
    bytes: usize,
) -> Result<Counted, Error>
    ensures { result ≡ counted_by answer messages bytes }
{
    answer?;
    Ok(Counted {
        messages: messages,
        bytes: bytes,
    })
}

// Replays a log from a position by a fresh image into a fresh assembler, and counts what comes back. A refusal ends it. Whole messages are counted as
// they lie.
pub fn count(
    rec: LogRecord,
    log: &[u8],
    buffer: &mut [u8],
    position: i64,
    session_id: i32,
) -> Result<Counted, Error>
    ensures value { result ≡ (count_of rec log.now position session_id buffer.old).answer }
    ensures buffer_after { buffer.new ≡ (count_of rec log.now position session_id buffer.old).buffer }
{
    if buffer.len() > 2147483647 {
        return Err(Error::IllegalArgument);
    }
    let mut image = Image::new(position, session_id);
    let mut count: usize = 0;
    let mut ids: [i32; 16] = [0; 16];
    let mut held: [usize; 16] = [0; 16];
    let reach = frames::reach_of(image, rec, log.len(), buffer.len());
    let mut number: usize = 0;
    let mut base: usize = 0;
    let mut bytes: usize = 0;
    let most = 3 * cast::word(rec.term_length) + 1;
    for messages in 0..most {
        let p = cast::long(image.position);
        let found = frames::whole_from(log, number, base, reach.term, reach.stop, p);
        number = found.number;
        base = found.base;
        if let Some(whole) = found.frame {
            let n = whole.length;
            image.position = (p + (n + ALIGNMENT_MASK) / FRAME_ALIGNMENT * FRAME_ALIGNMENT) as i64;
            bytes = added(bytes, n - HEADER_LENGTH);
            continue;
        }
        let reply = next_lent(image, count, &mut ids, &mut held, rec, log, buffer, reach);
        let answer = reply.answer;
        if !gives(answer) {
            return count_of(answer, messages, bytes);
        }
        image = reply.image;
        count = reply.count;
        bytes = added(bytes, length_of(answer));
    }
    Ok(Counted {
        messages: most,
        bytes: bytes,
    })
}
