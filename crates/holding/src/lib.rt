// Which card holds: of the find cards of one find between two positions, each field from the last that has it, with the end position of that card's
// message. specs/Messages.antt says what a message is, specs/Holding.antt what the call answers. Read walk next.
#![tactic(auto)]

ghost use Rattle.std.specs.Prelude.{◌≡◌, [], pos, ◌<◌, Err};
ghost use Rattle.holding.specs.Holding.{answer_of, held_of, padded, holding_with, holding_of};

use crate::laying::{Ends, Held};
use crate::walk::Walked;
use card::Card;
use logbuffer::cast;
use model::{Error, LogRecord};
use tally::span;
use tally::step::{Stop, Stream};

pub mod laying;
mod runs;
mod walk;

// Whether there is a card of the find: where the walk ended, and why there; 24 if there is none.
#[derive(Clone, Copy)]
pub enum Answer {
    Holds(i64, Stop),
    NoCard(i64, Stop),
}

// The card that holds, by its bits; its note, with 0 behind it; and where the message that each field is from ends. Where there is no card, all of it is 0.
#[derive(Clone, Copy)]
pub struct Holding {
    pub answer: Result<Answer, Error>,
    pub card: Card,
    pub ends: Ends,
    pub note_length: usize,
    pub note: [u8; 255],
}

// A refusal: nothing is held.
fn refused(error: Error) -> Holding
    ensures { result ≡ holding_with (Err error) (held_of []) (padded []) }
{
    let held = laying::nothing();
    Holding {
        answer: Err(error),
        card: held.card,
        ends: held.ends,
        note_length: held.note_length,
        note: [0; 255],
    }
}

// What a walk found, and why it ended.
fn answered(w: Walked, stop: Stop) -> Holding
    requires { w.end < 9223372036854775808 }
    ensures { result ≡ holding_with (answer_of w.held.found w.end stop) w.held w.note }
{
    let held = w.held;
    let note = w.note;
    let end = w.end as i64;
    let answer = if held.found {
        Ok(Answer::Holds(end, stop))
    } else {
        Ok(Answer::NoCard(end, stop))
    };
    Holding {
        answer,
        card: held.card,
        ends: held.ends,
        note_length: held.note_length,
        note,
    }
}

// The card of a find that holds between two positions. Refuses 1, 2, 3, 22, 23, 24.
pub fn card_that_holds(rec: LogRecord, log: &[u8], find: u32, from: i64, to: i64) -> Holding
    ensures { result ≡ holding_of rec log.now find from to }
{
    if let Err(e) = span::rows(rec, log.len(), from, to) {
        return refused(e);
    }
    let stream = Stream::of(rec, log);
    let start = cast::long(from);
    let end = cast::long(to);
    if let Err(e) = stream.first_frame(start, end) {
        return refused(e);
    }
    let w = walk::between(stream, find, start, end);
    answered(w, stream.why(end, w.end))
}
