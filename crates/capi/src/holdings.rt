// The card that holds under its C name: the refusal's number, 0 where nothing was refused; where the walk ended, and why by number; the card, where each of
// its fields is from, and its note by value.
ghost use Rattle.std.specs.Prelude.{◌≡◌};
ghost use Rattle.holding.specs.Holding.{answer_told, holding_of};
ghost use Rattle.capi.specs.Holdings.{numbers_at, holding_reply};
ghost use Rattle.capi.specs.Words.{record_in};

use crate::{tallies, words};
use card::Card;
use holding::laying::Ends;
use holding::{Answer, Holding};
use logbuffer::errors;
use model::Error;

#[repr(C)]
#[derive(Clone, Copy)]
pub struct HoldingReply {
    pub code: i32,
    pub stop: i32,
    pub position: i64,
    pub writing: usize,
    pub card: Card,
    pub ends: Ends,
    pub note_length: usize,
    pub note: [u8; 255],
}

// The numbers of an answer.
#[derive(Clone, Copy)]
struct Numbers {
    code: i32,
    stop: i32,
    position: i64,
    writing: usize,
}

fn told(answer: Result<Answer, Error>) -> Numbers
    ensures { result ≡ numbers_at (answer_told answer) }
{
    match answer {
        Ok(Answer::Holds(end, stop)) => Numbers {
            code: 0,
            stop: tallies::stop_number(stop),
            position: end,
            writing: tallies::writing_size(stop),
        },
        Ok(Answer::NoCard(end, stop)) => Numbers {
            code: 24,
            stop: tallies::stop_number(stop),
            position: end,
            writing: tallies::writing_size(stop),
        },
        Err(e) => Numbers {
            code: errors::number(e),
            stop: 0,
            position: errors::place(e) as i64,
            writing: 0,
        },
    }
}

fn replied(held: Holding) -> HoldingReply
    ensures { result ≡ holding_reply held }
{
    let answer = held.answer;
    let card = held.card;
    let ends = held.ends;
    let note = held.note;
    let n = told(answer);
    HoldingReply {
        code: n.code,
        stop: n.stop,
        position: n.position,
        writing: n.writing,
        card: card,
        ends: ends,
        note_length: held.note_length,
        note: note,
    }
}

#[unsafe(no_mangle)]
pub extern "C" fn logbuffer_holding(
    rec: &[i64; 14],
    log: &[u8],
    find: u32,
    from: i64,
    to: i64,
) -> HoldingReply
    ensures { result ≡ holding_reply (holding_of (record_in rec.now) log.now find from to) }
{
    replied(holding::card_that_holds(words::record_in(rec), log, find, from, to))
}
