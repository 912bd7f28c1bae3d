// The parts of a line: a refusal, where a walk ended, and the card that holds.
use card::Card;
use holding::Holding;
use holding::laying::Ends;
use logbuffer::errors;
use model::Error;
use std::{fmt, io};
use tally::step::Stop;

// A refusal by its number, and the place of a frame that is refused.
#[derive(Clone, Copy)]
pub struct Refusal(pub Error);

impl fmt::Display for Refusal {
    fn fmt<W: fmt::Write>(&self, f: &mut fmt::Formatter<W>) -> fmt::Result {
        let number = errors::number(self.0);
        match self.0 {
            Error::FrameTooShort(place) | Error::FramePastTerm(place) => {
                write!(f, "{number} {place}")
            }
            _ => write!(f, "{number}"),
        }
    }
}

// Where the walk ended, and why there.
#[derive(Clone, Copy)]
pub struct End(pub i64, pub Stop);

impl fmt::Display for End {
    fn fmt<W: fmt::Write>(&self, f: &mut fmt::Formatter<W>) -> fmt::Result {
        write!(f, "at {}, ", self.0)?;
        match self.1 {
            Stop::Reached => write!(f, "the second position"),
            Stop::Writing(n) => write!(f, "a frame being written of {n}"),
            Stop::Free => write!(f, "a free place"),
            Stop::OtherTerm => write!(f, "a frame of another term"),
            Stop::PastSecond => write!(f, "a frame that would pass the second position"),
            Stop::UnsoundFrame => write!(f, "an unsound frame"),
        }
    }
}

fn card(rt: &impl Print, card: Card) -> io::Result<()> {
    let Card {
        bits,
        find,
        trench,
        context,
        material,
        weight,
    } = card;
    print!(rt; " | card {bits} {find} {trench} {context} {material} {weight}")
}

fn ends(rt: &impl Print, ends: Ends) -> io::Result<()> {
    let Ends {
        find,
        trench,
        context,
        material,
        weight,
        note,
    } = ends;
    print!(rt; " | ends {find} {trench} {context} {material} {weight} {note}")
}

// The card that holds, where its fields' messages end, and its note.
pub fn held(rt: &impl Print, holding: &Holding) -> io::Result<()> {
    let note = support::part(&holding.note, 0, holding.note_length);
    card(rt, holding.card)?;
    ends(rt, holding.ends)?;
    println!(rt; " | note \"{}\"", note.escape_ascii())
}
