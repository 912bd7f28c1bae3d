// Words on the standard output: headings, bytes as text, and what a call answered. writers.rt, back.rt and season.rt use them.
use logbuffer::errors;
use model::{Error, LogRecord};
use publication::positions;
use std::{fmt, io};

pub fn heading(rt: &impl Print, text: &str) -> io::Result<()> {
    println!(rt; "\n{text}:")
}

// Bytes as text, or the first of them.
#[derive(Clone, Copy)]
pub struct Quoted<'a>(pub &'a [u8]);

impl fmt::Display for Quoted<'_> {
    fn fmt<W: fmt::Write>(&self, f: &mut fmt::Formatter<W>) -> fmt::Result {
        match self.0.get(..26) {
            Some(beginning) if self.0.len() > 26 => {
                write!(f, "beginning \"{}\"", beginning.escape_ascii())
            }
            _ => write!(f, "\"{}\"", self.0.escape_ascii()),
        }
    }
}

// A refusal by its number and its cause (docs/ERRORS.md). Number 6 has another cause, count and term id that differ, which no call made here leaves.
#[derive(Clone, Copy)]
pub struct Refusal(pub Error);

impl fmt::Display for Refusal {
    fn fmt<W: fmt::Write>(&self, f: &mut fmt::Formatter<W>) -> fmt::Result {
        let number = errors::number(self.0);
        match self.0 {
            Error::AdminAction => write!(
                f,
                "refused ({number}: the term was full and the log has been rotated)"
            ),
            error => write!(f, "refused ({number}: {error})"),
        }
    }
}

// Ten find numbers for every 32 bytes of the log: a request's block begins here, and no two blocks overlap.
fn block(position: u64) -> u64 {
    position.saturating_sub(32) / 32 * 10
}

// How a line of an offer or a claim ends.
pub fn accepted(rt: &impl Print, answer: Result<i64, Error>) -> io::Result<()> {
    match answer {
        Ok(position) => {
            let finds = block(position.cast_unsigned());
            println!(rt; ": accepted, next position {position}, finds from {finds}")
        }
        Err(e) => println!(rt; ": {}", Refusal(e)),
    }
}

// How a line of another call ends.
pub fn outcome(rt: &impl Print, answer: Result<(), Error>) -> io::Result<()> {
    match answer {
        Ok(()) => println!(rt; ": done"),
        Err(e) => println!(rt; ": {}", Refusal(e)),
    }
}

pub fn publisher(rt: &impl Print, rec: LogRecord) -> io::Result<()> {
    print!(rt; "publisher's position before the close: ")?;
    match positions::position(rec) {
        Ok(position) => println!(rt; "{position}"),
        Err(e) => println!(rt; "{}", Refusal(e)),
    }
}
