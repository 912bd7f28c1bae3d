// A season of twelve terms in a log of three (R-4 of document 02): two readers follow, one of them a term behind. Whenever a term is full the slowest
// reader's position is raised and the partition due next is cleared, so that the log can rotate into it once more.
use crate::tell::{self, Refusal};
use model::LogRecord;
use publication::{clearing, positions};
use std::io;

// A reader: where it stands, and how many messages it has had.
#[derive(Clone, Copy, Default)]
struct Reader {
    position: i64,
    messages: usize,
}

#[derive(Clone, Copy)]
struct Season {
    rec: LogRecord,
    ahead: Reader,
    behind: Reader,
}

fn publisher(rec: LogRecord) -> i64 {
    positions::position(rec).unwrap_or(0)
}

// All that lies between the reader and the publisher is counted, and the reader moves there.
fn read(rt: &impl Print, reader: Reader, rec: LogRecord, log: &[u8]) -> io::Result<Reader> {
    let mut buffer = [0u8; 131072];
    match replay::count(rec, log, &mut buffer, reader.position, rec.session_id) {
        Ok(counted) => Ok(Reader {
            position: publisher(rec),
            messages: reader.messages.saturating_add(counted.messages),
        }),
        Err(e) => {
            println!(rt; ": {}", Refusal(e))?;
            Ok(reader)
        }
    }
}

// A day book of 8,000 bytes takes 8,192 of the log, so that eight fill a term and the ninth offer rotates.
fn offer(rec: LogRecord, log: &mut [u8]) -> LogRecord {
    let message = [b'D'; 8000];
    publication::offer(rec, log, &message, 0).next
}

fn fill(rec: LogRecord, log: &mut [u8]) -> LogRecord {
    let mut next = rec;
    for _ in 0..8 {
        next = offer(next, log);
    }
    next
}

// The slowest reader is told to the log, and the partition due next is cleared.
fn make_room(
    rt: &impl Print,
    rec: LogRecord,
    log: &mut [u8],
    slowest: i64,
) -> io::Result<LogRecord> {
    let raised = clearing::set_slowest_position(rec, slowest).next;
    let due = (raised.active_term_count.cast_unsigned() % 3 + 1) % 3;
    let cleared = clearing::clear_partition(raised, log, due as i32);
    print!(rt; "; partition {due} cleared")?;
    tell::outcome(rt, cleared.answer)?;
    Ok(cleared.next)
}

fn print_standing(rt: &impl Print, season: Season) -> io::Result<()> {
    let term = season.rec.active_term_count;
    let position = publisher(season.rec);
    let ahead = season.ahead.messages;
    let behind = season.behind.messages;
    print!(rt; "term {term} is full at {position}; reader A has read {ahead}, reader B {behind}")
}

// One term: B reads what A read a term ago, the term fills up, A reads it, and there is room for the next, which one more offer turns to.
fn term(rt: &impl Print, season: Season, log: &mut [u8]) -> io::Result<Season> {
    let behind = read(rt, season.behind, season.rec, log)?;
    let rec = fill(season.rec, log);
    let ahead = read(rt, season.ahead, rec, log)?;
    print_standing(rt, Season { rec, ahead, behind })?;
    let ready = make_room(rt, rec, log, behind.position)?;
    let rec = offer(ready, log);
    Ok(Season { rec, ahead, behind })
}

pub fn run(rt: &impl Print, rec: LogRecord, log: &mut [u8]) -> io::Result<()> {
    tell::heading(
        rt,
        "A season of twelve terms in a log of three, with two readers",
    )?;
    let mut season = Season {
        rec: positions::set_publication_limit(rec, 4611686018427387904).next,
        ahead: Reader::default(),
        behind: Reader::default(),
    };
    for _ in 0..12 {
        season = term(rt, season, log)?;
    }
    let last = read(rt, season.behind, season.rec, log)?;
    let ahead = season.ahead.messages;
    let behind = last.messages;
    println!(rt; "reader A has read {ahead} messages, reader B {behind}")
}
