// The log at work: two writers catalogue their finds into one log, then a replay reads it back. Each call is printed with its answer.
// writers.rt makes the calls, back.rt replays, season.rt goes on for twelve terms, tell.rt has the words; docs/GUIDE.md explains terms, frames and positions.
#![tactic(auto)]

mod back;
mod season;
mod tell;
mod writers;

use model::{Claim, LogRecord};
use replay::Replay;
use std::io;

// The limit stands two terms ahead of the slowest reader, here at 0. A message may end past the limit, for its start is judged, and one
// that came to lie three terms ahead would overwrite what was not read yet.
fn first_calls(rt: &impl Print, rec: LogRecord, log: &mut [u8]) -> io::Result<LogRecord> {
    tell::heading(rt, "Nothing is accepted before a limit is set")?;
    let next = writers::offer(rt, 'A', rec, log, "coin, bronze, trench A")?;
    writers::set_limit(rt, next, 131072)
}

fn short_offers(rt: &impl Print, rec: LogRecord, log: &mut [u8]) -> io::Result<LogRecord> {
    tell::heading(
        rt,
        "Offers. A frame is a header of 32 bytes and a body, rounded up to a multiple of 32",
    )?;
    let finds = [
        ('A', "coin, bronze, trench A"),
        ('B', "sherd, red slip, trench B"),
        ('A', ""),
    ];
    let mut next = rec;
    for (writer, find) in finds {
        next = writers::offer(rt, writer, next, log, find)?;
    }
    Ok(next)
}

// The first just fits one frame, the second needs two, the third three.
fn long_offers(rt: &impl Print, rec: LogRecord, log: &mut [u8]) -> io::Result<LogRecord> {
    let finds = [
        ('B', "find list, trench B", 1376),
        ('A', "sketch plan, trench A", 1377),
        ('B', "day book, trench B", 4000),
    ];
    let mut next = rec;
    for (writer, text, n) in finds {
        next = writers::long_offer(rt, writer, next, log, text, n)?;
    }
    Ok(next)
}

fn committed_claim(rt: &impl Print, rec: LogRecord, log: &mut [u8]) -> io::Result<LogRecord> {
    tell::heading(
        rt,
        "Claims: room in the log, written in place, then committed or aborted",
    )?;
    let bead = writers::claim(rt, 'B', rec, log, 26)?;
    let next = bead.next;
    if let Ok(claimed) = bead.answer {
        let claim = claimed.claim;
        writers::write(rt, 'B', next, log, claim, "bead, blue glass, trench B")?;
        writers::commit(rt, 'B', next, log, claim)?;
        writers::commit(rt, 'B', next, log, claim)?;
    }
    Ok(next)
}

fn aborted_claim(rt: &impl Print, rec: LogRecord, log: &mut [u8]) -> io::Result<LogRecord> {
    let dropped = writers::claim(rt, 'A', rec, log, 24)?;
    if let Ok(claimed) = dropped.answer {
        writers::abort(rt, 'A', dropped.next, log, claimed.claim)?;
    }
    Ok(dropped.next)
}

fn refused_calls(rt: &impl Print, rec: LogRecord, log: &mut [u8]) -> io::Result<LogRecord> {
    tell::heading(rt, "Refused, and nothing changes")?;
    let long = writers::claim(rt, 'B', rec, log, 2000)?;
    let negative = writers::claim(rt, 'A', long.next, log, -1)?;
    writers::long_offer(rt, 'A', negative.next, log, "site plan, trench A", 8193)
}

// Six of the longest messages still fit the first term. The seventh does not: its call is refused, and made again.
fn photos(rt: &impl Print, rec: LogRecord, log: &mut [u8]) -> io::Result<LogRecord> {
    tell::heading(rt, "The first term fills up")?;
    let photos = [
        ('A', "photo 1, trench A"),
        ('B', "photo 2, trench B"),
        ('A', "photo 3, trench A"),
        ('B', "photo 4, trench B"),
        ('A', "photo 5, trench A"),
        ('B', "photo 6, trench B"),
        ('A', "photo 7, trench A"),
        ('A', "photo 7, trench A"),
    ];
    let mut next = rec;
    for (writer, text) in photos {
        next = writers::long_offer(rt, writer, next, log, text, 8192)?;
    }
    writers::offer(rt, 'B', next, log, "pin, bone, trench B")
}

// What comes back, up to the claim that is still open; then that claim is committed, and the rest comes back.
fn read_back(rt: &impl Print, rec: LogRecord, log: &mut [u8], open: Claim) -> io::Result<()> {
    let mut buffer = [0u8; 131072];
    tell::heading(
        rt,
        "The replay, from position 0, each message with the position behind it",
    )?;
    let start = Replay::new(0, rec.session_id);
    let before = back::read_on(rt, start, rec, log, &mut buffer)?;
    back::stopped(rt, before, rec, log)?;
    writers::write(rt, 'A', rec, log, open, "lamp, clay, trench A")?;
    writers::commit(rt, 'A', rec, log, open)?;
    let behind = back::read_on(rt, before, rec, log, &mut buffer)?;
    back::stopped(rt, behind, rec, log)
}

// Commits work after the close, and so does reading. A closed publication refuses its position, so the record before it is asked.
fn after_close(rt: &impl Print, rec: LogRecord, log: &mut [u8], open: Claim) -> io::Result<()> {
    let closed = writers::close(rt, rec)?;
    let next = writers::offer(rt, 'A', closed, log, "ring, silver, trench A")?;
    read_back(rt, next, log, open)?;
    println!(rt)?;
    back::count(rt, next, log)?;
    tell::publisher(rt, rec)
}

fn open_claim(rt: &impl Print, rec: LogRecord, log: &mut [u8]) -> io::Result<()> {
    tell::heading(
        rt,
        "A claim stays open, an offer lies behind it, and the publication closes",
    )?;
    let lamp = writers::claim(rt, 'A', rec, log, 20)?;
    let next = writers::offer(rt, 'B', lamp.next, log, "nail, iron, trench B")?;
    match lamp.answer {
        Ok(claimed) => after_close(rt, next, log, claimed.claim),
        Err(_) => Ok(()),
    }
}

fn run(rt: &impl Print) -> io::Result<()> {
    let mut log = [0u8; 196608];
    let opened = writers::open(rt, &mut log, 65536, 1408)?;
    let limited = first_calls(rt, opened, &mut log)?;
    let short = short_offers(rt, limited, &mut log)?;
    let long = long_offers(rt, short, &mut log)?;
    let committed = committed_claim(rt, long, &mut log)?;
    let aborted = aborted_claim(rt, committed, &mut log)?;
    let refused = refused_calls(rt, aborted, &mut log)?;
    let full = photos(rt, refused, &mut log)?;
    open_claim(rt, full, &mut log)?;
    let again = writers::open(rt, &mut log, 65536, 1408)?;
    season::run(rt, again, &mut log)
}

// What cannot be written is lost, and the program ends as it ends where all is written.
fn main(rt: HostRuntime) {
    let _ = run(&rt);
}
