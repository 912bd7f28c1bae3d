// A find is weighed again and described anew, and which card holds is asked between several positions; then the small input of each refusal, and which of two
// comes first. A line is a name, the refusal's number or 0, and where the walk ended, or the place of a frame that is refused; then the card that holds by its
// bits and fields, where the message that each field is from ends, and the note. The stored output was worked out from document 02.
#![tactic(auto)]

mod print;

use crate::print::{End, Refusal};
use holding::Answer;
use model::{Error, LogRecord};
use publication::{opening, positions};
use std::io;

// The position of an offer or a claim.
fn tell(rt: &impl Print, name: &str, answer: Result<i64, Error>) -> io::Result<()> {
    match answer {
        Ok(position) => println!(rt; "{name}: {position}"),
        Err(e) => println!(rt; "{name}: {}", Refusal(e)),
    }
}

fn claim(
    rt: &impl Print,
    name: &str,
    rec: LogRecord,
    log: &mut [u8],
    length: i32,
) -> io::Result<LogRecord> {
    let reply = publication::try_claim(rec, log, length);
    tell(rt, name, reply.answer.map(|claimed| claimed.position))?;
    Ok(reply.next)
}

// Find 7 in trench 3, context 12, of 10 grams, a rim; find 8; find 7 of 9.5 grams; find 7 with a note of 80 bytes, which takes two frames; and a
// message that is no card. Then a claim stays open.
fn fill(rt: &impl Print, rec: LogRecord, log: &mut [u8]) -> io::Result<LogRecord> {
    let messages: [(&str, &[u8]); 5] = [
        ("found", b"\x37\x07\0\0\0\x03\0\x0c\0\x64\0\0\0\x03rim"),
        ("another find", b"\x11\x08\0\0\0\x05\0\0\0"),
        ("weighed again", b"\x11\x07\0\0\0\x5f\0\0\0"),
        (
            "described anew",
            b"\x21\x07\0\0\0\x50--------------------------------------------------------------------------------",
        ),
        ("no card", b"good morning"),
    ];
    let mut next = rec;
    for (name, message) in messages {
        let reply = publication::offer(next, log, message, 0);
        tell(rt, name, reply.answer)?;
        next = reply.next;
    }
    claim(rt, "a claim left open", next, log, 9)
}

fn ask(
    rt: &impl Print,
    name: &str,
    rec: LogRecord,
    log: &[u8],
    find: u32,
    from: i64,
    to: i64,
) -> io::Result<()> {
    let holding = holding::card_that_holds(rec, log, find, from, to);
    match holding.answer {
        Ok(Answer::Holds(position, stop)) => {
            print!(rt; "{name}: 0 {}", End(position, stop))?;
            print::held(rt, &holding)
        }
        Ok(Answer::NoCard(position, stop)) => println!(rt; "{name}: 24 {}", End(position, stop)),
        Err(e) => println!(rt; "{name}: {}", Refusal(e)),
    }
}

// Finds with a card and without.
fn finds(rt: &impl Print, rec: LogRecord, log: &[u8]) -> io::Result<()> {
    let cases = [
        ("find 7", 7, 0, 65536),
        ("find 8", 8, 0, 65536),
        ("find 7 when it was weighed", 7, 0, 192),
        ("find 7 since it was found, half a note", 7, 64, 288),
        ("24 find 9", 9, 0, 65536),
        ("24 equal positions", 7, 64, 64),
        ("24 the end of a note", 7, 288, 416),
        ("24 the open claim", 7, 416, 480),
        ("24 a free place", 7, 480, 512),
    ];
    for (name, find, from, to) in cases {
        ask(rt, name, rec, log, find, from, to)?;
    }
    Ok(())
}

// The other refusals, whatever the find: that of the rows is 9, which has no card.
fn rows(rt: &impl Print, rec: LogRecord, log: &[u8]) -> io::Result<()> {
    let broken = LogRecord {
        term_length: 65537,
        ..rec
    };
    let cases = [
        ("1 from 64 to 0", rec, 64, 0),
        ("1 over three terms apart", rec, 0, 196640),
        ("2 term length 65537", broken, 0, 64),
        ("3 from 8", rec, 8, 64),
        ("3 to 8", rec, 0, 8),
        ("22 length 5", rec, 1024, 2048),
        ("23 past the term", rec, 65504, 65536),
        ("1 before 2 and 3", broken, 72, 8),
        ("2 before 3", broken, 8, 72),
        ("3 before 22", rec, 1024, 1032),
    ];
    for (name, rec, from, to) in cases {
        ask(rt, name, rec, log, 9, from, to)?;
    }
    Ok(())
}

fn run(rt: &impl Print) -> io::Result<()> {
    let mut log = [0u8; 196608];
    let opened = opening::open_log(&mut log, 65536, 96, 7, 11, 22);
    let limited = positions::set_publication_limit(opened.next, 65536);
    let rec = fill(rt, limited.next, &mut log)?;
    support::put(&mut log, 1024, &[5]);
    support::put(&mut log, 65504, &[33, 0, 0, 0, 0, 192, 1]);
    finds(rt, rec, &log)?;
    rows(rt, rec, &log)
}

// What cannot be written is lost, and the program ends as it ends where all is written.
fn main(rt: HostRuntime) {
    let _ = run(&rt);
}
