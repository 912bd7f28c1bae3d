// The writers' calls, each printed with its answer: opening, limit, offers, claims, closing. main.rt has them in order.
use crate::back;
use crate::tell::{self, Quoted};
use logbuffer::{buffer_claim, frame_descriptor};
use model::{Claim, ClaimReply, LogRecord};
use publication::{opening, positions};
use std::io;

// Session 11 of stream 12, from term id 7 on.
pub fn open(
    rt: &impl Print,
    log: &mut [u8],
    term_length: i32,
    mtu_length: i32,
) -> io::Result<LogRecord> {
    let reply = opening::open_log(log, term_length, mtu_length, 7, 11, 12);
    print!(rt; "open a log of three terms of {term_length} bytes, mtu {mtu_length}")?;
    tell::outcome(rt, reply.answer)?;
    if reply.answer.is_ok() {
        print_limits(rt, reply.next)?;
    }
    Ok(reply.next)
}

// What follows from the mtu and the term length.
fn print_limits(rt: &impl Print, rec: LogRecord) -> io::Result<()> {
    let payload = rec.mtu_length.saturating_sub(32);
    let message = frame_descriptor::compute_max_message_length(rec.term_length.cast_unsigned());
    println!(rt; "    payload limit {payload}, message limit {message}")
}

pub fn set_limit(rt: &impl Print, rec: LogRecord, limit: i64) -> io::Result<LogRecord> {
    let reply = positions::set_publication_limit(rec, limit);
    print!(rt; "set the publication limit to {limit}")?;
    tell::outcome(rt, reply.answer)?;
    Ok(reply.next)
}

pub fn close(rt: &impl Print, rec: LogRecord) -> io::Result<LogRecord> {
    let reply = positions::close(rec);
    print!(rt; "close the publication")?;
    tell::outcome(rt, reply.answer)?;
    Ok(reply.next)
}

fn offer_bytes(
    rt: &impl Print,
    writer: char,
    rec: LogRecord,
    log: &mut [u8],
    message: &[u8],
) -> io::Result<LogRecord> {
    let n = message.len();
    print!(rt; "writer {writer} offers {n} bytes {}", Quoted(message))?;
    let reply = publication::offer(rec, log, message, 0);
    tell::accepted(rt, reply.answer)?;
    if reply.next.active_term_count != rec.active_term_count {
        back::padded(rt, rec, reply.next, log)?;
    }
    Ok(reply.next)
}

pub fn offer(
    rt: &impl Print,
    writer: char,
    rec: LogRecord,
    log: &mut [u8],
    text: &str,
) -> io::Result<LogRecord> {
    offer_bytes(rt, writer, rec, log, text.as_bytes())
}

// A message of n bytes, at most 8193: a text, then dots.
pub fn long_offer(
    rt: &impl Print,
    writer: char,
    rec: LogRecord,
    log: &mut [u8],
    text: &str,
    n: usize,
) -> io::Result<LogRecord> {
    let mut message = [b'.'; 8193];
    support::copy(&mut message, text.as_bytes());
    offer_bytes(rt, writer, rec, log, support::part(&message, 0, n))
}

pub fn claim(
    rt: &impl Print,
    writer: char,
    rec: LogRecord,
    log: &mut [u8],
    n: i32,
) -> io::Result<ClaimReply> {
    print!(rt; "writer {writer} claims {n} bytes")?;
    let reply = publication::try_claim(rec, log, n);
    tell::accepted(rt, reply.answer.map(|claimed| claimed.position))?;
    Ok(reply)
}

// The text goes where the claim lies in the log; of a claim that is not open no byte is lent.
pub fn write(
    rt: &impl Print,
    writer: char,
    rec: LogRecord,
    log: &mut [u8],
    claim: Claim,
    text: &str,
) -> io::Result<()> {
    let body = buffer_claim::body(rec, log, claim);
    let n = body.len().min(text.len());
    support::copy(body, text.as_bytes());
    println!(rt;
        "writer {writer} writes {} into the claim: {n} bytes",
        Quoted(text.as_bytes())
    )
}

pub fn commit(
    rt: &impl Print,
    writer: char,
    rec: LogRecord,
    log: &mut [u8],
    claim: Claim,
) -> io::Result<()> {
    print!(rt; "writer {writer} commits the claim")?;
    tell::outcome(rt, buffer_claim::commit(rec, log, claim))
}

pub fn abort(
    rt: &impl Print,
    writer: char,
    rec: LogRecord,
    log: &mut [u8],
    claim: Claim,
) -> io::Result<()> {
    print!(rt; "writer {writer} aborts the claim")?;
    tell::outcome(rt, buffer_claim::abort(rec, log, claim))
}
