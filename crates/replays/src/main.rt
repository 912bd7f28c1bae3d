// A mixed list of calls, and the replay of the log that it leaves. A call's line says what it answered; then comes one line for each
// message that the replay gives: where it lies (0 the log, 1 the lent buffer), its length, its first and its last byte. The messages are those
// offered and committed, in order; refused offers and aborted claims leave none, and an open claim hides what lies behind it. Then the count,
// and a replay whose lent buffer has parts of one byte: 18. Last the same list from the largest term id on, so that its second term has the
// lowest (R-8 of document 02): the same lines again.
#![tactic(auto)]

use logbuffer::{buffer_claim, errors};
use model::{ClaimReply, Error, LogRecord, Replayed};
use publication::{opening, positions};
use replay::{Counted, Replay};
use std::io;

// A call's line: its refusal's number, 0 for none, and its position.
fn tell(rt: &impl Print, name: &str, answer: Result<i64, Error>) -> io::Result<()> {
    let number = answer.map_or_else(errors::number, |_| 0);
    let position = answer.unwrap_or(0);
    println!(rt; "{name}: number {number}, position {position}")
}

fn offer(
    rt: &impl Print,
    name: &str,
    rec: LogRecord,
    log: &mut [u8],
    message: &[u8],
) -> io::Result<LogRecord> {
    let reply = publication::offer(rec, log, message, 0);
    tell(rt, name, reply.answer)?;
    Ok(reply.next)
}

fn claim(
    rt: &impl Print,
    name: &str,
    rec: LogRecord,
    log: &mut [u8],
    n: i32,
) -> io::Result<ClaimReply> {
    let reply = publication::try_claim(rec, log, n);
    tell(rt, name, reply.answer.map(|claimed| claimed.position))?;
    Ok(reply)
}

// Small messages.
fn small_calls(rt: &impl Print, rec: LogRecord, log: &mut [u8]) -> io::Result<LogRecord> {
    let message = [1u8; 200];
    let next = offer(rt, "offer 10", rec, log, &message[..10])?;
    offer(rt, "offer 200", next, log, &message)
}

// The claim's body begins with 7.
fn committed_claim(rt: &impl Print, rec: LogRecord, log: &mut [u8]) -> io::Result<LogRecord> {
    let reply = claim(rt, "claim 20", rec, log, 20)?;
    let next = reply.next;
    if let Ok(claimed) = reply.answer {
        let _ = buffer_claim::write(next, log, claimed.claim, &[7]);
        let answer = buffer_claim::commit(next, log, claimed.claim);
        tell(rt, "commit", answer.map(|()| 0))?;
    }
    Ok(next)
}

fn aborted_claim(rt: &impl Print, rec: LogRecord, log: &mut [u8]) -> io::Result<LogRecord> {
    let reply = claim(rt, "claim 30", rec, log, 30)?;
    let next = reply.next;
    if let Ok(claimed) = reply.answer {
        let _ = buffer_claim::write(next, log, claimed.claim, &[7]);
        let answer = buffer_claim::abort(next, log, claimed.claim);
        tell(rt, "abort", answer.map(|()| 0))?;
    }
    Ok(next)
}

// Offers under a limit that is set first: the first is refused for it, the last for its length.
fn limited_calls(rt: &impl Print, rec: LogRecord, log: &mut [u8]) -> io::Result<LogRecord> {
    let message = [2u8; 8193];
    let cases = [
        ("offer 64, limit 0", 0, 64),
        ("offer 0", 1099511627776, 0),
        ("offer 8193", 1099511627776, 8193),
    ];
    let mut next = rec;
    for (name, limit, n) in cases {
        let limited = positions::set_publication_limit(next, limit).next;
        next = offer(rt, name, limited, log, support::part(&message, 0, n))?;
    }
    Ok(next)
}

// Long messages, over the end of a term, four times over; each time they begin with another byte.
fn long_calls(rt: &impl Print, rec: LogRecord, log: &mut [u8]) -> io::Result<LogRecord> {
    let cases = [("offer 8192", 8192), ("offer 8191", 8191), ("offer 65", 65)];
    let mut message = [3u8; 8192];
    let mut next = rec;
    for first in 4..=7 {
        message[0] = first;
        for (name, n) in cases {
            next = offer(rt, name, next, log, support::part(&message, 0, n))?;
        }
    }
    Ok(next)
}

// Nothing from an open claim on comes back. The last offer comes after the close.
fn last_calls(rt: &impl Print, rec: LogRecord, log: &mut [u8]) -> io::Result<LogRecord> {
    let message = [8u8; 10];
    let open = claim(rt, "claim 10, left open", rec, log, 10)?;
    let behind = offer(rt, "offer 10", open.next, log, &message)?;
    let closed = positions::close(behind).next;
    offer(rt, "offer 10, closed", closed, log, &message)
}

// The list of calls, on a log opened for it.
fn calls(rt: &impl Print, initial_term_id: i32, log: &mut [u8]) -> io::Result<LogRecord> {
    let opened = opening::open_log(log, 65536, 96, initial_term_id, 11, 12);
    let fresh = positions::set_publication_limit(opened.next, 1099511627776).next;
    let small = small_calls(rt, fresh, log)?;
    let committed = committed_claim(rt, small, log)?;
    let aborted = aborted_claim(rt, committed, log)?;
    let limited = limited_calls(rt, aborted, log)?;
    let long = long_calls(rt, limited, log)?;
    last_calls(rt, long, log)
}

// A message that came back: where it lies, 0 the log and 1 the lent buffer, and its bytes.
fn message(rt: &impl Print, place: u8, bytes: &[u8]) -> io::Result<()> {
    let n = bytes.len();
    print!(rt; "message: in {place}, length {n}")?;
    if let (Some(first), Some(last)) = (bytes.first(), bytes.last()) {
        print!(rt; ", from {first} to {last}")?;
    }
    println!(rt)
}

// The first answers of a replay from position 0 on, so many of them.
fn tell_messages(
    rt: &impl Print,
    rec: LogRecord,
    log: &[u8],
    buffer: &mut [u8],
    answers: u32,
) -> io::Result<()> {
    let mut replay = Replay::new(0, 11);
    for _ in 0..answers {
        let reply = replay.next(rec, log, buffer);
        match reply.answer {
            Ok(Replayed::InLog(from, n)) => message(rt, 0, support::part(log, from, n))?,
            Ok(Replayed::InBuffer(from, n)) => message(rt, 1, support::part(buffer, from, n))?,
            Ok(Replayed::End) => println!(rt; "end")?,
            Err(e) => tell(rt, "replay", Err(e))?,
        }
        replay = reply.next;
    }
    Ok(())
}

// All fifteen messages and the end; then the count.
fn replay_all(rt: &impl Print, rec: LogRecord, log: &[u8]) -> io::Result<()> {
    let mut buffer = [0u8; 131072];
    tell_messages(rt, rec, log, &mut buffer, 16)?;
    match replay::count(rec, log, &mut buffer, 0, 11) {
        Ok(Counted { messages, bytes }) => println!(rt;
            "count: messages {messages}, bytes {bytes}"
        ),
        Err(e) => tell(rt, "count", Err(e)),
    }
}

fn run(rt: &impl Print) -> io::Result<()> {
    let mut log = [0u8; 196608];
    let rec = calls(rt, 7, &mut log)?;
    replay_all(rt, rec, &log)?;
    tell_messages(rt, rec, &log, &mut [0u8; 16], 2)?;
    println!(rt; "from the largest term id on")?;
    let over = calls(rt, 2147483647, &mut log)?;
    replay_all(rt, over, &log)
}

// What cannot be written is lost, and the program ends as it ends where all is written.
fn main(rt: HostRuntime) {
    let _ = run(&rt);
}
