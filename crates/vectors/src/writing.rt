// The calls that write the log: each one's arguments out of its vector, and its answer as numbers.
use crate::decode::Vector;
use crate::kinds::Write;
use crate::values::Values;
use logbuffer::cast::to_i64;
use logbuffer::{buffer_claim, term_appender};
use model::{Appended, AppendedClaim, Claim, Claimed, Error, LogRecord};
use publication::opening;

// The next record, and the answer.
#[derive(Clone, Copy)]
pub struct Ran {
    pub next: LogRecord,
    pub values: Values,
}

impl Ran {
    pub fn new(next: LogRecord, values: Values) -> Ran {
        Ran { next, values }
    }
}

fn open_log(v: Vector<'_>, log: &mut [u8]) -> Ran {
    let reply = opening::open_log(log, v.int(0), v.int(1), v.int(2), v.int(3), v.int(4));
    Ran::new(reply.next, Values::done(reply.answer))
}

fn offer(v: Vector<'_>, rec: LogRecord, log: &mut [u8]) -> Ran {
    let reply = publication::offer(rec, log, v.payload(), v.argument(0));
    Ran::new(reply.next, Values::positioned(reply.answer))
}

// The number 0, a position or an offset, and the claim's record.
fn claim_values(place: i64, claim: Claim) -> Values {
    Values::of(&[
        0,
        place,
        i64::from(claim.partition),
        i64::from(claim.offset),
        i64::from(claim.length),
        i64::from(claim.term_id),
    ])
}

fn claimed(answer: Result<Claimed, Error>) -> Values {
    match answer {
        Ok(Claimed { position, claim }) => claim_values(position, claim),
        Err(e) => Values::refused(e),
    }
}

fn try_claim(v: Vector<'_>, rec: LogRecord, log: &mut [u8]) -> Ran {
    let reply = publication::try_claim(rec, log, v.int(0));
    Ran::new(reply.next, claimed(reply.answer))
}

// A claim's record is a vector's first four arguments.
fn claim_of(v: Vector<'_>) -> Claim {
    Claim {
        partition: v.int(0),
        offset: v.int(1),
        length: v.int(2),
        term_id: v.int(3),
    }
}

// The payload goes into the lent body.
fn write_body(v: Vector<'_>, rec: LogRecord, log: &mut [u8]) -> Ran {
    let number = buffer_claim::body_number(rec, log, claim_of(v));
    let body = buffer_claim::body(rec, log, claim_of(v));
    support::copy(body, v.payload());
    Ran::new(rec, Values::of(&[i64::from(number)]))
}

fn commit(v: Vector<'_>, rec: LogRecord, log: &mut [u8]) -> Ran {
    let answer = buffer_claim::commit(rec, log, claim_of(v));
    Ran::new(rec, Values::done(answer))
}

fn abort(v: Vector<'_>, rec: LogRecord, log: &mut [u8]) -> Ran {
    let answer = buffer_claim::abort(rec, log, claim_of(v));
    Ran::new(rec, Values::done(answer))
}

// An append that tripped answers -2, as in the Rust.
fn appended(answer: Appended) -> Values {
    match answer {
        Appended::Offset(end) => Values::of(&[0, to_i64(end)]),
        Appended::Tripped => Values::of(&[0, -2]),
        Appended::Refused(e) => Values::refused(e),
    }
}

fn append_unfragmented(v: Vector<'_>, rec: LogRecord, log: &mut [u8]) -> Ran {
    let reply = term_appender::append_unfragmented_message(
        rec,
        log,
        v.int(0),
        v.payload(),
        v.argument(1),
        v.int(2),
    );
    Ran::new(reply.next, appended(reply.answer))
}

fn append_fragmented(v: Vector<'_>, rec: LogRecord, log: &mut [u8]) -> Ran {
    let reply = term_appender::append_fragmented_message(
        rec,
        log,
        v.int(0),
        v.payload(),
        v.argument(1),
        v.int(3),
        v.int(2),
    );
    Ran::new(reply.next, appended(reply.answer))
}

fn append_claim(v: Vector<'_>, rec: LogRecord, log: &mut [u8]) -> Ran {
    let reply = term_appender::claim(rec, log, v.int(0), v.int(1), v.int(2));
    let values = match reply.answer {
        AppendedClaim::Claimed(end, claim) => claim_values(to_i64(end), claim),
        AppendedClaim::Tripped => Values::of(&[0, -2]),
        AppendedClaim::Refused(e) => Values::refused(e),
    };
    Ran::new(reply.next, values)
}

pub fn run(kind: Write, v: Vector<'_>, rec: LogRecord, log: &mut [u8]) -> Ran {
    match kind {
        Write::OpenLog => open_log(v, log),
        Write::Offer => offer(v, rec, log),
        Write::TryClaim => try_claim(v, rec, log),
        Write::Body => write_body(v, rec, log),
        Write::Commit => commit(v, rec, log),
        Write::Abort => abort(v, rec, log),
        Write::AppendUnfragmented => append_unfragmented(v, rec, log),
        Write::AppendFragmented => append_fragmented(v, rec, log),
        Write::AppendClaim => append_claim(v, rec, log),
    }
}
