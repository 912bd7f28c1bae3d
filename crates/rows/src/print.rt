// A line for an answer: its call, its number, its value, and the active term count of the record after it; of an offer or a claim also the rule that
// decided. The value of a frame that is refused is its place.
use crate::rules;
use logbuffer::errors;
use model::{
    AppendReply, Appended, ClaimReply, Error, GapScanned, LogRecord, OfferReply, RecordReply, Rule,
    TermRead,
};
use std::io;

// The line without its end.
fn head(rt: &impl Print, name: &str, number: i32, value: u64, rec: LogRecord) -> io::Result<()> {
    let count = rec.active_term_count;
    print!(rt; "{name}: number {number}, value {value}, count {count}")
}

pub fn line(
    rt: &impl Print,
    name: &str,
    number: i32,
    value: u64,
    rec: LogRecord,
) -> io::Result<()> {
    head(rt, name, number, value, rec)?;
    println!(rt)
}

// The number and the value of an answer: 0 and what is answered, or a refusal and its place.
fn number_and_value(answer: Result<u64, Error>) -> (i32, u64) {
    match answer {
        Ok(value) => (0, value),
        Err(refusal) => (errors::number(refusal), u64::from(errors::place(refusal))),
    }
}

fn answered(
    rt: &impl Print,
    name: &str,
    rec: LogRecord,
    answer: Result<u64, Error>,
) -> io::Result<()> {
    let (number, value) = number_and_value(answer);
    line(rt, name, number, value, rec)
}

fn decided(
    rt: &impl Print,
    name: &str,
    rec: LogRecord,
    answer: Result<i64, Error>,
    rule: Rule,
) -> io::Result<()> {
    let (number, value) = number_and_value(answer.map(|position| position.cast_unsigned()));
    head(rt, name, number, value, rec)?;
    println!(rt;
        ", rule {} {}",
        publication::rule::place(rule),
        rules::name(rule)
    )
}

pub fn offered(rt: &impl Print, name: &str, reply: OfferReply) -> io::Result<()> {
    decided(rt, name, reply.next, reply.answer, reply.rule)
}

pub fn claimed(rt: &impl Print, name: &str, reply: ClaimReply) -> io::Result<()> {
    let answer = reply.answer.map(|claimed| claimed.position);
    decided(rt, name, reply.next, answer, reply.rule)
}

pub fn changed(rt: &impl Print, name: &str, reply: RecordReply) -> io::Result<()> {
    done(rt, name, reply.next, reply.answer)
}

pub fn done(
    rt: &impl Print,
    name: &str,
    rec: LogRecord,
    answer: Result<(), Error>,
) -> io::Result<()> {
    answered(rt, name, rec, answer.map(|()| 0))
}

pub fn appended(rt: &impl Print, name: &str, reply: AppendReply) -> io::Result<()> {
    let answer = match reply.answer {
        Appended::Offset(end) => Ok(end as u64),
        Appended::Tripped => Ok(0),
        Appended::Refused(refusal) => Err(refusal),
    };
    answered(rt, name, reply.next, answer)
}

pub fn scanned(
    rt: &impl Print,
    name: &str,
    rec: LogRecord,
    answer: Result<usize, Error>,
) -> io::Result<()> {
    answered(rt, name, rec, answer.map(|offset| offset as u64))
}

pub fn term_read(
    rt: &impl Print,
    name: &str,
    rec: LogRecord,
    answer: Result<TermRead, Error>,
) -> io::Result<()> {
    scanned(rt, name, rec, answer.map(|read| read.offset))
}

pub fn gap_scanned(
    rt: &impl Print,
    name: &str,
    rec: LogRecord,
    answer: Result<GapScanned, Error>,
) -> io::Result<()> {
    let offset = answer.map(|scanned| match scanned {
        GapScanned::Gap(_, offset, _, _) | GapScanned::NoGap(offset) => offset,
    });
    self::scanned(rt, name, rec, offset)
}

pub fn available(
    rt: &impl Print,
    name: &str,
    rec: LogRecord,
    answer: Result<i64, Error>,
) -> io::Result<()> {
    answered(rt, name, rec, answer.map(|n| n.cast_unsigned()))
}
