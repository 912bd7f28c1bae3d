// The way of an append for a caller who has read the record's numbers, and the reply that it makes. The next record is built once, from
// the raw tail that the way carries. Read term_appender next.
ghost use Rattle.std.specs.Prelude.{◌≡◌, ◌<◌};
ghost use Rattle.model.specs.LogBufferDescriptor.{changed};
ghost use Rattle.model.proofs.Append.{Room};
ghost use Rattle.logbuffer.specs.Ways.{no_way, way_by, moved_with, appended_with, claimed_with, reply_with, claim_reply_with};

use crate::cast;
use model::{
    AppendClaimReply, AppendReply, Appended, AppendedClaim, Claim, Course, Error, LogRecord,
    Reading,
};

// How an append goes, the offset after it, and the raw tail that moves; 0 both where it is refused.
#[derive(Clone, Copy)]
pub struct Way {
    pub course: Course,
    pub end: usize,
    pub tail: i64,
}

pub(crate) fn refused(e: Error) -> Way
    ensures { result ≡ no_way e }
{
    Way {
        course: Course::Refuse(e),
        end: 0,
        tail: 0,
    }
}

pub(crate) fn way_by(v: Reading, needed: usize, course: Course) -> Way
    requires { (v.id < 4294967296) × Room v needed course }
    ensures { result ≡ way_by v needed course }
{
    if let Course::Refuse(e) = course {
        return refused(e);
    }
    let end = v.offset + needed;
    Way {
        course: course,
        end: end,
        tail: cast::to_i64(v.id * 4294967296 + end),
    }
}

// ---- the reply

// The record with its tails changed, field by field: a copy of the whole would carry its padding through memory.
fn with_tails(rec: LogRecord, tails: [i64; 3]) -> LogRecord
    ensures { result ≡ changed rec tails rec.active_term_count rec.publication_limit rec.is_closed }
{
    let marks = rec.is_cleared;
    LogRecord {
        tails: tails,
        active_term_count: rec.active_term_count,
        initial_term_id: rec.initial_term_id,
        term_length: rec.term_length,
        mtu_length: rec.mtu_length,
        session_id: rec.session_id,
        stream_id: rec.stream_id,
        is_connected: rec.is_connected,
        publication_limit: rec.publication_limit,
        end_of_stream_position: rec.end_of_stream_position,
        is_closed: rec.is_closed,
        slowest_position: rec.slowest_position,
        is_cleared: marks,
        active_transport_count: rec.active_transport_count,
        correlation_id: rec.correlation_id,
        page_size: rec.page_size,
    }
}

// With partition k's tail at the way's; every index is a constant, so that the tails need not stand in memory.
fn moved(rec: LogRecord, k: usize, way: Way) -> LogRecord
    ensures { result ≡ moved_with rec k way way.course }
{
    let course = way.course;
    if let Course::Refuse(_) = course {
        return rec;
    }
    let tail = way.tail;
    let mut tails = rec.tails;
    if k == 0 {
        tails[0] = tail;
        return with_tails(rec, tails);
    }
    if k == 1 {
        tails[1] = tail;
        return with_tails(rec, tails);
    }
    if k == 2 {
        tails[2] = tail;
        return with_tails(rec, tails);
    }
    rec
}

fn appended(way: Way) -> Appended
    ensures { result ≡ appended_with way way.course }
{
    let course = way.course;
    match course {
        Course::Refuse(e) => Appended::Refused(e),
        Course::Stray => Appended::Refused(Error::ActionPossiblyDelayed),
        Course::Trip => Appended::Tripped,
        Course::Fit => Appended::Offset(way.end),
    }
}

fn claimed(way: Way, claim: Claim) -> AppendedClaim
    ensures { result ≡ claimed_with way claim way.course }
{
    let course = way.course;
    match course {
        Course::Refuse(e) => AppendedClaim::Refused(e),
        Course::Stray => AppendedClaim::Refused(Error::ActionPossiblyDelayed),
        Course::Trip => AppendedClaim::Tripped,
        Course::Fit => AppendedClaim::Claimed(way.end, claim),
    }
}

// An append into partition k that went this way.
pub fn append_reply(rec: LogRecord, partition: usize, way: Way) -> AppendReply
    ensures { result ≡ reply_with rec partition way }
{
    let next = moved(rec, partition, way);
    AppendReply {
        next: next,
        answer: appended(way),
    }
}

// A claiming append, with the claim's record, which only a claim that fits answers.
pub fn claim_reply(rec: LogRecord, partition: usize, way: Way, claim: Claim) -> AppendClaimReply
    ensures { result ≡ claim_reply_with rec partition way claim }
{
    let next = moved(rec, partition, way);
    AppendClaimReply {
        next: next,
        answer: claimed(way, claim),
    }
}
