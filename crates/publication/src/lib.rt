// The publication above the leaf library, of which it knows only the promises: offers and claims. Read judge next.
#![tactic(auto)]

ghost use Rattle.std.specs.Prelude.{◌≡◌, ◌+◌, ◌*◌, ◌%◌, ◌≤◌, ◌<◌, length as length_of, Ok};
ghost use Rattle.model.specs.Bytes.{word, long};
ghost use Rattle.model.specs.FrameDescriptor.{space};
ghost use Rattle.model.specs.LogBufferDescriptor.{reading_of, reading};
ghost use Rattle.model.specs.Publication.{before_append, trip_next, trip_error, offer_of, offer_bytes, claim_verdict, claim_of, claim_bytes};
ghost use Rattle.model.proofs.Sound.{Bounds};
ghost use Rattle.model.proofs.Append.{append_reply, append_bytes, claiming_reply, claiming_bytes};
ghost use Rattle.model.proofs.OfferLaws.{Turns};
ghost use Rattle.model.proofs.RuleLaws.{trip_rule};
ghost use Rattle.publication.specs.Trips.{next_marked};

use logbuffer::data_frame_header::HEADER_LENGTH;
use logbuffer::{cast, log_buffer_descriptor, term_appender, way};
use model::{
    AppendClaimReply, AppendReply, Appended, AppendedClaim, Claim, ClaimReply, Claimed, Error,
    LogRecord, OfferReply, Reading, Rule,
};

pub mod clearing;
pub mod fit;
mod judge;
mod judge_claim;
pub mod opening;
pub mod positions;
pub mod rule;

// What an offer or a claim that tripped leaves and answers.
#[derive(Clone, Copy)]
struct Trip {
    next: LogRecord,
    error: Error,
    rule: Rule,
}

// The term id of partition k's tail, as a rotation and a claim's record take it. Every index is a constant, so that the tails need not stand
// in memory.
fn own_term_id(rec: LogRecord, k: usize) -> i32
    requires { k < 3 }
    ensures { word result ≡ (reading_of rec k).id }
{
    if k == 0 {
        return log_buffer_descriptor::term_id(rec.tails[0]);
    }
    if k == 1 {
        return log_buffer_descriptor::term_id(rec.tails[1]);
    }
    log_buffer_descriptor::term_id(rec.tails[2])
}

// After a trip: 7, 12, 19 where the next partition is not marked, or rotated and 6. `next` is the record with the tail moved; its count and term
// id are handed to the rotation. The active term begins at `begin`.
fn after_trip(next: LogRecord, v: Reading, begin: usize, count: i32, term_id: i32) -> Trip
    requires { Bounds v × ((begin ≡ v.count * v.term) × Turns next v count term_id) }
    ensures { (result.next ≡ trip_next next v (next_marked next v)) × ((result.error ≡ trip_error v (next_marked next v)) × (result.rule ≡ trip_rule v (next_marked next v))) }
{
    let term = v.term;
    let active = v.count;
    let offset = v.offset;
    if begin + offset + offset > term * 2147483648 {
        return Trip {
            next: next,
            error: Error::MaxPositionExceeded,
            rule: Rule::TripPastMaxPosition,
        };
    }
    if active == 2147483647 {
        return Trip {
            next: next,
            error: Error::LastTerm,
            rule: Rule::LastTerm,
        };
    }
    if !log_buffer_descriptor::is_marked(next, (active + 1) % 3) {
        return Trip {
            next: next,
            error: Error::NotCleared,
            rule: Rule::NotCleared,
        };
    }
    let turned = log_buffer_descriptor::rotate_log(next, count, term_id);
    let last = turned.next;
    Trip {
        next: last,
        error: Error::AdminAction,
        rule: Rule::TermRotated,
    }
}

// ---- offer

// One frame or as many as the message needs, at partition k, whose numbers are read.
fn append_message(
    rec: LogRecord,
    log: &mut [u8],
    v: Reading,
    k: usize,
    payload: usize,
    message: &[u8],
    reserved: i64,
) -> AppendReply
    requires { (v ≡ reading_of rec k) × ((k ≤ 2) × ((32 ≤ payload) × ((payload ≤ 65472) × ((payload % 32 ≡ 0) × (length_of message.now ≤ 2147483647))))) }
    ensures value { result ≡ append_reply rec log.old k payload message.now v.id }
    ensures log_after { log.new ≡ append_bytes rec log.old k payload message.now (long reserved) v.id }
{
    if message.len() <= payload {
        let way = term_appender::append_one(v, log, k, message, reserved, v.id);
        return way::append_reply(rec, k, way);
    }
    let numbers = v;
    let way = term_appender::append_way(numbers, log, k, payload, message, reserved, v.id);
    way::append_reply(rec, k, way)
}

// The append of an offer that nothing refuses before it, and what its answer leads to.
fn offer_on(rec: LogRecord, log: &mut [u8], v: Reading, message: &[u8], reserved: i64) -> OfferReply
    requires { (v ≡ reading rec) × (before_append v (length_of log.old) (length_of message.now) (Ok tt) ≡ Ok tt) }
    ensures value { result ≡ offer_of rec log.old message.now }
    ensures log_after { log.new ≡ offer_bytes rec log.old message.now reserved }
{
    let mtu = v.mtu;
    let count = v.count;
    let begin = judge::begin_position(v);
    let payload = mtu - HEADER_LENGTH;
    let a = append_message(rec, log, v, count % 3, payload, message, reserved);
    let answer = a.answer;
    let next = a.next;
    let Appended::Offset(end) = answer else {
        let Appended::Refused(e) = answer else {
            let term_id = own_term_id(rec, count % 3);
            let t = after_trip(next, v, begin, rec.active_term_count, term_id);
            let last = t.next;
            let error = t.error;
            let rule = t.rule;
            return OfferReply {
                next: last,
                answer: Err(error),
                rule: rule,
            };
        };
        return OfferReply {
            next: next,
            answer: Err(e),
            rule: rule::of_refusal(e),
        };
    };
    OfferReply {
        next: next,
        answer: Ok((begin + end) as i64),
        rule: rule::of_message(payload, message.len()),
    }
}

// A message is offered.
pub fn offer(rec: LogRecord, log: &mut [u8], message: &[u8], reserved_value: i64) -> OfferReply
    ensures value { result ≡ offer_of rec log.old message.now }
    ensures log_after { log.new ≡ offer_bytes rec log.old message.now reserved_value }
{
    let v = log_buffer_descriptor::read_active(rec);
    match judge::before_offer(v, log.len(), message.len()) {
        Err(e) => OfferReply {
            next: rec,
            answer: Err(e),
            rule: rule::of_refusal(e),
        },
        Ok(()) => offer_on(rec, log, v, message, reserved_value),
    }
}

// ---- claim

// The claiming append of n bytes at partition k, whose numbers are read; `term_id` is its tail's.
fn claiming(
    rec: LogRecord,
    log: &mut [u8],
    v: Reading,
    k: usize,
    n: usize,
    term_id: i32,
) -> AppendClaimReply
    requires { (v ≡ reading_of rec k) × ((k ≤ 2) × ((v.offset + space n ≤ 2147483647) × (word term_id ≡ v.id))) }
    ensures value { result ≡ claiming_reply rec log.old k n v.id }
    ensures log_after { log.new ≡ claiming_bytes rec log.old k n v.id }
{
    let way = term_appender::claim_way(v, log, k, n, v.id);
    let claim = Claim {
        partition: k as i32,
        offset: v.offset as i32,
        length: (n + HEADER_LENGTH) as i32,
        term_id: term_id,
    };
    way::claim_reply(rec, k, way, claim)
}

// The claiming append of a claim that nothing refuses, and what its answer leads to.
fn claim_on(rec: LogRecord, log: &mut [u8], v: Reading, length: i32) -> ClaimReply
    requires { (v ≡ reading rec) × (claim_verdict v (length_of log.old) (word length) ≡ Ok tt) }
    ensures value { result ≡ claim_of rec log.old length }
    ensures log_after { log.new ≡ claim_bytes rec log.old length }
{
    let count = v.count;
    let begin = judge::begin_position(v);
    let k = count % 3;
    let term_id = own_term_id(rec, k);
    let a = claiming(rec, log, v, k, cast::word(length), term_id);
    let answer = a.answer;
    let next = a.next;
    let AppendedClaim::Claimed(end, claim) = answer else {
        let AppendedClaim::Refused(e) = answer else {
            let t = after_trip(next, v, begin, rec.active_term_count, term_id);
            let last = t.next;
            let error = t.error;
            let rule = t.rule;
            return ClaimReply {
                next: last,
                answer: Err(error),
                rule: rule,
            };
        };
        return ClaimReply {
            next: next,
            answer: Err(e),
            rule: rule::of_refusal(e),
        };
    };
    ClaimReply {
        next: next,
        answer: Ok(Claimed {
            position: (begin + end) as i64,
            claim: claim,
        }),
        rule: Rule::Claimed,
    }
}

// A frame is claimed, to be written by its owner and then committed or aborted.
pub fn try_claim(rec: LogRecord, log: &mut [u8], length: i32) -> ClaimReply
    ensures value { result ≡ claim_of rec log.old length }
    ensures log_after { log.new ≡ claim_bytes rec log.old length }
{
    if length < 0 {
        return ClaimReply {
            next: rec,
            answer: Err(Error::IllegalArgument),
            rule: Rule::IllegalArgument,
        };
    }
    let v = log_buffer_descriptor::read_active(rec);
    match judge_claim::before_claim(v, log.len(), length as usize) {
        Err(e) => ClaimReply {
            next: rec,
            answer: Err(e),
            rule: rule::of_refusal(e),
        },
        Ok(()) => claim_on(rec, log, v, length),
    }
}
