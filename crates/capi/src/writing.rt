// Opening, the publication's calls, claims and appenders under their C names. The record stays with the caller: a call reads its words, and writes those that
// the next record has other numbers in.
ghost use Rattle.std.specs.Prelude.{◌≡◌};
ghost use Rattle.model.specs.Parts.{located_number};
ghost use Rattle.model.specs.LogBufferDescriptor.{rotate_log_of};
ghost use Rattle.model.specs.BufferClaim.{locate_of, write_of, write_bytes, commit_of, commit_bytes, abort_bytes};
ghost use Rattle.model.specs.TermAppender.{unfragmented_reply, unfragmented_bytes, fragmented_reply, fragmented_bytes, claim_append_reply, claim_append_bytes};
ghost use Rattle.model.specs.Publication.{open_of, open_bytes, limit_of, close_of, raise_of, clear_of, clear_bytes, position_call, limit_call, window_call, offer_of, offer_bytes, claim_of, claim_bytes};
ghost use Rattle.capi.specs.Words.{record_in, claim_in, record_out, limit_out, closed_out, slowest_out, marks_out, opened_out};
ghost use Rattle.capi.specs.Replies.{outcome_number, position_reply, offer_reply, claim_reply, span_reply, append_reply, append_claim_reply};

use crate::replies::{
    AppendClaimReply, AppendReply, ClaimReply, OfferReply, PositionReply, SpanReply,
};
use crate::{replies, words};
use logbuffer::{buffer_claim, cast, errors, log_buffer_descriptor, term_appender};
use model::Claim;
use publication::{clearing, fit, opening, positions};

// Refused, it leaves record and log as they were.
#[unsafe(no_mangle)]
pub extern "C" fn logbuffer_open(
    rec: &mut [i64; 14],
    log: &mut [u8],
    term_length: i32,
    mtu_length: i32,
    initial_term_id: i32,
    session_id: i32,
    stream_id: i32,
) -> i32
    ensures value { result ≡ outcome_number (open_of log.old term_length mtu_length initial_term_id session_id stream_id).answer }
    ensures rec_after { rec.new ≡ opened_out rec.old (open_of log.old term_length mtu_length initial_term_id session_id stream_id) }
    ensures log_after { log.new ≡ open_bytes log.old term_length mtu_length initial_term_id session_id stream_id }
{
    let o = opening::open_log(
        log,
        term_length,
        mtu_length,
        initial_term_id,
        session_id,
        stream_id,
    );
    let next = o.next;
    let answer = o.answer;
    match answer {
        Ok(()) => {
            words::record_filled(rec, next);
            0
        }
        Err(e) => errors::number(e),
    }
}

#[unsafe(no_mangle)]
pub extern "C" fn logbuffer_set_publication_limit(rec: &mut [i64; 14], limit: i64) -> i32
    ensures value { result ≡ outcome_number (limit_of (record_in rec.old) limit).answer }
    ensures rec_after { rec.new ≡ limit_out rec.old (limit_of (record_in rec.old) limit).next }
{
    let o = positions::set_publication_limit(words::record_in(rec), limit);
    let next = o.next;
    let answer = o.answer;
    words::limit_out(rec, next);
    replies::outcome_code(answer)
}

#[unsafe(no_mangle)]
pub extern "C" fn logbuffer_close(rec: &mut [i64; 14]) -> i32
    ensures value { result ≡ outcome_number (close_of (record_in rec.old)).answer }
    ensures rec_after { rec.new ≡ closed_out rec.old (close_of (record_in rec.old)).next }
{
    let o = positions::close(words::record_in(rec));
    let next = o.next;
    let answer = o.answer;
    words::closed_out(rec, next);
    replies::outcome_code(answer)
}

#[unsafe(no_mangle)]
pub extern "C" fn logbuffer_set_slowest_position(rec: &mut [i64; 14], position: i64) -> i32
    ensures value { result ≡ outcome_number (raise_of (record_in rec.old) position).answer }
    ensures rec_after { rec.new ≡ slowest_out rec.old (raise_of (record_in rec.old) position).next }
{
    let o = clearing::set_slowest_position(words::record_in(rec), position);
    let next = o.next;
    let answer = o.answer;
    words::slowest_out(rec, next);
    replies::outcome_code(answer)
}

#[unsafe(no_mangle)]
pub extern "C" fn logbuffer_clear_partition(
    rec: &mut [i64; 14],
    log: &mut [u8],
    partition: i32,
) -> i32
    ensures value { result ≡ outcome_number (clear_of (record_in rec.old) log.old partition).answer }
    ensures rec_after { rec.new ≡ marks_out rec.old (clear_of (record_in rec.old) log.old partition).next }
    ensures log_after { log.new ≡ clear_bytes (record_in rec.old) log.old partition }
{
    let o = clearing::clear_partition(words::record_in(rec), log, partition);
    let next = o.next;
    let answer = o.answer;
    words::marks_out(rec, next);
    replies::outcome_code(answer)
}

#[unsafe(no_mangle)]
pub extern "C" fn logbuffer_rotate_log(rec: &mut [i64; 14], count: i32, term_id: i32) -> i32
    ensures value { result ≡ outcome_number (rotate_log_of (record_in rec.old) count term_id).answer }
    ensures rec_after { rec.new ≡ record_out rec.old (rotate_log_of (record_in rec.old) count term_id).next }
{
    let o = log_buffer_descriptor::rotate_log(words::record_in(rec), count, term_id);
    let next = o.next;
    let answer = o.answer;
    words::record_out(rec, next);
    replies::outcome_code(answer)
}

#[unsafe(no_mangle)]
pub extern "C" fn logbuffer_position(rec: &[i64; 14]) -> PositionReply
    ensures { result ≡ position_reply (position_call (record_in rec.now)) }
{
    replies::positioned(positions::position(words::record_in(rec)))
}

#[unsafe(no_mangle)]
pub extern "C" fn logbuffer_publication_limit(rec: &[i64; 14]) -> PositionReply
    ensures { result ≡ position_reply (limit_call (record_in rec.now)) }
{
    replies::positioned(positions::publication_limit(words::record_in(rec)))
}

#[unsafe(no_mangle)]
pub extern "C" fn logbuffer_available_window(rec: &[i64; 14]) -> PositionReply
    ensures { result ≡ position_reply (window_call (record_in rec.now)) }
{
    replies::positioned(positions::available_window(words::record_in(rec)))
}

// An offer by the whole record: all but those that nothing refuses and that fit.
fn offer_by_all(
    rec: &mut [i64; 14],
    log: &mut [u8],
    message: &[u8],
    reserved_value: i64,
) -> OfferReply
    ensures value { result ≡ offer_reply (offer_of (record_in rec.old) log.old message.now).answer (offer_of (record_in rec.old) log.old message.now).rule }
    ensures rec_after { rec.new ≡ record_out rec.old (offer_of (record_in rec.old) log.old message.now).next }
    ensures log_after { log.new ≡ offer_bytes (record_in rec.old) log.old message.now reserved_value }
{
    let o = publication::offer(words::record_in(rec), log, message, reserved_value);
    let next = o.next;
    let answer = o.answer;
    let rule = o.rule;
    words::record_out(rec, next);
    replies::offered(answer, rule)
}

// An offer in fragments that fits moves one tail and no other word. All else is left to `offer_by_all`.
fn offer_fragmented(
    rec: &mut [i64; 14],
    log: &mut [u8],
    message: &[u8],
    reserved_value: i64,
) -> OfferReply
    ensures value { result ≡ offer_reply (offer_of (record_in rec.old) log.old message.now).answer (offer_of (record_in rec.old) log.old message.now).rule }
    ensures rec_after { rec.new ≡ record_out rec.old (offer_of (record_in rec.old) log.old message.now).next }
    ensures log_after { log.new ≡ offer_bytes (record_in rec.old) log.old message.now reserved_value }
{
    let v = words::reading_in(rec);
    let Some(fitted) = fit::offer_fragmented_fit(v, log, message, reserved_value) else {
        return offer_by_all(rec, log, message, reserved_value);
    };
    words::tail_out(rec, v.count % 3, fitted.tail);
    OfferReply {
        code: 0,
        rule: 16,
        position: fitted.position,
    }
}

// An offer of one frame that fits moves one tail and no other word. All else, from two places so that it stays a call of its own, is left to
// `offer_fragmented`.
#[unsafe(no_mangle)]
pub extern "C" fn logbuffer_offer(
    rec: &mut [i64; 14],
    log: &mut [u8],
    message: &[u8],
    reserved_value: i64,
) -> OfferReply
    ensures value { result ≡ offer_reply (offer_of (record_in rec.old) log.old message.now).answer (offer_of (record_in rec.old) log.old message.now).rule }
    ensures rec_after { rec.new ≡ record_out rec.old (offer_of (record_in rec.old) log.old message.now).next }
    ensures log_after { log.new ≡ offer_bytes (record_in rec.old) log.old message.now reserved_value }
{
    if message.len() > 65472 {
        return offer_fragmented(rec, log, message, reserved_value);
    }
    let v = words::reading_in(rec);
    let Some(fitted) = fit::offer_fit(v, log, message, reserved_value) else {
        return offer_fragmented(rec, log, message, reserved_value);
    };
    words::tail_out(rec, v.count % 3, fitted.tail);
    OfferReply {
        code: 0,
        rule: 15,
        position: fitted.position,
    }
}

// A claim by the whole record, in the same way. The length stands before the log, so that the log's own length is handed on in another register than the
// one that shifts a position.
fn claim_by_all(rec: &mut [i64; 14], length: i32, log: &mut [u8]) -> ClaimReply
    ensures value { result ≡ claim_reply (claim_of (record_in rec.old) log.old length).answer (claim_of (record_in rec.old) log.old length).rule }
    ensures rec_after { rec.new ≡ record_out rec.old (claim_of (record_in rec.old) log.old length).next }
    ensures log_after { log.new ≡ claim_bytes (record_in rec.old) log.old length }
{
    let o = publication::try_claim(words::record_in(rec), log, length);
    let next = o.next;
    let answer = o.answer;
    let rule = o.rule;
    words::record_out(rec, next);
    replies::claimed(answer, rule)
}

// A claim that fits moves one tail and no other word. What `claim_by_all` answers is a value of its own first, so that the reply of a claim that fits is
// stored once, where the caller wants it; and it is called from two places, so that it stays a call of its own. What the first of them asks, whether the
// publication is closed, the shorter path asks again, and the compiler leaves it out there.
#[unsafe(no_mangle)]
pub extern "C" fn logbuffer_try_claim(
    rec: &mut [i64; 14],
    log: &mut [u8],
    length: i32,
) -> ClaimReply
    ensures value { result ≡ claim_reply (claim_of (record_in rec.old) log.old length).answer (claim_of (record_in rec.old) log.old length).rule }
    ensures rec_after { rec.new ≡ record_out rec.old (claim_of (record_in rec.old) log.old length).next }
    ensures log_after { log.new ≡ claim_bytes (record_in rec.old) log.old length }
{
    let v = words::reading_in(rec);
    if v.closed {
        let all = claim_by_all(rec, length, log);
        return all;
    }
    let Some(fitted) = fit::claim_fit(v, log, cast::word(length)) else {
        let all = claim_by_all(rec, length, log);
        return all;
    };
    words::tail_out(rec, v.count % 3, fitted.after.tail);
    ClaimReply {
        code: 0,
        rule: 17,
        position: fitted.after.position,
        claim: words::claim_words(fitted.claim),
    }
}

#[unsafe(no_mangle)]
pub extern "C" fn logbuffer_claim_body(rec: &[i64; 14], log: &[u8], claim: Claim) -> SpanReply
    ensures { result ≡ span_reply (locate_of (record_in rec.now) log.now claim) }
{
    replies::located(buffer_claim::locate(words::record_in(rec), log, claim))
}

#[unsafe(no_mangle)]
pub extern "C" fn logbuffer_claim_body_number(rec: &[i64; 14], log: &[u8], claim: Claim) -> i32
    ensures { result ≡ located_number (locate_of (record_in rec.now) log.now claim) }
{
    buffer_claim::body_number(words::record_in(rec), log, claim)
}

#[unsafe(no_mangle)]
pub extern "C" fn logbuffer_claim_write(
    rec: &[i64; 14],
    log: &mut [u8],
    claim: Claim,
    bytes: &[u8],
) -> i32
    ensures value { result ≡ outcome_number (write_of (record_in rec.now) log.old claim bytes.now) }
    ensures log_after { log.new ≡ write_bytes (record_in rec.now) log.old claim bytes.now }
{
    replies::outcome_code(buffer_claim::write(words::record_in(rec), log, claim, bytes))
}

// A commit by the whole record: all but those that nothing refuses. The claim is handed on in its two words, so that it lies in no memory.
fn commit_by_all(rec: &[i64; 14], log: &mut [u8], first: i64, second: i64) -> i32
    ensures value { result ≡ outcome_number (commit_of (record_in rec.now) log.old (claim_in first second)) }
    ensures log_after { log.new ≡ commit_bytes (record_in rec.now) log.old (claim_in first second) }
{
    let claim = words::claim_in(first, second);
    replies::outcome_code(buffer_claim::commit(words::record_in(rec), log, claim))
}

// A commit that nothing refuses stores the length. All else, from two places so that it stays a call of its own, is left to `commit_by_all`.
#[unsafe(no_mangle)]
pub extern "C" fn logbuffer_commit(rec: &[i64; 14], log: &mut [u8], claim: Claim) -> i32
    ensures value { result ≡ outcome_number (commit_of (record_in rec.now) log.old claim) }
    ensures log_after { log.new ≡ commit_bytes (record_in rec.now) log.old claim }
{
    let first = words::pair(claim.partition, claim.offset);
    let second = words::pair(claim.length, claim.term_id);
    if claim.length < 32 {
        return commit_by_all(rec, log, first, second);
    }
    if !buffer_claim::commit_fit(words::record_in(rec), log, claim) {
        return commit_by_all(rec, log, first, second);
    }
    0
}

#[unsafe(no_mangle)]
pub extern "C" fn logbuffer_abort(rec: &[i64; 14], log: &mut [u8], claim: Claim) -> i32
    ensures value { result ≡ outcome_number (commit_of (record_in rec.now) log.old claim) }
    ensures log_after { log.new ≡ abort_bytes (record_in rec.now) log.old claim }
{
    replies::outcome_code(buffer_claim::abort(words::record_in(rec), log, claim))
}

#[unsafe(no_mangle)]
pub extern "C" fn logbuffer_append_unfragmented_message(
    rec: &mut [i64; 14],
    log: &mut [u8],
    partition: i32,
    message: &[u8],
    reserved_value: i64,
    term_id: i32,
) -> AppendReply
    ensures value { result ≡ append_reply (unfragmented_reply (record_in rec.old) log.old partition message.now term_id).answer }
    ensures rec_after { rec.new ≡ record_out rec.old (unfragmented_reply (record_in rec.old) log.old partition message.now term_id).next }
    ensures log_after { log.new ≡ unfragmented_bytes (record_in rec.old) log.old partition message.now reserved_value term_id }
{
    let o = term_appender::append_unfragmented_message(
        words::record_in(rec),
        log,
        partition,
        message,
        reserved_value,
        term_id,
    );
    let next = o.next;
    let answer = o.answer;
    words::record_out(rec, next);
    replies::appended(answer)
}

#[unsafe(no_mangle)]
pub extern "C" fn logbuffer_append_fragmented_message(
    rec: &mut [i64; 14],
    log: &mut [u8],
    partition: i32,
    message: &[u8],
    reserved_value: i64,
    payload_limit: i32,
    term_id: i32,
) -> AppendReply
    ensures value { result ≡ append_reply (fragmented_reply (record_in rec.old) log.old partition message.now payload_limit term_id).answer }
    ensures rec_after { rec.new ≡ record_out rec.old (fragmented_reply (record_in rec.old) log.old partition message.now payload_limit term_id).next }
    ensures log_after { log.new ≡ fragmented_bytes (record_in rec.old) log.old partition message.now reserved_value payload_limit term_id }
{
    let o = term_appender::append_fragmented_message(
        words::record_in(rec),
        log,
        partition,
        message,
        reserved_value,
        payload_limit,
        term_id,
    );
    let next = o.next;
    let answer = o.answer;
    words::record_out(rec, next);
    replies::appended(answer)
}

#[unsafe(no_mangle)]
pub extern "C" fn logbuffer_append_claim(
    rec: &mut [i64; 14],
    log: &mut [u8],
    partition: i32,
    length: i32,
    term_id: i32,
) -> AppendClaimReply
    ensures value { result ≡ append_claim_reply (claim_append_reply (record_in rec.old) log.old partition length term_id).answer }
    ensures rec_after { rec.new ≡ record_out rec.old (claim_append_reply (record_in rec.old) log.old partition length term_id).next }
    ensures log_after { log.new ≡ claim_append_bytes (record_in rec.old) log.old partition length term_id }
{
    let o = term_appender::claim(words::record_in(rec), log, partition, length, term_id);
    let next = o.next;
    let answer = o.answer;
    words::record_out(rec, next);
    replies::appended_claim(answer)
}
