// Offers and claims that nothing refuses and that fit: the shorter path of a caller who keeps the record as numbers of his own, changes one tail by
// himself, and leaves all else to `offer` and `try_claim`. Read lib next.
ghost use Rattle.std.specs.Prelude.{◌≡◌, ◌≤◌, ◌<◌, length as length_of};
ghost use Rattle.std.specs.Int.Count.{ones};
ghost use Rattle.model.specs.Bytes.{long};
ghost use Rattle.model.proofs.Sound.{Bounds};
ghost use Rattle.publication.specs.Fits.{in_step, unpressed, in_terms, is_open, is_long, fitted_at, fitted, fitted_long, fitted_claim, offer_fit_bytes, fragmented_fit_bytes, claim_fit_bytes};

use crate::judge;
use logbuffer::data_frame_header::HEADER_LENGTH;
use logbuffer::frame_descriptor::FRAME_ALIGNMENT;
use logbuffer::log_buffer_descriptor::{PARTITION_COUNT, TERM_MAX_LENGTH, TERM_MIN_LENGTH};
use logbuffer::{cast, log_buffer_descriptor, term_appender};
use model::{Claim, Reading};

// Whether the tail's term id is the one that the count asks for.
fn in_step(v: Reading) -> bool
    ensures { result ≡ in_step v }
{
    let id = v.id;
    let initial = v.initial;
    if id > 4294967295 {
        return false;
    }
    if initial > 4294967295 {
        return false;
    }
    log_buffer_descriptor::id_minus(id as u32, initial as u32) as usize == v.count
}

// Whether the record is sound for a log of n bytes, in step, and below its limit.
fn is_unpressed(v: Reading, n: usize) -> bool
    ensures { result ≡ unpressed v n }
{
    if !log_buffer_descriptor::is_sound(v, n) {
        return false;
    }
    if !in_step(v) {
        return false;
    }
    if v.limit <= judge::begin_position(v) + v.offset {
        return false;
    }
    true
}

// Whether the record counts its terms soundly, in step with its tail: the part of row 2 by which a term's beginning is known.
fn in_terms(v: Reading) -> bool
    ensures { result ≡ in_terms v }
{
    if (v.count | v.offset) > 2147483647 {
        return false;
    }
    if !in_step(v) {
        return false;
    }
    if v.term < TERM_MIN_LENGTH {
        return false;
    }
    if v.term > TERM_MAX_LENGTH {
        return false;
    }
    usize::count_ones(v.term) == 1
}

// Whether a message or a claim of m bytes is one frame that nothing refuses, in a log of n bytes. It asks by itself what `is_unpressed` asks, in an order
// that the compiler makes the shortest code of: the tail, for which this call waits longest, is asked for first, and the limit where the position is known,
// so that it is kept nowhere in between.
fn is_open(v: Reading, n: usize, m: usize) -> bool
    ensures { result ≡ is_open v n m }
{
    if !in_terms(v) {
        return false;
    }
    let position = judge::begin_position(v) + v.offset;
    if v.slowest > v.term * 2147483648 {
        return false;
    }
    if n != PARTITION_COUNT * v.term {
        return false;
    }
    if (v.offset | (v.mtu | v.slowest)) % FRAME_ALIGNMENT != 0 {
        return false;
    }
    if v.mtu < 64 {
        return false;
    }
    if v.mtu > 65504 {
        return false;
    }
    if v.limit <= position {
        return false;
    }
    if m > v.mtu - HEADER_LENGTH {
        return false;
    }
    if v.limit > 4611686018427387904 {
        return false;
    }
    !v.closed
}

// Whether a message of m bytes takes several frames and nothing refuses it, in a log of n bytes.
fn is_long(v: Reading, n: usize, m: usize) -> bool
    ensures { result ≡ is_long v n m }
{
    if !is_unpressed(v, n) {
        return false;
    }
    if m <= v.mtu - HEADER_LENGTH {
        return false;
    }
    if judge::too_long(v, m) {
        return false;
    }
    !v.closed
}

// The raw tail and the position after a frame, or after the last of several.
#[derive(Clone, Copy)]
pub struct Fitted {
    pub tail: i64,
    pub position: i64,
}

// The same after a claim's frame, and the claim's record.
#[derive(Clone, Copy)]
pub struct FittedClaim {
    pub after: Fitted,
    pub claim: Claim,
}

// By the offset after what was written at the tail.
fn after(v: Reading, end: usize) -> Fitted
    requires { Bounds v × ((ones v.term ≡ 1) × ((v.id < 4294967296) × (end ≤ v.term))) }
    ensures { result ≡ fitted_at v end }
{
    Fitted {
        tail: cast::to_i64(v.id * 4294967296 + end),
        position: (judge::begin_position(v) + end) as i64,
    }
}

// An offer of one frame. Where none is told the log is as it was.
pub fn offer_fit(
    numbers: Reading,
    log: &mut [u8],
    message: &[u8],
    reserved_value: i64,
) -> Option<Fitted>
    ensures value { result ≡ fitted numbers (length_of log.old) (length_of message.now) }
    ensures log_after { log.new ≡ offer_fit_bytes numbers log.old message.now (long reserved_value) }
{
    if !is_open(numbers, log.len(), message.len()) {
        return None;
    }
    let count = numbers.count;
    let end = term_appender::append_fit(numbers, log, count % 3, message, reserved_value)?;
    Some(after(numbers, end))
}

// An offer in fragments. Where none is told the log is as it was.
pub fn offer_fragmented_fit(
    numbers: Reading,
    log: &mut [u8],
    message: &[u8],
    reserved_value: i64,
) -> Option<Fitted>
    ensures value { result ≡ fitted_long numbers (length_of log.old) (length_of message.now) }
    ensures log_after { log.new ≡ fragmented_fit_bytes numbers log.old message.now (long reserved_value) }
{
    if !is_long(numbers, log.len(), message.len()) {
        return None;
    }
    let count = numbers.count;
    let payload_limit = numbers.mtu - HEADER_LENGTH;
    let end = term_appender::append_fragmented_fit(
        numbers,
        log,
        count % 3,
        payload_limit,
        message,
        reserved_value,
    )?;
    Some(after(numbers, end))
}

// A claim of so many bytes, in the same way.
pub fn claim_fit(numbers: Reading, log: &mut [u8], body_length: usize) -> Option<FittedClaim>
    ensures value { result ≡ fitted_claim numbers (length_of log.old) body_length }
    ensures log_after { log.new ≡ claim_fit_bytes numbers log.old body_length }
{
    if !is_open(numbers, log.len(), body_length) {
        return None;
    }
    let k = numbers.count % 3;
    let end = term_appender::claim_fit(numbers, log, k, body_length)?;
    let raw_tail = cast::to_i64(numbers.id * 4294967296 + numbers.offset);
    Some(FittedClaim {
        after: after(numbers, end),
        claim: Claim {
            partition: k as i32,
            offset: numbers.offset as i32,
            length: (body_length + HEADER_LENGTH) as i32,
            term_id: log_buffer_descriptor::term_id(raw_tail),
        },
    })
}
