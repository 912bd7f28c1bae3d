// The appenders: a message into one partition of the log, as one frame or as many, and a claim of a frame to be written later.
ghost use Rattle.std.specs.Prelude.{◌≡◌, ◌+◌, ◌*◌, ◌%◌, ◌<◌, ◌≤◌, [], ◌∷◌, length};
ghost use Rattle.model.specs.Bytes.{word, long};
ghost use Rattle.model.specs.FrameDescriptor.{space};
ghost use Rattle.model.specs.TermAppender.{cut, need, fragment, written, claimed, course, bytes_by, good_message, unfragmented_reply, unfragmented_bytes, fragmented_reply, fragmented_bytes, claim_append_reply, claim_append_bytes};
ghost use Rattle.logbuffer.specs.Ways.{good_append, good_claiming, message_reply, message_bytes, fragment_limit, claim_bits, append_way, append_way_bytes, one_way_bytes, claim_way, claim_way_bytes, has_room, frame_fits, frames_fit, fit_end, message_fit_bytes, fragmented_end, fragmented_fit_bytes, claim_fit_bytes};

use crate::data_frame_header::HEADER_LENGTH;
use crate::frame_descriptor::{
    ALIGNMENT_MASK, BEGIN_FRAG, END_FRAG, FRAME_ALIGNMENT, UNFRAGMENTED,
};
use crate::log_buffer_descriptor::{PARTITION_COUNT, TERM_MAX_LENGTH};
use crate::way::Way;
use crate::{cast, header, log_buffer_descriptor, way};
use model::{AppendClaimReply, AppendReply, Claim, Course, Error, LogRecord, Reading};

// ---- arguments

fn good_message(k: usize, m: usize) -> bool
    ensures { result ≡ good_message k m }
{
    if k > 2 {
        return false;
    }
    m <= 2147483647
}

// The payload limit of a message in fragments; 0, which no appender takes, for a message of no bytes or a limit below 0.
fn fragment_limit(m: usize, payload: usize) -> usize
    ensures { result ≡ fragment_limit m payload }
{
    if m < 1 {
        return 0;
    }
    if payload > 2147483647 {
        return 0;
    }
    payload
}

// ---- the way of an append

fn judge(v: Reading, n: usize, needed: usize, given: usize) -> Course
    requires { needed < 9223372036854775808 }
    ensures { result ≡ course v n needed given }
{
    if !log_buffer_descriptor::is_sound(v, n) {
        return Course::Refuse(Error::IllegalRecord);
    }
    let end = v.offset + needed;
    if end > 2147483647 {
        return Course::Refuse(Error::TailOverflow);
    }
    if v.id != given {
        return Course::Stray;
    }
    if end > v.term {
        return Course::Trip;
    }
    Course::Fit
}

// The way of an append; where it trips, the rest of the term is padded.
fn begin_append(v: Reading, log: &mut [u8], k: usize, needed: usize, given: usize) -> Course
    requires { (k ≤ 2) × ((v.id < 4294967296) × (needed < 9223372036854775808)) }
    ensures value { result ≡ course v (length log.old) needed given }
    ensures log_after { log.new ≡ bytes_by v k log.old log.old (course v (length log.old) needed given) }
{
    let way = judge(v, log.len(), needed, given);
    let term = v.term;
    if let Course::Trip = way {
        header::write_padding(log, k * term, v);
    }
    way
}

// ---- messages

// The sum of a fragmented append, by arithmetic alone (R-5 of document 02): the length rounded up to 32, and a header for every frame, the
// frames being the length divided by the payload limit, rounded up.
fn fragmented_need(payload: usize, m: usize) -> usize
    requires { (32 ≤ payload) × ((payload % 32 ≡ 0) × ((payload ≤ 2147483648) × ((0 < m) × (m ≤ 2147483647)))) }
    ensures { result ≡ need payload m }
{
    (m + ALIGNMENT_MASK) / FRAME_ALIGNMENT * FRAME_ALIGNMENT
        + HEADER_LENGTH * ((m + (payload - 1)) / payload)
}

// What a message of m bytes needs: its aligned length, or the sum over its frames.
fn need_of(payload: usize, m: usize) -> usize
    requires { (32 ≤ payload) × ((payload % 32 ≡ 0) × ((payload ≤ 2147483648) × (m ≤ 2147483647))) }
    ensures { result ≡ need payload m }
{
    if m <= payload {
        return (m + HEADER_LENGTH + ALIGNMENT_MASK) / FRAME_ALIGNMENT * FRAME_ALIGNMENT;
    }
    fragmented_need(payload, m)
}

// The fragments of a message, one after another from the tail's offset on.
fn write_fragments(
    log: &mut [u8],
    base: usize,
    v: Reading,
    payload: usize,
    reserved: usize,
    message: &[u8],
)
    requires { (base + v.term ≤ length log.old) × ((v.id < 4294967296) × ((0 < payload) × ((payload % 32 ≡ 0) × ((v.offset + need payload (length message.now) ≤ v.term) × (v.term ≤ 2147483647))))) }
    ensures { log.new ≡ written v log.old base v.offset (cut payload reserved message.now) }
{
    let mut offset = v.offset;
    let mut at: usize = 0;
    let mut flags: usize = BEGIN_FRAG;
    while message.len() - at > payload {
        let part = &message[at..at + payload];
        header::write_fragment(log, base + offset, v, offset, flags, reserved, part);
        at = at + payload;
        offset = offset + (payload + HEADER_LENGTH);
        flags = 0;
    }
    let rest = &message[at..];
    header::write_fragment(
        log,
        base + offset,
        v,
        offset,
        flags + END_FRAG,
        reserved,
        rest,
    );
}

// The way that a message goes, and what it leaves in the log.
fn append(
    v: Reading,
    log: &mut [u8],
    k: usize,
    payload: usize,
    message: &[u8],
    reserved: usize,
    needed: usize,
    given: usize,
) -> Course
    requires { (k ≤ 2) × ((v.id < 4294967296) × ((32 ≤ payload) × ((payload % 32 ≡ 0) × ((needed < 9223372036854775808) × (needed ≡ need payload (length message.now)))))) }
    ensures value { result ≡ course v (length log.old) needed given }
    ensures log_after { log.new ≡ bytes_by v k log.old (written v log.old (k * v.term) v.offset (cut payload reserved message.now)) (course v (length log.old) needed given) }
{
    let way = begin_append(v, log, k, needed, given);
    let term = v.term;
    if let Course::Fit = way {
        write_fragments(log, k * term, v, payload, reserved, message);
    }
    way
}

fn good_append(v: Reading, k: usize, payload: usize, m: usize) -> bool
    ensures { result ≡ good_append v k payload m }
{
    if !good_message(k, m) {
        return false;
    }
    if payload < FRAME_ALIGNMENT {
        return false;
    }
    if payload > 2147483648 {
        return false;
    }
    if payload % FRAME_ALIGNMENT != 0 {
        return false;
    }
    v.id < 4294967296
}

// A message at partition k, as one frame or as many, for a caller who has read the record's numbers.
pub fn append_way(
    numbers: Reading,
    log: &mut [u8],
    partition: usize,
    payload_limit: usize,
    message: &[u8],
    reserved_value: i64,
    term_id: usize,
) -> Way
    ensures value { result ≡ append_way numbers log.old partition payload_limit message.now term_id }
    ensures log_after { log.new ≡ append_way_bytes numbers log.old partition payload_limit message.now (long reserved_value) term_id }
{
    if !good_append(numbers, partition, payload_limit, message.len()) {
        return way::refused(Error::IllegalArgument);
    }
    let needed = need_of(payload_limit, message.len());
    let bits = cast::long(reserved_value);
    let course = append(
        numbers,
        log,
        partition,
        payload_limit,
        message,
        bits,
        needed,
        term_id,
    );
    way::way_by(numbers, needed, course)
}

// The way that a message as one frame goes, and what it leaves in the log.
fn one_frame(
    v: Reading,
    log: &mut [u8],
    k: usize,
    message: &[u8],
    reserved: usize,
    given: usize,
) -> Course
    requires { (k ≤ 2) × ((v.id < 4294967296) × (length message.now ≤ 2147483647)) }
    ensures value { result ≡ course v (length log.old) (space (length message.now)) given }
    ensures log_after { log.new ≡ bytes_by v k log.old (written v log.old (k * v.term) v.offset (fragment 192 reserved message.now ∷ [])) (course v (length log.old) (space (length message.now)) given) }
{
    let way = begin_append(
        v,
        log,
        k,
        (message.len() + HEADER_LENGTH + ALIGNMENT_MASK) / FRAME_ALIGNMENT * FRAME_ALIGNMENT,
        given,
    );
    let term = v.term;
    let offset = v.offset;
    if let Course::Fit = way {
        header::write_fragment(
            log,
            k * term + offset,
            v,
            offset,
            UNFRAGMENTED,
            reserved,
            message,
        );
    }
    way
}

// A message as one frame at partition k, for a caller who has read the record's numbers and knows that one frame holds it: the shorter path
// of an offer, which works out no fragments.
pub fn append_one(
    numbers: Reading,
    log: &mut [u8],
    partition: usize,
    message: &[u8],
    reserved_value: i64,
    term_id: usize,
) -> Way
    ensures value { result ≡ claim_way numbers log.old partition (length message.now) term_id }
    ensures log_after { log.new ≡ one_way_bytes numbers log.old partition message.now (long reserved_value) term_id }
{
    if !good_claiming(numbers, partition, message.len()) {
        return way::refused(Error::IllegalArgument);
    }
    let bits = cast::long(reserved_value);
    let course = one_frame(numbers, log, partition, message, bits, term_id);
    way::way_by(
        numbers,
        (message.len() + HEADER_LENGTH + ALIGNMENT_MASK) / FRAME_ALIGNMENT * FRAME_ALIGNMENT,
        course,
    )
}

// Whether so many bytes have room at the tail, in a log of n bytes.
fn has_room(v: Reading, n: usize, needed: usize) -> bool
    requires { needed < 9223372036854775808 }
    ensures { result ≡ has_room v n needed }
{
    if v.offset > 2147483647 {
        return false;
    }
    if v.term > TERM_MAX_LENGTH {
        return false;
    }
    if n != PARTITION_COUNT * v.term {
        return false;
    }
    v.offset + needed <= v.term
}

// Whether a frame with a body of m bytes fits at the tail of partition k.
fn fits(v: Reading, n: usize, k: usize, m: usize) -> bool
    ensures { result ≡ frame_fits v n k m }
{
    if !good_claiming(v, k, m) {
        return false;
    }
    has_room(
        v,
        n,
        (m + HEADER_LENGTH + ALIGNMENT_MASK) / FRAME_ALIGNMENT * FRAME_ALIGNMENT,
    )
}

// A message as one frame at partition k where it fits, and the offset after it; none, and the log left as it was, where it does not. It is for a
// caller who moves the tail by himself and has another path for all that does not fit.
pub fn append_fit(
    numbers: Reading,
    log: &mut [u8],
    partition: usize,
    message: &[u8],
    reserved_value: i64,
) -> Option<usize>
    ensures value { result ≡ fit_end numbers log.old partition (length message.now) }
    ensures log_after { log.new ≡ message_fit_bytes numbers log.old partition message.now (long reserved_value) }
{
    if !fits(numbers, log.len(), partition, message.len()) {
        return None;
    }
    let term = numbers.term;
    let offset = numbers.offset;
    header::write_fragment(
        log,
        partition * term + offset,
        numbers,
        offset,
        UNFRAGMENTED,
        cast::long(reserved_value),
        message,
    );
    Some(
        offset
            + (message.len() + HEADER_LENGTH + ALIGNMENT_MASK) / FRAME_ALIGNMENT * FRAME_ALIGNMENT,
    )
}

// The same for a message in fragments: where all its frames fit, and the offset after the last of them.
#[tactic(auto, unfolding(crate::specs::Ways::frames_fit))]
pub fn append_fragmented_fit(
    numbers: Reading,
    log: &mut [u8],
    partition: usize,
    payload_limit: usize,
    message: &[u8],
    reserved_value: i64,
) -> Option<usize>
    ensures value { result ≡ fragmented_end numbers log.old partition payload_limit (length message.now) }
    ensures log_after { log.new ≡ fragmented_fit_bytes numbers log.old partition payload_limit message.now (long reserved_value) }
{
    if !good_append(numbers, partition, payload_limit, message.len()) {
        return None;
    }
    let needed = need_of(payload_limit, message.len());
    if !has_room(numbers, log.len(), needed) {
        return None;
    }
    let term = numbers.term;
    let offset = numbers.offset;
    let bits = cast::long(reserved_value);
    write_fragments(log, partition * term, numbers, payload_limit, bits, message);
    Some(offset + needed)
}

// The same for the frame of a claim of so many bytes.
pub fn claim_fit(
    numbers: Reading,
    log: &mut [u8],
    partition: usize,
    body_length: usize,
) -> Option<usize>
    ensures value { result ≡ fit_end numbers log.old partition body_length }
    ensures log_after { log.new ≡ claim_fit_bytes numbers log.old partition body_length }
{
    if !fits(numbers, log.len(), partition, body_length) {
        return None;
    }
    let term = numbers.term;
    let offset = numbers.offset;
    header::write_claim(log, partition * term, numbers, body_length);
    Some(
        offset + (body_length + HEADER_LENGTH + ALIGNMENT_MASK) / FRAME_ALIGNMENT * FRAME_ALIGNMENT,
    )
}

// A message as one frame or as many, for a caller who has not read the record.
fn append_message(
    rec: LogRecord,
    log: &mut [u8],
    k: usize,
    payload: usize,
    message: &[u8],
    reserved: i64,
    term_id: i32,
) -> AppendReply
    ensures value { result ≡ message_reply rec log.old k payload message.now (word term_id) }
    ensures log_after { log.new ≡ message_bytes rec log.old k payload message.now (long reserved) (word term_id) }
{
    let v = log_buffer_descriptor::read(rec, k);
    let given = cast::word(term_id);
    let way = append_way(v, log, k, payload, message, reserved, given);
    way::append_reply(rec, k, way)
}

// A message as one frame: one whose payload limit is above every message.
pub fn append_unfragmented_message(
    rec: LogRecord,
    log: &mut [u8],
    partition: i32,
    message: &[u8],
    reserved_value: i64,
    term_id: i32,
) -> AppendReply
    ensures value { result ≡ unfragmented_reply rec log.old partition message.now term_id }
    ensures log_after { log.new ≡ unfragmented_bytes rec log.old partition message.now reserved_value term_id }
{
    let k = cast::word(partition);
    append_message(rec, log, k, 2147483648, message, reserved_value, term_id)
}

// A message as frames of at most the payload limit each.
pub fn append_fragmented_message(
    rec: LogRecord,
    log: &mut [u8],
    partition: i32,
    message: &[u8],
    reserved_value: i64,
    payload_limit: i32,
    term_id: i32,
) -> AppendReply
    ensures value { result ≡ fragmented_reply rec log.old partition message.now payload_limit term_id }
    ensures log_after { log.new ≡ fragmented_bytes rec log.old partition message.now reserved_value payload_limit term_id }
{
    let k = cast::word(partition);
    let limit = fragment_limit(message.len(), cast::word(payload_limit));
    append_message(rec, log, k, limit, message, reserved_value, term_id)
}

// ---- claims

// The record of a claim of n bytes at the tail, by its bits: where the claim fits they are its numbers.
fn claim_record(v: Reading, k: usize, n: usize) -> Claim
    requires { (k < 4294967296) × ((v.id < 4294967296) × ((v.offset < 4294967296) × (n < 4294967296))) }
    ensures { result ≡ claim_bits v k n }
{
    Claim {
        partition: cast::to_i32(k),
        offset: cast::to_i32(v.offset),
        length: cast::to_i32((n + HEADER_LENGTH) % 4294967296),
        term_id: cast::to_i32(v.id),
    }
}

// The way that a claim goes, and what it leaves in the log.
fn claim_frame(v: Reading, log: &mut [u8], k: usize, n: usize, given: usize) -> Course
    requires { (k ≤ 2) × ((v.id < 4294967296) × (n ≤ 2147483647)) }
    ensures value { result ≡ course v (length log.old) (space n) given }
    ensures log_after { log.new ≡ bytes_by v k log.old (claimed v log.old (k * v.term) n) (course v (length log.old) (space n) given) }
{
    let way = begin_append(
        v,
        log,
        k,
        (n + HEADER_LENGTH + ALIGNMENT_MASK) / FRAME_ALIGNMENT * FRAME_ALIGNMENT,
        given,
    );
    let term = v.term;
    if let Course::Fit = way {
        header::write_claim(log, k * term, v, n);
    }
    way
}

fn good_claiming(v: Reading, k: usize, n: usize) -> bool
    ensures { result ≡ good_claiming v k n }
{
    if !good_message(k, n) {
        return false;
    }
    v.id < 4294967296
}

// A frame of n bytes claimed, for a caller who has read the record's numbers.
pub fn claim_way(
    numbers: Reading,
    log: &mut [u8],
    partition: usize,
    body_length: usize,
    term_id: usize,
) -> Way
    ensures value { result ≡ claim_way numbers log.old partition body_length term_id }
    ensures log_after { log.new ≡ claim_way_bytes numbers log.old partition body_length term_id }
{
    if !good_claiming(numbers, partition, body_length) {
        return way::refused(Error::IllegalArgument);
    }
    let course = claim_frame(numbers, log, partition, body_length, term_id);
    way::way_by(
        numbers,
        (body_length + HEADER_LENGTH + ALIGNMENT_MASK) / FRAME_ALIGNMENT * FRAME_ALIGNMENT,
        course,
    )
}

// A frame of n bytes claimed, to be written and committed later.
pub fn claim(
    rec: LogRecord,
    log: &mut [u8],
    partition: i32,
    length: i32,
    term_id: i32,
) -> AppendClaimReply
    ensures value { result ≡ claim_append_reply rec log.old partition length term_id }
    ensures log_after { log.new ≡ claim_append_bytes rec log.old partition length term_id }
{
    let k = cast::word(partition);
    let n = cast::word(length);
    let v = log_buffer_descriptor::read(rec, k);
    let way = claim_way(v, log, k, n, cast::word(term_id));
    way::claim_reply(rec, k, way, claim_record(v, k, n))
}
