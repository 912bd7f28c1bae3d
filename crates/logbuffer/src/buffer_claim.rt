// A claim's body lent out of the middle of the log, or written there; commit and abort.
ghost use Rattle.std.specs.Prelude.{◌≡◌, ◌+◌, ◌<◌, ◌≤◌, length};
ghost use Rattle.model.specs.Bytes.{word};
ghost use Rattle.model.specs.Parts.{part_of, located_number};
ghost use Rattle.model.specs.BufferClaim.{claim_start, good_claim, matches, locate_of, write_of, write_bytes, commit_of, commit_bytes, abort_bytes};
ghost use Rattle.logbuffer.specs.Lent.{start_of};
ghost use Rattle.logbuffer.specs.Commits.{read_all, commit_fits, commit_fit_bytes};

use crate::data_frame_header::{HEADER_LENGTH, TERM_ID_FIELD_OFFSET};
use crate::frame_descriptor::{ALIGNMENT_MASK, FRAME_ALIGNMENT};
use crate::{bit_utils, cast, copying, errors, field, log_buffer_descriptor};
use model::{Claim, Error, LogRecord, Reading, Span};

// A partition, an offset that is a multiple of 32, a length of at least 32, an aligned end inside the term.
fn good_claim(v: Reading, claim: Claim) -> bool
    ensures { result ≡ good_claim v claim }
{
    let offset = cast::word(claim.offset);
    let length = cast::word(claim.length);
    if cast::word(claim.partition) > 2 {
        return false;
    }
    if offset % FRAME_ALIGNMENT != 0 {
        return false;
    }
    if length < HEADER_LENGTH {
        return false;
    }
    if offset + (length + ALIGNMENT_MASK) / FRAME_ALIGNMENT * FRAME_ALIGNMENT > v.term {
        return false;
    }
    v.term <= 2147483647
}

// Where the claim's frame starts.
fn start(v: Reading, claim: Claim) -> usize
    requires { v.term < 4294967296 }
    ensures { result ≡ claim_start v claim }
{
    cast::word(claim.partition) * v.term + cast::word(claim.offset)
}

// The header at a place still shows minus the claim's length, and its term id.
fn shows(log: &[u8], at: usize, claim: Claim) -> bool
    requires { (at + 24 ≤ length log.now) × ((0 < word claim.length) × (word claim.length ≤ 2147483647)) }
    ensures { result ≡ matches log.now at claim }
{
    let shown = cast::to_i32(field::word4(log, at));
    if shown != -claim.length {
        return false;
    }
    field::word4(log, at + TERM_ID_FIELD_OFFSET) == cast::word(claim.term_id)
}

// Where the body lies, by value.
pub fn locate(rec: LogRecord, log: &[u8], claim: Claim) -> Result<Span, Error>
    ensures { result ≡ locate_of rec log.now claim }
{
    let v = log_buffer_descriptor::read_active(rec);
    if !good_claim(v, claim) {
        return Err(Error::IllegalArgument);
    }
    if !log_buffer_descriptor::is_sound(v, log.len()) {
        return Err(Error::IllegalRecord);
    }
    let at = start(v, claim);
    if !shows(log, at, claim) {
        return Err(Error::ClaimMismatch);
    }
    Ok(Span {
        start: at + HEADER_LENGTH,
        end: at + cast::word(claim.length),
    })
}

// The body between header and slack, to be written; the empty part for a refusal.
pub fn body(rec: LogRecord, log: &mut [u8], claim: Claim) -> &mut [u8]
    ensures result_value { result.now ≡ part_of log.old (locate_of rec log.old claim) }
    ensures ref_ptr_value { result.ref_ptr ≡ (log.entry.ref_ptr.0, start_of (locate_of rec log.old claim) + log.entry.ref_ptr.1) }
{
    let Ok(span) = locate(rec, log, claim) else {
        return &mut log[0..0];
    };
    &mut log[span.start..span.end]
}

// The companion: 0, or the number of the refusal.
pub fn body_number(rec: LogRecord, log: &[u8], claim: Claim) -> i32
    ensures { result ≡ located_number (locate_of rec log.now claim) }
{
    match locate(rec, log, claim) {
        Ok(_) => 0,
        Err(e) => errors::number(e),
    }
}

// A lending and its writing in one call: the bytes go over the body from its start on, as far as it goes.
pub fn write(rec: LogRecord, log: &mut [u8], claim: Claim, bytes: &[u8]) -> Result<(), Error>
    ensures value { result ≡ write_of rec log.old claim bytes.now }
    ensures log_after { log.new ≡ write_bytes rec log.old claim bytes.now }
{
    let n = bytes.len();
    if n > 2147483647 {
        return Err(Error::IllegalArgument);
    }
    let span = locate(rec, log, claim)?;
    let room = span.end - span.start;
    copying::copy(log, span.start, bytes, 0, bit_utils::at_most(room, n));
    Ok(())
}

// The length is stored: the frame is finished. It asks what `locate` asks by itself, since a claim is committed more often than anything else
// is done with it.
pub fn commit(rec: LogRecord, log: &mut [u8], claim: Claim) -> Result<(), Error>
    ensures value { result ≡ commit_of rec log.old claim }
    ensures log_after { log.new ≡ commit_bytes rec log.old claim }
{
    let v = log_buffer_descriptor::read_active(rec);
    if !good_claim(v, claim) {
        return Err(Error::IllegalArgument);
    }
    if !log_buffer_descriptor::is_sound(v, log.len()) {
        return Err(Error::IllegalRecord);
    }
    let at = start(v, claim);
    if !shows(log, at, claim) {
        return Err(Error::ClaimMismatch);
    }
    field::put4(log, at, cast::word(claim.length));
    Ok(())
}

// The record's numbers with the bits of all its tails' offsets and of the claim's for its offset: sound with these, the record is sound with any of its
// tails, and the claim's offset is a multiple of 32. So no tail is looked for among three.
fn read_all(rec: LogRecord, claim: Claim) -> Reading
    ensures { result ≡ read_all rec claim }
{
    let first = cast::long(log_buffer_descriptor::tail(rec, 0));
    let second = cast::long(log_buffer_descriptor::tail(rec, 1));
    let third = cast::long(log_buffer_descriptor::tail(rec, 2));
    let bits = first | second | third | cast::word(claim.offset);
    log_buffer_descriptor::read_with(rec, cast::to_i64(bits))
}

// A commit that nothing refuses, and whether it was done; where it was not, the log is as it was. It is for a caller who has another path for all else.
pub fn commit_fit(rec: LogRecord, log: &mut [u8], claim: Claim) -> bool
    ensures value { result ≡ commit_fits rec log.old claim }
    ensures log_after { log.new ≡ commit_fit_bytes rec log.old claim }
{
    let offset = cast::word(claim.offset);
    let length = cast::word(claim.length);
    if cast::word(claim.partition) > 2 {
        return false;
    }
    if length < HEADER_LENGTH {
        return false;
    }
    let v = read_all(rec, claim);
    if !log_buffer_descriptor::is_sound(v, log.len()) {
        return false;
    }
    if offset + (length + ALIGNMENT_MASK) / FRAME_ALIGNMENT * FRAME_ALIGNMENT > v.term {
        return false;
    }
    let at = start(v, claim);
    if !shows(log, at, claim) {
        return false;
    }
    field::put4(log, at, length);
    true
}

// A commit with type 0 beside it: the frame is padding.
pub fn abort(rec: LogRecord, log: &mut [u8], claim: Claim) -> Result<(), Error>
    ensures value { result ≡ commit_of rec log.old claim }
    ensures log_after { log.new ≡ abort_bytes rec log.old claim }
{
    let span = locate(rec, log, claim)?;
    field::put2(log, span.start - 26, 0);
    field::put4(log, span.start - HEADER_LENGTH, cast::word(claim.length));
    Ok(())
}
