// The log record: read, judged, and changed; and the arithmetic of raw tails and positions.
ghost use Rattle.std.specs.Prelude.{◌≡◌, ◌+◌, ◌^◌, ◌<◌, ◌≤◌, pos, ◌*ℤ◌};
ghost use Rattle.std.specs.Int.{w32};
ghost use Rattle.std.proofs.Common.{to_z};
ghost use Rattle.logbuffer.specs.Reads.{reading_with};
ghost use Rattle.model.specs.Publication.{no_record};
ghost use Rattle.model.specs.LogBufferDescriptor.{id_plus, id_minus, offset_of, term_id_of, term_offset_of, index_by_term_count, index_by_position, bits_to_shift, compute_position, tail_of, reading_of, reading, sound_record, sound, with_tail, with_count, with_mark, is_marked, next_tail, rotate_verdict, rotate_log_of};

use crate::cast;
use crate::frame_descriptor::FRAME_ALIGNMENT;
use model::{Error, LogRecord, Reading, RecordReply};

pub const TERM_MIN_LENGTH: usize = 65536;

pub const TERM_MAX_LENGTH: usize = 1073741824;

pub const PARTITION_COUNT: usize = 3;

// ---- numbers

// A term id, by its 32 bits, so many terms on; after 2147483647 comes -2147483648 (R-8 of document 02).
pub fn id_plus(term_id: u32, terms: u32) -> u32
    ensures { result ≡ id_plus term_id terms }
{
    term_id.wrapping_add(terms)
}

// A term id less another, or less so many terms. Less the initial one it is the term's count.
pub fn id_minus(term_id: u32, less: u32) -> u32
    ensures { result ≡ id_minus term_id less }
{
    term_id.wrapping_sub(less)
}

// The upper half of a raw tail, with its sign.
pub fn term_id(raw_tail: i64) -> i32
    ensures { result ≡ term_id_of raw_tail }
{
    (raw_tail >> 32) as i32
}

// The lower half.
fn offset_bits(raw_tail: i64) -> usize
    ensures { result ≡ offset_of raw_tail }
{
    (raw_tail & 0xffff_ffff) as usize
}

// The lower half, cut to the term length.
pub fn term_offset(raw_tail: i64, term_length: usize) -> usize
    ensures { result ≡ term_offset_of raw_tail term_length }
{
    offset_bits(raw_tail).min(term_length)
}

pub fn index_by_term_count(count: usize) -> usize
    ensures { result ≡ index_by_term_count count }
{
    count % PARTITION_COUNT
}

// No bit of a position is left by a shift past its width.
pub fn index_by_position(position: u64, bits: u32) -> usize
    ensures { result ≡ index_by_position position bits }
{
    if bits > 63 {
        return 0;
    }
    ((position >> bits) % 3) as usize
}

pub fn position_bits_to_shift(term_length: u32) -> u32
    ensures { result ≡ bits_to_shift term_length }
{
    u32::trailing_zeros(term_length)
}

// The position at which a term begins: its count, by the bits to shift.
pub(crate) fn term_begin(id: usize, initial: usize, bits: u32) -> i64
    requires { (id < 4294967296) × ((initial < 4294967296) × (bits ≤ 30)) }
    ensures { result ≡ to_z w32 (id_minus id initial) *ℤ pos (2 ^ bits) }
{
    let count = cast::to_i32(id_minus(id as u32, initial as u32) as usize);
    (count as i64) << bits
}

pub fn compute_position(term_id: i32, offset: u32, bits: u32, initial: i32) -> Result<i64, Error>
    ensures { result ≡ compute_position term_id offset bits initial }
{
    if bits > 30 {
        return Err(Error::IllegalArgument);
    }
    let begin = term_begin(cast::word(term_id), cast::word(initial), bits);
    Ok(begin + (offset as i64))
}

// ---- the record, read

// The raw tail of a partition; 0 where there is none. Every index is a constant, so that the tails need not stand in memory.
pub(crate) fn tail(rec: LogRecord, partition: usize) -> i64
    ensures { result ≡ tail_of rec partition }
{
    if partition == 0 {
        return rec.tails[0];
    }
    if partition == 1 {
        return rec.tails[1];
    }
    if partition == 2 {
        return rec.tails[2];
    }
    0
}

// The record's numbers without signs, with a raw tail that the caller has: it need not be looked for among three.
pub fn read_with(rec: LogRecord, raw_tail: i64) -> Reading
    ensures { result ≡ reading_with rec raw_tail }
{
    let id = cast::word(term_id(raw_tail));
    let offset = offset_bits(raw_tail);
    Reading {
        term: cast::word(rec.term_length),
        mtu: cast::word(rec.mtu_length),
        count: cast::word(rec.active_term_count),
        initial: cast::word(rec.initial_term_id),
        session: cast::word(rec.session_id),
        stream: cast::word(rec.stream_id),
        connected: cast::word(rec.is_connected),
        limit: cast::long(rec.publication_limit),
        id: id,
        offset: offset,
        closed: rec.is_closed,
        slowest: cast::long(rec.slowest_position),
    }
}

// And with the tail of a partition.
pub fn read(rec: LogRecord, partition: usize) -> Reading
    ensures { result ≡ reading_of rec partition }
{
    read_with(rec, tail(rec, partition))
}

// The same at the active partition.
pub fn read_active(rec: LogRecord) -> Reading
    ensures { result ≡ reading rec }
{
    read(rec, cast::word(rec.active_term_count) % 3)
}

// ---- row 2

// The record's own ranges. Multiples and greatest values are asked of two numbers at once, by the bits that either has, and in an order that the
// compiler makes the shortest code of: every call asks this (docs/SPEED.md).
pub fn is_sound_record(numbers: Reading) -> bool
    ensures { result ≡ sound_record numbers }
{
    if (numbers.count | numbers.offset) > 2147483647 {
        return false;
    }
    if numbers.limit > 4611686018427387904 {
        return false;
    }
    if numbers.mtu < 64 {
        return false;
    }
    if numbers.mtu > 65504 {
        return false;
    }
    if numbers.term < TERM_MIN_LENGTH {
        return false;
    }
    if numbers.term > TERM_MAX_LENGTH {
        return false;
    }
    if usize::count_ones(numbers.term) != 1 {
        return false;
    }
    if (numbers.mtu | numbers.slowest) % FRAME_ALIGNMENT != 0 {
        return false;
    }
    if numbers.offset % FRAME_ALIGNMENT != 0 {
        return false;
    }
    numbers.slowest <= numbers.term * 2147483648
}

// And those of a lent log of n bytes.
pub fn is_sound(numbers: Reading, log_length: usize) -> bool
    ensures { result ≡ sound numbers log_length }
{
    if !is_sound_record(numbers) {
        return false;
    }
    log_length == PARTITION_COUNT * numbers.term
}

// ---- the record, changed

// The tail of partition k at (id, offset).
pub(crate) fn with_tail(rec: LogRecord, k: usize, id: usize, offset: usize) -> LogRecord
    requires { (k < 3) × ((id < 4294967296) × (offset < 4294967296)) }
    ensures { result ≡ with_tail rec k id offset }
{
    let mut next = rec;
    next.tails[k] = cast::to_i64(id * 4294967296 + offset);
    next
}

fn with_count(rec: LogRecord, n: usize) -> LogRecord
    requires { n < 2147483648 }
    ensures { result ≡ with_count rec n }
{
    let mut next = rec;
    next.active_term_count = n as i32;
    next
}

// The mark of a partition as cleared (R-4 of document 02); none where there is no such partition.
pub fn is_marked(rec: LogRecord, partition: usize) -> bool
    ensures { result ≡ is_marked rec partition }
{
    if partition == 0 {
        return rec.is_cleared[0];
    }
    if partition == 1 {
        return rec.is_cleared[1];
    }
    if partition == 2 {
        return rec.is_cleared[2];
    }
    false
}

// The mark set or removed.
pub(crate) fn with_mark(rec: LogRecord, k: usize, mark: bool) -> LogRecord
    requires { k < 3 }
    ensures { result ≡ with_mark rec k mark }
{
    let mut next = rec;
    next.is_cleared[k] = mark;
    next
}

// What a refused opening and a refused reading of a section answer: a record of zeros, which every call refuses.
pub fn no_record() -> LogRecord
    ensures { result ≡ no_record }
{
    LogRecord {
        tails: [0, 0, 0],
        active_term_count: 0,
        initial_term_id: 0,
        term_length: 0,
        mtu_length: 0,
        session_id: 0,
        stream_id: 0,
        is_connected: 0,
        publication_limit: 0,
        end_of_stream_position: 0,
        is_closed: false,
        slowest_position: 0,
        is_cleared: [false, false, false],
        active_transport_count: 0,
        correlation_id: 0,
        page_size: 0,
    }
}

// ---- rotation

// The next partition's tail is set where it is two terms behind; its mark goes in any case.
fn next_tail(rec: LogRecord, count: usize, id: usize) -> LogRecord
    requires { (count < 2147483648) × (id < 4294967296) }
    ensures { result ≡ next_tail rec count id }
{
    let k = (count + 1) % PARTITION_COUNT;
    let v = read(rec, k);
    if id_plus(v.id as u32, 2) as usize == id {
        let next = with_tail(rec, k, id_plus(id as u32, 1) as usize, 0);
        return with_mark(next, k, false);
    }
    with_mark(rec, k, false)
}

fn rotate_verdict(v: Reading, count: usize) -> Result<(), Error>
    ensures { result ≡ rotate_verdict v count }
{
    if count > 2147483647 {
        return Err(Error::IllegalArgument);
    }
    if !is_sound_record(v) {
        return Err(Error::IllegalRecord);
    }
    if count == 2147483647 {
        return Err(Error::LastTerm);
    }
    Ok(())
}

// From a count and a term id: the next tail, and the count one higher if it is the one given.
pub fn rotate_log(rec: LogRecord, count: i32, id: i32) -> RecordReply
    ensures { result ≡ rotate_log_of rec count id }
{
    let given = cast::word(count);
    let term = cast::word(id);
    let v = read_active(rec);
    match rotate_verdict(v, given) {
        Err(e) => RecordReply {
            next: rec,
            answer: Err(e),
        },
        Ok(()) => {
            let next = next_tail(rec, given, term);
            if v.count == given {
                let risen = with_count(next, given + 1);
                return RecordReply {
                    next: risen,
                    answer: Ok(()),
                };
            }
            RecordReply {
                next: next,
                answer: Ok(()),
            }
        }
    }
}
