// The scans of a term: whole frames up to a limit, the first gap, and what is available. Each meets an unsound frame as readers do.
ghost use Rattle.std.specs.Prelude.{◌≡◌, ◌+◌, ◌-◌, ◌*◌, ◌%◌, ◌<◌, ◌≤◌, min, true, ◌&&◌, length, drop, if◌then◌else◌, ◌==◌, nat_lt, Ok, Err};
ghost use Rattle.model.specs.FrameDescriptor.{frame_at, is_unsound, unsound_frame_at};
ghost use Rattle.model.specs.LogBufferDescriptor.{good_partition, good_offset, within_term};
ghost use Rattle.model.specs.TermScan.{scan_from, scan_by, scan_of, scan_refusal, rebuild, gap_length, gap_by, gap_of, available_from, availability_by, availability_of};
ghost use Rattle.model.proofs.GapLaws.{gap_found};
ghost use Rattle.model.proofs.AvailableLaws.{outcome as outcome_of};

use crate::data_frame_header::HEADER_LENGTH;
use crate::frame_descriptor::{ALIGNMENT_MASK, FRAME_ALIGNMENT};
use crate::{argument, bit_utils, cast, frame_descriptor};
use model::{Error, Frame, GapScanned, LogRecord, Place};

// Whole data frames up to the limit; a padding frame only at the start, even one that ends past the limit.
fn scan_frames(
    log: &[u8],
    base: usize,
    term: usize,
    limit: usize,
    at: usize,
) -> Result<usize, Error>
    requires { (base + term ≤ length log.now) × ((term ≤ 1073741824) × ((at < term) × (limit ≤ term))) }
    ensures { result ≡ scan_by (scan_from term log.now base term limit true at) (if nat_lt at limit && is_unsound (frame_at (drop (base + at) log.now) (term - at)) then Err (unsound_frame_at log.now base at) else Ok tt) }
{
    let mut offset = at;
    loop {
        if limit <= offset {
            break;
        }
        match frame_descriptor::frame_at(log, base + offset, term - offset) {
            Frame::Absent => {
                break;
            }
            Frame::Unsound(found) => {
                if offset == at {
                    return Err(frame_descriptor::unsound_frame(found, at as u32));
                }
                break;
            }
            Frame::Padding(n) => {
                if offset == at {
                    return Ok(at + (n + ALIGNMENT_MASK) / FRAME_ALIGNMENT * FRAME_ALIGNMENT);
                }
                break;
            }
            Frame::Data(n) => {
                let next = offset + (n + ALIGNMENT_MASK) / FRAME_ALIGNMENT * FRAME_ALIGNMENT;
                if next > limit {
                    break;
                }
                offset = next;
            }
        }
    }
    Ok(offset)
}

// Row 1 of `scan`.
fn good_scan(p: Place, limit: usize) -> bool
    requires { p.offset < 4294967296 }
    ensures { result ≡ (good_partition p.partition && (good_offset p.offset p.read && within_term limit p.read)) }
{
    if !argument::good_place(p) {
        return false;
    }
    argument::within_term(limit, p.read)
}

// How far whole frames reach from an offset, at most to the limit: any number up to the term length.
pub fn scan(
    rec: LogRecord,
    log: &[u8],
    partition: i32,
    offset: i32,
    limit: i32,
) -> Result<usize, Error>
    ensures { result ≡ scan_of rec log.now partition offset limit }
{
    let p = argument::place(rec, partition, offset);
    let most = argument::natural(limit);
    argument::first_rows(good_scan(p, most), p.read, log.len())?;
    let term = p.read.term;
    scan_frames(log, p.partition * term, term, most, p.offset)
}

// The refusal of a scan, where a caller takes it apart by `let .. else`. A scan that was not refused has none, and 1 stands for it.
pub fn refusal(scanned: Result<usize, Error>) -> Error
    ensures { result ≡ scan_refusal scanned }
{
    match scanned {
        Ok(_) => Error::IllegalArgument,
        Err(e) => e,
    }
}

// ---- scan_for_gap

// The gap's length from a free place on: 32 at a time to the first nonzero word, or to the high mark.
fn gap_length(log: &[u8], base: usize, term: usize, high: usize, at: usize) -> usize
    requires { (base + term ≤ length log.now) × ((term ≤ 1073741824) × ((high ≤ term) × ((high % 32 ≡ 0) × ((at % 32 ≡ 0) × (at < high))))) }
    ensures { result ≡ gap_length term log.now base high at }
{
    let mut gap: usize = FRAME_ALIGNMENT;
    loop {
        if high <= at + gap {
            break;
        }
        if !frame_descriptor::is_free(log, base + (at + gap)) {
            break;
        }
        gap = gap + FRAME_ALIGNMENT;
    }
    gap
}

// The walk over frames to the first free place, or until it is at or past the high mark.
fn gap_frames(
    log: &[u8],
    base: usize,
    term: usize,
    term_id: i32,
    high: usize,
    at: usize,
) -> Result<GapScanned, Error>
    requires { (base + term ≤ length log.now) × ((term ≤ 1073741824) × ((high ≤ term) × ((high % 32 ≡ 0) × ((at % 32 ≡ 0) × (at < term))))) }
    ensures { result ≡ gap_by (gap_found term_id log.now base term high (rebuild term log.now base term high at)) (if is_unsound (frame_at (drop (base + at) log.now) (term - at)) then Err (unsound_frame_at log.now base at) else Ok tt) }
{
    let mut offset = at;
    loop {
        match frame_descriptor::frame_at(log, base + offset, term - offset) {
            Frame::Absent => {
                break;
            }
            Frame::Unsound(found) => {
                if offset == at {
                    return Err(frame_descriptor::unsound_frame(found, at as u32));
                }
                return Ok(GapScanned::NoGap(offset));
            }
            Frame::Padding(n) => {
                offset = offset + (n + ALIGNMENT_MASK) / FRAME_ALIGNMENT * FRAME_ALIGNMENT;
                if high <= offset {
                    return Ok(GapScanned::NoGap(offset));
                }
            }
            Frame::Data(n) => {
                offset = offset + (n + ALIGNMENT_MASK) / FRAME_ALIGNMENT * FRAME_ALIGNMENT;
                if high <= offset {
                    return Ok(GapScanned::NoGap(offset));
                }
            }
        }
    }
    if high <= offset {
        return Ok(GapScanned::NoGap(offset));
    }
    let length = gap_length(log, base, term, high, offset);
    let written = frame_descriptor::is_writing(log, base + offset);
    Ok(GapScanned::Gap(term_id, offset, length, written))
}

// Row 1 of `scan_for_gap`.
fn good_gap(p: Place, mark: usize) -> bool
    requires { p.offset < 4294967296 }
    ensures { result ≡ (good_partition p.partition && (good_offset p.offset p.read && (mark % 32 == 0 && within_term mark p.read))) }
{
    if !argument::good_place(p) {
        return false;
    }
    if mark % FRAME_ALIGNMENT != 0 {
        return false;
    }
    argument::within_term(mark, p.read)
}

// The first gap from an offset on, before a high mark: a multiple of 32 up to the term length. The term id is handed back, and it is said
// whether the gap starts on a frame being written.
pub fn scan_for_gap(
    rec: LogRecord,
    log: &[u8],
    partition: i32,
    term_id: i32,
    offset: i32,
    high: i32,
) -> Result<GapScanned, Error>
    ensures { result ≡ gap_of rec log.now partition term_id offset high }
{
    let p = argument::place(rec, partition, offset);
    let mark = cast::word(high);
    argument::first_rows(good_gap(p, mark), p.read, log.len())?;
    let term = p.read.term;
    gap_frames(log, p.partition * term, term, term_id, mark, p.offset)
}

// ---- scan_for_availability

// The two numbers as one.
fn outcome(available: usize, padding: usize) -> Result<i64, Error>
    requires { (available ≤ 1073741824) × (padding ≤ 1073741824) }
    ensures { result ≡ outcome_of available padding }
{
    Ok((padding * 4294967296 + available) as i64)
}

// Frames passed up to the maximum, and the padding behind the last padding frame's header; the walk goes on inside a padding frame.
fn available_frames(
    log: &[u8],
    base: usize,
    term: usize,
    at: usize,
    most: usize,
) -> Result<i64, Error>
    requires { (base + term ≤ length log.now) × ((term ≤ 1073741824) × ((at < term) × (most ≤ term - at))) }
    ensures { result ≡ availability_by (available_from term log.now base term at most 0 0) (if is_unsound (frame_at (drop (base + at) log.now) (term - at)) then Err (unsound_frame_at log.now base at) else Ok tt) }
{
    let mut available: usize = 0;
    let mut padding: usize = 0;
    loop {
        match frame_descriptor::frame_at(log, base + (at + available), term - (at + available)) {
            Frame::Absent => {
                break;
            }
            Frame::Unsound(found) => {
                if available == 0 {
                    return Err(frame_descriptor::unsound_frame(found, at as u32));
                }
                return outcome(available, padding);
            }
            Frame::Padding(n) => {
                if most < available + HEADER_LENGTH {
                    return outcome(available, 0);
                }
                available = available + HEADER_LENGTH;
                padding = (n + ALIGNMENT_MASK) / FRAME_ALIGNMENT * FRAME_ALIGNMENT - HEADER_LENGTH;
                if most <= available + padding {
                    return outcome(available, padding);
                }
            }
            Frame::Data(n) => {
                let size = (n + ALIGNMENT_MASK) / FRAME_ALIGNMENT * FRAME_ALIGNMENT;
                if most < available + size {
                    return outcome(available, 0);
                }
                available = available + size;
                if most <= available + padding {
                    return outcome(available, padding);
                }
            }
        }
    }
    outcome(available, padding)
}

// What is available from an offset on, at most a maximum: any number, cut to what is left of the term.
pub fn scan_for_availability(
    rec: LogRecord,
    log: &[u8],
    partition: i32,
    offset: i32,
    maximum: i32,
) -> Result<i64, Error>
    ensures { result ≡ availability_of rec log.now partition offset maximum }
{
    let p = argument::place(rec, partition, offset);
    let most = argument::natural(maximum);
    argument::first_rows(argument::good_place(p), p.read, log.len())?;
    let term = p.read.term;
    let at = p.offset;
    available_frames(
        log,
        p.partition * term,
        term,
        at,
        bit_utils::at_most(most, term - at),
    )
}
