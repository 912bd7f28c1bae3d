// Reading a term: the walk over frames that every poll takes, `read`, and views of bodies and blocks.
ghost use Rattle.std.specs.Prelude.{◌≡◌, ◌+◌, ◌*◌, ◌%◌, ◌<◌, ◌≤◌, ◌&&◌, [], length, drop, if◌then◌else◌, Ok, Err};
ghost use Rattle.logbuffer.specs.Lent.{start_of};
ghost use Rattle.model.specs.FrameDescriptor.{unsound_frame_at};
ghost use Rattle.model.specs.LogBufferDescriptor.{good_partition};
ghost use Rattle.model.specs.TermReader.{next_action, walk, first_unsound, good_walk, good_handler, good_entries, good_start, entries_by, frames_by, frames_refusal, read_from, read_walk, frames_of, frames_entries, read_of, read_entries, good_view, view_of};
ghost use Rattle.model.specs.Parts.{part_of, located_number};
ghost use Rattle.logbuffer.specs.Reads.{good_read_on, read_on_verdict, read_refusal};

use crate::data_frame_header::HEADER_LENGTH;
use crate::frame_descriptor::{ALIGNMENT_MASK, FRAME_ALIGNMENT};
use crate::{argument, cast, errors, frame_descriptor, log_buffer_descriptor};
use model::{Error, Frame, FramesRead, LogRecord, Place, Reading, Span, TermRead, Walk};

// The handler's answer to the fragment after `passed` others; 4, continue, where none is given.
fn action_of(actions: &[u8], passed: usize) -> usize
    ensures { result ≡ next_action (drop passed actions.now) }
{
    actions.get(passed).copied().unwrap_or(4) as usize
}

// The bytes up to the last whole message or padding, after one more fragment.
fn last_settled(whole: bool, moved: usize, settled: usize) -> usize
    ensures { result ≡ (if whole then moved else settled) }
{
    if whole { moved } else { settled }
}

// Row 1 of a walk.
fn good_walk(
    n: usize,
    base: usize,
    term: usize,
    end: usize,
    at: usize,
    limit: usize,
    slots: usize,
) -> bool
    ensures { result ≡ good_walk n base term end at limit slots }
{
    if base > n {
        return false;
    }
    if term > n - base {
        return false;
    }
    if term > 1073741824 {
        return false;
    }
    if term % FRAME_ALIGNMENT != 0 {
        return false;
    }
    if end > term {
        return false;
    }
    if at % FRAME_ALIGNMENT != 0 {
        return false;
    }
    if slots > 2147483647 {
        return false;
    }
    limit <= slots / 2
}

// And of its handler's answers: none where nobody handles.
fn good_handler(actions: &[u8], limit: usize) -> bool
    ensures { result ≡ good_handler actions.now limit }
{
    if actions.len() == 0 {
        return true;
    }
    argument::good_control(actions, limit)
}

// The walk itself, its arguments judged. Each frame is looked at once; it is left at a free place, an unsound frame, the end or the limit.
fn walk_frames(
    log: &[u8],
    base: usize,
    term: usize,
    end: usize,
    at: usize,
    limit: usize,
    actions: &[u8],
    entries: &mut [i32],
) -> FramesRead
    requires { (base + term ≤ length log.now) × ((term ≤ 1073741824) × ((end ≤ term) × (2 * limit ≤ length entries.old))) }
    ensures value { result ≡ frames_by (walk term log.now base term end at limit actions.now) (if first_unsound log.now base term end at limit then Err (unsound_frame_at log.now base at) else Ok tt) }
    ensures entries_after { entries.new ≡ entries_by entries.old (walk term log.now base term end at limit actions.now) (if first_unsound log.now base term end at limit then Err (unsound_frame_at log.now base at) else Ok tt) }
{
    let mut offset = at;
    let mut moved: usize = 0;
    let mut settled: usize = 0;
    let mut count: usize = 0;
    loop {
        if limit <= count {
            break;
        }
        if end <= offset {
            break;
        }
        match frame_descriptor::frame_at(log, base + offset, term - offset) {
            Frame::Absent => {
                break;
            }
            Frame::Unsound(found) => {
                if offset == at {
                    return FramesRead::Refused(frame_descriptor::unsound_frame(found, at as u32));
                }
                break;
            }
            Frame::Padding(n) => {
                offset = offset + (n + ALIGNMENT_MASK) / FRAME_ALIGNMENT * FRAME_ALIGNMENT;
                moved = offset - at;
                settled = moved;
            }
            Frame::Data(n) => {
                let action = action_of(actions, count);
                let whole = frame_descriptor::ends_message(log, base + offset);
                let p = 2 * count;
                entries[p] = (offset + HEADER_LENGTH) as i32;
                entries[p + 1] = (n - HEADER_LENGTH) as i32;
                if action == 1 {
                    return FramesRead::Walked(Walk {
                        entries: count + 1,
                        fragments: count,
                        moved: moved,
                        settled: settled,
                    });
                }
                let size = (n + ALIGNMENT_MASK) / FRAME_ALIGNMENT * FRAME_ALIGNMENT;
                offset = offset + size;
                moved = offset - at;
                settled = last_settled(whole, moved, settled);
                count = count + 1;
                if action == 2 {
                    break;
                }
            }
        }
    }
    FramesRead::Walked(Walk {
        entries: count,
        fragments: count,
        moved: moved,
        settled: settled,
    })
}

// A walk over frames for any numbers: log, where the term starts, its length, the end, the offset, the fragment limit, the handler's
// answers, if it has one, and the lent entries, two numbers each. 1 where the numbers do not fit each other or the answers are not as row 1
// asks, 22 or 23 where the first frame is unsound.
pub fn read_frames(
    log: &[u8],
    base: usize,
    term: usize,
    end: usize,
    at: usize,
    fragment_limit: usize,
    actions: &[u8],
    entries: &mut [i32],
) -> FramesRead
    ensures value { result ≡ frames_of log.now base term end at fragment_limit actions.now entries.old }
    ensures entries_after { entries.new ≡ frames_entries log.now base term end at fragment_limit actions.now entries.old }
{
    if !good_walk(
        log.len(),
        base,
        term,
        end,
        at,
        fragment_limit,
        entries.len(),
    ) {
        return FramesRead::Refused(Error::IllegalArgument);
    }
    if !good_handler(actions, fragment_limit) {
        return FramesRead::Refused(Error::IllegalArgument);
    }
    walk_frames(log, base, term, end, at, fragment_limit, actions, entries)
}

// The refusal of a walk, where a caller takes it apart by `let .. else`. A walk that was not refused has none, and 1 stands for it.
pub fn refusal(frames: FramesRead) -> Error
    ensures { result ≡ frames_refusal frames }
{
    match frames {
        FramesRead::Walked(_) => Error::IllegalArgument,
        FramesRead::Refused(e) => e,
    }
}

// ---- the same walk to the term's end for a caller who handles nothing: shorter, since no answer and no settled message is looked after

fn walk_term(
    log: &[u8],
    base: usize,
    term: usize,
    at: usize,
    limit: usize,
    entries: &mut [i32],
) -> Result<TermRead, Error>
    requires { (base + term ≤ length log.now) × ((term ≤ 1073741824) × ((term % 32 ≡ 0) × ((at % 32 ≡ 0) × (2 * limit ≤ length entries.old)))) }
    ensures value { result ≡ read_from at (frames_by (walk term log.now base term term at limit []) (if first_unsound log.now base term term at limit then Err (unsound_frame_at log.now base at) else Ok tt)) }
    ensures entries_after { entries.new ≡ entries_by entries.old (walk term log.now base term term at limit []) (if first_unsound log.now base term term at limit then Err (unsound_frame_at log.now base at) else Ok tt) }
{
    let mut offset = at;
    let mut count: usize = 0;
    loop {
        if limit <= count {
            break;
        }
        if term <= offset {
            break;
        }
        match frame_descriptor::frame_inside(log, base + offset, term - offset) {
            Frame::Absent => {
                break;
            }
            Frame::Unsound(found) => {
                if offset == at {
                    return Err(frame_descriptor::unsound_frame(found, at as u32));
                }
                break;
            }
            Frame::Padding(n) => {
                offset = offset + (n + ALIGNMENT_MASK) / FRAME_ALIGNMENT * FRAME_ALIGNMENT;
            }
            Frame::Data(n) => {
                let p = 2 * count;
                entries[p] = (offset + HEADER_LENGTH) as i32;
                entries[p + 1] = (n - HEADER_LENGTH) as i32;
                offset = offset + (n + ALIGNMENT_MASK) / FRAME_ALIGNMENT * FRAME_ALIGNMENT;
                count = count + 1;
            }
        }
    }
    Ok(TermRead {
        offset: offset,
        fragments: count,
    })
}

// What a read of a partition asks: sound numbers, a partition, an offset that is a multiple of 32, room for the entries. What its caller has asked before it
// by the same functions costs nothing again.
fn good_read_on(v: Reading, n: usize, k: usize, at: usize, limit: usize, slots: usize) -> bool
    ensures { result ≡ good_read_on v n k at limit slots }
{
    if !log_buffer_descriptor::is_sound(v, n) {
        return false;
    }
    if k > 2 {
        return false;
    }
    if at % FRAME_ALIGNMENT != 0 {
        return false;
    }
    if slots > 2147483647 {
        return false;
    }
    limit <= slots / 2
}

// A partition read from an offset to its term's end, for a caller who has read the record's numbers: the offset that it came to, and the fragments. 1 where
// the numbers do not fit each other, 22 or 23 where the first frame is unsound.
pub fn read_on(
    numbers: Reading,
    log: &[u8],
    partition: usize,
    offset: usize,
    fragment_limit: usize,
    entries: &mut [i32],
) -> Result<TermRead, Error>
    ensures value { result ≡ read_from offset (frames_by (read_walk numbers log.now partition offset fragment_limit) (read_on_verdict numbers log.now partition offset fragment_limit (length entries.old))) }
    ensures entries_after { entries.new ≡ entries_by entries.old (read_walk numbers log.now partition offset fragment_limit) (read_on_verdict numbers log.now partition offset fragment_limit (length entries.old)) }
{
    if !good_read_on(
        numbers,
        log.len(),
        partition,
        offset,
        fragment_limit,
        entries.len(),
    ) {
        return Err(Error::IllegalArgument);
    }
    let term = numbers.term;
    walk_term(log, partition * term, term, offset, fragment_limit, entries)
}

// The refusal of a read, where a caller takes it apart by `let .. else`. A read that was not refused has none, and 1 stands for it.
pub fn read_refusal(read: Result<TermRead, Error>) -> Error
    ensures { result ≡ read_refusal read }
{
    match read {
        Ok(_) => Error::IllegalArgument,
        Err(e) => e,
    }
}

// Row 1 of `read`.
fn good_read(p: Place, limit: usize, slots: usize) -> bool
    ensures { result ≡ (good_partition p.partition && (good_start p.offset p.read && good_entries slots limit)) }
{
    if !argument::good_start(p) {
        return false;
    }
    if slots > 2147483647 {
        return false;
    }
    limit <= slots / 2
}

// Reads frames of a term from an offset on, at most `limit` fragments, and lays the offset and length of each body into `entries`.
pub fn read(
    rec: LogRecord,
    log: &[u8],
    partition: i32,
    offset: i32,
    fragment_limit: i32,
    entries: &mut [i32],
) -> Result<TermRead, Error>
    ensures value { result ≡ read_of rec log.now partition offset fragment_limit entries.old }
    ensures entries_after { entries.new ≡ read_entries rec log.now partition offset fragment_limit entries.old }
{
    let p = argument::place(rec, partition, offset);
    let most = argument::natural(fragment_limit);
    let good = good_read(p, most, entries.len());
    argument::first_rows(good, p.read, log.len())?;
    let term = p.read.term;
    let at = p.offset;
    let base = p.partition * term;
    let frames = read_frames(log, base, term, term, at, most, &log[0..0], entries);
    let FramesRead::Walked(walked) = frames else {
        return Err(refusal(frames));
    };
    Ok(TermRead {
        offset: at + walked.moved,
        fragments: walked.fragments,
    })
}

// ---- views

// Row 1 of a view.
fn good_view(p: Place, size: usize) -> bool
    requires { (p.offset < 4294967296) × (size < 4294967296) }
    ensures { result ≡ good_view p.read p.partition p.offset size }
{
    if p.partition > 2 {
        return false;
    }
    argument::within_term(p.offset + size, p.read)
}

// Where a body or a block lies in the log: an offset of a partition's term and a length.
pub fn view_span(
    rec: LogRecord,
    log: &[u8],
    partition: i32,
    offset: i32,
    length: i32,
) -> Result<Span, Error>
    ensures { result ≡ view_of rec log.now partition offset length }
{
    let p = argument::place(rec, partition, offset);
    let size = cast::word(length);
    argument::first_rows(good_view(p, size), p.read, log.len())?;
    let from = p.partition * p.read.term + p.offset;
    Ok(Span {
        start: from,
        end: from + size,
    })
}

// A body or a block as a part of the log; the empty part for a refusal.
pub fn view(rec: LogRecord, log: &[u8], partition: i32, offset: i32, length: i32) -> &[u8]
    ensures result_value { result.now ≡ part_of log.now (view_of rec log.now partition offset length) }
    ensures ref_ptr_value { result.ref_ptr ≡ (log.entry.ref_ptr.0, start_of (view_of rec log.now partition offset length) + log.entry.ref_ptr.1) }
{
    let Ok(span) = view_span(rec, log, partition, offset, length) else {
        return &log[0..0];
    };
    &log[span.start..span.end]
}

// The companion: 0, or the number of the refusal.
pub fn view_number(rec: LogRecord, log: &[u8], partition: i32, offset: i32, length: i32) -> i32
    ensures { result ≡ located_number (view_of rec log.now partition offset length) }
{
    match view_span(rec, log, partition, offset, length) {
        Ok(_) => 0,
        Err(e) => errors::number(e),
    }
}
