// The frames at a position of a log, the call behind poll, and the one behind bounded_poll and controlled_poll.
ghost use Rattle.std.specs.Prelude.{◌≡◌, cond, true, [], ◌%◌, ◌≤◌, length, Ok, Err};
ghost use Rattle.model.specs.Bytes.{long};
ghost use Rattle.model.specs.LogBufferDescriptor.{sound, partition_of};
ghost use Rattle.model.specs.TermReader.{good_entries, good_handler, frames_by, entries_by, read_from};
ghost use Rattle.model.specs.Image.{walk_at, unsound_at, unsound_frame_of};
ghost use Rattle.image.specs.Images.{state_of, shifted_in, polled_to, poll_up_to, poll_to_term};

use crate::{Image, ladder, limits};
use logbuffer::{cast, term_reader};
use model::{Error, FramesRead, Polled, ReadVerdict, Reading, TermRead};

// Where a poll leaves the image's position, and its answer.
#[derive(Clone, Copy)]
pub struct PolledTo {
    pub position: i64,
    pub answer: Result<Polled, Error>,
}

// The walk from a position of a sound log up to an offset of its term.
pub(crate) fn frames_at(
    v: Reading,
    log: &[u8],
    entries: &mut [i32],
    p: usize,
    end: usize,
    limit: usize,
    actions: &[u8],
) -> FramesRead
    requires { (sound v (length log.now) ≡ true) × ((p % 32 ≡ 0) × ((end ≤ v.term) × ((good_entries (length entries.old) limit ≡ true) × (good_handler actions.now limit ≡ true)))) }
    ensures value { result ≡ frames_by (walk_at v log.now p end limit actions.now) (cond (unsound_at v log.now p end limit) (Err (unsound_frame_of v log.now p)) (Ok tt)) }
    ensures entries_after { entries.new ≡ entries_by entries.old (walk_at v log.now p end limit actions.now) (cond (unsound_at v log.now p end limit) (Err (unsound_frame_of v log.now p)) (Ok tt)) }
{
    let term = v.term;
    term_reader::read_frames(
        log,
        limits::partition_of(term, p) * term,
        term,
        end,
        limits::offset_of(term, p),
        limit,
        actions,
        entries,
    )
}

// The same walk to the term's end, with no handler, in the partition that the position has.
fn frames_on(
    v: Reading,
    log: &[u8],
    entries: &mut [i32],
    k: usize,
    p: usize,
    limit: usize,
) -> Result<TermRead, Error>
    requires { (sound v (length log.now) ≡ true) × ((p % 32 ≡ 0) × ((good_entries (length entries.old) limit ≡ true) × (k ≡ partition_of p v.term))) }
    ensures value { result ≡ read_from (p % v.term) (frames_by (walk_at v log.now p v.term limit []) (cond (unsound_at v log.now p v.term limit) (Err (unsound_frame_of v log.now p)) (Ok tt))) }
    ensures entries_after { entries.new ≡ entries_by entries.old (walk_at v log.now p v.term limit []) (cond (unsound_at v log.now p v.term limit) (Err (unsound_frame_of v log.now p)) (Ok tt)) }
{
    term_reader::read_on(v, log, k, limits::offset_of(v.term, p), limit, entries)
}

// A poll with no limit position and no handler, on a path of its own: the call that is made most. The partition of its position is worked out by the caller.
pub(crate) fn poll_term(
    image: Image,
    v: Reading,
    log: &[u8],
    entries: &mut [i32],
    good: bool,
    limit: usize,
    k: usize,
) -> PolledTo
    requires { (good ≡ true → good_entries (length entries.old) limit ≡ true) × (k ≡ shifted_in v.term (long image.position)) }
    ensures value { result ≡ polled_to (poll_to_term v log.now (state_of image) entries.old good limit) }
    ensures entries_after { entries.new ≡ (poll_to_term v log.now (state_of image) entries.old good limit).slots }
{
    match ladder::readable(good, v, log.len(), image) {
        Err(e) => PolledTo {
            position: image.position,
            answer: Err(e),
        },
        Ok(ReadVerdict::Closed) => PolledTo {
            position: image.position,
            answer: Ok(Polled {
                fragments: 0,
                entries: 0,
            }),
        },
        Ok(ReadVerdict::Read) => {
            let p = cast::long(image.position);
            let came = frames_on(v, log, entries, k, p, limit);
            let Ok(read) = came else {
                return PolledTo {
                    position: image.position,
                    answer: Err(term_reader::read_refusal(came)),
                };
            };
            PolledTo {
                position: (p - limits::offset_of(v.term, p) + read.offset) as i64,
                answer: Ok(Polled {
                    fragments: read.fragments,
                    entries: read.fragments,
                }),
            }
        }
    }
}

// A poll: its limit position, its fragment limit, its actions, and whether its arguments are as row 1 asks.
pub(crate) fn poll_frames(
    image: Image,
    v: Reading,
    log: &[u8],
    entries: &mut [i32],
    good: bool,
    bound: usize,
    limit: usize,
    actions: &[u8],
) -> PolledTo
    requires { good ≡ true → (good_entries (length entries.old) limit ≡ true) × (good_handler actions.now limit ≡ true) }
    ensures value { result ≡ polled_to (poll_up_to v log.now (state_of image) entries.old good bound limit actions.now) }
    ensures entries_after { entries.new ≡ (poll_up_to v log.now (state_of image) entries.old good bound limit actions.now).slots }
{
    match ladder::readable(good, v, log.len(), image) {
        Err(e) => PolledTo {
            position: image.position,
            answer: Err(e),
        },
        Ok(ReadVerdict::Closed) => PolledTo {
            position: image.position,
            answer: Ok(Polled {
                fragments: 0,
                entries: 0,
            }),
        },
        Ok(ReadVerdict::Read) => {
            let p = cast::long(image.position);
            let end = limits::end_offset(v.term, p, bound);
            let frames = frames_at(v, log, entries, p, end, limit, actions);
            let FramesRead::Walked(walked) = frames else {
                return PolledTo {
                    position: image.position,
                    answer: Err(term_reader::refusal(frames)),
                };
            };
            PolledTo {
                position: (p + walked.moved) as i64,
                answer: Ok(Polled {
                    fragments: walked.fragments,
                    entries: walked.entries,
                }),
            }
        }
    }
}
