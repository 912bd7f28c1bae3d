// What a peek answers, and the entries that it writes.
ghost use Rattle.std.specs.Prelude.{◌≡◌};
ghost use Rattle.model.specs.Image.{peek_of, peek_slots};
ghost use Rattle.image.specs.Images.{state_of};

use crate::{Image, frames, ladder, limits};
use logbuffer::{cast, log_buffer_descriptor, term_reader};
use model::{Error, FramesRead, LogRecord, Peeked, ReadVerdict};

// One fragment for each action, from another position up to a limit position.
pub(crate) fn peek_frames(
    image: Image,
    rec: LogRecord,
    log: &[u8],
    entries: &mut [i32],
    actions: &[u8],
    start: i64,
    limit_position: i64,
) -> Result<Peeked, Error>
    ensures value { result ≡ peek_of rec log.now (state_of image) entries.old actions.now start limit_position }
    ensures entries_after { entries.new ≡ peek_slots rec log.now (state_of image) entries.old actions.now start limit_position }
{
    let v = log_buffer_descriptor::read_active(rec);
    let p = cast::long(start);
    let n = actions.len();
    let good = ladder::good_control(entries.len(), n, actions);
    match ladder::reach(good, v, log.len(), image, p)? {
        ReadVerdict::Closed => Ok(Peeked {
            position: start,
            entries: 0,
        }),
        ReadVerdict::Read => {
            let end = limits::end_offset(v.term, p, limits::natural_position(limit_position));
            let read = frames::frames_at(v, log, entries, p, end, n, actions);
            let FramesRead::Walked(walked) = read else {
                return Err(term_reader::refusal(read));
            };
            Ok(Peeked {
                position: (p + walked.settled) as i64,
                entries: walked.entries,
            })
        }
    }
}
