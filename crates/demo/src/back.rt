// What came back: the replay's messages, where it stopped and why, the count; and the padding that ends a full term.
// tell.rt has the words; crates/replay has the replay itself.
use crate::tell::{Quoted, Refusal};
use logbuffer::{frame_descriptor, header};
use model::{Error, FrameLength, HeaderFields, LogRecord, Replayed};
use publication::positions;
use replay::{Counted, Replay};
use std::io;

// The header at a position, in terms of 65,536 bytes.
fn header_at(rec: LogRecord, log: &[u8], position: i64) -> Result<HeaderFields, Error> {
    let position = position.cast_unsigned();
    let partition = position / 65536 % 3;
    let offset = position % 65536;
    header::fields(rec, log, partition as i32, offset as i32)
}

// The header of the frame where the last record's position was.
fn last_header(last: LogRecord, next: LogRecord, log: &[u8]) -> Result<HeaderFields, Error> {
    header_at(next, log, positions::position(last)?)
}

// The frame that a rotation wrote, if it is a padding frame.
pub fn padded(rt: &impl Print, last: LogRecord, next: LogRecord, log: &[u8]) -> io::Result<()> {
    match last_header(last, next, log) {
        Ok(frame) if frame.frame_type == 0 => {
            let n = frame.frame_length;
            let count = next.active_term_count;
            println!(rt;
                "    a padding frame of {n} bytes fills the term up; active term count: {count}"
            )
        }
        _ => Ok(()),
    }
}

// Message by message until none comes, each with the position behind it, its length, where it lies, and its first bytes. Three terms have no room
// for more frames than 6,144.
pub fn read_on(
    rt: &impl Print,
    start: Replay,
    rec: LogRecord,
    log: &[u8],
    buffer: &mut [u8],
) -> io::Result<Replay> {
    let mut replay = start;
    for _ in 0..6144 {
        let reply = replay.next(rec, log, buffer);
        replay = reply.next;
        let position = replay.image.position;
        match reply.answer {
            Ok(Replayed::InLog(from, n)) => {
                let message = Quoted(support::part(log, from, n));
                println!(rt; "up to {position}: {n} bytes, in the log, {message}")?;
            }
            Ok(Replayed::InBuffer(from, n)) => {
                let message = Quoted(support::part(buffer, from, n));
                println!(rt;
                    "up to {position}: {n} bytes, put together from fragments, {message}"
                )?;
            }
            Ok(Replayed::End) => break,
            Err(e) => {
                println!(rt; "the replay: {}", Refusal(e))?;
                break;
            }
        }
    }
    Ok(replay)
}

fn reason(frame_length: i32) -> &'static str {
    match frame_descriptor::frame_length(frame_length) {
        FrameLength::Free => "nothing is written from there on",
        FrameLength::Writing(_) => "the claim there is still open",
        FrameLength::Finished(_) => "the frame there is finished",
    }
}

// Where a replay stands, and what it meets there.
pub fn stopped(rt: &impl Print, replay: Replay, rec: LogRecord, log: &[u8]) -> io::Result<()> {
    let position = replay.image.position;
    print!(rt; "stopped at {position}: ")?;
    match header_at(rec, log, position) {
        Ok(frame) => println!(rt; "{}", reason(frame.frame_length)),
        Err(e) => println!(rt; "{}", Refusal(e)),
    }
}

pub fn count(rt: &impl Print, rec: LogRecord, log: &[u8]) -> io::Result<()> {
    let mut buffer = [0u8; 131072];
    match replay::count(rec, log, &mut buffer, 0, rec.session_id) {
        Ok(Counted { messages, bytes }) => print!(rt;
            "{messages} messages, {bytes} bytes in all; "
        ),
        Err(e) => println!(rt; "the count: {}", Refusal(e)),
    }
}
