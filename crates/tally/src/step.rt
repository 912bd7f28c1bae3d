// One step of the walk: what it meets at a position, and why it ends there if it does. For any numbers; the term length is given by the bits to shift, so
// that no step divides. Read walk next.
ghost use Rattle.std.specs.Prelude.{◌≡◌, ◌+◌, ◌%◌, ◌^◌, ◌<◌, ◌≤◌, min, drop, ◌==◌};
ghost use Rattle.model.specs.Bytes.{word};
ghost use Rattle.model.specs.DataFrameHeader.{header_at};
ghost use Rattle.model.specs.LogBufferDescriptor.{bits_to_shift};
ghost use Rattle.model.proofs.FrameLaws.{length_of};
ghost use Rattle.tally.specs.Walk.{stream_by, size as size_of, met_of, why as why_of};
ghost use Rattle.tally.specs.Span.{first_frame};
ghost use Rattle.tally.specs.Within.{spot_of, met_by};

use logbuffer::frame_descriptor::{ALIGNMENT_MASK, FRAME_ALIGNMENT};
use logbuffer::{cast, frame_descriptor, log_buffer_descriptor};
use model::{Error, Frame, FrameLength, LogRecord};

// A log as a stream: the bits to shift of its terms, the first one's id, and its bytes.
#[derive(Clone, Copy)]
pub struct Stream<'a> {
    pub bits: u32,
    pub initial: i32,
    pub log: &'a [u8],
}

// What a step meets, and what that takes of the stream: 0 where there is nothing to pass.
#[derive(Clone, Copy)]
pub struct Met {
    pub frame: Frame,
    pub size: usize,
}

// Why a walk ended: it came to the second position; to a frame being written, with its size; to a free place; to a frame without its position's term id;
// to one that would pass the second position; to an unsound one.
#[derive(Clone, Copy)]
pub enum Stop {
    Reached,
    Writing(usize),
    Free,
    OtherTerm,
    PastSecond,
    UnsoundFrame,
}

// Where a position lies: its term's count, its offset there, its index in the log, and the bytes to its term's end.
#[derive(Clone, Copy)]
pub struct Spot {
    pub count: usize,
    pub offset: usize,
    pub index: usize,
    pub room: usize,
}

// What a frame takes of the stream.
fn size(frame: Frame) -> usize
    requires { length_of frame < 2147483648 }
    ensures { result ≡ size_of frame }
{
    match frame {
        Frame::Absent | Frame::Unsound(_) => 0,
        Frame::Padding(n) | Frame::Data(n) => {
            (n + ALIGNMENT_MASK) / FRAME_ALIGNMENT * FRAME_ALIGNMENT
        }
    }
}

// What is met of a frame that is seen, with so many bytes left to the walk's end: an unsound one, and any other that has its own id and does not pass the end.
fn met_by(frame: Frame, is_own: bool, left: usize) -> Met
    requires { length_of frame < 2147483648 }
    ensures { result ≡ met_by frame is_own left }
{
    let n = size(frame);
    if let Frame::Unsound(_) = frame {
        return Met { frame, size: 0 };
    }
    if is_own && n <= left {
        return Met { frame, size: n };
    }
    Met {
        frame: Frame::Absent,
        size: 0,
    }
}

impl<'a> Stream<'a> {
    // A record's log.
    pub fn of(rec: LogRecord, log: &'a [u8]) -> Stream<'a>
        ensures bits { result.bits ≡ bits_to_shift (word rec.term_length) }
        ensures initial { result.initial ≡ rec.initial_term_id }
        ensures log { result.log.now ≡ log.now }
    {
        Stream {
            bits: log_buffer_descriptor::position_bits_to_shift(cast::word(rec.term_length) as u32),
            initial: rec.initial_term_id,
            log,
        }
    }

    // Where a position lies. The longest term has 30 bits to shift.
    pub fn locate(self, p: usize) -> Spot
        ensures { result ≡ spot_of (2 ^ min self.entry.bits 30) p }
    {
        let shift = self.bits.min(30);
        let term: usize = 1 << shift;
        let count = p >> shift;
        let offset = p & (term - 1);
        Spot {
            count,
            offset,
            index: count % 3 * term + offset,
            room: term - offset,
        }
    }

    // The spot of the position that lies n bytes on. In the same term it is found by sums alone, so that a walk does not wait for a division.
    pub(crate) fn onward(self, p: usize, at: Spot, n: usize) -> Spot
        requires { (at ≡ spot_of (2 ^ min self.bits 30) p) × (p + n < 18446744073709551616) }
        ensures { result ≡ spot_of (2 ^ min self.entry.bits 30) (p + n) }
    {
        if n < at.room {
            return Spot {
                count: at.count,
                offset: at.offset + n,
                index: at.index + n,
                room: at.room - n,
            };
        }
        self.locate(p + n)
    }

    // Whether the header at a spot has the id of its term.
    fn is_own(self, at: Spot) -> bool
        ensures { result ≡ ((header_at (drop at.index self.entry.log.now)).id == (word self.entry.initial + at.count) % 4294967296) }
    {
        let id = (cast::word(self.initial) + at.count % 4294967296) % 4294967296;
        frame_descriptor::term_id_at(self.log, at.index) == id
    }

    // What a walk up to `to` meets at p, which lies at a spot.
    pub(crate) fn meet_at(self, to: usize, p: usize, at: Spot) -> Met
        requires { at ≡ spot_of (2 ^ min self.bits 30) p }
        ensures { result ≡ met_of (stream_by self.entry.bits (word self.entry.initial) self.entry.log.now) to p }
    {
        if p >= to {
            return Met {
                frame: Frame::Absent,
                size: 0,
            };
        }
        let frame = frame_descriptor::frame_at(self.log, at.index, at.room);
        let own = self.is_own(at);
        met_by(frame, own, to - p)
    }

    // What a walk up to `to` meets at p. It is not said by `meet_at`, so that each has one caller and is built into its loop.
    pub fn meet(self, to: usize, p: usize) -> Met
        ensures { result ≡ met_of (stream_by self.entry.bits (word self.entry.initial) self.entry.log.now) to p }
    {
        if p >= to {
            return Met {
                frame: Frame::Absent,
                size: 0,
            };
        }
        let at = self.locate(p);
        let frame = frame_descriptor::frame_at(self.log, at.index, at.room);
        let own = self.is_own(at);
        met_by(frame, own, to - p)
    }

    // Rows 22 and 23, of the first frame of a walk.
    pub fn first_frame(self, from: usize, to: usize) -> Result<(), Error>
        ensures { result ≡ first_frame (2 ^ min self.entry.bits 30) self.entry.log.now from to }
    {
        if from >= to {
            return Ok(());
        }
        let at = self.locate(from);
        let Frame::Unsound(n) = frame_descriptor::frame_at(self.log, at.index, at.room) else {
            return Ok(());
        };
        Err(frame_descriptor::unsound_frame(n, at.offset as u32))
    }

    // Why a walk up to `to` that came to p goes no further.
    pub fn why(self, to: usize, p: usize) -> Stop
        ensures { result ≡ why_of (stream_by self.entry.bits (word self.entry.initial) self.entry.log.now) to p }
    {
        if p == to {
            return Stop::Reached;
        }
        let at = self.locate(p);
        match frame_descriptor::length_at(self.log, at.index) {
            FrameLength::Free => Stop::Free,
            FrameLength::Writing(n) => Stop::Writing(n),
            FrameLength::Finished(_) => {
                let frame = frame_descriptor::frame_at(self.log, at.index, at.room);
                if let Frame::Unsound(_) = frame {
                    return Stop::UnsoundFrame;
                }
                if self.is_own(at) {
                    Stop::PastSecond
                } else {
                    Stop::OtherTerm
                }
            }
        }
    }
}
