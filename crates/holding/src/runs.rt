// The frames of one message joined in a buffer of 270 bytes, the length of the longest card: a longer run is no card, and is dropped. Read laying next.
ghost use Rattle.std.specs.Prelude.{◌≡◌, ◌++◌, ◌+◌, ◌≤◌, length, take, drop};
ghost use Rattle.model.proofs.FrameLaws.{length_of};
ghost use Rattle.model.specs.FrameDescriptor.{flags_at, ends as ends_of};
ghost use Rattle.holding.specs.Messages.{running, grown};
ghost use Rattle.holding.specs.Within.{run_in, kept, capped};

use logbuffer::data_frame_header::HEADER_LENGTH;
use logbuffer::frame_descriptor;
use logbuffer::frame_descriptor::{BEGIN_FRAG, END_FRAG};
use model::Frame;

pub(crate) const LONGEST: usize = 270;

// The first bytes of the buffer, and n of the log behind them.
fn join(buffer: &mut [u8; LONGEST], held: usize, log: &[u8], from: usize, n: usize) -> Option<usize>
    requires { (held ≤ 270) × (from + n ≤ length log.now) }
    ensures { (run_in result buffer.new ≡ capped (running (take held buffer.old ++ take n (drop from log.now)))) × (kept result ≤ 270) }
{
    if n > LONGEST - held {
        return None;
    }
    buffer[held..held + n].copy_from_slice(&log[from..from + n]);
    Some(held + n)
}

// The run with the frame at an index of the log: how many bytes since a begin frame, if there is one to go on from.
pub(crate) fn grow(
    run: Option<usize>,
    buffer: &mut [u8; LONGEST],
    log: &[u8],
    index: usize,
    frame: Frame,
) -> Option<usize>
    requires { (kept run ≤ 270) × ((32 ≤ length_of frame) × (index + length_of frame ≤ length log.now)) }
    ensures { (run_in result buffer.new ≡ capped (grown (drop index log.now) frame (run_in run buffer.old))) × (kept result ≤ 270) }
{
    let Frame::Data(length) = frame else {
        return None;
    };
    let from = index + HEADER_LENGTH;
    let n = length - HEADER_LENGTH;
    if frame_descriptor::flags_at(log, index) / BEGIN_FRAG % 2 == 1 {
        return join(buffer, 0, log, from, n);
    }
    join(buffer, run?, log, from, n)
}

// Whether the frame at an index closes a run.
pub(crate) fn closes(log: &[u8], index: usize) -> bool
    ensures { result ≡ ends_of (flags_at (drop index log.now)) }
{
    frame_descriptor::flags_at(log, index) / END_FRAG % 2 == 1
}
