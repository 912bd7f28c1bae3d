// The walk between two positions, added up.
ghost use Rattle.std.specs.Prelude.{◌≡◌, ◌+◌, ◌<◌, ◌≤◌};
ghost use Rattle.model.specs.Bytes.{word};
ghost use Rattle.model.proofs.FrameLaws.{length_of};
ghost use Rattle.tally.specs.Walk.{stream_by, size as size_of};
ghost use Rattle.tally.specs.Tally.{share as share_of};
ghost use Rattle.tally.specs.Within.{walk_of};

use crate::Sums;
use crate::step::{Met, Stream};
use logbuffer::data_frame_header::HEADER_LENGTH;
use model::Frame;

// A walk: its sums, and where it ended.
#[derive(Clone, Copy)]
pub(crate) struct Walked {
    pub sums: Sums,
    pub end: usize,
}

// What a frame adds to each sum.
fn share(met: Met) -> Sums
    requires { (32 ≤ length_of met.frame) × ((length_of met.frame ≤ met.size) × (met.size ≡ size_of met.frame)) }
    ensures { result ≡ share_of met.frame }
{
    let frame = met.frame;
    let Frame::Data(length) = frame else {
        return Sums {
            body: 0,
            headers: 0,
            slack: 0,
            padding: met.size,
        };
    };
    Sums {
        body: length - HEADER_LENGTH,
        headers: HEADER_LENGTH,
        slack: met.size - length,
        padding: 0,
    }
}

impl Stream<'_> {
    // From one position up to another: the sums, and where the walk ended.
    pub(crate) fn between(self, from: usize, to: usize) -> Walked
        ensures { result ≡ walk_of (stream_by self.entry.bits (word self.entry.initial) self.entry.log.now) from to }
    {
        let mut sums = Sums {
            body: 0,
            headers: 0,
            slack: 0,
            padding: 0,
        };
        let mut p = from;
        let mut at = self.locate(from);
        loop {
            let met = self.meet_at(to, p, at);
            let n = met.size;
            if n == 0 {
                break;
            }
            sums = sums.plus(share(met));
            at = self.onward(p, at, n);
            p += n;
        }
        Walked { sums, end: p }
    }
}
