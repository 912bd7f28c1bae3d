// The walk between two positions: one pass over the frames, with at most one card's bytes kept.
ghost use Rattle.std.specs.Prelude.{◌≡◌, ◌*◌, ◌^◌, ◌≤◌, min, length};
ghost use Rattle.model.specs.Bytes.{word};
ghost use Rattle.tally.specs.Walk.{stream_by};
ghost use Rattle.holding.specs.Within.{walk_of};

use crate::laying::Held;
use crate::runs::LONGEST;
use crate::{laying, runs};
use tally::step::Stream;

// What a walk found, the bytes of the note, and where it ended.
#[derive(Clone, Copy)]
pub(crate) struct Walked {
    pub held: Held,
    pub note: [u8; 255],
    pub end: usize,
}

// From one position up to another: the card laid together so far, and where the walk ended.
pub(crate) fn between(stream: Stream<'_>, find: u32, from: usize, to: usize) -> Walked
    requires { 3 * 2 ^ min stream.bits 30 ≤ length stream.log.now }
    ensures { result ≡ walk_of find (stream_by stream.entry.bits (word stream.entry.initial) stream.entry.log.now) from to }
{
    let mut held = laying::nothing();
    let mut note = [0u8; 255];
    let mut run = None;
    let mut buffer = [0u8; LONGEST];
    let mut p = from;
    loop {
        let met = stream.meet(to, p);
        let n = met.size;
        if n == 0 {
            break;
        }
        let index = stream.locate(p).index;
        run = runs::grow(run, &mut buffer, stream.log, index, met.frame);
        p += n;
        if runs::closes(stream.log, index) {
            held = laying::lay_run(held, &mut note, find, run, &buffer, p);
            run = None;
        }
    }
    Walked { held, note, end: p }
}
