// The assembler and the replay. Each has a buffer of its own, which no other call touches.
//
// An answer is its number, where the message lies (0 there is none, 1 in the log, 2 in the lent buffer), its first place in the log, its
// length, and whether its bytes are the payload.
use crate::decode::Vector;
use crate::kinds;
use crate::values::Values;
use logbuffer::cast::to_i64;
use logbuffer::fragment_assembler::FragmentAssembler;
use model::{Assembled, Error, LogRecord, Replayed};
use replay::{Counted, Replay};

#[derive(Clone, Copy)]
pub struct Joined {
    pub assembler: FragmentAssembler,
    pub values: Values,
}

#[derive(Clone, Copy)]
pub struct Stepped {
    pub replay: Replay,
    pub values: Values,
}

// The first index of a partition, in terms of 65,536 bytes.
fn base(partition: usize) -> usize {
    match partition {
        0..=2 => partition * 65536,
        _ => 0,
    }
}

// A message in the log, from a place of it or of its term on.
fn in_log(v: Vector<'_>, start: usize, body: &[u8]) -> Values {
    let n = to_i64(body.len());
    let is_payload = body == v.payload();
    Values::of(&[0, 1, to_i64(start), n, i64::from(is_payload)])
}

fn in_buffer(v: Vector<'_>, body: &[u8]) -> Values {
    let n = to_i64(body.len());
    let is_payload = body == v.payload();
    Values::of(&[0, 2, 0, n, i64::from(is_payload)])
}

fn assembled(v: Vector<'_>, log: &[u8], buffer: &[u8], answer: Result<Assembled, Error>) -> Values {
    match answer {
        Ok(Assembled::Nothing) => Values::of(&[0, 0]),
        Ok(Assembled::Fragment(at, n)) => {
            let from = base(v.size(0)).saturating_add(at);
            in_log(v, at, support::part(log, from, n))
        }
        Ok(Assembled::Message(at, n)) => in_buffer(v, support::part(buffer, at, n)),
        Err(e) => Values::refused(e),
    }
}

// Argument 2 says how much of the buffer is lent.
fn on_fragment(
    v: Vector<'_>,
    assembler: FragmentAssembler,
    rec: LogRecord,
    log: &[u8],
    buffer: &mut [u8],
) -> Joined {
    let n = v.size(2).min(buffer.len());
    let lent = &mut buffer[..n];
    let reply = assembler.on_fragment(rec, log, lent, v.int(0), v.int(1));
    Joined {
        assembler: reply.next,
        values: assembled(v, log, lent, reply.answer),
    }
}

pub fn assemble(
    kind: kinds::Assemble,
    v: Vector<'_>,
    assembler: FragmentAssembler,
    rec: LogRecord,
    log: &[u8],
    buffer: &mut [u8],
) -> Joined {
    match kind {
        kinds::Assemble::New => Joined {
            assembler: FragmentAssembler::new(),
            values: Values::of(&[0]),
        },
        kinds::Assemble::OnFragment => on_fragment(v, assembler, rec, log, buffer),
    }
}

fn next(v: Vector<'_>, replay: Replay, rec: LogRecord, log: &[u8], buffer: &mut [u8]) -> Stepped {
    let reply = replay.next(rec, log, buffer);
    let values = match reply.answer {
        Ok(Replayed::End) => Values::of(&[0, 0]),
        Ok(Replayed::InLog(from, n)) => in_log(v, from, support::part(log, from, n)),
        Ok(Replayed::InBuffer(from, n)) => in_buffer(v, support::part(buffer, from, n)),
        Err(e) => Values::refused(e),
    };
    Stepped {
        replay: reply.next,
        values,
    }
}

fn count(v: Vector<'_>, rec: LogRecord, log: &[u8], buffer: &mut [u8]) -> Values {
    match replay::count(rec, log, buffer, 0, v.int(0)) {
        Ok(Counted { messages, bytes }) => Values::of(&[0, to_i64(messages), to_i64(bytes)]),
        Err(e) => Values::refused(e),
    }
}

pub fn step(
    kind: kinds::Replay,
    v: Vector<'_>,
    replay: Replay,
    rec: LogRecord,
    log: &[u8],
    buffer: &mut [u8],
) -> Stepped {
    match kind {
        kinds::Replay::New => Stepped {
            replay: Replay::new(0, v.int(0)),
            values: Values::of(&[0]),
        },
        kinds::Replay::Next => next(v, replay, rec, log, buffer),
        kinds::Replay::Count => Stepped {
            replay,
            values: count(v, rec, log, buffer),
        },
    }
}
