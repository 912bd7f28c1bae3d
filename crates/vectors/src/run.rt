// Which call a vector makes: its kind decides. What the calls keep from one to the next is the port's side: the record, the assembler's
// bookkeeping and the replay.
use crate::decode::Vector;
use crate::joining::{Joined, Stepped};
use crate::kinds::{ByHand, Kind};
use crate::record::Fields;
use crate::values::Values;
use crate::writing::Ran;
use crate::{images, joining, reading, record, recorded, writing};
use logbuffer::fragment_assembler::FragmentAssembler;
use model::LogRecord;
use replay::Replay;

#[derive(Clone, Copy)]
pub struct Port {
    pub rec: LogRecord,
    pub assembler: FragmentAssembler,
    pub replay: Replay,
}

#[derive(Clone, Copy)]
pub struct Answered {
    pub port: Port,
    pub values: Values,
}

impl Port {
    // An answer of a call that changes nothing of the port's.
    fn with(self, values: Values) -> Answered {
        Answered { port: self, values }
    }

    fn with_record(self, ran: Ran) -> Answered {
        Answered {
            port: Port {
                rec: ran.next,
                ..self
            },
            values: ran.values,
        }
    }

    fn with_assembler(self, joined: Joined) -> Answered {
        Answered {
            port: Port {
                assembler: joined.assembler,
                ..self
            },
            values: joined.values,
        }
    }

    fn with_replay(self, stepped: Stepped) -> Answered {
        Answered {
            port: Port {
                replay: stepped.replay,
                ..self
            },
            values: stepped.values,
        }
    }
}

// The fields written by hand are those that the vector gives; main.rt puts the bytes.
fn by_hand(kind: ByHand, port: Port, want: Fields) -> Answered {
    let rec = match kind {
        ByHand::SetFields => record::record_of(want),
        ByHand::PutBytes | ByHand::Nothing => port.rec,
    };
    port.with_record(Ran::new(rec, Values::of(&[0])))
}

// In `rest` lie the expected log and behind it the assembler's buffer and the replay's.
pub fn run(
    kind: Kind,
    v: Vector<'_>,
    port: Port,
    want: Fields,
    log: &mut [u8],
    rest: &mut [u8; 458752],
) -> Answered {
    let rec = port.rec;
    match kind {
        Kind::Change(kind) => port.with_record(recorded::change(kind, v, rec)),
        Kind::Ask(kind) => port.with(recorded::ask(kind, rec)),
        Kind::Write(kind) => port.with_record(writing::run(kind, v, rec, log)),
        Kind::Read(kind) => port.with(reading::run(kind, v, rec, log)),
        Kind::Poll(kind) => port.with(images::poll(kind, v, rec, log)),
        Kind::Move(kind) => port.with(images::run(kind, v, rec, log)),
        Kind::Assemble(kind) => {
            let buffer = &mut rest[196608..327680];
            port.with_assembler(joining::assemble(kind, v, port.assembler, rec, log, buffer))
        }
        Kind::Replay(kind) => {
            let buffer = &mut rest[327680..];
            port.with_replay(joining::step(kind, v, port.replay, rec, log, buffer))
        }
        Kind::Number(kind) => port.with(recorded::number(kind, v)),
        Kind::ByHand(kind) => by_hand(kind, port, want),
    }
}
