// A list of calls with the answers that the given Rust gave, made again on the port, so that the gate compares with the Rust and needs
// none. oracle/src/vectors.rs writes the list, the file `stdin` of this crate. Read run.rt next: the call of each kind.
//
// The port's log and record stand beside the expected ones. A vector carries what the call must change: the fields of the record by their
// place, and ranges of the log's bytes. They are put over the expected ones, the call is made, and then its answer, all thirteen fields of
// the record and, after a call that can write, all 196,608 bytes of the log must be the expected ones. At the first that is not, the
// program says which, and ends.
//
// The file, all numbers little-endian:
//   4 bytes "LBV1"; how many vectors, 4 bytes; 48 names of kinds, 24 bytes each: the length, then the name; then the vectors.
// A vector:
//   0 kind; 1 how many arguments; 2 how many results; 3 how many fields; 4 the payload's length, 2 bytes; 6 how many ranges, 2 bytes;
//   8 whose answer it is, 0 the Rust's, 1 the papers' where the call lies outside the Rust's domain, has no counterpart there or is of the
//     kind that R-3 of document 02 leaves out; 9 zero;
//   10 the arguments, 8 bytes each; the results, 8 bytes each; the fields: place, 1 byte, and value, 8 bytes; the payload;
//   the ranges: first index, 4 bytes, length, 2 bytes, and the bytes.
#![tactic(auto)]

mod decode;
mod images;
mod input;
mod joining;
mod kinds;
mod patch;
mod reading;
mod record;
mod recorded;
mod report;
mod run;
mod values;
mod writing;

use crate::decode::Vector;
use crate::kinds::{ByHand, Kind, Write};
use crate::record::Fields;
use crate::report::{Difference, Tally};
use crate::run::{Answered, Port};
use logbuffer::fragment_assembler::FragmentAssembler;
use replay::Replay;
use std::io;

// The port's side, the expected record, the place of the next vector in the file, and what agreed so far.
#[derive(Clone, Copy)]
struct Course {
    port: Port,
    want: Fields,
    at: usize,
    tally: Tally,
}

fn start() -> Course {
    let want = Fields { at: [0; 13] };
    Course {
        port: Port {
            rec: record::record_of(want),
            assembler: FragmentAssembler::new(),
            replay: Replay::new(0, 0),
        },
        want,
        at: 1160,
        tally: Tally::new(),
    }
}

// The expected log after the call, which an accepted opening zeroes; what is written by hand goes into the port's too. Answers the place behind
// the vector.
fn prepare(kind: Kind, v: Vector<'_>, log: &mut [u8], rest: &mut [u8; 458752]) -> usize {
    match kind {
        Kind::Write(Write::OpenLog) if v.result(0) == Some(0) => rest[..196608].fill(0),
        Kind::ByHand(ByHand::PutBytes) => {
            patch::put_ranges(v, log);
        }
        _ => {}
    }
    patch::put_ranges(v, rest)
}

// The answer, the record, and all of the log after a call that can write it.
fn judge(
    kind: Kind,
    v: Vector<'_>,
    answered: Answered,
    want: Fields,
    log: &[u8],
    expected: &[u8],
) -> Result<(), Difference> {
    if !answered.values.agrees_with(v) {
        return Err(Difference::Answer);
    }
    if record::fields_of(answered.port.rec) != want {
        return Err(Difference::Record);
    }
    if matches!(kind, Kind::Write(_)) && log != expected {
        return Err(Difference::Log);
    }
    Ok(())
}

// The next vector's call, made and judged.
fn step(
    from: Course,
    input: &[u8],
    log: &mut [u8],
    rest: &mut [u8; 458752],
) -> Result<Course, Difference> {
    let v = Vector::at(input, from.at);
    let kind = Kind::of(v.number);
    let at = prepare(kind, v, log, rest);
    let want = record::changed(v, from.want);
    let answered = run::run(kind, v, from.port, want, log, rest);
    judge(kind, v, answered, want, log, &rest[..196608])?;
    Ok(Course {
        port: answered.port,
        want,
        at,
        tally: from.tally.with(v),
    })
}

// All vectors, or those before the first that differs, and what differs there.
fn replay_list(
    input: &[u8],
    log: &mut [u8],
    rest: &mut [u8; 458752],
) -> (Course, Option<Difference>) {
    let mut course = start();
    for _ in 0..decode::word(input, 4) {
        match step(course, input, log, rest) {
            Ok(next) => course = next,
            Err(difference) => return (course, Some(difference)),
        }
    }
    (course, None)
}

// The port's log, and in one piece the rest: the expected log, the assembler's buffer and the replay's. A range past the log's end goes on
// into the buffers.
fn run_all(rt: &impl Print, input: &[u8]) -> io::Result<()> {
    let mut log = [0u8; 196608];
    let mut rest = [0u8; 458752];
    let (course, difference) = replay_list(input, &mut log, &mut rest);
    report::lines(rt, input, &course.tally)?;
    match difference {
        None => println!(rt; "0 differ"),
        Some(difference) => {
            let number = Vector::at(input, course.at).number;
            report::differs(rt, input, &course.tally, number, difference)
        }
    }
}

// What cannot be written is lost, and the program ends as it ends where all is written.
fn main(rt: HostRuntime) {
    let mut file = [0u8; 1572864];
    let _ = run_all(&rt, input::read(&mut file));
}
