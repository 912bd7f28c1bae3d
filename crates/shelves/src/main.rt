// A term full of frames of every kind, made by calls, laid on the shelf and taken back. Printed are where each column of the headers lies,
// with its bytes of the first nine frames and of the last, and where the bodies lie; then the small inputs of each refusal, by number, 0 for
// none. The stored output was worked out from document 02.
#![tactic(auto)]

mod filling;
mod print;
mod refusals;

use crate::print::Numbers;
use model::LogRecord;
use std::io;

// A column's place, and a few of its bytes.
fn column(rt: &impl Print, name: &str, shelf: &[u8], at: usize, frames: usize) -> io::Result<()> {
    let bytes = support::part(shelf, at, frames);
    let first = Numbers(support::part(bytes, 0, 9));
    let last = Numbers(support::part(bytes, frames.saturating_sub(1), 1));
    println!(rt; "{name} at {at}:{first} ..{last}")
}

// The columns of each field of a header, one for each of its bytes. Answers where the bodies begin.
fn columns(rt: &impl Print, shelf: &[u8], frames: usize) -> io::Result<usize> {
    let fields = [
        ("frame length", 4),
        ("version", 1),
        ("flags", 1),
        ("type", 2),
        ("term offset", 4),
        ("session id", 4),
        ("stream id", 4),
        ("term id", 4),
        ("reserved value", 8),
    ];
    let mut at = 4usize;
    for (name, width) in fields {
        for _ in 0..width {
            column(rt, name, shelf, at, frames)?;
            at = at.saturating_add(frames);
        }
    }
    Ok(at)
}

// What lies where, and the way back.
fn show(rt: &impl Print, rec: LogRecord, log: &[u8], shelf: &[u8]) -> io::Result<()> {
    let frames = support::byte(shelf, 0) + 256 * support::byte(shelf, 1);
    let count = Numbers(support::part(shelf, 0, 4));
    println!(rt; "count of frames at 0:{count}")?;
    let at = columns(rt, shelf, frames)?;
    let bodies = Numbers(support::part(shelf, at, 9));
    println!(rt; "bodies at {at}:{bodies}")?;
    let mut back = [255u8; 65536];
    let answer = shelf::unshelve(rec, shelf, &mut back);
    print::answer(rt, "unshelve", answer)?;
    if back.as_slice() == support::part(log, 0, 65536) {
        println!(rt; ", and every byte of the term is back")
    } else {
        println!(rt; ", and the term is another")
    }
}

fn run(rt: &impl Print) -> io::Result<()> {
    let mut log = [0u8; 196608];
    let mut out = [255u8; 65540];
    let rec = filling::fill(&mut log);
    print::answer(rt, "shelve", shelf::shelve(rec, &log, 0, &mut out))?;
    println!(rt)?;
    show(rt, rec, &log, &out)?;
    refusals::of_shelve(rt, rec, &mut log)?;
    refusals::of_unshelve(rt, rec, &mut out)
}

// What cannot be written is lost, and the program ends as it ends where all is written.
fn main(rt: HostRuntime) {
    let _ = run(&rt);
}
