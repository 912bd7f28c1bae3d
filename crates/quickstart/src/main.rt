// The quick start of the README, whole: a log is opened, two requests are offered, each works its block of find numbers out of its position, and
// a replay reads the log back. The README quotes it; docs/quoted.sh holds the two together. Read crates/demo next.
#![tactic(auto)]

use model::{LogRecord, Replayed};
use publication::{opening, positions};
use replay::Replay;
use std::io;

// Ten find numbers for every 32 bytes of the log: a request's block begins here, and no two blocks overlap.
fn block(position: u64) -> u64 {
    position.saturating_sub(32) / 32 * 10
}

fn request(
    rt: &impl Print,
    rec: LogRecord,
    log: &mut [u8],
    message: &str,
) -> io::Result<LogRecord> {
    let offered = publication::offer(rec, log, message.as_bytes(), 0);
    match offered.answer {
        Ok(position) => {
            let finds = block(position.cast_unsigned());
            println!(rt; "position {position}, finds from {finds}")?;
        }
        Err(refusal) => println!(rt; "refused: {refusal}")?,
    }
    Ok(offered.next)
}

fn replayed(
    rt: &impl Print,
    replay: Replay,
    rec: LogRecord,
    log: &[u8],
    buffer: &mut [u8],
) -> io::Result<Replay> {
    let reply = replay.next(rec, log, buffer);
    match reply.answer {
        Ok(Replayed::InLog(_, n)) => println!(rt; "a message of {n} bytes")?,
        Ok(Replayed::InBuffer(_, _)) => println!(rt; "a message in fragments")?,
        Ok(Replayed::End) => println!(rt; "the end")?,
        Err(refusal) => println!(rt; "refused: {refusal}")?,
    }
    Ok(reply.next)
}

fn run(rt: &impl Print) -> io::Result<()> {
    let mut log = [0u8; 196608];
    let mut buffer = [0u8; 131072];
    let opened = opening::open_log(&mut log, 65536, 1408, 7, 11, 22);
    let limited = positions::set_publication_limit(opened.next, 131072);
    let first = request(rt, limited.next, &mut log, "trench A asks for a block")?;
    let second = request(rt, first, &mut log, "trench B asks for a block")?;
    let mut replay = Replay::new(0, 11);
    for _ in 0..3 {
        replay = replayed(rt, replay, second, &log, &mut buffer)?;
    }
    Ok(())
}

// What cannot be written is lost, and the program ends as it ends where all is written.
fn main(rt: HostRuntime) {
    let _ = run(&rt);
}
