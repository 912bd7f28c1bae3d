// The small input of each refusal, every one into an output of 255s. Bytes are changed, and put back.
use crate::{filling, print};
use model::LogRecord;
use std::io;

// Into the first `room` bytes of an output.
fn shelve(
    rt: &impl Print,
    name: &str,
    rec: LogRecord,
    log: &[u8],
    partition: i32,
    room: usize,
) -> io::Result<()> {
    let mut out = [255u8; 65541];
    let Some(lent) = out.get_mut(..room) else {
        return Ok(());
    };
    let given = shelf::shelve(rec, log, partition, lent);
    print::left(rt, name, given, &out)
}

fn unshelve(
    rt: &impl Print,
    name: &str,
    rec: LogRecord,
    shelf: &[u8],
    room: usize,
) -> io::Result<()> {
    let mut out = [255u8; 65537];
    let Some(lent) = out.get_mut(..room) else {
        return Ok(());
    };
    let given = shelf::unshelve(rec, shelf, lent);
    print::left(rt, name, given, &out)
}

// Rows 1 and 2, and that 1 comes before 2, and 2 before 26.
fn first_rows(rt: &impl Print, rec: LogRecord, log: &[u8]) -> io::Result<()> {
    let long = LogRecord {
        term_length: 65537,
        ..rec
    };
    let negative = LogRecord {
        term_length: -4,
        ..rec
    };
    let broken = LogRecord {
        mtu_length: 65,
        ..rec
    };
    let two_terms = support::part(log, 0, 131072);
    let cases = [
        ("partition -1", rec, log, -1, 65540),
        ("partition 3", rec, log, 3, 65540),
        ("an output of 65,539", rec, log, 0, 65539),
        ("an output of 65,541", rec, log, 0, 65541),
        (
            "term length 65,537 and an output for it",
            long,
            log,
            0,
            65541,
        ),
        ("term length -4 and no output", negative, log, 0, 0),
        ("a log of two terms", rec, two_terms, 0, 65540),
        ("mtu 65", broken, log, 0, 65540),
        ("mtu 65, partition 3", broken, log, 3, 65540),
        ("mtu 65, a term that is not full", broken, log, 1, 65540),
    ];
    for (name, rec, log, partition, room) in cases {
        shelve(rt, name, rec, log, partition, room)?;
    }
    Ok(())
}

// Other length words of the last frame, the padding at 63,232; the last is the one that was there.
fn last_frames(rt: &impl Print, rec: LogRecord, log: &mut [u8]) -> io::Result<()> {
    let cases = [
        ("the last frame free", 0),
        ("of length 31", 31),
        ("being written", -2304),
        ("of length 2,272, 32 bytes short", 2272),
        ("of length 2,305, past the end", 2305),
        ("of length 2,273 with slack", 2273),
        ("of length 2,304, as it was", 2304),
    ];
    for (name, length) in cases {
        support::put(log, 63232, &i32::to_le_bytes(length));
        shelve(rt, name, rec, log, 0, 65540)?;
    }
    Ok(())
}

fn open_claim(rt: &impl Print, log: &mut [u8]) -> io::Result<()> {
    let fresh = filling::fresh(log);
    let claimed = publication::try_claim(fresh, log, 10);
    shelve(rt, "an open claim", claimed.next, log, 0, 65540)
}

pub fn of_shelve(rt: &impl Print, rec: LogRecord, log: &mut [u8]) -> io::Result<()> {
    first_rows(rt, rec, log)?;
    shelve(rt, "the next term, which is empty", rec, log, 1, 65540)?;
    last_frames(rt, rec, log)?;
    open_claim(rt, log)
}

// Rows 1 and 2, and that 1 comes before 2, and 2 before 26; then a shelf cut short.
fn sizes(rt: &impl Print, rec: LogRecord, shelf: &[u8]) -> io::Result<()> {
    let broken = LogRecord {
        mtu_length: 65,
        ..rec
    };
    let none = support::part(shelf, 0, 0);
    let short = support::part(shelf, 0, 65539);
    let cases = [
        ("a term of 65,535", rec, shelf, 65535),
        ("a term of 65,537", rec, shelf, 65537),
        ("mtu 65", broken, shelf, 65536),
        ("mtu 65, a term of 65,535", broken, shelf, 65535),
        ("mtu 65, no shelf", broken, none, 65536),
        ("no shelf", rec, none, 65536),
        ("a shelf of 65,539", rec, short, 65536),
    ];
    for (name, rec, shelf, room) in cases {
        unshelve(rt, name, rec, shelf, room)?;
    }
    Ok(())
}

// One byte changed for each call: the count's, those of the frames' headers, and the last of all. The last two give another term.
fn changed_bytes(rt: &impl Print, rec: LogRecord, shelf: &mut [u8]) -> io::Result<()> {
    let cases = [
        ("count 0", 0, 0),
        ("count 50", 0, 50),
        ("count 52", 0, 52),
        ("count 2^31 + 51", 3, 128),
        ("the first frame of length 31", 4, 31),
        ("of length 64", 4, 64),
        ("being written", 157, 255),
        ("of type 2", 310, 2),
        ("another last byte", 65539, 7),
    ];
    for (name, at, byte) in cases {
        let was = support::byte(shelf, at);
        support::put(shelf, at, &[byte]);
        unshelve(rt, name, rec, shelf, 65536)?;
        support::put(shelf, at, &[was as u8]);
    }
    Ok(())
}

pub fn of_unshelve(rt: &impl Print, rec: LogRecord, shelf: &mut [u8]) -> io::Result<()> {
    sizes(rt, rec, shelf)?;
    changed_bytes(rt, rec, shelf)?;
    unshelve(rt, "as it was", rec, shelf, 65536)
}
