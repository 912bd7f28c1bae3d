// Document 01's small inputs, one for each refusal that the calls of `logbuffer` and `publication` can give, and the marked positions
// that are no theorems; and of document 02 a small input for each rule that decides an offer or a claim (R-10), and those of the metadata section (R-11). A line for
// each: the call, its number (0: none), its position or value, the active term count after it, and the rule.
#![tactic(auto)]

mod print;
mod rules;
mod sections;

use logbuffer::{buffer_claim, term_appender, term_reader, term_scan};
use model::{Claim, LogRecord};
use publication::{clearing, opening, positions};
use std::io;

// An empty log of 65,536 bytes a term, mtu 96, initial id 7, with a large limit.
fn fresh(log: &mut [u8]) -> LogRecord {
    let opened = opening::open_log(log, 65536, 96, 7, 11, 12);
    positions::set_publication_limit(opened.next, 1099511627776).next
}

// The raw tail of partition 0 set.
fn with_tail(rec: LogRecord, raw: i64) -> LogRecord {
    let mut next = rec;
    next.tails[0] = raw;
    next
}

// A record of the last term of all, in partition 1, with a limit and that partition's raw tail.
fn last_term(rec: LogRecord, publication_limit: i64, raw: i64) -> LogRecord {
    let mut next = LogRecord {
        initial_term_id: -2147483646,
        active_term_count: 2147483647,
        publication_limit,
        ..rec
    };
    next.tails[1] = raw;
    next
}

// An offer for each case, of its own record and message.
fn offer_each(
    rt: &impl Print,
    log: &mut [u8],
    cases: &[(&str, LogRecord, &[u8])],
) -> io::Result<()> {
    for &(name, rec, message) in cases {
        print::offered(rt, name, publication::offer(rec, log, message, 0))?;
    }
    Ok(())
}

// The marked positions: messages of 8,192 and 8,193 bytes, and a full term.
fn marked(rt: &impl Print, log: &mut [u8; 196608]) -> io::Result<()> {
    let message = [1u8; 8193];
    let rec = fresh(log);
    let full = with_tail(rec, 30064836608);
    let cases: [(&str, LogRecord, &[u8]); 3] = [
        ("offer 8192", rec, &message[..8192]),
        ("offer 8193", rec, &message),
        ("offer 64 at 65536", full, &message[..64]),
    ];
    offer_each(rt, log, &cases)
}

// Rows 1, 4 and 14, and 5 before 4: claims.
fn claims(rt: &impl Print, log: &mut [u8; 196608]) -> io::Result<()> {
    let rec = fresh(log);
    let cases = [
        ("claim -1", rec, -1),
        ("claim 65", rec, 65),
        ("claim 65, closed", positions::close(rec).next, 65),
    ];
    for (name, rec, n) in cases {
        print::claimed(rt, name, publication::try_claim(rec, log, n))?;
    }
    let reply = publication::try_claim(rec, log, 10);
    print::claimed(rt, "claim 10", reply)?;
    match reply.answer {
        Ok(claimed) => commits(rt, reply.next, log, claimed.claim),
        Err(_) => Ok(()),
    }
}

fn commits(rt: &impl Print, rec: LogRecord, log: &mut [u8], claim: Claim) -> io::Result<()> {
    for name in ["commit", "second commit"] {
        print::done(rt, name, rec, buffer_claim::commit(rec, log, claim))?;
    }
    Ok(())
}

// Rows 2, 5, 6, 8, 9, 11: opening and offers.
fn offers(rt: &impl Print, log: &mut [u8; 196608]) -> io::Result<()> {
    let message = [2u8; 64];
    let opened = opening::open_log(log, 65537, 96, 7, 11, 12);
    print::changed(rt, "open 65537", opened)?;
    let rec = fresh(log);
    let closed = positions::close(rec).next;
    let near = with_tail(rec, 30064836544);
    let limited = positions::set_publication_limit(rec, 0).next;
    let away = LogRecord {
        is_connected: 0,
        ..limited
    };
    let over = with_tail(rec, 32212254688);
    let cases: [(&str, LogRecord, &[u8]); 5] = [
        ("offer after close", closed, &message),
        ("offer 64 at 65472", near, &message),
        ("offer, limit 0", limited, &message),
        ("offer, limit 0, connected 0", away, &message),
        ("offer at 2147483616", over, &[]),
    ];
    offer_each(rt, log, &cases)
}

// Rows 7 and 12: the last term of all; and the largest term id, which is not the last (R-8 of document 02).
fn last_terms(rt: &impl Print, log: &mut [u8; 196608]) -> io::Result<()> {
    let message = [3u8; 64];
    let rec = fresh(log);
    let full = last_term(rec, 0, 4295032832);
    let end = LogRecord {
        initial_term_id: 2147483647,
        ..with_tail(rec, 9223372032559874048)
    };
    let cases: [(&str, LogRecord, &[u8]); 2] = [
        ("offer, last term full, limit 0", full, &message),
        ("offer, id 2147483647, term full", end, &message),
    ];
    offer_each(rt, log, &cases)?;
    let half = LogRecord {
        mtu_length: 65504,
        ..last_term(rec, 4611686018427387904, 4295000064)
    };
    let claimed = publication::try_claim(half, log, 65472);
    print::claimed(rt, "claim 65472 at 32768, last term", claimed)
}

// The rules that have no row of their own: 2 of an offer, 6 by a count out of step though the term is full, 7 after a trip, and one frame.
fn rules_beside(rt: &impl Print, log: &mut [u8; 196608]) -> io::Result<()> {
    let message = [5u8; 64];
    let rec = fresh(log);
    let unsound = LogRecord {
        mtu_length: 65,
        ..rec
    };
    let ahead = with_tail(rec, 34359803840);
    let last = last_term(rec, 4611686018427387904, 4295032768);
    let cases: [(&str, LogRecord, &[u8]); 4] = [
        ("offer, mtu 65", unsound, &message),
        ("offer 64 at 65472, id 8 and count 0", ahead, &message),
        ("offer 64 at 65472, last term", last, &message),
        ("offer 64", rec, &message),
    ];
    offer_each(rt, log, &cases)
}

// Row 19, of an offer and a claim: a trip whose next partition is not marked (R-4 of document 02).
fn not_cleared(rt: &impl Print, log: &mut [u8; 196608]) -> io::Result<()> {
    let message = [6u8; 64];
    let mut unmarked = with_tail(fresh(log), 30064836544);
    unmarked.is_cleared[1] = false;
    print::offered(
        rt,
        "offer 64 at 65472, partition 1 not cleared",
        publication::offer(unmarked, log, &message, 0),
    )?;
    print::claimed(
        rt,
        "claim 64 at 65472, partition 1 not cleared",
        publication::try_claim(unmarked, log, 64),
    )?;
    let cleared = clearing::clear_partition(unmarked, log, 1);
    print::changed(rt, "clear 1", cleared)?;
    print::offered(
        rt,
        "offer 64 at 65472, then",
        publication::offer(cleared.next, log, &message, 0),
    )
}

// Rows 1, 2 and 20: a clearing of a partition that is not there, of one of an unsound record, of one that is not due, and of one that the slowest
// reader may still read; and then of one that it has read.
fn clearings(rt: &impl Print, log: &mut [u8; 196608]) -> io::Result<()> {
    let rec = fresh(log);
    let unsound = LogRecord {
        slowest_position: 33,
        ..rec
    };
    let behind = LogRecord {
        active_term_count: 2,
        slowest_position: 65504,
        ..rec
    };
    let past = LogRecord {
        slowest_position: 65536,
        ..behind
    };
    let cases = [
        ("clear 3", rec, 3),
        ("clear -1", rec, -1),
        ("clear 1, slowest reader at 33", unsound, 1),
        ("clear 2, count 0", rec, 2),
        ("clear 0, count 2, slowest reader at 65504", behind, 0),
        ("clear 0, count 2, slowest reader at 65536", past, 0),
    ];
    for (name, rec, partition) in cases {
        print::changed(rt, name, clearing::clear_partition(rec, log, partition))?;
    }
    Ok(())
}

// Rows 3 and 15: the slowest reader's position off its places, past the greatest, and lower than it was; the same again is taken.
fn raises(rt: &impl Print, log: &mut [u8; 196608]) -> io::Result<()> {
    let rec = clearing::set_slowest_position(fresh(log), 128).next;
    let cases = [
        ("raise to 160", 160),
        ("raise to 128 again", 128),
        ("raise to 96", 96),
        ("raise to 33", 33),
        ("raise to -32", -32),
        ("raise to 140737488355360", 140737488355360),
    ];
    for (name, position) in cases {
        print::changed(rt, name, clearing::set_slowest_position(rec, position))?;
    }
    Ok(())
}

// Row 13: an appender given another term id.
fn leaves(rt: &impl Print, log: &mut [u8; 196608]) -> io::Result<()> {
    let message = [4u8; 8];
    let rec = fresh(log);
    let appended = term_appender::append_unfragmented_message(rec, log, 0, &message, 0, 8);
    print::appended(rt, "append, given 8", appended)
}

// Rows 22 and 23, with the place: a frame of length 5 at 64, and one of 33 bytes in the last 32 of its term.
fn bad_frames(rt: &impl Print, log: &mut [u8; 196608]) -> io::Result<()> {
    let rec = fresh(log);
    log[64] = 5;
    log[65504] = 33;
    for (name, offset) in [("scan", 64), ("scan past the term", 65504)] {
        print::scanned(rt, name, rec, term_scan::scan(rec, log, 0, offset, 65536))?;
    }
    bad_scans(rt, rec, log)
}

// The other readings of the frame at 64.
fn bad_scans(rt: &impl Print, rec: LogRecord, log: &[u8]) -> io::Result<()> {
    let mut entries = [0i32; 8];
    let read = term_reader::read(rec, log, 0, 64, 4, &mut entries);
    print::term_read(rt, "read", rec, read)?;
    let gap = term_scan::scan_for_gap(rec, log, 0, 7, 64, 128);
    print::gap_scanned(rt, "scan_for_gap", rec, gap)?;
    let available = term_scan::scan_for_availability(rec, log, 0, 64, 64);
    print::available(rt, "scan_for_availability", rec, available)
}

// Rows 25 and 2 of the metadata section.
fn metadata_sections(rt: &impl Print, log: &mut [u8; 196608]) -> io::Result<()> {
    sections::rows(rt, fresh(log))
}

// One log serves them all: each opens it anew.
fn run(rt: &impl Print) -> io::Result<()> {
    let log = &mut [0u8; 196608];
    marked(rt, log)?;
    claims(rt, log)?;
    offers(rt, log)?;
    last_terms(rt, log)?;
    rules_beside(rt, log)?;
    not_cleared(rt, log)?;
    clearings(rt, log)?;
    raises(rt, log)?;
    leaves(rt, log)?;
    bad_frames(rt, log)?;
    metadata_sections(rt, log)
}

// What cannot be written is lost, and the program ends as it ends where all is written.
fn main(rt: HostRuntime) {
    let _ = run(&rt);
}
