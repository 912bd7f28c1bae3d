// A log whose first term is full: offers of 0 to 8,192 bytes, a claim that is committed and one that is aborted, and padding to the end.
use logbuffer::buffer_claim;
use model::LogRecord;
use publication::{opening, positions};

// An empty log of 65,536 bytes a term, mtu 1,408, with a limit of two terms.
pub fn fresh(log: &mut [u8]) -> LogRecord {
    let opened = opening::open_log(log, 65536, 1408, 7, 11, 12);
    positions::set_publication_limit(opened.next, 131072).next
}

// An offer of the message's first bytes, for each of the lengths.
fn offer_each(rec: LogRecord, log: &mut [u8], message: &[u8], lengths: &[usize]) -> LogRecord {
    let mut next = rec;
    for n in lengths {
        next = publication::offer(next, log, support::part(message, 0, *n), 99).next;
    }
    next
}

fn committed_claim(rec: LogRecord, log: &mut [u8]) -> LogRecord {
    let reply = publication::try_claim(rec, log, 100);
    if let Ok(claimed) = reply.answer {
        let _ = buffer_claim::write(reply.next, log, claimed.claim, &[8; 100]);
        let _ = buffer_claim::commit(reply.next, log, claimed.claim);
    }
    reply.next
}

fn aborted_claim(rec: LogRecord, log: &mut [u8]) -> LogRecord {
    let reply = publication::try_claim(rec, log, 50);
    if let Ok(claimed) = reply.answer {
        let _ = buffer_claim::abort(reply.next, log, claimed.claim);
    }
    reply.next
}

// First a header alone, a frame with 31 bytes of slack behind its body, one with 31 in the second line of 32, and three frames of one message. Behind
// the claims seven of the longest messages, six frames each, fit the rest of the term; the eighth trips, and leaves padding.
pub fn fill(log: &mut [u8]) -> LogRecord {
    let message = [5u8; 8192];
    let empty = fresh(log);
    let mixed = offer_each(empty, log, &message, &[0, 1, 33, 4000]);
    let committed = committed_claim(mixed, log);
    let aborted = aborted_claim(committed, log);
    offer_each(aborted, log, &message, &[8192; 8])
}
