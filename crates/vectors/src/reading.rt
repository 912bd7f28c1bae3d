// The calls that read a term: partition and offset are a vector's first two arguments.
use crate::decode::Vector;
use crate::kinds::Read;
use crate::values::{UNTOUCHED, Values};
use logbuffer::cast::to_i64;
use logbuffer::{header, term_reader, term_scan};
use model::{Error, GapScanned, HeaderFields, LogRecord, TermRead};

// The number, the eight fields in the order of the bytes, and the position.
fn field_values(f: HeaderFields) -> Values {
    Values::of(&[
        0,
        i64::from(f.frame_length),
        i64::from(f.version),
        i64::from(f.flags),
        i64::from(f.frame_type),
        i64::from(f.term_offset),
        i64::from(f.session_id),
        i64::from(f.stream_id),
        i64::from(f.term_id),
        f.reserved_value,
        f.position,
    ])
}

fn header_fields(v: Vector<'_>, rec: LogRecord, log: &[u8]) -> Values {
    match header::fields(rec, log, v.int(0), v.int(1)) {
        Ok(fields) => field_values(fields),
        Err(e) => Values::refused(e),
    }
}

fn term_read(answer: Result<TermRead, Error>) -> Values {
    match answer {
        Ok(TermRead { offset, fragments }) => {
            Values::of(&[0, to_i64(offset), to_i64(fragments)])
        }
        Err(e) => Values::refused(e),
    }
}

// Argument 2 says how many entries are lent, at most all.
fn read(v: Vector<'_>, rec: LogRecord, log: &[u8]) -> Values {
    let mut entries = [UNTOUCHED; 64];
    let n = v.size(2).min(64);
    let lent = &mut entries[..n];
    let answer = term_reader::read(rec, log, v.int(0), v.int(1), v.int(3), lent);
    term_read(answer).with_entries(&entries)
}

// The companion's number, and whether the part holds the payload.
fn view(v: Vector<'_>, rec: LogRecord, log: &[u8]) -> Values {
    let number = term_reader::view_number(rec, log, v.int(0), v.int(1), v.int(2));
    let body = term_reader::view(rec, log, v.int(0), v.int(1), v.int(2));
    let is_payload = body == v.payload();
    Values::of(&[i64::from(number), i64::from(is_payload)])
}

fn scan(v: Vector<'_>, rec: LogRecord, log: &[u8]) -> Values {
    let answer = term_scan::scan(rec, log, v.int(0), v.int(1), v.int(2));
    Values::positioned(answer.map(to_i64))
}

// A gap is told with its term id, offset and length; where there is none, the offset alone. The Rust does not say whether it starts on a frame
// being written.
fn gap(answer: Result<GapScanned, Error>) -> Values {
    match answer {
        Ok(GapScanned::Gap(id, at, n, _)) => {
            Values::of(&[0, 1, to_i64(at), to_i64(n), i64::from(id)])
        }
        Ok(GapScanned::NoGap(at)) => Values::of(&[0, 0, to_i64(at)]),
        Err(e) => Values::refused(e),
    }
}

fn scan_for_gap(v: Vector<'_>, rec: LogRecord, log: &[u8]) -> Values {
    let answer = term_scan::scan_for_gap(rec, log, v.int(0), v.int(2), v.int(1), v.int(3));
    gap(answer)
}

fn scan_for_availability(v: Vector<'_>, rec: LogRecord, log: &[u8]) -> Values {
    let answer = term_scan::scan_for_availability(rec, log, v.int(0), v.int(1), v.int(2));
    Values::positioned(answer)
}

pub fn run(kind: Read, v: Vector<'_>, rec: LogRecord, log: &[u8]) -> Values {
    match kind {
        Read::HeaderFields => header_fields(v, rec, log),
        Read::Term => read(v, rec, log),
        Read::View => view(v, rec, log),
        Read::Scan => scan(v, rec, log),
        Read::ScanForGap => scan_for_gap(v, rec, log),
        Read::ScanForAvailability => scan_for_availability(v, rec, log),
    }
}
