// The metadata section (R-11 of document 02): a small input for 25 by each of its causes, for 2, and a section that is written and read back. The value is
// the page size of the record that was read.
use crate::print;
use metadata::{Beside, MetadataError};
use model::LogRecord;
use std::io;

fn number(answer: Result<(), MetadataError>) -> i32 {
    answer.map_or_else(metadata::error_number, |()| 0)
}

fn write(rt: &impl Print, name: &str, rec: LogRecord, out: &mut [u8]) -> io::Result<()> {
    let answer = metadata::write_metadata(rec, out);
    print::line(rt, name, number(answer), 0, rec)
}

fn read(rt: &impl Print, name: &str, rec: LogRecord, bytes: &[u8]) -> io::Result<()> {
    let is_cleared = rec.is_cleared;
    let beside = Beside {
        session_id: rec.session_id,
        stream_id: rec.stream_id,
        publication_limit: rec.publication_limit,
        is_closed: rec.is_closed,
        slowest_position: rec.slowest_position,
        is_cleared,
    };
    let reply = metadata::read_metadata(bytes, beside);
    let page_size = u64::from(reply.next.page_size.cast_unsigned());
    print::line(rt, name, number(reply.answer), page_size, reply.next)
}

// Outputs and bytes of another size than 320.
fn sizes(rt: &impl Print, rec: LogRecord, unsound: LogRecord) -> io::Result<()> {
    let mut short = [0u8; 319];
    let mut long = [0u8; 321];
    write(rt, "write 319", rec, &mut short)?;
    write(rt, "write 321", rec, &mut long)?;
    write(rt, "write 319, mtu 65", unsound, &mut short)?;
    read(rt, "read 321", rec, &long)
}

// A section with one byte changed.
fn damaged(rt: &impl Print, rec: LogRecord, written: [u8; 320]) -> io::Result<()> {
    let cases = [
        ("read, byte 28 is 1", 28, 1),
        ("read, byte 319 is 1", 319, 1),
        ("read, header length 33", 268, 33),
        ("read, mtu 65", 272, 65),
    ];
    for (name, at, byte) in cases {
        let mut section = written;
        if let Some(place) = section.get_mut(at) {
            *place = byte;
        }
        read(rt, name, rec, &section)?;
    }
    Ok(())
}

pub fn rows(rt: &impl Print, rec: LogRecord) -> io::Result<()> {
    let rec = LogRecord {
        page_size: 4096,
        ..rec
    };
    let unsound = LogRecord {
        mtu_length: 65,
        ..rec
    };
    sizes(rt, rec, unsound)?;
    let mut out = [0u8; 320];
    write(rt, "write 320, mtu 65", unsound, &mut out)?;
    write(rt, "write 320", rec, &mut out)?;
    read(rt, "read 320", rec, &out)?;
    damaged(rt, rec, out)
}
