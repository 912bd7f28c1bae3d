// The rows of document 01's table that calls on an image can give, each on its small input, and what a closed image, a peek and a block
// answer. A line is a name, the refusal's number or 0, and the numbers answered, or the place of a frame that is refused; then the next position, and
// the first entries.
#![tactic(auto)]

use image::{BlockReply, Image, ImageReply, PeekReply, PollReply};
use logbuffer::errors;
use model::{Block, Error, LogRecord, Peeked, Polled};
use std::{fmt, io};

// A refusal by its number, and by its place where it is one of a frame.
#[derive(Drop)]
struct Refusal(Error);

impl fmt::Display for Refusal {
    fn fmt<W: fmt::Write>(&self, f: &mut fmt::Formatter<W>) -> fmt::Result {
        let number = errors::number(self.0);
        match self.0 {
            Error::FrameTooShort(place) | Error::FramePastTerm(place) => {
                write!(f, "{number} {place}")
            }
            _ => write!(f, "{number}"),
        }
    }
}

fn print_entries(rt: &impl Print, entries: &[i32]) -> io::Result<()> {
    print!(rt; " | entries")?;
    for entry in entries.iter().take(4) {
        print!(rt; " {entry}")?;
    }
    println!(rt)
}

fn show_poll(rt: &impl Print, name: &str, reply: PollReply, entries: &[i32]) -> io::Result<()> {
    print!(rt; "{name}: ")?;
    match reply.answer {
        Ok(Polled { fragments, entries }) => print!(rt; "0 {fragments} {entries}")?,
        Err(e) => print!(rt; "{}", Refusal(e))?,
    }
    print!(rt; " | at {}", reply.next.position)?;
    print_entries(rt, entries)
}

fn show_peek(rt: &impl Print, name: &str, reply: PeekReply, entries: &[i32]) -> io::Result<()> {
    print!(rt; "{name}: ")?;
    match reply.answer {
        Ok(Peeked { position, entries }) => print!(rt; "0 {position} {entries}")?,
        Err(e) => print!(rt; "{}", Refusal(e))?,
    }
    print_entries(rt, entries)
}

fn show_block(rt: &impl Print, name: &str, reply: BlockReply) -> io::Result<()> {
    print!(rt; "{name}: ")?;
    match reply.answer {
        Ok(block) => {
            let Block {
                offset,
                length,
                session_id,
                term_id,
            } = block;
            print!(rt; "0 {offset} {length} {session_id} {term_id}")?;
        }
        Err(e) => print!(rt; "{}", Refusal(e))?,
    }
    println!(rt; " | at {}", reply.next.position)
}

fn show_image(rt: &impl Print, name: &str, reply: ImageReply) -> io::Result<()> {
    print!(rt; "{name}: ")?;
    match reply.answer {
        Ok(()) => print!(rt; "0")?,
        Err(e) => print!(rt; "{}", Refusal(e))?,
    }
    println!(rt; " | at {}", reply.next.position)
}

fn show_end(rt: &impl Print, name: &str, answer: Result<bool, Error>) -> io::Result<()> {
    match answer {
        Ok(yes) => println!(rt; "{name}: 0 {}", u8::from(yes)),
        Err(e) => println!(rt; "{name}: {}", Refusal(e)),
    }
}

// The header of a frame of less than 256 bytes in term 7.
fn header(length: u8, flags: u8, kind: u8) -> [u8; 32] {
    let mut header = [0u8; 32];
    header[0] = length;
    header[5] = flags;
    header[6] = kind;
    header[20] = 7;
    header
}

// Term 7 is the first; its tail is at 224, where the stream ends.
fn record(term_length: i32) -> LogRecord {
    LogRecord {
        tails: [30064771296, 25769803776, 21474836480],
        active_term_count: 0,
        initial_term_id: 7,
        term_length,
        mtu_length: 1408,
        session_id: 11,
        stream_id: 22,
        is_connected: 1,
        publication_limit: 0,
        end_of_stream_position: 224,
        is_closed: false,
        slowest_position: 0,
        is_cleared: [false, true, true],
        active_transport_count: 0,
        correlation_id: 0,
        page_size: 0,
    }
}

// Refusals that the arguments, the record or the image give.
fn rows(rt: &impl Print, log: &[u8]) -> io::Result<()> {
    let mut entries = [0i32; 8];
    let rec = record(65536);
    let image = Image::new(0, 11);
    let poll = image.poll(rec, log, &mut entries, 5);
    show_poll(rt, "1 too few entries", poll, &entries)?;
    let poll = image.controlled_poll(rec, log, &mut entries, b"\x05", 1);
    show_poll(rt, "1 action 5", poll, &entries)?;
    let poll = image.poll(record(65537), log, &mut entries, 4);
    show_poll(rt, "2 term length 65537", poll, &entries)?;
    let poll = Image::new(8, 11).poll(rec, log, &mut entries, 4);
    show_poll(rt, "3 position 8", poll, &entries)?;
    let later = Image::new(64, 11);
    for (name, position) in [("15 from 64 to 32", 32), ("16 from 64 to 72", 72)] {
        show_image(rt, name, later.set_position(rec, log, position))?;
    }
    Ok(())
}

// Refusals that a frame gives.
fn frame_rows(rt: &impl Print, log: &[u8]) -> io::Result<()> {
    let mut entries = [0i32; 8];
    let rec = record(65536);
    let cases = [
        ("22 length 5", 224),
        ("23 past the term", 65504),
        ("22 three terms on", 196832),
    ];
    for (name, position) in cases {
        let poll = Image::new(position, 11).poll(rec, log, &mut entries, 4);
        show_poll(rt, name, poll, &entries)?;
    }
    let peek = Image::new(160, 11).controlled_peek(rec, log, &mut entries, b"\x04", 224, 65536);
    show_peek(rt, "22 in a peek", peek, &entries)?;
    let block = Image::new(224, 11).block_poll(rec, log, 64);
    show_block(rt, "22 in a block", block)
}

// What is read: two fragments of a message, a whole message, padding.
fn reads(rt: &impl Print, log: &[u8]) -> io::Result<()> {
    let mut entries = [0i32; 8];
    let rec = record(65536);
    let image = Image::new(0, 11);
    for (name, limit) in [("poll of 2", 2), ("poll to the unsound frame", 4)] {
        let poll = image.poll(rec, log, &mut entries, limit);
        show_poll(rt, name, poll, &entries)?;
    }
    let poll = image.bounded_poll(rec, log, &mut entries, 64, 4);
    show_poll(rt, "bounded by 64", poll, &entries)?;
    let poll = image.controlled_poll(rec, log, &mut entries, b"\x04\x01", 2);
    show_poll(rt, "abort at the second", poll, &entries)?;
    let cases: [(&str, &[u8]); 2] = [
        ("peek, last byte 4", b"\x04"),
        ("peek of 3", b"\x04\x04\x04"),
    ];
    for (name, actions) in cases {
        let peek = image.controlled_peek(rec, log, &mut entries, actions, 0, 224);
        show_peek(rt, name, peek, &entries)?;
    }
    Ok(())
}

// Blocks, a position that is set, the end of the stream.
fn moves(rt: &impl Print, log: &[u8]) -> io::Result<()> {
    let rec = record(65536);
    let image = Image::new(0, 11);
    let block = image.block_poll(rec, log, 100);
    show_block(rt, "block of 100", block)?;
    let block = Image::new(160, 11).block_poll(rec, log, 32);
    show_block(rt, "block of padding", block)?;
    show_image(rt, "set to 160", image.set_position(rec, log, 160))?;
    show_end(rt, "end at 0", image.is_end_of_stream(rec, log))
}

// A closed image.
fn closed(rt: &impl Print, log: &[u8]) -> io::Result<()> {
    let mut entries = [0i32; 8];
    let rec = record(65536);
    let closing = Image::new(224, 11).close(rec, log);
    show_image(rt, "close", closing)?;
    let image = closing.next;
    let poll = image.poll(rec, log, &mut entries, 4);
    show_poll(rt, "closed poll", poll, &entries)?;
    let peek = image.controlled_peek(rec, log, &mut entries, b"\x04", 96, 224);
    show_peek(rt, "closed peek", peek, &entries)?;
    show_block(rt, "closed block", image.block_poll(rec, log, 100))?;
    show_image(rt, "closed set", image.set_position(rec, log, 8))?;
    show_end(rt, "closed end", image.is_end_of_stream(rec, log))
}

fn run(rt: &impl Print) -> io::Result<()> {
    let mut log = [0u8; 196608];
    let frames = [
        (0, 64, 128, 1),
        (64, 40, 64, 1),
        (128, 32, 192, 1),
        (160, 64, 192, 0),
        (224, 5, 192, 1),
        (65504, 33, 192, 1),
    ];
    for (at, length, flags, kind) in frames {
        support::put(&mut log, at, &header(length, flags, kind));
    }
    rows(rt, &log)?;
    frame_rows(rt, &log)?;
    reads(rt, &log)?;
    moves(rt, &log)?;
    closed(rt, &log)
}

// What cannot be written is lost, and the program ends as it ends where all is written.
fn main(rt: HostRuntime) {
    let _ = run(&rt);
}
