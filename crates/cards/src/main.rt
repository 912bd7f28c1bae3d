// Find cards written and read: every field alone, all together, the shortest and the longest, and cards and bytes that are broken. A
// line for each: what it is; the length, or the card with its bits first and where its note starts; or the refusal's number. The
// stored output was worked out from document 02.
#![tactic(auto)]

use card::{Card, CardError};
use std::io;
use std::io::Write;

// The bytes of its numbers are 1 to 12, one after another, but for the material.
fn card_of(bits: u8, material: u8) -> Card {
    Card {
        bits,
        find: 67305985,
        trench: 1541,
        context: 2055,
        material,
        weight: 202050057,
    }
}

fn print_card(rt: &impl Print, card: Card, note_start: usize, note: &[u8]) -> io::Result<()> {
    let Card {
        bits,
        find,
        trench,
        context,
        material,
        weight,
    } = card;
    print!(rt;
        ": card {bits} {find} {trench} {context} {material} {weight}, note at {note_start}: \""
    )?;
    io::writer(rt).write_all(note)?;
    println!(rt; "\"")
}

fn read(rt: &impl Print, name: &str, bytes: &[u8]) -> io::Result<()> {
    print!(rt; "{name}")?;
    match card::read(bytes) {
        Ok(found) => print_card(rt, found.card, found.note_start, card::note(bytes)),
        Err(refusal) => println!(rt; ": {refusal}"),
    }
}

// The first n bytes, as far as there are so many.
fn first(bytes: &[u8], n: usize) -> &[u8] {
    bytes.get(..n).unwrap_or(&[])
}

// Written into bytes of 255, all shown, and read back.
fn there_and_back(rt: &impl Print, name: &str, card: Card, note: &[u8]) -> io::Result<()> {
    let mut out = [255u8; 20];
    print!(rt; "{name}: ")?;
    match card::write(card, note, &mut out) {
        Ok(n) => {
            print!(rt; "length {n}, bytes")?;
            for byte in &out {
                print!(rt; " {byte}")?;
            }
            println!(rt)?;
            read(rt, "  read back", first(&out, n))
        }
        Err(refusal) => println!(rt; "{refusal}"),
    }
}

// A refusal, and whether the output is as it was, all 255.
fn print_refused(rt: &impl Print, refusal: CardError, out: &[u8]) -> io::Result<()> {
    let left = if out.iter().all(|byte| *byte == 255) {
        "all as it was"
    } else {
        "written to"
    };
    println!(rt; "{refusal}, {left}")
}

// Written into the first `room` bytes, which are 255.
fn write(
    rt: &impl Print,
    name: &str,
    card: Card,
    note: &[u8],
    out: &mut [u8],
    room: usize,
) -> io::Result<()> {
    let Some(part) = out.get_mut(..room) else {
        return Ok(());
    };
    print!(rt; "{name}: ")?;
    match card::write(card, note, part) {
        Ok(n) => println!(rt; "length {n}"),
        Err(refusal) => print_refused(rt, refusal, out),
    }
}

fn fields(rt: &impl Print) -> io::Result<()> {
    let cases: [(&str, u8, u8, &[u8]); 8] = [
        ("find alone, the shortest", 1, 0, b""),
        ("trench", 3, 0, b""),
        ("context", 5, 0, b""),
        ("material", 9, 9, b""),
        ("weight", 17, 0, b""),
        ("note", 33, 0, b"hi"),
        ("context and note", 37, 0, b"hi"),
        ("all six", 63, 9, b"hi"),
    ];
    for (name, bits, material, note) in cases {
        there_and_back(rt, name, card_of(bits, material), note)?;
    }
    Ok(())
}

fn longest(rt: &impl Print) -> io::Result<()> {
    let note = [b'7'; 255];
    let mut out = [255u8; 271];
    let mut short = [255u8; 269];
    write(rt, "longest", card_of(63, 1), &note, &mut out, 271)?;
    read(rt, "  read back", first(&out, 270))?;
    write(rt, "  in 269 bytes", card_of(63, 1), &note, &mut short, 269)?;
    read(rt, "  and a byte more", &out)
}

// Into a fresh output each time, so that a refusal shows it as it was.
fn judged(rt: &impl Print, name: &str, card: Card, note: &[u8], room: usize) -> io::Result<()> {
    let mut out = [255u8; 20];
    write(rt, name, card, note, &mut out, room)
}

fn broken_cards(rt: &impl Print) -> io::Result<()> {
    let cases = [
        ("bits 0", 0, 1),
        ("bit 0 off", 2, 1),
        ("bit 6 on", 65, 1),
        ("bit 7 on", 129, 1),
        ("material 0", 9, 0),
        ("material 1", 9, 1),
        ("material 9", 9, 9),
        ("material 10", 9, 10),
    ];
    for (name, bits, material) in cases {
        judged(rt, name, card_of(bits, material), b"", 20)?;
    }
    Ok(())
}

fn broken_notes(rt: &impl Print) -> io::Result<()> {
    let long = [b'7'; 256];
    let cases: [(&str, u8, u8, &[u8], usize); 7] = [
        ("a note of 0 bytes", 33, 0, b"", 20),
        ("a note of 1", 33, 0, b"7", 20),
        ("a note of 256", 33, 0, &long, 20),
        ("bits off, material 10 and a note of 256", 1, 10, &long, 20),
        ("room for 4 of 5 bytes", 1, 0, b"", 4),
        ("room for 5", 1, 0, b"", 5),
        ("broken, and no room", 0, 0, b"", 0),
    ];
    for (name, bits, material, note, room) in cases {
        judged(rt, name, card_of(bits, material), note, room)?;
    }
    Ok(())
}

fn broken_bytes(rt: &impl Print) -> io::Result<()> {
    let cases: [(&str, &[u8]); 9] = [
        ("no bytes", b""),
        ("bits alone", &[1]),
        ("four bytes", &[1, 1, 0, 0]),
        ("five bytes", &[1, 1, 0, 0, 0]),
        ("six bytes", &[1, 1, 0, 0, 0, 0]),
        ("bit 0 off", &[0, 1, 0, 0, 0]),
        ("bit 0 off, a trench", &[2, 1, 0]),
        ("bit 6 on", &[65, 1, 0, 0, 0]),
        ("bit 7 on", &[129, 1, 0, 0, 0]),
    ];
    for (name, bytes) in cases {
        read(rt, name, bytes)?;
    }
    Ok(())
}

fn broken_fields(rt: &impl Print) -> io::Result<()> {
    let cases: [(&str, &[u8]); 12] = [
        ("the greatest find", &[1, 255, 255, 255, 255]),
        ("a trench cut short", &[3, 1, 0, 0, 0, 1]),
        ("a weight cut short", &[17, 1, 0, 0, 0, 1, 0, 0]),
        ("material 0", &[9, 1, 0, 0, 0, 0]),
        ("material 1", &[9, 1, 0, 0, 0, 1]),
        ("material 9", &[9, 1, 0, 0, 0, 9]),
        ("material 10", &[9, 1, 0, 0, 0, 10]),
        ("no length of a note", &[33, 1, 0, 0, 0]),
        ("a note of 0 bytes", &[33, 1, 0, 0, 0, 0]),
        ("a note of 1", &[33, 1, 0, 0, 0, 1, 104]),
        ("a note cut short", &[33, 1, 0, 0, 0, 2, 104]),
        ("a byte behind a note", &[33, 1, 0, 0, 0, 1, 104, 105]),
    ];
    for (name, bytes) in cases {
        read(rt, name, bytes)?;
    }
    Ok(())
}

fn run(rt: &impl Print) -> io::Result<()> {
    fields(rt)?;
    longest(rt)?;
    broken_cards(rt)?;
    broken_notes(rt)?;
    broken_bytes(rt)?;
    broken_fields(rt)
}

// What cannot be written is lost, and the program ends as it ends where all is written.
fn main(rt: HostRuntime) {
    let _ = run(&rt);
}
