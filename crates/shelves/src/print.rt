// The parts of a line: bytes as numbers, an answer, and what became of an output.
use shelf::ShelfError;
use std::{fmt, io};

// Bytes as decimal numbers, a space before each.
#[derive(Clone, Copy)]
pub struct Numbers<'a>(pub &'a [u8]);

impl fmt::Display for Numbers<'_> {
    fn fmt<W: fmt::Write>(&self, f: &mut fmt::Formatter<W>) -> fmt::Result {
        for byte in self.0 {
            write!(f, " {byte}")?;
        }
        Ok(())
    }
}

// A call by its name, and its refusal's number, 0 for none. The line stays open.
pub fn answer(rt: &impl Print, name: &str, answer: Result<(), ShelfError>) -> io::Result<()> {
    let number = answer.map_or_else(shelf::error_number, |()| 0);
    print!(rt; "{name}: {number}")
}

// The answer, and whether the output, which was all 255, is as it was.
pub fn left(
    rt: &impl Print,
    name: &str,
    given: Result<(), ShelfError>,
    out: &[u8],
) -> io::Result<()> {
    let left = if out.iter().all(|byte| *byte == 255) {
        "as it was"
    } else {
        "written"
    };
    answer(rt, name, given)?;
    println!(rt; ", output {left}")
}
