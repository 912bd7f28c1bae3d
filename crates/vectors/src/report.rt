// The lines that the program writes: for each kind how many vectors agreed, or which was the first that did not.
use crate::decode::Vector;
use std::io::Write as _;
use std::{fmt, io};

// How many vectors agreed, and how many of them are the papers'.
#[derive(Clone, Copy, Default)]
struct Count {
    all: usize,
    papers: usize,
}

impl Count {
    fn one_more(self, source: usize) -> Count {
        Count {
            all: self.all.saturating_add(1),
            papers: self.papers.saturating_add(source),
        }
    }
}

// The vectors that agreed, of each kind by its number, and of all.
#[derive(Clone, Copy)]
pub struct Tally {
    kinds: [Count; 48],
    total: Count,
}

impl Tally {
    pub fn new() -> Tally {
        Tally {
            kinds: [Count::default(); 48],
            total: Count::default(),
        }
    }

    pub fn with(self, v: Vector<'_>) -> Tally {
        let mut kinds = self.kinds;
        if let Some(count) = kinds.get_mut(v.number) {
            *count = count.one_more(v.source);
        }
        Tally {
            kinds,
            total: self.total.one_more(v.source),
        }
    }
}

// What differs in a vector.
#[derive(Clone, Copy)]
pub enum Difference {
    Answer,
    Record,
    Log,
}

impl fmt::Display for Difference {
    fn fmt<W: fmt::Write>(&self, f: &mut fmt::Formatter<W>) -> fmt::Result {
        match self {
            Difference::Answer => write!(f, "the answer differs"),
            Difference::Record => write!(f, "the record differs"),
            Difference::Log => write!(f, "the log differs"),
        }
    }
}

// The file's head has a name for each kind in 24 bytes, its length in the first. Names are bytes, and are written as they are.
fn name(rt: &impl Print, input: &[u8], number: usize) -> io::Result<()> {
    if number >= 48 {
        return Ok(());
    }
    let at = 8 + 24 * number;
    let name = support::part(input, at + 1, support::byte(input, at));
    io::writer(rt).write_all(name)
}

fn line(rt: &impl Print, input: &[u8], number: usize, count: Count) -> io::Result<()> {
    let Count { all, papers } = count;
    name(rt, input, number)?;
    match papers {
        0 => println!(rt; ": {all} agree"),
        _ => println!(rt; ": {all} agree, {papers} of them the papers'"),
    }
}

// A line for each kind that vectors agreed of, and one for all.
pub fn lines(rt: &impl Print, input: &[u8], tally: &Tally) -> io::Result<()> {
    for (number, count) in tally.kinds.iter().enumerate() {
        if count.all > 0 {
            line(rt, input, number, *count)?;
        }
    }
    let Count { all, papers } = tally.total;
    println!(rt; "{all} agree, {papers} of them the papers'")
}

// The first vector that differs comes behind those that agreed.
pub fn differs(
    rt: &impl Print,
    input: &[u8],
    tally: &Tally,
    number: usize,
    difference: Difference,
) -> io::Result<()> {
    print!(rt; "vector {}, ", tally.total.all)?;
    name(rt, input, number)?;
    println!(rt; ": {difference}")
}
