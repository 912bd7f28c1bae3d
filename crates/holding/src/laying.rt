// A card laid over what is held so far: each field that it has replaces the one before. Read walk next.
ghost use Rattle.std.specs.Prelude.{◌≡◌, cond, eqb, [], ◌+◌, ◌≤◌, ◌<◌, length, take, drop};
ghost use Rattle.card.specs.Card.{decode};
ghost use Rattle.holding.specs.Holding.{held_of, padded};
ghost use Rattle.holding.specs.Within.{newer as newer_of, bits_with, card_with, held_with, Laid, laid_card, laid_run, run_in, kept};

use crate::runs::LONGEST;
use card::Card;

// For each field the position where its message ends, 0 where it is absent.
#[repr(C)]
#[derive(Clone, Copy)]
pub struct Ends {
    pub find: usize,
    pub trench: usize,
    pub context: usize,
    pub material: usize,
    pub weight: usize,
    pub note: usize,
}

// Whether there was a card; the fields, where each is from, and how long the note is. The note's bytes stand beside it.
#[derive(Clone, Copy)]
pub struct Held {
    pub found: bool,
    pub card: Card,
    pub ends: Ends,
    pub note_length: usize,
}

pub fn nothing() -> Held
    ensures { result ≡ held_of [] }
{
    Held {
        found: false,
        card: Card {
            bits: 0,
            find: 0,
            trench: 0,
            context: 0,
            material: 0,
            weight: 0,
        },
        ends: Ends {
            find: 0,
            trench: 0,
            context: 0,
            material: 0,
            weight: 0,
            note: 0,
        },
        note_length: 0,
    }
}

// The new one where the bit is on.
fn newer<T: Copy>(bit: usize, new: T, old: T) -> T
    ensures { result ≡ newer_of bit new old }
{
    if bit == 1 { new } else { old }
}

// The bits of either.
fn bits_with(old: u8, new: u8) -> u8
    ensures { result ≡ bits_with old new }
{
    (old | new) & 0x3f
}

// The fields of a card laid over another's.
fn card_with(old: Card, card: Card) -> Card
    ensures { result ≡ card_with old card }
{
    let b = card.bits as usize;
    Card {
        bits: bits_with(old.bits, card.bits),
        find: newer(b % 2, card.find, old.find),
        trench: newer(b / 2 % 2, card.trench, old.trench),
        context: newer(b / 4 % 2, card.context, old.context),
        material: newer(b / 8 % 2, card.material, old.material),
        weight: newer(b / 16 % 2, card.weight, old.weight),
    }
}

// What is held with a card whose note has n bytes and whose message ends at `end`.
fn held_with(held: Held, card: Card, n: usize, end: usize) -> Held
    ensures { result ≡ held_with held card n end }
{
    let b = card.bits as usize;
    let ends = held.ends;
    Held {
        found: true,
        card: card_with(held.card, card),
        ends: Ends {
            find: newer(b % 2, end, ends.find),
            trench: newer(b / 2 % 2, end, ends.trench),
            context: newer(b / 4 % 2, end, ends.context),
            material: newer(b / 8 % 2, end, ends.material),
            weight: newer(b / 16 % 2, end, ends.weight),
            note: newer(b / 32 % 2, end, ends.note),
        },
        note_length: newer(b / 32 % 2, n, held.note_length),
    }
}

// The part as the note, with 0 behind it.
fn put_note(note: &mut [u8; 255], bytes: &[u8], from: usize, n: usize)
    requires { (n ≤ 255) × (from + n ≤ length bytes.now) }
    ensures { note.new ≡ padded (take n (drop from bytes.now)) }
{
    note.fill(0);
    note[..n].copy_from_slice(&bytes[from..from + n]);
}

// The note of a card that has one.
fn note_with(note: &mut [u8; 255], bit: usize, bytes: &[u8], from: usize, n: usize)
    requires { (n ≤ 255) × (from + n ≤ length bytes.now) }
    ensures { note.new ≡ cond (eqb bit 1) (padded (take n (drop from bytes.now))) note.old }
{
    if bit == 1 {
        put_note(note, bytes, from, n);
    }
}

// Bytes laid over what is held, if they are a card of the find.
fn lay(held: Held, note: &mut [u8; 255], find: u32, bytes: &[u8], end: usize) -> Held
    requires { length bytes.now ≤ 2147483647 }
    ensures { record { held = result; note = note.new } ≡ laid_card find end (decode bytes.now) (record { held = held; note = note.old }) }
{
    let Ok(read) = card::read(bytes) else {
        return held;
    };
    let card = read.card;
    if card.find != find {
        return held;
    }
    let n = read.note_length;
    note_with(note, card.bits as usize / 32 % 2, bytes, read.note_start, n);
    held_with(held, card, n, end)
}

// A closed run laid over what is held.
pub(crate) fn lay_run(
    held: Held,
    note: &mut [u8; 255],
    find: u32,
    run: Option<usize>,
    buffer: &[u8; LONGEST],
    end: usize,
) -> Held
    requires { kept run ≤ 270 }
    ensures { record { held = result; note = note.new } ≡ laid_run find end (run_in run buffer.now) (record { held = held; note = note.old }) }
{
    match run {
        None => held,
        Some(n) => lay(held, note, find, &buffer[..n], end),
    }
}
