// Find cards: a message body that every device reads alike. specs/Card.antt draws the format and says what each call answers and
// leaves. The crate rests on no other; its refusals are two of its own, by the numbers 1 and 21 of the documents.
#![tactic(auto)]

use std::fmt;

mod field;

ghost use Rattle.std.specs.Prelude.{◌≡◌, ◌+◌, ◌≤◌, ◌<◌, length, cond, Ok, Err};
ghost use Rattle.card.specs.declared.CardError.TheVariants.{IllegalArgument, BrokenCard};
ghost use Rattle.card.specs.Bytes.{sum};
ghost use Rattle.card.specs.Card.{widths, numbers_of, within, sound_card, held, short, write_of, write_bytes, read_of, note_of, start_of_note, error_number};

// The bits say which fields are there; the number of a field whose bit is off is not looked at. The note stands beside the card, as a
// slice: its bit is 5.
#[repr(C)]
#[derive(Clone, Copy)]
pub struct Card {
    pub bits: u8,
    pub find: u32,
    pub trench: u16,
    pub context: u16,
    pub material: u8,
    pub weight: u32,
}

#[derive(Clone, Copy, Debug, PartialEq, Eq)]
pub enum CardError {
    IllegalArgument,
    BrokenCard,
}

// The card, where its note starts in the bytes and how long it is. Numbers whose bit is off are 0.
#[derive(Clone, Copy)]
pub struct CardRead {
    pub card: Card,
    pub note_start: usize,
    pub note_length: usize,
}

pub fn error_number(error: CardError) -> i32
    ensures { result ≡ error_number error }
{
    match error {
        CardError::IllegalArgument => 1,
        CardError::BrokenCard => 21,
    }
}

// A refusal is shown by its number.
impl fmt::Display for CardError {
    ghost use Rattle.std.specs.Prelude.{Some};
    ghost use Rattle.std.specs.Fmt.{signed_decimal};
    ghost use Rattle.card.specs.Card.{error_number};

    ghost output = { λ e. Some (signed_decimal (error_number e)) };

    fn fmt<W: fmt::Write>(&self, f: &mut fmt::Formatter<W>) -> fmt::Result {
        write!(f, "{}", error_number(*self))
    }
}

// A field that is there holds 1 to `top`.
#[tactic(auto, unfolding(crate::specs::Card::within))]
fn is_within(bit: usize, top: usize, n: usize) -> bool
    ensures { result ≡ within bit top n }
{
    bit != 1 || (1..=top).contains(&n)
}

// Passes a card that, with a note of n bytes, has an encoding.
#[tactic(auto, unfolding(crate::specs::Card::sound_card))]
fn sound(card: Card, n: usize) -> Result<(), CardError>
    ensures { result ≡ cond (sound_card card n) (Ok tt) (Err BrokenCard) }
{
    let b = usize::from(card.bits);
    let material = usize::from(card.material);
    if b % 2 == 1 && b < 64 && is_within(b / 8 % 2, 9, material) && is_within(b / 32 % 2, 255, n) {
        Ok(())
    } else {
        Err(CardError::BrokenCard)
    }
}

// Passes a slice whose length an i32 holds.
fn short(bytes: &[u8]) -> Result<(), CardError>
    ensures { result ≡ cond (short bytes.now) (Ok tt) (Err IllegalArgument) }
{
    if bytes.len() <= 2147483647 {
        Ok(())
    } else {
        Err(CardError::IllegalArgument)
    }
}

// The number, or 0 where its bit is off.
#[tactic(auto, unfolding(crate::specs::Card::held))]
fn if_held(bit: usize, n: usize) -> usize
    ensures { (result ≡ held bit n) × (result ≤ n) }
{
    if bit == 1 { n } else { 0 }
}

// The widths of a card's numbers, by its bits.
#[tactic(auto, unfolding(crate::specs::Card::widths))]
fn table(b: usize) -> [usize; 7]
    ensures { result ≡ widths b }
{
    [
        1,
        4 * (b % 2),
        2 * (b / 2 % 2),
        2 * (b / 4 % 2),
        b / 8 % 2,
        4 * (b / 16 % 2),
        b / 32 % 2,
    ]
}

// Where they end, which is where the note starts.
#[tactic(auto, unfolding(crate::specs::Card::widths, crate::specs::Bytes::sum))]
fn end(b: usize) -> usize
    ensures { (result ≡ sum (widths b)) × (result < 16) }
{
    table(b).iter().sum()
}

// The numbers of a card with a note of n bytes.
fn numbers(card: Card, n: u32) -> [u32; 7]
    ensures { result ≡ numbers_of card n }
{
    [
        u32::from(card.bits),
        card.find,
        u32::from(card.trench),
        u32::from(card.context),
        u32::from(card.material),
        card.weight,
        n,
    ]
}

// Writes the card's sole encoding at the start of `out` and answers its length; what lies behind it stays. Refuses 1, 21.
#[tactic(auto, unfolding(crate::specs::Card::write_of, crate::specs::Card::write_bytes, crate::specs::Card::size_of, crate::specs::Card::encode))]
pub fn write(card: Card, note: &[u8], out: &mut [u8]) -> Result<usize, CardError>
    ensures value { result ≡ write_of card note.now out.old }
    ensures out_after { out.new ≡ write_bytes card note.now out.old }
{
    short(note)?;
    short(out)?;
    sound(card, note.len())?;
    let b = usize::from(card.bits);
    let n = if_held(b / 32 % 2, note.len());
    let size = end(b) + n;
    if out.len() < size {
        return Err(CardError::IllegalArgument);
    }
    field::join(
        out,
        &table(b),
        &numbers(card, note.len() as u32),
        &note[..n],
    );
    Ok(size)
}

// Accepts just what `write` makes, to the last byte. All numbers are read first, absent bytes as 0, so that one test of the length at
// the end finds a byte too few and a byte too many. Refuses 1, 21.
#[tactic(auto, using(crate::proofs::Calls::four), unfolding(crate::specs::Card::read_of, crate::specs::Card::decode, crate::specs::Card::shown))]
pub fn read(bytes: &[u8]) -> Result<CardRead, CardError>
    ensures { result ≡ read_of bytes.now }
{
    short(bytes)?;
    let b = usize::from(field::byte(bytes, 0));
    let [bits, find, trench, context, material, weight, length] = field::split(bytes, &table(b));
    let card = Card {
        bits: bits as u8,
        find,
        trench: trench as u16,
        context: context as u16,
        material: material as u8,
        weight,
    };
    let from = end(b);
    let n = length as usize;
    sound(card, n)?;
    if bytes.len() != from + n {
        return Err(CardError::BrokenCard);
    }
    Ok(CardRead {
        card,
        note_start: from,
        note_length: n,
    })
}

// The note as a part of the bytes; the empty part where there is none or `read` refuses.
#[tactic(auto, unfolding(crate::specs::Card::read_of, crate::specs::Card::note_of))]
pub fn note(bytes: &[u8]) -> &[u8]
    ensures result_value { result.now ≡ note_of bytes.now }
    ensures ref_ptr_value { result.ref_ptr ≡ (bytes.entry.ref_ptr.0, start_of_note (read_of bytes.now) + bytes.entry.ref_ptr.1) }
{
    match read(bytes) {
        Ok(found) => &bytes[found.note_start..found.note_start + found.note_length],
        Err(_) => &bytes[..0],
    }
}
