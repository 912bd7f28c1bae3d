// Find cards under their C names, and their answers as they cross: the number, 0 where nothing was refused, and values, 0 where there
// are none. A card's note crosses as a slice on the way in, and on the way out as the part of the bytes where it lies.
ghost use Rattle.std.specs.Prelude.{◌≡◌};
ghost use Rattle.card.specs.Card.{write_of, write_bytes, read_of};
ghost use Rattle.capi.specs.Cards.{no_card, card_write_reply, card_read_reply};

use card::{Card, CardError, CardRead};

#[repr(C)]
#[derive(Clone, Copy)]
pub struct CardWriteReply {
    pub code: i32,
    pub length: usize,
}

#[repr(C)]
#[derive(Clone, Copy)]
pub struct CardReadReply {
    pub code: i32,
    pub card: Card,
    pub note_start: usize,
    pub note_length: usize,
}

fn card_written(answer: Result<usize, CardError>) -> CardWriteReply
    ensures { result ≡ card_write_reply answer }
{
    match answer {
        Ok(n) => CardWriteReply { code: 0, length: n },
        Err(e) => CardWriteReply {
            code: card::error_number(e),
            length: 0,
        },
    }
}

// The card of a refused call.
fn no_card() -> Card
    ensures { result ≡ no_card }
{
    Card {
        bits: 0,
        find: 0,
        trench: 0,
        context: 0,
        material: 0,
        weight: 0,
    }
}

fn card_read(answer: Result<CardRead, CardError>) -> CardReadReply
    ensures { result ≡ card_read_reply answer }
{
    match answer {
        Ok(found) => CardReadReply {
            code: 0,
            card: found.card,
            note_start: found.note_start,
            note_length: found.note_length,
        },
        Err(e) => CardReadReply {
            code: card::error_number(e),
            card: no_card(),
            note_start: 0,
            note_length: 0,
        },
    }
}

#[unsafe(no_mangle)]
pub extern "C" fn logbuffer_card_write(card: Card, note: &[u8], out: &mut [u8]) -> CardWriteReply
    ensures value { result ≡ card_write_reply (write_of card note.now out.old) }
    ensures out_after { out.new ≡ write_bytes card note.now out.old }
{
    card_written(card::write(card, note, out))
}

#[unsafe(no_mangle)]
pub extern "C" fn logbuffer_card_read(bytes: &[u8]) -> CardReadReply
    ensures { result ≡ card_read_reply (read_of bytes.now) }
{
    card_read(card::read(bytes))
}
