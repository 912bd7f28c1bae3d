// Finished terms on the shelf: a term laid out anew with all its headers together, for a viewer, and taken back. specs/Shelf.antt draws the
// layout, specs/Calls.antt says what each call answers and leaves. Its refusals are the crate's own, by the numbers 1, 2 and 26 of the
// documents.
#![tactic(auto)]

mod bytes;
mod frames;
mod laying;
mod taking;

ghost use Rattle.std.specs.Prelude.{◌≡◌, cond, ◌+◌, ◌≤◌, ◌<◌, length};
ghost use Rattle.shelf.specs.Calls.{error_number, good_shelve, good_unshelve, shelve_of, shelve_bytes, unshelve_of, unshelve_bytes};
ghost use Rattle.shelf.specs.Shelf.{filled, shelf_of, accepted, term_of};

use logbuffer::{cast, log_buffer_descriptor};
use model::{LogRecord, Reading};

// NotFilled: the frames of a term do not reach its end, or no term of that length gives the shelf's bytes.
#[derive(Clone, Copy, Debug, PartialEq, Eq, thiserror::Error)]
pub enum ShelfError {
    #[error("an argument is out of its range")]
    IllegalArgument,
    #[error("the record or the log breaks its ranges")]
    IllegalRecord,
    #[error("frames that do not fill the term, or shelf bytes that no term of that length gives")]
    NotFilled,
}

pub fn error_number(error: ShelfError) -> i32
    ensures { result ≡ error_number error }
{
    match error {
        ShelfError::IllegalArgument => 1,
        ShelfError::IllegalRecord => 2,
        ShelfError::NotFilled => 26,
    }
}

// A partition, and an output of the term length and 4 more.
fn good_shelve(v: Reading, partition: usize, out: usize) -> bool
    ensures { result ≡ good_shelve v partition out }
{
    partition <= 2 && out <= 2147483647 && v.term == (out + 4294967292) % 4294967296
}

// An output of the term length.
fn good_unshelve(v: Reading, shelf: usize, out: usize) -> bool
    ensures { result ≡ good_unshelve v shelf out }
{
    shelf <= 2147483647 && out <= 2147483647 && out == v.term
}

// A term laid on the shelf, if its frames fill it.
fn shelve_term(term: &[u8], out: &mut [u8]) -> bool
    requires { (length term.now ≤ 1073741824) × (length out.old ≡ length term.now + 4) }
    ensures value { result ≡ filled term.now }
    ensures out_after { out.new ≡ cond (filled term.now) (shelf_of term.now) out.old }
{
    let Some(n) = frames::count(term) else {
        return false;
    };
    laying::lay(term, n, out);
    true
}

// A shelf taken down, if a term of the output's length gives it.
fn unshelve_term(shelf: &[u8], out: &mut [u8]) -> bool
    requires { length out.old ≤ 1073741824 }
    ensures value { result ≡ accepted (length out.old) shelf.now }
    ensures out_after { out.new ≡ cond (accepted (length out.old) shelf.now) (term_of (length out.old) shelf.now) out.old }
{
    if !taking::accepts(shelf, out.len()) {
        return false;
    }
    taking::take_down(shelf, out);
    true
}

// The term of a partition, with its headers together. Refuses 1, 2, 26, and leaves the output as it was then.
pub fn shelve(rec: LogRecord, log: &[u8], partition: i32, out: &mut [u8]) -> Result<(), ShelfError>
    ensures value { result ≡ shelve_of rec log.now partition (length out.old) }
    ensures out_after { out.new ≡ shelve_bytes rec log.now partition out.old }
{
    let v = log_buffer_descriptor::read_active(rec);
    let p = cast::word(partition);
    if !good_shelve(v, p, out.len()) {
        return Err(ShelfError::IllegalArgument);
    }
    if !log_buffer_descriptor::is_sound(v, log.len()) {
        return Err(ShelfError::IllegalRecord);
    }
    let term = v.term;
    let from = p * term;
    let to = from + term;
    if !shelve_term(&log[from..to], out) {
        return Err(ShelfError::NotFilled);
    }
    Ok(())
}

// The term that a shelf came from. Refuses 1, 2, 26, and leaves the output as it was then.
pub fn unshelve(rec: LogRecord, shelf: &[u8], out: &mut [u8]) -> Result<(), ShelfError>
    ensures value { result ≡ unshelve_of rec shelf.now (length out.old) }
    ensures out_after { out.new ≡ unshelve_bytes rec shelf.now out.old }
{
    let v = log_buffer_descriptor::read_active(rec);
    if !good_unshelve(v, shelf.len(), out.len()) {
        return Err(ShelfError::IllegalArgument);
    }
    if !log_buffer_descriptor::is_sound_record(v) {
        return Err(ShelfError::IllegalRecord);
    }
    if !unshelve_term(shelf, out) {
        return Err(ShelfError::NotFilled);
    }
    Ok(())
}
