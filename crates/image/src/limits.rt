// Where a position lies in a term, and where a read ends: by the bits of the term length, with no division.
ghost use Rattle.std.specs.Prelude.{◌≡◌, ◌+◌, ◌-◌, ◌%◌, ◌≤◌, min};
ghost use Rattle.model.specs.LogBufferDescriptor.{partition_of};
ghost use Rattle.model.specs.TermReader.{natural};
ghost use Rattle.image.specs.Images.{TermLength, shifted_in};

use logbuffer::{cast, log_buffer_descriptor};

// The limit position of a read that has none.
pub const NO_LIMIT: usize = 9223372036854775807;

// A limit position; one below 0 is 0.
pub(crate) fn natural_position(limit: i64) -> usize
    ensures { result ≡ natural limit }
{
    let bits = cast::long(limit);
    if limit < 0 { 0 } else { bits }
}

// The offset of a position in its term: the bits below the term length.
pub(crate) fn offset_of(term: usize, p: usize) -> usize
    requires { TermLength term }
    ensures { result ≡ p % term }
{
    p & (term - 1)
}

// The partition of a position: the bits from the term length up are its term count.
pub(crate) fn partition_of(term: usize, p: usize) -> usize
    requires { TermLength term }
    ensures { (result ≡ partition_of p term) × (result ≤ 2) }
{
    let bits = log_buffer_descriptor::position_bits_to_shift(term as u32);
    log_buffer_descriptor::index_by_position(p as u64, bits)
}

// The same for any number as a term length, so that it can be asked before the record is judged.
pub(crate) fn shifted_in(term: usize, p: usize) -> usize
    ensures { (result ≡ shifted_in term p) × (result ≤ 2) }
{
    if term > 4294967295 {
        return 0;
    }
    let bits = log_buffer_descriptor::position_bits_to_shift(term as u32);
    log_buffer_descriptor::index_by_position(p as u64, bits)
}

// The offset at which a read from p up to a limit position ends: the term's end, or before it.
pub(crate) fn end_offset(term: usize, p: usize, limit: usize) -> usize
    requires { TermLength term }
    ensures { result ≡ min term (p % term + (limit - p)) }
{
    let at = offset_of(term, p);
    if limit <= p {
        return at;
    }
    let reach = at + (limit - p);
    if reach < term { reach } else { term }
}
