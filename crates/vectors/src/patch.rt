// Bytes put over bytes: a vector's ranges into the expected log, and into the port's own where the bytes are written by hand. A range is its
// first index (4 bytes), its length (2) and its bytes.
use crate::decode::{self, Vector};

// One range at a place of the file, and the place behind it.
fn put_range(input: &[u8], at: usize, to: &mut [u8]) -> usize {
    let head = support::part(input, at, 6);
    let length = decode::half(head, 4);
    let from = at.saturating_add(6);
    let bytes = support::part(input, from, length);
    support::put(to, decode::word(head, 0) as usize, bytes);
    from.saturating_add(length)
}

// All ranges of a vector, and the place behind them.
pub fn put_ranges(v: Vector<'_>, to: &mut [u8]) -> usize {
    let mut at = v.ranges;
    for _ in 0..v.range_count {
        at = put_range(v.input, at, to);
    }
    at
}
