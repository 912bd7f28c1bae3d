// A vector's parts, out of the bytes of the file; main.rt says how they lie. Nothing here asks anything of the bytes: what lies past
// their end reads as 0 or is cut off.
ghost use Rattle.std.specs.Prelude.{◌<◌};

use logbuffer::cast;

// Where the parts of a vector begin, and how many numbers, fields and ranges it has.
#[derive(Clone, Copy)]
pub struct Vector<'a> {
    pub input: &'a [u8],
    pub number: usize,
    pub source: usize,
    arguments: usize,
    results: usize,
    pub result_count: usize,
    pub fields: usize,
    pub field_count: usize,
    payload: usize,
    payload_length: usize,
    pub ranges: usize,
    pub range_count: usize,
}

// N bytes from a place on, 0 where the file has none.
fn bytes<const N: usize>(input: &[u8], at: usize) -> [u8; N] {
    let mut bytes = [0; N];
    for (to, from) in bytes.iter_mut().zip(support::part(input, at, N)) {
        *to = *from;
    }
    bytes
}

// The little-endian numbers of two, four and eight bytes.
pub fn half(input: &[u8], at: usize) -> usize
    ensures { result < 65536 }
{
    usize::from(u16::from_le_bytes(bytes(input, at)))
}

pub fn word(input: &[u8], at: usize) -> u32 {
    u32::from_le_bytes(bytes(input, at))
}

pub fn long(input: &[u8], at: usize) -> i64 {
    i64::from_le_bytes(bytes(input, at))
}

// Where the k-th of the numbers of eight bytes that begin at `start` lies.
fn place(start: usize, k: usize) -> usize {
    start.saturating_add(k.saturating_mul(8))
}

impl<'a> Vector<'a> {
    // The vector at a place of the file.
    pub fn at(input: &'a [u8], at: usize) -> Vector<'a> {
        let head = support::part(input, at, 10);
        let arguments = at.saturating_add(10);
        let results = place(arguments, support::byte(head, 1));
        let result_count = support::byte(head, 2);
        let fields = place(results, result_count);
        let field_count = support::byte(head, 3);
        let payload = fields.saturating_add(9 * field_count);
        let payload_length = half(head, 4);
        Vector {
            input,
            number: support::byte(head, 0),
            source: support::byte(head, 8),
            arguments,
            results,
            result_count,
            fields,
            field_count,
            payload,
            payload_length,
            ranges: payload.saturating_add(payload_length),
            range_count: half(head, 6),
        }
    }

    // The k-th argument; its low 32 bits, and those as a signed number; as a number that is not below 0; as a flag.
    pub fn argument(self, k: usize) -> i64 {
        long(self.input, place(self.arguments, k))
    }

    pub fn low(self, k: usize) -> u32 {
        word(self.input, place(self.arguments, k))
    }

    pub fn int(self, k: usize) -> i32 {
        self.low(k).cast_signed()
    }

    pub fn size(self, k: usize) -> usize {
        cast::long(self.argument(k))
    }

    pub fn flag(self, k: usize) -> bool {
        self.argument(k) != 0
    }

    // The k-th result, where there is one.
    pub fn result(self, k: usize) -> Option<i64> {
        if k < self.result_count {
            Some(long(self.input, place(self.results, k)))
        } else {
            None
        }
    }

    pub fn payload(self) -> &'a [u8] {
        support::part(self.input, self.payload, self.payload_length)
    }
}
