// What the programs share: bytes of a slice at any index. What lies past the end is cut off, or reads as 0.
#![tactic(auto)]

ghost use Rattle.std.specs.Prelude.{◌≡◌, ◌++◌, ◌+◌, ◌-◌, ◌<◌, min, length, take, drop, get_or};

pub fn least(a: usize, b: usize) -> usize
    ensures { result ≡ min a b }
{
    if a < b { a } else { b }
}

// At most n bytes from an index on.
pub fn part(bytes: &[u8], at: usize, n: usize) -> &[u8]
    ensures { result.now ≡ take n (drop at bytes.now) }
{
    let rest = &bytes[least(at, bytes.len())..];
    &rest[..least(n, rest.len())]
}

fn wide(b: u8) -> usize
    ensures { (result ≡ b) × (result < 256) }
{
    b as usize
}

// The byte at an index.
pub fn byte(bytes: &[u8], at: usize) -> usize
    ensures { (result ≡ get_or bytes.now at 0) × (result < 256) }
{
    if at >= bytes.len() {
        return 0;
    }
    wide(bytes[at])
}

// As many bytes as both have, over the first of `to`.
pub fn copy(to: &mut [u8], from: &[u8])
    ensures { to.new ≡ take (length to.old) from.now ++ drop (length from.now) to.old }
{
    let n = least(to.len(), from.len());
    to[..n].copy_from_slice(&from[..n]);
}

// As many bytes as there is room for, over those of `to` from an index on.
pub fn put(to: &mut [u8], at: usize, from: &[u8])
    ensures { to.new ≡ take at to.old ++ (take (length to.old - at) from.now ++ drop (at + length from.now) to.old) }
{
    let start = least(at, to.len());
    copy(&mut to[start..], from);
}
