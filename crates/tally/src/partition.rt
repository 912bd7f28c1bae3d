// The walk in partition order: the parts in partitions 0, 1, 2 as they lie, each by itself. specs/Partitions.antt says what it answers.
ghost use Rattle.std.specs.Prelude.{◌≡◌, ◌*◌, ◌^◌, ◌<◌, ◌≤◌, min, true};
ghost use Rattle.model.specs.Bytes.{word};
ghost use Rattle.tally.specs.Walk.{stream_by};
ghost use Rattle.tally.specs.Partitions.{edge as edge_of, in_three};
ghost use Rattle.tally.specs.Within.{Ordered, part_of, parts_of, parted_of};

use crate::step::Stream;
use crate::{Partitions, Sums};

// A part: its sums, and whether its walk reached its end.
#[derive(Clone, Copy)]
pub(crate) struct Part {
    pub sums: Sums,
    pub whole: bool,
}

// The three parts, and whether each reached its end.
#[derive(Clone, Copy)]
pub(crate) struct Parts {
    pub sums: Partitions,
    pub whole: bool,
}

// The sums of each partition, and where the walk ended.
#[derive(Clone, Copy)]
pub(crate) struct Parted {
    pub sums: Partitions,
    pub end: usize,
}

// Where term t begins, or the nearer of the two positions.
fn edge(term: usize, from: usize, to: usize, t: usize) -> usize
    requires { (from ≤ to) × (t * term < 18446744073709551616) }
    ensures { result ≡ edge_of term from to t }
{
    (t * term).max(from).min(to)
}

// The part in partition k, walked by itself.
fn walk_part(stream: Stream<'_>, from: usize, to: usize, k: usize) -> Part
    requires { Ordered from to × (k < 3) }
    ensures { result ≡ part_of (stream_by stream.entry.bits (word stream.entry.initial) stream.entry.log.now) from to k }
{
    let at = stream.locate(from);
    let term = at.offset + at.room;
    let t = at.count + (k + 2 * at.count) % 3;
    let start = edge(term, from, to, t);
    let end = edge(term, from, to, t + 1);
    let w = stream.between(start, end);
    Part {
        sums: w.sums,
        whole: w.end == end,
    }
}

// The parts in partitions 0, 1, 2, in this order.
fn walk_parts(stream: Stream<'_>, from: usize, to: usize) -> Parts
    requires { Ordered from to }
    ensures { result ≡ parts_of (stream_by stream.entry.bits (word stream.entry.initial) stream.entry.log.now) from to }
{
    let a = walk_part(stream, from, to, 0);
    let b = walk_part(stream, from, to, 1);
    let c = walk_part(stream, from, to, 2);
    Parts {
        sums: Partitions {
            p0: a.sums,
            p1: b.sums,
            p2: c.sums,
        },
        whole: a.whole && b.whole && c.whole,
    }
}

// Each partition's sums, and where the walk ended. Where a part stops short, the stream order says how far the parts go: no frame passes its term's end,
// so that up to there each of them reaches its own.
pub(crate) fn by_partition(stream: Stream<'_>, from: usize, to: usize) -> Parted
    requires { Ordered from to × (in_three (2 ^ min stream.bits 30) from to ≡ true) }
    ensures { result ≡ parted_of (stream_by stream.entry.bits (word stream.entry.initial) stream.entry.log.now) from to }
{
    let parts = walk_parts(stream, from, to);
    if parts.whole {
        return Parted {
            sums: parts.sums,
            end: to,
        };
    }
    let end = stream.between(from, to).end;
    Parted {
        sums: walk_parts(stream, from, end).sums,
        end,
    }
}

// Whether the bytes between lie in at most three terms.
pub(crate) fn in_three(stream: Stream<'_>, from: usize, to: usize) -> bool
    requires { from ≤ 2305843009213693952 }
    ensures { result ≡ in_three (2 ^ min stream.entry.bits 30) from to }
{
    let at = stream.locate(from);
    let term = at.offset + at.room;
    to <= (at.count + 3) * term
}
