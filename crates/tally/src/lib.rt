// Where a log's bytes went between two positions: body bytes, headers, slack and padding, where the walk ended, and why there; in stream order, and as
// the partitions lie. specs/Walk.antt says what a step of the walk is, specs/Tally.antt and specs/Partitions.antt what the calls answer. Read step next.
#![tactic(auto)]

ghost use Rattle.std.specs.Prelude.{◌≡◌, ◌+◌, ◌<◌};
ghost use Rattle.tally.specs.Tally.{plus as plus_of, total, tally_of};
ghost use Rattle.tally.specs.Partitions.{all_of, partition_tally_of};

use crate::step::{Stop, Stream};
use logbuffer::cast;
use model::{Error, LogRecord};

mod partition;
pub mod span;
pub mod step;
mod walk;

// Body bytes, headers and slack of data frames; padding frames at their aligned length.
#[repr(C)]
#[derive(Clone, Copy)]
pub struct Sums {
    pub body: usize,
    pub headers: usize,
    pub slack: usize,
    pub padding: usize,
}

impl Sums {
    // Sums added up, one by one.
    pub(crate) fn plus(self, other: Sums) -> Sums
        requires { total self + total other < 18446744073709551616 }
        ensures { result ≡ plus_of self other }
    {
        Sums {
            body: self.body + other.body,
            headers: self.headers + other.headers,
            slack: self.slack + other.slack,
            padding: self.padding + other.padding,
        }
    }
}

// The sums, the position where the walk ended, and why.
#[derive(Clone, Copy)]
pub struct Tallied {
    pub sums: Sums,
    pub end: i64,
    pub stop: Stop,
}

// The sums of each partition.
#[repr(C)]
#[derive(Clone, Copy)]
pub struct Partitions {
    pub p0: Sums,
    pub p1: Sums,
    pub p2: Sums,
}

impl Partitions {
    // The partitions' sums, added up.
    fn together(self) -> Sums
        requires { total (all_of self) < 18446744073709551616 }
        ensures { result ≡ all_of self }
    {
        self.p0.plus(self.p1).plus(self.p2)
    }
}

// The partitions' sums, all of them added up, the position where the walk ended, and why.
#[derive(Clone, Copy)]
pub struct PartitionTallied {
    pub partitions: Partitions,
    pub sums: Sums,
    pub end: i64,
    pub stop: Stop,
}

// Where the bytes between two positions went. Refuses 1, 2, 3, 22, 23.
pub fn tally(rec: LogRecord, log: &[u8], from: i64, to: i64) -> Result<Tallied, Error>
    ensures { result ≡ tally_of rec log.now from to }
{
    span::rows(rec, log.len(), from, to)?;
    let stream = Stream::of(rec, log);
    let start = cast::long(from);
    let end = cast::long(to);
    stream.first_frame(start, end)?;
    let w = stream.between(start, end);
    Ok(Tallied {
        sums: w.sums,
        end: w.end as i64,
        stop: stream.why(end, w.end),
    })
}

// The same as the partitions lie, with the sums of each. Refuses 1, 2, 3, then 1 where the bytes between lie in more than three terms, 22, 23.
pub fn tally_by_partition(
    rec: LogRecord,
    log: &[u8],
    from: i64,
    to: i64,
) -> Result<PartitionTallied, Error>
    ensures { result ≡ partition_tally_of rec log.now from to }
{
    span::rows(rec, log.len(), from, to)?;
    let stream = Stream::of(rec, log);
    let start = cast::long(from);
    let end = cast::long(to);
    if !partition::in_three(stream, start, end) {
        return Err(Error::IllegalArgument);
    }
    stream.first_frame(start, end)?;
    let w = partition::by_partition(stream, start, end);
    Ok(PartitionTallied {
        partitions: w.sums,
        sums: w.sums.together(),
        end: w.end as i64,
        stop: stream.why(end, w.end),
    })
}
