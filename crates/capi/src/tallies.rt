// Both tallies under their C names: the refusal's number, 0 where nothing was refused; where the walk ended, and why by number; the four sums, and those
// of each partition.
ghost use Rattle.std.specs.Prelude.{◌≡◌, [], pos};
ghost use Rattle.model.specs.Answers.{answered};
ghost use Rattle.tally.specs.Tally.{stop_number, writing_size, tally_of};
ghost use Rattle.tally.specs.Partitions.{partition_tally_of};
ghost use Rattle.capi.specs.Tallies.{sums_at, partitions_at, tally_reply, partition_tally_reply};
ghost use Rattle.capi.specs.Words.{record_in};

use crate::words;
use logbuffer::errors;
use model::Error;
use tally::step::Stop;
use tally::{PartitionTallied, Partitions, Sums, Tallied};

#[repr(C)]
#[derive(Clone, Copy)]
pub struct TallyReply {
    pub code: i32,
    pub stop: i32,
    pub position: i64,
    pub writing: usize,
    pub sums: Sums,
}

#[repr(C)]
#[derive(Clone, Copy)]
pub struct PartitionTallyReply {
    pub code: i32,
    pub stop: i32,
    pub position: i64,
    pub writing: usize,
    pub sums: Sums,
    pub partitions: Partitions,
}

pub(crate) fn stop_number(stop: Stop) -> i32
    ensures { result ≡ pos (stop_number stop) }
{
    match stop {
        Stop::Reached => 0,
        Stop::Writing(_) => 1,
        Stop::Free => 2,
        Stop::OtherTerm => 3,
        Stop::PastSecond => 4,
        Stop::UnsoundFrame => 5,
    }
}

// The size of a frame being written; 0 where the walk ended otherwise.
pub(crate) fn writing_size(stop: Stop) -> usize
    ensures { result ≡ writing_size stop }
{
    match stop {
        Stop::Reached => 0,
        Stop::Writing(n) => n,
        Stop::Free => 0,
        Stop::OtherTerm => 0,
        Stop::PastSecond => 0,
        Stop::UnsoundFrame => 0,
    }
}

// The sums of a refused call.
fn no_sums() -> Sums
    ensures { result ≡ sums_at 0 (answered []) }
{
    Sums {
        body: 0,
        headers: 0,
        slack: 0,
        padding: 0,
    }
}

fn tallied(answer: Result<Tallied, Error>) -> TallyReply
    ensures { result ≡ tally_reply answer }
{
    match answer {
        Ok(tally) => TallyReply {
            code: 0,
            stop: stop_number(tally.stop),
            position: tally.end,
            writing: writing_size(tally.stop),
            sums: tally.sums,
        },
        Err(e) => TallyReply {
            code: errors::number(e),
            stop: 0,
            position: errors::place(e) as i64,
            writing: 0,
            sums: no_sums(),
        },
    }
}

fn no_partitions() -> Partitions
    ensures { result ≡ partitions_at (answered []) }
{
    Partitions {
        p0: no_sums(),
        p1: no_sums(),
        p2: no_sums(),
    }
}

fn tallied_by_partition(answer: Result<PartitionTallied, Error>) -> PartitionTallyReply
    ensures { result ≡ partition_tally_reply answer }
{
    match answer {
        Ok(tally) => PartitionTallyReply {
            code: 0,
            stop: stop_number(tally.stop),
            position: tally.end,
            writing: writing_size(tally.stop),
            sums: tally.sums,
            partitions: tally.partitions,
        },
        Err(e) => PartitionTallyReply {
            code: errors::number(e),
            stop: 0,
            position: errors::place(e) as i64,
            writing: 0,
            sums: no_sums(),
            partitions: no_partitions(),
        },
    }
}

#[unsafe(no_mangle)]
pub extern "C" fn logbuffer_tally(rec: &[i64; 14], log: &[u8], from: i64, to: i64) -> TallyReply
    ensures { result ≡ tally_reply (tally_of (record_in rec.now) log.now from to) }
{
    tallied(tally::tally(words::record_in(rec), log, from, to))
}

#[unsafe(no_mangle)]
pub extern "C" fn logbuffer_tally_by_partition(
    rec: &[i64; 14],
    log: &[u8],
    from: i64,
    to: i64,
) -> PartitionTallyReply
    ensures { result ≡ partition_tally_reply (partition_tally_of (record_in rec.now) log.now from to) }
{
    tallied_by_partition(tally::tally_by_partition(words::record_in(rec), log, from, to))
}
