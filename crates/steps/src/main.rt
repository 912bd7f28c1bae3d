// R-14 of document 02, run beside the theorem: on one record, messages of every length up to 8,192 bytes are offered for several payload limits,
// and each answered position is held against the one before it. A line for each payload limit: how often one byte more moved the position by
// 64, by 32 and by 0, and how often by anything else than the rule says (never). Then the lengths around the first edges, with what is
// answered, and the same for claims. A refused length is shown as 0.
#![tactic(auto)]

ghost use Rattle.std.specs.Prelude.{◌<◌};

use model::LogRecord;
use publication::{opening, positions};
use std::{fmt, io};

// How many rises there were of each kind, and how many that the rule does not name.
#[derive(Clone, Copy, Default)]
struct Rises {
    by_64: u64,
    by_32: u64,
    by_0: u64,
    other: u64,
}

impl Rises {
    fn count(&mut self, rise: Option<i64>, ruled: i64) {
        let kind = match ruled {
            _ if rise != Some(ruled) => &mut self.other,
            64 => &mut self.by_64,
            32 => &mut self.by_32,
            _ => &mut self.by_0,
        };
        *kind = kind.saturating_add(1);
    }
}

impl fmt::Display for Rises {
    fn fmt<W: fmt::Write>(&self, f: &mut fmt::Formatter<W>) -> fmt::Result {
        let Rises {
            by_64,
            by_32,
            by_0,
            other,
        } = *self;
        write!(
            f,
            "by 64 {by_64}, by 32 {by_32}, by 0 {by_0}, against the rule {other}"
        )
    }
}

fn fresh(log: &mut [u8], mtu: i32) -> LogRecord {
    let opened = opening::open_log(log, 65536, mtu, 7, 11, 12);
    positions::set_publication_limit(opened.next, 131072).next
}

// The position behind a message, if it is accepted.
fn offered(rec: LogRecord, log: &mut [u8], message: &[u8]) -> Option<i64> {
    publication::offer(rec, log, message, 0).answer.ok()
}

// The position behind a claim, if it is accepted.
fn claimed(rec: LogRecord, log: &mut [u8], n: i32) -> Option<i64> {
    let claimed = publication::try_claim(rec, log, n).answer.ok()?;
    Some(claimed.position)
}

fn rise(before: Option<i64>, after: Option<i64>) -> Option<i64> {
    after?.checked_sub(before?)
}

// The frames of a message of n bytes, by a reading of the rule that is not the port's: full ones, and one for what is left or for none.
fn frames(payload: u64, n: u64) -> u64
    requires { 0 < payload }
{
    n.div_ceil(payload).max(1)
}

// How far a message of one byte more than n moves the position.
fn rule(payload: u64, n: u64) -> i64
    requires { 0 < payload }
{
    if frames(payload, n.saturating_add(1)) != frames(payload, n) {
        64
    } else if n.is_multiple_of(32) {
        32
    } else {
        0
    }
}

// Every length from 0 to 8,191, and one byte more.
fn sweep(rec: LogRecord, log: &mut [u8], message: &[u8; 8192], payload: u64) -> Rises
    requires { 0 < payload }
{
    let mut rises = Rises::default();
    let mut before = offered(rec, log, &message[..0]);
    for n in 0..8192 {
        let after = offered(rec, log, &message[..n + 1]);
        rises.count(rise(before, after), rule(payload, n as u64));
        before = after;
    }
    rises
}

fn limit(rt: &impl Print, message: &[u8; 8192], mtu: i32, payload: u64) -> io::Result<()>
    requires { 0 < payload }
{
    let mut log = [0u8; 196608];
    let rec = fresh(&mut log, mtu);
    let rises = sweep(rec, &mut log, message, payload);
    println!(rt; "payload limit {payload}: {rises}")
}

// The lengths around the first edges of a payload limit of 64.
fn edges(rt: &impl Print, message: &[u8; 8192]) -> io::Result<()> {
    let mut log = [0u8; 196608];
    let rec = fresh(&mut log, 96);
    for n in [0, 1, 32, 33, 64, 65, 96, 97, 128, 129] {
        let position = offered(rec, &mut log, message.get(..n).unwrap_or(message));
        println!(rt; "offer {n}: {}", position.unwrap_or(0))?;
    }
    for n in [0, 1, 32, 33, 64, 65] {
        let position = claimed(rec, &mut log, n);
        println!(rt; "claim {n}: {}", position.unwrap_or(0))?;
    }
    Ok(())
}

fn run(rt: &impl Print) -> io::Result<()> {
    let message = [1u8; 8192];
    let limits = [(64, 32), (96, 64), (128, 96), (1408, 1376), (8224, 8192)];
    for (mtu, payload) in limits {
        limit(rt, &message, mtu, payload)?;
    }
    edges(rt, &message)
}

// What cannot be written is lost, and the program ends as it ends where all is written.
fn main(rt: HostRuntime) {
    let _ = run(&rt);
}
