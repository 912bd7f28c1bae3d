// A block: whole frames at a position, told by where they lie.
ghost use Rattle.std.specs.Prelude.{◌≡◌, cond, true, ◌+◌, ◌*◌, ◌%◌, ◌≤◌, ◌<◌, length, drop, Ok, Err};
ghost use Rattle.std.specs.Int.{w32};
ghost use Rattle.std.proofs.Common.{to_z};
ghost use Rattle.model.specs.Bytes.{long};
ghost use Rattle.model.specs.DataFrameHeader.{header_at};
ghost use Rattle.model.specs.LogBufferDescriptor.{reading, sound, greatest, partition_of};
ghost use Rattle.model.specs.TermScan.{scan_from, scan_by};
ghost use Rattle.model.specs.Image.{unsound_at, unsound_frame_of};
ghost use Rattle.image.specs.Images.{state_of, block_to, block_read};

use crate::{Image, limits};
use logbuffer::{cast, header, term_scan};
use model::{Block, Error, LogRecord, Reading};

// Where a block poll leaves the image's position, and its answer.
#[derive(Clone, Copy)]
pub struct BlockTo {
    pub position: i64,
    pub answer: Result<Block, Error>,
}

// The scan from a position of a sound log up to an offset of its term.
fn scan_at(rec: LogRecord, v: Reading, log: &[u8], p: usize, end: usize) -> Result<usize, Error>
    requires { (v ≡ reading rec) × ((sound v (length log.now) ≡ true) × ((p % 32 ≡ 0) × (end ≤ v.term))) }
    ensures { result ≡ scan_by (scan_from v.term log.now (partition_of p v.term * v.term) v.term end true (p % v.term)) (cond (unsound_at v log.now p end 1) (Err (unsound_frame_of v log.now p)) (Ok tt)) }
{
    let term = v.term;
    term_scan::scan(
        rec,
        log,
        limits::partition_of(term, p) as i32,
        limits::offset_of(term, p) as i32,
        end as i32,
    )
}

// The term id of the frame at a position of a sound log.
fn term_id_at(rec: LogRecord, v: Reading, log: &[u8], p: usize) -> i32
    requires { (v ≡ reading rec) × ((sound v (length log.now) ≡ true) × (p % 32 ≡ 0)) }
    ensures { result ≡ to_z w32 (header_at (drop (partition_of p v.term * v.term + p % v.term) log.now)).id }
{
    let term = v.term;
    let Ok(fields) = header::fields(
        rec,
        log,
        limits::partition_of(term, p) as i32,
        limits::offset_of(term, p) as i32,
    ) else {
        return 0;
    };
    fields.term_id
}

// A block of at most so many bytes, for an image that may read.
pub(crate) fn block_at(
    image: Image,
    rec: LogRecord,
    v: Reading,
    log: &[u8],
    limit: usize,
) -> BlockTo
    requires { (v ≡ reading rec) × ((sound v (length log.now) ≡ true) × ((long image.position ≤ greatest v) × ((long image.position % 32 ≡ 0) × (limit < 2147483648)))) }
    ensures { result ≡ block_to (block_read v log.now (state_of image) limit) }
{
    let term = v.term;
    let p = cast::long(image.position);
    let end = limits::end_offset(term, p, p + limit);
    let scanned = scan_at(rec, v, log, p, end);
    let Ok(stop) = scanned else {
        return BlockTo {
            position: image.position,
            answer: Err(term_scan::refusal(scanned)),
        };
    };
    let at = limits::offset_of(term, p);
    let n = stop - at;
    let position = (p + n) as i64;
    if n == 0 {
        return BlockTo {
            position: position,
            answer: Ok(Block {
                offset: 0,
                length: 0,
                session_id: 0,
                term_id: 0,
            }),
        };
    }
    let id = term_id_at(rec, v, log, p);
    BlockTo {
        position: position,
        answer: Ok(Block {
            offset: at,
            length: n,
            session_id: image.session_id,
            term_id: id,
        }),
    }
}
