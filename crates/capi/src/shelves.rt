// Finished terms on the shelf under their C names: the refusal's number, 0 where nothing was refused.
ghost use Rattle.std.specs.Prelude.{◌≡◌, length};
ghost use Rattle.shelf.specs.Calls.{shelved_number, shelve_of, shelve_bytes, unshelve_of, unshelve_bytes};
ghost use Rattle.capi.specs.Words.{record_in};

use crate::words;
use shelf::ShelfError;

fn shelved_code(answer: Result<(), ShelfError>) -> i32
    ensures { result ≡ shelved_number answer }
{
    match answer {
        Ok(()) => 0,
        Err(e) => shelf::error_number(e),
    }
}

#[unsafe(no_mangle)]
pub extern "C" fn logbuffer_shelve(
    rec: &[i64; 14],
    log: &[u8],
    partition: i32,
    out: &mut [u8],
) -> i32
    ensures value { result ≡ shelved_number (shelve_of (record_in rec.now) log.now partition (length out.old)) }
    ensures out_after { out.new ≡ shelve_bytes (record_in rec.now) log.now partition out.old }
{
    shelved_code(shelf::shelve(words::record_in(rec), log, partition, out))
}

#[unsafe(no_mangle)]
pub extern "C" fn logbuffer_unshelve(rec: &[i64; 14], shelf: &[u8], out: &mut [u8]) -> i32
    ensures value { result ≡ shelved_number (unshelve_of (record_in rec.now) shelf.now (length out.old)) }
    ensures out_after { out.new ≡ unshelve_bytes (record_in rec.now) shelf.now out.old }
{
    shelved_code(shelf::unshelve(words::record_in(rec), shelf, out))
}
