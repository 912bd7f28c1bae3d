// The assembler and the replay under their C names. Both stay with the caller, beside the buffer that holds their fragments.
ghost use Rattle.std.specs.Prelude.{◌≡◌, []};
ghost use Rattle.model.specs.FragmentAssembler.{fresh, assemble_of};
ghost use Rattle.model.specs.Replay.{next_of, from_start};
ghost use Rattle.logbuffer.specs.Assembler.{sessions_of};
ghost use Rattle.replay.specs.Replays.{state_of, count_of};
ghost use Rattle.replay.specs.Batches.{batch_of};
ghost use Rattle.capi.specs.Words.{record_in, assembler_in, assembler_out, replay_in, replay_out, replay_filled};
ghost use Rattle.capi.specs.Replies.{assembly_reply, next_reply, batch_reply, count_reply};

use crate::replies::{AssemblyReply, BatchReply, CountReply, NextReply};
use crate::{replies, words};
use logbuffer::cast;
use logbuffer::data_frame_header::HEADER_LENGTH;
use logbuffer::fragment_assembler::FragmentAssembler;
use logbuffer::frame_descriptor::{ALIGNMENT_MASK, FRAME_ALIGNMENT};
use replay::{Replay, frames};

#[unsafe(no_mangle)]
pub extern "C" fn logbuffer_assembler_new(assembler: &mut [i64; 25])
    ensures { assembler.new ≡ assembler_out assembler.old fresh }
{
    words::assembler_out(assembler, FragmentAssembler::new())
}

#[unsafe(no_mangle)]
pub extern "C" fn logbuffer_assembler_on_fragment(
    assembler: &mut [i64; 25],
    rec: &[i64; 14],
    log: &[u8],
    partition: i32,
    offset: i32,
    buffer: &mut [u8],
) -> AssemblyReply
    ensures value { result ≡ assembly_reply (assemble_of (record_in rec.now) log.now (sessions_of (assembler_in assembler.old)) buffer.old partition offset).answer }
    ensures assembler_after { assembler.new ≡ assembler_out assembler.old (assemble_of (record_in rec.now) log.now (sessions_of (assembler_in assembler.old)) buffer.old partition offset).next }
    ensures buffer_after { buffer.new ≡ (assemble_of (record_in rec.now) log.now (sessions_of (assembler_in assembler.old)) buffer.old partition offset).buffer }
{
    let one = words::assembler_in(assembler);
    let o = one.on_fragment(words::record_in(rec), log, buffer, partition, offset);
    let next = o.next;
    let answer = o.answer;
    words::assembler_out(assembler, next);
    replies::assembled(answer)
}

#[unsafe(no_mangle)]
pub extern "C" fn logbuffer_replay_new(replay: &mut [i64; 27], position: i64, session_id: i32)
    ensures { replay.new ≡ replay_filled replay.old (from_start position session_id []) }
{
    words::replay_filled(replay, Replay::new(position, session_id))
}

// The next message by every word of the replay: what is not handed out as it lies, so that no whole message is looked for again.
fn next_by_all(replay: &mut [i64; 27], rec: &[i64; 14], log: &[u8], buffer: &mut [u8]) -> NextReply
    ensures value { result ≡ next_reply (next_of (record_in rec.now) log.now (state_of (replay_in replay.old) buffer.old)).answer }
    ensures replay_after { replay.new ≡ replay_out replay.old (next_of (record_in rec.now) log.now (state_of (replay_in replay.old) buffer.old)).next }
    ensures buffer_after { buffer.new ≡ (next_of (record_in rec.now) log.now (state_of (replay_in replay.old) buffer.old)).next.buffer }
{
    let one = words::replay_in(replay);
    let o = one.next_by_turns(words::record_in(rec), log, buffer);
    let next = o.next;
    let answer = o.answer;
    words::replay_out(replay, next);
    replies::replayed(answer)
}

// A whole message at the image's position moves the position and no other word. All else, from two places so that it stays a call of its own,
// is left to `next_by_all`.
#[unsafe(no_mangle)]
pub extern "C" fn logbuffer_replay_next(
    replay: &mut [i64; 27],
    rec: &[i64; 14],
    log: &[u8],
    buffer: &mut [u8],
) -> NextReply
    ensures value { result ≡ next_reply (next_of (record_in rec.now) log.now (state_of (replay_in replay.old) buffer.old)).answer }
    ensures replay_after { replay.new ≡ replay_out replay.old (next_of (record_in rec.now) log.now (state_of (replay_in replay.old) buffer.old)).next }
    ensures buffer_after { buffer.new ≡ (next_of (record_in rec.now) log.now (state_of (replay_in replay.old) buffer.old)).next.buffer }
{
    if buffer.len() > 2147483647 {
        return next_by_all(replay, rec, log, buffer);
    }
    let image = words::replay_image(replay);
    let Some(whole) = frames::next_whole(image, words::record_in(rec), log, buffer.len()) else {
        return next_by_all(replay, rec, log, buffer);
    };
    let n = whole.length;
    let p = cast::long(image.position);
    let end = p + (n + ALIGNMENT_MASK) / FRAME_ALIGNMENT * FRAME_ALIGNMENT;
    words::position_out(replay, end);
    NextReply {
        code: 0,
        place: 1,
        start: whole.index + HEADER_LENGTH,
        length: n - HEADER_LENGTH,
    }
}

#[unsafe(no_mangle)]
pub extern "C" fn logbuffer_replay_next_batch(
    replay: &mut [i64; 27],
    rec: &[i64; 14],
    log: &[u8],
    buffer: &mut [u8],
    numbers: &mut [usize],
) -> BatchReply
    ensures value { result ≡ batch_reply (batch_of (record_in rec.now) log.now (state_of (replay_in replay.old) buffer.old) numbers.old).answer }
    ensures replay_after { replay.new ≡ replay_out replay.old (batch_of (record_in rec.now) log.now (state_of (replay_in replay.old) buffer.old) numbers.old).next }
    ensures buffer_after { buffer.new ≡ (batch_of (record_in rec.now) log.now (state_of (replay_in replay.old) buffer.old) numbers.old).next.buffer }
    ensures numbers_after { numbers.new ≡ (batch_of (record_in rec.now) log.now (state_of (replay_in replay.old) buffer.old) numbers.old).numbers }
{
    let one = words::replay_in(replay);
    let o = one.next_batch(words::record_in(rec), log, buffer, numbers);
    let next = o.next;
    let answer = o.answer;
    words::replay_out(replay, next);
    replies::batched(answer)
}

#[unsafe(no_mangle)]
pub extern "C" fn logbuffer_replay_count(
    rec: &[i64; 14],
    log: &[u8],
    position: i64,
    session_id: i32,
    buffer: &mut [u8],
) -> CountReply
    ensures value { result ≡ count_reply (count_of (record_in rec.now) log.now position session_id buffer.old).answer }
    ensures buffer_after { buffer.new ≡ (count_of (record_in rec.now) log.now position session_id buffer.old).buffer }
{
    replies::counted(replay::count(words::record_in(rec), log, buffer, position, session_id))
}
