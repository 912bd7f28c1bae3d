// The image's calls under their C names. The image stays with the caller: a call that moves writes its position, closing its flags. Read replays next.
ghost use Rattle.std.specs.Prelude.{◌≡◌, pos};
ghost use Rattle.model.specs.Image.{new_image, poll_of, bounded_poll_of, controlled_poll_of, peek_of, peek_slots, block_poll_of, set_position_of, end_of_stream_of, close_image_of};
ghost use Rattle.model.specs.Bytes.{word, long};
ghost use Rattle.model.specs.LogBufferDescriptor.{index_by_position, bits_to_shift};
ghost use Rattle.image.specs.Images.{state_of};
ghost use Rattle.capi.specs.Words.{record_in, image_in, image_out, shut_out, image_filled};
ghost use Rattle.capi.specs.Replies.{outcome_number, partition_at, poll_reply, peek_reply, block_reply, end_of_stream_reply};

use crate::replies::{BlockReply, EndOfStreamReply, PeekReply, PollReply};
use crate::{replies, words};
use image::Image;
use logbuffer::{cast, log_buffer_descriptor};

// The partition of a position, by the bits to shift: of a sound record's term length it is position / term length % 3, with no division.
fn partition_at(term_length: i32, position: i64) -> i32
    ensures { result ≡ pos (index_by_position (long position) (bits_to_shift (word term_length))) }
{
    let bits = log_buffer_descriptor::position_bits_to_shift(cast::word(term_length) as u32);
    log_buffer_descriptor::index_by_position(cast::long(position) as u64, bits) as i32
}

#[unsafe(no_mangle)]
pub extern "C" fn logbuffer_image_new(image: &mut [i64; 2], position: i64, session_id: i32)
    ensures { image.new ≡ image_filled image.old (new_image position session_id) }
{
    words::image_filled(image, Image::new(position, session_id))
}

#[unsafe(no_mangle)]
pub extern "C" fn logbuffer_image_poll(
    image: &mut [i64; 2],
    rec: &[i64; 14],
    log: &[u8],
    fragment_limit: i32,
    entries: &mut [i32],
) -> PollReply
    ensures value { result ≡ poll_reply (partition_at (record_in rec.now) (image_in image.old).position) (poll_of (record_in rec.now) log.now (state_of (image_in image.old)) entries.old fragment_limit).answer }
    ensures image_after { image.new ≡ image_out image.old (poll_of (record_in rec.now) log.now (state_of (image_in image.old)) entries.old fragment_limit).next }
    ensures entries_after { entries.new ≡ (poll_of (record_in rec.now) log.now (state_of (image_in image.old)) entries.old fragment_limit).slots }
{
    let i = words::image_in(image);
    let o = i.poll_on(words::reading_in(rec), log, entries, fragment_limit);
    let reply = o.reply;
    let next = reply.next;
    let answer = reply.answer;
    words::image_out(image, next);
    replies::polled(answer, o.partition as i32)
}

#[unsafe(no_mangle)]
pub extern "C" fn logbuffer_image_bounded_poll(
    image: &mut [i64; 2],
    rec: &[i64; 14],
    log: &[u8],
    limit_position: i64,
    fragment_limit: i32,
    entries: &mut [i32],
) -> PollReply
    ensures value { result ≡ poll_reply (partition_at (record_in rec.now) (image_in image.old).position) (bounded_poll_of (record_in rec.now) log.now (state_of (image_in image.old)) entries.old limit_position fragment_limit).answer }
    ensures image_after { image.new ≡ image_out image.old (bounded_poll_of (record_in rec.now) log.now (state_of (image_in image.old)) entries.old limit_position fragment_limit).next }
    ensures entries_after { entries.new ≡ (bounded_poll_of (record_in rec.now) log.now (state_of (image_in image.old)) entries.old limit_position fragment_limit).slots }
{
    let i = words::image_in(image);
    let r = words::record_in(rec);
    let position = i.position;
    let term_length = r.term_length;
    let o = i.bounded_poll(r, log, entries, limit_position, fragment_limit);
    let next = o.next;
    let answer = o.answer;
    words::image_out(image, next);
    let partition = partition_at(term_length, position);
    replies::polled(answer, partition)
}

#[unsafe(no_mangle)]
pub extern "C" fn logbuffer_image_controlled_poll(
    image: &mut [i64; 2],
    rec: &[i64; 14],
    log: &[u8],
    fragment_limit: i32,
    entries: &mut [i32],
    actions: &[u8],
) -> PollReply
    ensures value { result ≡ poll_reply (partition_at (record_in rec.now) (image_in image.old).position) (controlled_poll_of (record_in rec.now) log.now (state_of (image_in image.old)) entries.old actions.now fragment_limit).answer }
    ensures image_after { image.new ≡ image_out image.old (controlled_poll_of (record_in rec.now) log.now (state_of (image_in image.old)) entries.old actions.now fragment_limit).next }
    ensures entries_after { entries.new ≡ (controlled_poll_of (record_in rec.now) log.now (state_of (image_in image.old)) entries.old actions.now fragment_limit).slots }
{
    let i = words::image_in(image);
    let r = words::record_in(rec);
    let position = i.position;
    let term_length = r.term_length;
    let o = i.controlled_poll(r, log, entries, actions, fragment_limit);
    let next = o.next;
    let answer = o.answer;
    words::image_out(image, next);
    let partition = partition_at(term_length, position);
    replies::polled(answer, partition)
}

// It moves nothing.
#[unsafe(no_mangle)]
pub extern "C" fn logbuffer_image_controlled_peek(
    image: &[i64; 2],
    rec: &[i64; 14],
    log: &[u8],
    start: i64,
    limit_position: i64,
    entries: &mut [i32],
    actions: &[u8],
) -> PeekReply
    ensures value { result ≡ peek_reply (partition_at (record_in rec.now) start) (peek_of (record_in rec.now) log.now (state_of (image_in image.now)) entries.old actions.now start limit_position) }
    ensures entries_after { entries.new ≡ peek_slots (record_in rec.now) log.now (state_of (image_in image.now)) entries.old actions.now start limit_position }
{
    let i = words::image_in(image);
    let r = words::record_in(rec);
    let term_length = r.term_length;
    let o = i.controlled_peek(r, log, entries, actions, start, limit_position);
    let answer = o.answer;
    let partition = partition_at(term_length, start);
    replies::peeked(answer, partition)
}

#[unsafe(no_mangle)]
pub extern "C" fn logbuffer_image_block_poll(
    image: &mut [i64; 2],
    rec: &[i64; 14],
    log: &[u8],
    limit: i32,
) -> BlockReply
    ensures value { result ≡ block_reply (partition_at (record_in rec.now) (image_in image.old).position) (block_poll_of (record_in rec.now) log.now (state_of (image_in image.old)) limit).answer }
    ensures image_after { image.new ≡ image_out image.old (block_poll_of (record_in rec.now) log.now (state_of (image_in image.old)) limit).next }
{
    let i = words::image_in(image);
    let r = words::record_in(rec);
    let position = i.position;
    let term_length = r.term_length;
    let o = i.block_poll(r, log, limit);
    let next = o.next;
    let answer = o.answer;
    words::image_out(image, next);
    let partition = partition_at(term_length, position);
    replies::block_polled(answer, partition)
}

#[unsafe(no_mangle)]
pub extern "C" fn logbuffer_image_set_position(
    image: &mut [i64; 2],
    rec: &[i64; 14],
    log: &[u8],
    new_position: i64,
) -> i32
    ensures value { result ≡ outcome_number (set_position_of (record_in rec.now) log.now (state_of (image_in image.old)) new_position).answer }
    ensures image_after { image.new ≡ image_out image.old (set_position_of (record_in rec.now) log.now (state_of (image_in image.old)) new_position).next }
{
    let i = words::image_in(image);
    let o = i.set_position(words::record_in(rec), log, new_position);
    let next = o.next;
    let answer = o.answer;
    words::image_out(image, next);
    replies::outcome_code(answer)
}

#[unsafe(no_mangle)]
pub extern "C" fn logbuffer_image_is_end_of_stream(
    image: &[i64; 2],
    rec: &[i64; 14],
    log: &[u8],
) -> EndOfStreamReply
    ensures { result ≡ end_of_stream_reply (end_of_stream_of (record_in rec.now) log.now (state_of (image_in image.now))) }
{
    let i = words::image_in(image);
    replies::end_of_stream(i.is_end_of_stream(words::record_in(rec), log))
}

#[unsafe(no_mangle)]
pub extern "C" fn logbuffer_image_close(image: &mut [i64; 2], rec: &[i64; 14], log: &[u8]) -> i32
    ensures value { result ≡ outcome_number (close_image_of (record_in rec.now) log.now (state_of (image_in image.old))).answer }
    ensures image_after { image.new ≡ shut_out image.old (close_image_of (record_in rec.now) log.now (state_of (image_in image.old))).next }
{
    let i = words::image_in(image);
    let o = i.close(words::record_in(rec), log);
    let next = o.next;
    let answer = o.answer;
    words::shut_out(image, next);
    replies::outcome_code(answer)
}
