// The plain numbers of positions and tails under their C names.
ghost use Rattle.std.specs.Prelude.{◌≡◌};
ghost use Rattle.model.specs.FrameDescriptor.{align as aligned};
ghost use Rattle.model.specs.LogBufferDescriptor.{is_power_of_two, term_id_of, term_offset_of, index_by_term_count, index_by_position, bits_to_shift, compute_position};
ghost use Rattle.capi.specs.Replies.{position_reply};

use crate::replies;
use crate::replies::PositionReply;
use logbuffer::{bit_utils, log_buffer_descriptor};

// The version of this face. Its number is in the name, so that a program made for another one does not link.
#[unsafe(no_mangle)]
pub extern "C" fn logbuffer_face_4() -> u32
    ensures { result ≡ 4 }
{
    4
}

#[unsafe(no_mangle)]
pub extern "C" fn logbuffer_align(value: u32) -> usize
    ensures { result ≡ aligned value }
{
    bit_utils::align(value)
}

#[unsafe(no_mangle)]
pub extern "C" fn logbuffer_is_power_of_two(value: u32) -> bool
    ensures { result ≡ is_power_of_two value }
{
    bit_utils::is_power_of_two(value)
}

#[unsafe(no_mangle)]
pub extern "C" fn logbuffer_term_id(raw_tail: i64) -> i32
    ensures { result ≡ term_id_of raw_tail }
{
    log_buffer_descriptor::term_id(raw_tail)
}

#[unsafe(no_mangle)]
pub extern "C" fn logbuffer_term_offset(raw_tail: i64, term_length: usize) -> usize
    ensures { result ≡ term_offset_of raw_tail term_length }
{
    log_buffer_descriptor::term_offset(raw_tail, term_length)
}

#[unsafe(no_mangle)]
pub extern "C" fn logbuffer_index_by_term_count(count: usize) -> usize
    ensures { result ≡ index_by_term_count count }
{
    log_buffer_descriptor::index_by_term_count(count)
}

#[unsafe(no_mangle)]
pub extern "C" fn logbuffer_index_by_position(position: u64, bits: u32) -> usize
    ensures { result ≡ index_by_position position bits }
{
    log_buffer_descriptor::index_by_position(position, bits)
}

#[unsafe(no_mangle)]
pub extern "C" fn logbuffer_position_bits_to_shift(term_length: u32) -> u32
    ensures { result ≡ bits_to_shift term_length }
{
    log_buffer_descriptor::position_bits_to_shift(term_length)
}

#[unsafe(no_mangle)]
pub extern "C" fn logbuffer_compute_position(
    term_id: i32,
    offset: u32,
    bits: u32,
    initial_term_id: i32,
) -> PositionReply
    ensures { result ≡ position_reply (compute_position term_id offset bits initial_term_id) }
{
    replies::positioned(log_buffer_descriptor::compute_position(
        term_id,
        offset,
        bits,
        initial_term_id,
    ))
}
