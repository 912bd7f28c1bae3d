// The two functions of the Rust's bit_utils that the log needs, and the smaller of two numbers.
ghost use Rattle.std.specs.Prelude.{◌≡◌, min};
ghost use Rattle.model.specs.FrameDescriptor.{align as aligned};
ghost use Rattle.model.specs.LogBufferDescriptor.{is_power_of_two};

use crate::frame_descriptor::{ALIGNMENT_MASK, FRAME_ALIGNMENT};

// The next multiple of 32: the aligned length of a frame.
pub fn align(value: u32) -> usize
    ensures { result ≡ aligned value }
{
    (value as usize + ALIGNMENT_MASK) / FRAME_ALIGNMENT * FRAME_ALIGNMENT
}

pub fn is_power_of_two(value: u32) -> bool
    ensures { result ≡ is_power_of_two value }
{
    u32::count_ones(value) == 1
}

// The smaller of a maximum and what is left.
pub(crate) fn at_most(maximum: usize, left: usize) -> usize
    ensures { result ≡ min maximum left }
{
    maximum.min(left)
}
