// The calls on the record alone, and the plain numbers.
use crate::decode::Vector;
use crate::kinds::{Ask, Change, Number};
use crate::values::Values;
use crate::writing::Ran;
use logbuffer::cast::to_i64;
use logbuffer::{bit_utils, log_buffer_descriptor};
use model::LogRecord;
use publication::positions;

// Limit change, close and rotation, which hand out the next record.
pub fn change(kind: Change, v: Vector<'_>, rec: LogRecord) -> Ran {
    let reply = match kind {
        Change::SetPublicationLimit => positions::set_publication_limit(rec, v.argument(0)),
        Change::Close => positions::close(rec),
        Change::RotateLog => log_buffer_descriptor::rotate_log(rec, v.int(0), v.int(1)),
    };
    Ran::new(reply.next, Values::done(reply.answer))
}

pub fn ask(kind: Ask, rec: LogRecord) -> Values {
    Values::positioned(match kind {
        Ask::Position => positions::position(rec),
        Ask::PublicationLimit => positions::publication_limit(rec),
        Ask::AvailableWindow => positions::available_window(rec),
    })
}

fn position(v: Vector<'_>) -> Values {
    let answer = log_buffer_descriptor::compute_position(v.int(0), v.low(1), v.low(2), v.int(3));
    Values::positioned(answer)
}

// Whole numbers of bits, partitions, and the parts of a raw tail.
pub fn number(kind: Number, v: Vector<'_>) -> Values {
    let number = match kind {
        Number::Align => to_i64(bit_utils::align(v.low(0))),
        Number::IsPowerOfTwo => i64::from(bit_utils::is_power_of_two(v.low(0))),
        Number::PositionBitsToShift => {
            i64::from(log_buffer_descriptor::position_bits_to_shift(v.low(0)))
        }
        Number::TermId => i64::from(log_buffer_descriptor::term_id(v.argument(0))),
        Number::TermOffset => {
            to_i64(log_buffer_descriptor::term_offset(v.argument(0), v.size(1)))
        }
        Number::IndexByTermCount => to_i64(log_buffer_descriptor::index_by_term_count(v.size(0))),
        Number::IndexByPosition => {
            let position = v.argument(0).cast_unsigned();
            to_i64(log_buffer_descriptor::index_by_position(position, v.low(1)))
        }
        Number::ComputePosition => return position(v),
    };
    Values::of(&[number])
}
