// The lent numbers of a batch: four for each message. Read lib next.
ghost use Rattle.std.specs.Prelude.{◌≡◌, ◌+◌, ◌*◌, ◌≤◌, ◌<◌, length as length_of};
ghost use Rattle.replay.specs.Batches.{laid_at, last_by, last_numbers};

use model::{Error, Replayed};

// Message i: where it lies, from, its length, the position behind it.
pub(crate) fn lay(
    numbers: &mut [usize],
    i: usize,
    place: usize,
    from: usize,
    length: usize,
    position: usize,
)
    requires { (4 * i + 4 ≤ length_of numbers.old) × (i < 2147483648) }
    ensures { numbers.new ≡ laid_at numbers.old i place from length position }
{
    let at = 4 * i;
    numbers[at] = place;
    numbers[at + 1] = from;
    numbers[at + 2] = length;
    numbers[at + 3] = position;
}

// The end of a batch by a reply that is no message in the log: after so many messages, one more in the lent buffer, or none.
pub(crate) fn last(
    numbers: &mut [usize],
    laid: usize,
    answer: Result<Replayed, Error>,
    position: usize,
) -> Result<usize, Error>
    requires { (4 * laid + 4 ≤ length_of numbers.old) × (laid < 2147483648) }
    ensures value { result ≡ last_by laid answer }
    ensures numbers_after { numbers.new ≡ last_numbers numbers.old laid position answer }
{
    match answer {
        Ok(Replayed::InLog(_, _)) => Ok(laid),
        Ok(Replayed::InBuffer(at, length)) => {
            lay(numbers, laid, 2, at, length, position);
            Ok(laid + 1)
        }
        Ok(Replayed::End) => Ok(laid),
        Err(e) => {
            if laid == 0 {
                return Err(e);
            }
            Ok(laid)
        }
    }
}
