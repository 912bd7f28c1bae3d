// What a call answered, as numbers in a row: those that it has, and UNTOUCHED in every place after them. A vector's results are compared
// with the whole row, so that a number too many shows too.
use crate::decode::Vector;
use logbuffer::errors;
use model::Error;

// What stands in a place that no call touched, and in the entries that are lent to one.
pub const UNTOUCHED: i32 = -7;

// Eight numbers, then 64 entries, which begin as UNTOUCHED too. A call with more numbers and no entries goes on into their places.
#[derive(Clone, Copy)]
pub struct Values {
    row: [i64; 72],
}

impl Values {
    pub fn of(numbers: &[i64]) -> Values {
        let mut row = [i64::from(UNTOUCHED); 72];
        for (place, number) in row.iter_mut().zip(numbers) {
            *place = *number;
        }
        Values { row }
    }

    // With numbers from a place on.
    pub fn with(self, at: usize, numbers: &[i32]) -> Values {
        let mut row = self.row;
        for (place, number) in row.iter_mut().skip(at).zip(numbers) {
            *place = i64::from(*number);
        }
        Values { row }
    }

    pub fn with_entries(self, entries: &[i32]) -> Values {
        self.with(8, entries)
    }

    // The number of a refusal; with 22 and 23 the place too.
    pub fn refused(e: Error) -> Values {
        let number = i64::from(errors::number(e));
        match e {
            Error::FrameTooShort(place) | Error::FramePastTerm(place) => {
                Values::of(&[number, i64::from(place)])
            }
            _ => Values::of(&[number]),
        }
    }

    pub fn done(answer: Result<(), Error>) -> Values {
        match answer {
            Ok(()) => Values::of(&[0]),
            Err(e) => Values::refused(e),
        }
    }

    pub fn positioned(answer: Result<i64, Error>) -> Values {
        match answer {
            Ok(position) => Values::of(&[0, position]),
            Err(e) => Values::refused(e),
        }
    }

    // Does the row hold the vector's results, and nothing behind them?
    pub fn agrees_with(&self, v: Vector<'_>) -> bool {
        v.result_count <= self.row.len()
            && self.row.iter().enumerate().all(|(k, number)| {
                *number == v.result(k).unwrap_or(i64::from(UNTOUCHED))
            })
    }
}

// The number of the low 32 bits.
pub fn narrow(number: i64) -> i32 {
    ((number.cast_unsigned() & 4294967295) as u32).cast_signed()
}
