// The refusals by number, as document 01 lists them and document 02 amends them, and the place that a refusal of a frame carries.
ghost use Rattle.std.specs.Prelude.{◌≡◌};
ghost use Rattle.model.specs.Errors.{number_of, place_of};

use model::Error;

pub fn number(error: Error) -> i32
    ensures { result ≡ number_of error }
{
    match error {
        Error::IllegalArgument => 1,
        Error::IllegalRecord => 2,
        Error::PositionOutOfRange => 3,
        Error::ExceedsMaxPayloadLength => 4,
        Error::PublicationClosed => 5,
        Error::AdminAction => 6,
        Error::MaxPositionExceeded => 7,
        Error::BackPressured => 8,
        Error::NotConnected => 9,
        Error::ExceedsMaxMessageLength => 10,
        Error::TailOverflow => 11,
        Error::LastTerm => 12,
        Error::ActionPossiblyDelayed => 13,
        Error::ClaimMismatch => 14,
        Error::NewPositionOutOfRange => 15,
        Error::NewPositionNotAligned => 16,
        Error::AssemblyFull => 18,
        Error::NotCleared => 19,
        Error::NotDue => 20,
        Error::FrameTooShort(_) => 22,
        Error::FramePastTerm(_) => 23,
    }
}

// The offset in its term of the frame that was refused; 0 where no frame was.
pub fn place(error: Error) -> u32
    ensures { result ≡ place_of error }
{
    match error {
        Error::FrameTooShort(place) | Error::FramePastTerm(place) => place,
        _ => 0,
    }
}
