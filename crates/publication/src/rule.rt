// Which check decided an offer or a claim (R-10 of document 02): the rule of a refusal, and a rule's place in the order and its number.
ghost use Rattle.std.specs.Prelude.{◌≡◌, cond, leb};
ghost use Rattle.model.specs.declared.Rule.TheVariants.{Unfragmented, Fragmented};
ghost use Rattle.model.specs.Rule.{rule_number, rule_place};
ghost use Rattle.model.proofs.RuleLaws.{refused_rule};

use model::{Error, Rule};

// The rule of a refusal that comes before the append, where each number is one check's: 6 is the count, 7 the limit. Those that no offer and no claim gives
// there stand with 1.
pub(crate) fn of_refusal(error: Error) -> Rule
    ensures { result ≡ refused_rule error }
{
    match error {
        Error::IllegalArgument => Rule::IllegalArgument,
        Error::IllegalRecord => Rule::IllegalRecord,
        Error::PositionOutOfRange => Rule::IllegalArgument,
        Error::ExceedsMaxPayloadLength => Rule::ExceedsMaxPayloadLength,
        Error::PublicationClosed => Rule::PublicationClosed,
        Error::AdminAction => Rule::CountOutOfStep,
        Error::MaxPositionExceeded => Rule::LimitPastMaxPosition,
        Error::BackPressured => Rule::BackPressured,
        Error::NotConnected => Rule::NotConnected,
        Error::ExceedsMaxMessageLength => Rule::ExceedsMaxMessageLength,
        Error::TailOverflow => Rule::TailOverflow,
        Error::LastTerm => Rule::IllegalArgument,
        Error::ActionPossiblyDelayed => Rule::IllegalArgument,
        Error::ClaimMismatch => Rule::IllegalArgument,
        Error::NewPositionOutOfRange => Rule::IllegalArgument,
        Error::NewPositionNotAligned => Rule::IllegalArgument,
        Error::AssemblyFull => Rule::IllegalArgument,
        Error::NotCleared => Rule::IllegalArgument,
        Error::NotDue => Rule::IllegalArgument,
        Error::FrameTooShort(_) => Rule::IllegalArgument,
        Error::FramePastTerm(_) => Rule::IllegalArgument,
    }
}

// The rule of a message of m bytes that is accepted: one frame, or more.
pub(crate) fn of_message(payload: usize, m: usize) -> Rule
    ensures { result ≡ cond (leb m payload) Unfragmented Fragmented }
{
    if m <= payload {
        return Rule::Unfragmented;
    }
    Rule::Fragmented
}

// The place in the order of the checks, 1 to 17.
pub fn place(rule: Rule) -> u32
    ensures { result ≡ rule_place rule }
{
    match rule {
        Rule::IllegalArgument => 1,
        Rule::IllegalRecord => 2,
        Rule::PublicationClosed => 3,
        Rule::ExceedsMaxPayloadLength => 4,
        Rule::CountOutOfStep => 5,
        Rule::LimitPastMaxPosition => 6,
        Rule::BackPressured => 7,
        Rule::NotConnected => 8,
        Rule::ExceedsMaxMessageLength => 9,
        Rule::TailOverflow => 10,
        Rule::TripPastMaxPosition => 11,
        Rule::LastTerm => 12,
        Rule::NotCleared => 13,
        Rule::TermRotated => 14,
        Rule::Unfragmented => 15,
        Rule::Fragmented => 16,
        Rule::Claimed => 17,
    }
}

// The number of the answer that it gives.
pub fn number(rule: Rule) -> i32
    ensures { result ≡ rule_number rule }
{
    match rule {
        Rule::IllegalArgument => 1,
        Rule::IllegalRecord => 2,
        Rule::PublicationClosed => 5,
        Rule::ExceedsMaxPayloadLength => 4,
        Rule::CountOutOfStep => 6,
        Rule::LimitPastMaxPosition => 7,
        Rule::BackPressured => 8,
        Rule::NotConnected => 9,
        Rule::ExceedsMaxMessageLength => 10,
        Rule::TailOverflow => 11,
        Rule::TripPastMaxPosition => 7,
        Rule::LastTerm => 12,
        Rule::NotCleared => 19,
        Rule::TermRotated => 6,
        Rule::Unfragmented => 0,
        Rule::Fragmented => 0,
        Rule::Claimed => 0,
    }
}
