// The rule that decided an offer or a claim, by its name.
use model::Rule;

pub fn name(rule: Rule) -> &'static str {
    match rule {
        Rule::IllegalArgument => "illegal argument",
        Rule::IllegalRecord => "illegal record",
        Rule::PublicationClosed => "publication closed",
        Rule::ExceedsMaxPayloadLength => "claim over the payload limit",
        Rule::CountOutOfStep => "count out of step",
        Rule::LimitPastMaxPosition => "at the limit, past the greatest",
        Rule::BackPressured => "back pressured",
        Rule::NotConnected => "not connected",
        Rule::ExceedsMaxMessageLength => "message over its limits",
        Rule::TailOverflow => "tail overflow",
        Rule::TripPastMaxPosition => "tripped, past the greatest",
        Rule::LastTerm => "last term",
        Rule::NotCleared => "next partition not cleared",
        Rule::TermRotated => "term rotated",
        Rule::Unfragmented => "unfragmented",
        Rule::Fragmented => "fragmented",
        Rule::Claimed => "claimed",
    }
}
