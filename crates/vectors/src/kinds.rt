// The kinds of vectors, in families; run.rt says which module makes a family's calls. KINDS has the kinds in the order of their numbers in the
// file. oracle/src/vector_file.rs has the same order, and writes their names into the file's head.

#[derive(Clone, Copy)]
pub enum Kind {
    Change(Change),
    Ask(Ask),
    Write(Write),
    Read(Read),
    Poll(Poll),
    Move(Move),
    Assemble(Assemble),
    Replay(Replay),
    Number(Number),
    ByHand(ByHand),
}

// Of the record alone, which the call hands out anew.
#[derive(Clone, Copy)]
pub enum Change {
    SetPublicationLimit,
    Close,
    RotateLog,
}

// Of the record alone, a number.
#[derive(Clone, Copy)]
pub enum Ask {
    Position,
    PublicationLimit,
    AvailableWindow,
}

// Writing.
#[derive(Clone, Copy)]
pub enum Write {
    OpenLog,
    Offer,
    TryClaim,
    Body,
    Commit,
    Abort,
    AppendUnfragmented,
    AppendFragmented,
    AppendClaim,
}

// Reading a term.
#[derive(Clone, Copy)]
pub enum Read {
    HeaderFields,
    Term,
    View,
    Scan,
    ScanForGap,
    ScanForAvailability,
}

// Of an image, with entries.
#[derive(Clone, Copy)]
pub enum Poll {
    Plain,
    Bounded,
    Controlled,
    Peek,
}

// Of an image, without entries.
#[derive(Clone, Copy)]
pub enum Move {
    BlockPoll,
    SetPosition,
    IsEndOfStream,
    Close,
}

// Messages put together, frame by frame.
#[derive(Clone, Copy)]
pub enum Assemble {
    New,
    OnFragment,
}

// Messages replayed.
#[derive(Clone, Copy)]
pub enum Replay {
    New,
    Next,
    Count,
}

// Plain numbers.
#[derive(Clone, Copy)]
pub enum Number {
    Align,
    IsPowerOfTwo,
    PositionBitsToShift,
    TermId,
    TermOffset,
    IndexByTermCount,
    IndexByPosition,
    ComputePosition,
}

// No call: fields of the record, bytes of the log.
#[derive(Clone, Copy)]
pub enum ByHand {
    SetFields,
    PutBytes,
    Nothing,
}

// In the order of their numbers. No vector of the list has the number 0, which reads as a rotation, nor one past the last, which reads as
// nothing by hand.
const KINDS: [Kind; 45] = [
    Kind::Change(Change::RotateLog),
    Kind::Change(Change::SetPublicationLimit),
    Kind::Change(Change::Close),
    Kind::Change(Change::RotateLog),
    Kind::Ask(Ask::Position),
    Kind::Ask(Ask::PublicationLimit),
    Kind::Ask(Ask::AvailableWindow),
    Kind::Write(Write::OpenLog),
    Kind::Write(Write::Offer),
    Kind::Write(Write::TryClaim),
    Kind::Write(Write::Body),
    Kind::Write(Write::Commit),
    Kind::Write(Write::Abort),
    Kind::Write(Write::AppendUnfragmented),
    Kind::Write(Write::AppendFragmented),
    Kind::Write(Write::AppendClaim),
    Kind::Read(Read::HeaderFields),
    Kind::Read(Read::Term),
    Kind::Read(Read::View),
    Kind::Read(Read::Scan),
    Kind::Read(Read::ScanForGap),
    Kind::Read(Read::ScanForAvailability),
    Kind::Poll(Poll::Plain),
    Kind::Poll(Poll::Bounded),
    Kind::Poll(Poll::Controlled),
    Kind::Poll(Poll::Peek),
    Kind::Move(Move::BlockPoll),
    Kind::Move(Move::SetPosition),
    Kind::Move(Move::IsEndOfStream),
    Kind::Move(Move::Close),
    Kind::Assemble(Assemble::New),
    Kind::Assemble(Assemble::OnFragment),
    Kind::Replay(Replay::New),
    Kind::Replay(Replay::Next),
    Kind::Replay(Replay::Count),
    Kind::Number(Number::Align),
    Kind::Number(Number::IsPowerOfTwo),
    Kind::Number(Number::PositionBitsToShift),
    Kind::Number(Number::TermId),
    Kind::Number(Number::TermOffset),
    Kind::Number(Number::IndexByTermCount),
    Kind::Number(Number::IndexByPosition),
    Kind::Number(Number::ComputePosition),
    Kind::ByHand(ByHand::SetFields),
    Kind::ByHand(ByHand::PutBytes),
];

impl Kind {
    pub fn of(number: usize) -> Kind {
        match KINDS.get(number) {
            Some(kind) => *kind,
            None => Kind::ByHand(ByHand::Nothing),
        }
    }
}
