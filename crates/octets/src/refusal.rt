// Why a call is refused: the table 'Answers' of document 01, and document 02's 15 and 16.
ghost use Rattle.std.specs.Prelude.{◌≡◌};
ghost use Rattle.octets.specs.Refusals.{refusal_number};

#[derive(Clone, Copy, PartialEq, Eq)]
pub enum Refusal {
    TooLong, // 1: input over the length limit
    CutShort, // 2: a field is cut short
    BytesAfter, // 3: bytes after the last field
    UnknownType, // 4: a type, or a name of a structure, that is not in the list
    Length, // 5: a length out of range
    OutOfRange, // 6: a size or place out of range, or a first size above the second
    NodeCount, // 7: a wrong count of nodes
    RootDisagrees, // 8: a root disagrees
    NoRoom, // 9: a lent output or working buffer is too short
    Joined, // 10: joined hashes that are no multiple of 32, or leaves over the limit
    OtherLog, // 11: another log
    EarlierTimestamp, // 12: an earlier timestamp
    OtherRoot, // 13: the same size and another root
    NoHead, // 14: no head yet
    OutOfOrder, // 15: extension types out of order
    UnknownHash, // 16: no hash has the number, or another is held
}

// Its number in the table.
impl From<Refusal> for u32 {
    ghost from_gives = { λ r n. n ≡ refusal_number r };

    fn from(r: Refusal) -> u32 {
        match r {
            Refusal::TooLong => 1,
            Refusal::CutShort => 2,
            Refusal::BytesAfter => 3,
            Refusal::UnknownType => 4,
            Refusal::Length => 5,
            Refusal::OutOfRange => 6,
            Refusal::NodeCount => 7,
            Refusal::RootDisagrees => 8,
            Refusal::NoRoom => 9,
            Refusal::Joined => 10,
            Refusal::OtherLog => 11,
            Refusal::EarlierTimestamp => 12,
            Refusal::OtherRoot => 13,
            Refusal::NoHead => 14,
            Refusal::OutOfOrder => 15,
            Refusal::UnknownHash => 16,
        }
    }
}
