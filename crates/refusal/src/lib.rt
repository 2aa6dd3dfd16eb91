// The refusals of the paper's table, and their numbers (01, Refusal numbers; 02, tickets 1 and 8).
#![tactic(auto)]

ghost use Rattle.std.specs.Prelude.{◌≡◌};
ghost use Rattle.refusal.specs.Refusals.{number_of};

#[derive(Clone, Copy, Debug, PartialEq, Eq)]
pub enum Refusal {
    BadRow,
    NoBoard,
    CellList,
    Elapsed,
    OutOfRange,
    FrameLength,
    ReplyRoom,
    CheckByte,
    NoRegister,
    BadValue,
    NoCycle,
    Malformed,
    LevelsCrossed,
    ListRoom,
}

// The number that the paper gives a refusal.
impl From<Refusal> for u8 {
    ghost from_gives = { λ why n. n ≡ number_of why };

    fn from(why: Refusal) -> u8 {
        match why {
            Refusal::BadRow => 1,
            Refusal::NoBoard => 2,
            Refusal::CellList => 3,
            Refusal::Elapsed => 4,
            Refusal::OutOfRange => 5,
            Refusal::FrameLength => 6,
            Refusal::ReplyRoom => 7,
            Refusal::CheckByte => 8,
            Refusal::NoRegister => 9,
            Refusal::BadValue => 10,
            Refusal::NoCycle => 11,
            Refusal::Malformed => 12,
            Refusal::LevelsCrossed => 13,
            Refusal::ListRoom => 14,
        }
    }
}
