// Refusals: why a call is refused, with its number; one list for the calls of a join and for those over tables.
ghost use Rattle.std.specs.Prelude.{◌≡◌};
ghost use Rattle.frames.specs.refusals.Refusals.{number};

// Named by what is wrong, in the order of their numbers. In which order a call checks them is said by the call's own answer.
#[derive(Clone, Copy, PartialEq, Eq, Debug)]
pub enum Refusal {
    BadOptions,
    BadJoin,
    Failed,
    Closed,
    BadFrame,
    NoRoom,
    UsedUp,
    LeftOrder,
    RightOrder,
    TooManyCarried,
    BadRanks,
    UnknownCode,
    BadColumns,
    Unsorted,
    Beyond,
    BadPoints,
    BadHeights,
    BadBoundaries,
}

// The number of a refusal.
impl From<Refusal> for u64 {
    ghost from_gives = { λ refusal n. n ≡ number refusal };

    fn from(refusal: Refusal) -> u64 {
        match refusal {
            Refusal::BadOptions => 1,
            Refusal::BadJoin => 2,
            Refusal::Failed => 3,
            Refusal::Closed => 4,
            Refusal::BadFrame => 5,
            Refusal::NoRoom => 6,
            Refusal::UsedUp => 7,
            Refusal::LeftOrder => 8,
            Refusal::RightOrder => 9,
            Refusal::TooManyCarried => 10,
            Refusal::BadRanks => 11,
            Refusal::UnknownCode => 12,
            Refusal::BadColumns => 13,
            Refusal::Unsorted => 14,
            Refusal::Beyond => 15,
            Refusal::BadPoints => 16,
            Refusal::BadHeights => 17,
            Refusal::BadBoundaries => 18,
        }
    }
}
