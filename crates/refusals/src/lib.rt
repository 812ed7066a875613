// Why a call is refused: the refusals, and the number of each.
#![tactic(auto)]

ghost use Rattle.std.specs.Prelude.{◌≡◌};
ghost use Rattle.refusals.specs.Refusals.{number_of};

// Why a call is refused. Every call of the shelf refuses with one of these, and each has one number.
#[derive(Clone, Copy, Debug, PartialEq, Eq)]
pub enum Refusal {
    WrongM,
    StripeLength,
    BenchLength,
    Ambiguous,
    Contradicted,
    Unmendable,
    NoSuchColumn,
    Malformed,
    StrayColumn,
    TooLong,
    NoSuchRow,
    WrongK,
    WrongB,
    CellLength,
    WrongLists,
    ShortBuffer,
    LyingMap,
}

impl Refusal {
    // The refusal's number: 1 to 17, and no other. By a match, so that each number stands beside its name.
    pub fn number(self) -> u8
        ensures { result ≡ number_of self }
    {
        match self {
            Refusal::WrongM => 1,
            Refusal::StripeLength => 2,
            Refusal::BenchLength => 3,
            Refusal::Ambiguous => 4,
            Refusal::Contradicted => 5,
            Refusal::Unmendable => 6,
            Refusal::NoSuchColumn => 7,
            Refusal::Malformed => 8,
            Refusal::StrayColumn => 9,
            Refusal::TooLong => 10,
            Refusal::NoSuchRow => 11,
            Refusal::WrongK => 12,
            Refusal::WrongB => 13,
            Refusal::CellLength => 14,
            Refusal::WrongLists => 15,
            Refusal::ShortBuffer => 16,
            Refusal::LyingMap => 17,
        }
    }
}
