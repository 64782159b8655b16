//! Faults of a program, and their order.

ghost use Rattle.std.specs.Prelude.{◌≡◌};
ghost use Rattle.ba_typing.specs.Faults.{comes_before, number_of};

use ba_numbers::ids::At;

/// The cause of a fault, by the row of the table of faults, as `TypeError` describes it.
#[derive(Clone, Copy, Debug, PartialEq, Eq)]
pub enum Cause {
    UnknownName,
    Twice,
    WrongKind,
    WrongCount,
    BadLength,
    BreakOutside,
    CallInIndex,
    Limit,
}

/// A fault and its position.
#[derive(Clone, Copy, Debug, PartialEq, Eq)]
pub struct Fault {
    pub at: At,
    pub cause: Cause,
}

impl Cause {
    /// The number of the cause's row in the table of faults.
    fn number(self) -> u32
        ensures { result ≡ number_of self }
    {
        match self {
            Cause::UnknownName => 1,
            Cause::Twice => 2,
            Cause::WrongKind => 3,
            Cause::WrongCount => 4,
            Cause::BadLength => 6,
            Cause::BreakOutside => 7,
            Cause::CallInIndex => 8,
            Cause::Limit => 9,
        }
    }
}

impl Fault {
    /// Whether this fault comes before the other one: by position, and at one position by the number of its
    /// cause.
    pub fn comes_before(self, other: Fault) -> bool
        ensures { result ≡ comes_before self other }
    {
        if self.at.line != other.at.line {
            return self.at.line < other.at.line;
        }
        if self.at.column != other.at.column {
            return self.at.column < other.at.column;
        }
        self.cause.number() < other.cause.number()
    }
}
