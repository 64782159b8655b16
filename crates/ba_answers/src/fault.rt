//! Faults of the text of a program.

ghost use Rattle.std.specs.Prelude.{◌≡◌, Some};

use ba_numbers::ids::At;

/// The cause of a fault, as `LexError` describes it for tokens, `ParseError` for the tree and `TypeError` for
/// typing, in this order.
#[derive(Clone, Copy)]
pub enum Cause {
    BadByte,
    BadToken,
    NotInProfile,
    BadDirective,
    MacroOrder,
    Redefined,
    TooMany,
    Syntax,
    TooDeep,
    UnknownName,
    Twice,
    WrongKind,
    WrongCount,
    NoMain,
    BadLength,
    BreakOutside,
    CallInIndex,
    Limit,
}

/// A fault of the text of a program. It has no position if more had to follow the last token, or if there is
/// no `main`.
#[derive(Clone, Copy)]
pub struct Fault {
    pub cause: Cause,
    pub at: Option<At>,
}

impl Fault {
    /// The fault with this cause at this position.
    pub fn new(cause: Cause, at: At) -> Fault
        ensures { result ≡ record { cause = cause; at = Some at } }
    {
        Fault {
            cause,
            at: Some(at),
        }
    }
}
