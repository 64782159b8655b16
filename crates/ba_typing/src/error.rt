//! Why a tree is no program.

use ba_numbers::ids::At;
use std::alloc::AllocError;
use thiserror::Error;

/// The first fault of a program, by position and then by number; `NoMain` if a `main` is all that is missing;
/// or out of memory.
#[derive(Clone, Copy, Debug, PartialEq, Eq, Error)]
pub enum TypeError {
    /// A name that no declaration in scope has, or a call of a function that has no definition.
    #[error("unknown name")]
    UnknownName(At),
    /// A name that is declared before in the same scope, or a second definition of a function.
    #[error("declared twice")]
    Twice(At),
    /// A name or a type that does not fit its use.
    #[error("wrong kind")]
    WrongKind(At),
    /// The number of arguments differs from that of the parameters, or an array has more values than
    /// elements.
    #[error("wrong count")]
    WrongCount(At),
    /// There is no definition of `main`.
    #[error("no main")]
    NoMain,
    /// The length of an array is missing, not constant, traps, or is not from 1 to 256.
    #[error("bad length")]
    BadLength(At),
    /// A `break` outside a loop and a `switch`, or a `continue` outside a loop.
    #[error("break outside a loop")]
    BreakOutside(At),
    /// A call in the index of an element that is changed by `op=`, `++` or `--`.
    #[error("call in an index")]
    CallInIndex(At),
    /// The first item past a limit.
    #[error("past a limit")]
    Limit(At),
    /// Out of memory.
    #[error("out of memory")]
    Memory,
}

impl From<AllocError> for TypeError {
    ghost use Rattle.std.specs.Prelude.{◌≡◌};
    ghost use Rattle.ba_typing.specs.declared.error.TypeError.TheVariants.{Memory};

    ghost from_gives = { λ _ error. error ≡ Memory };

    fn from(_error: AllocError) -> TypeError {
        TypeError::Memory
    }
}
