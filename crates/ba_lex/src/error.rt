//! Why a text has no tokens.

use ba_numbers::ids::At;
use std::alloc::{AllocError, AllocFailed};
use thiserror::Error;

/// The first error of a text at its position, or out of memory.
///
/// In a directive the error of a piece comes before an error of the line. The errors of a line come in the
/// order `BadDirective`, `Redefined`, `MacroOrder`, `TooMany`.
#[derive(Clone, Copy, Debug, PartialEq, Eq, Error)]
pub enum LexError {
    /// A byte outside comments, strings and character constants begins no piece and is no blank. The position
    /// is the byte's.
    #[error("no token begins so")]
    BadByte(At),
    /// A piece is unfinished or breaks its form or value, or a `#` isn't first on its line. The position is
    /// that of the first byte.
    #[error("no token has this form")]
    BadToken(At),
    /// A word of C that the profile leaves out, also in a directive. The position is the word's.
    #[error("the word isn't in the profile")]
    NotInProfile(At),
    /// A directive has another form than those of the profile, or a macro's name is no name. The position is
    /// that of the `#`.
    #[error("no directive has this form")]
    BadDirective(At),
    /// The name of a new macro is in the body of an earlier macro or in its own. The position is the name's.
    #[error("the macro is used before it is defined")]
    MacroOrder(At),
    /// The name is a macro with other tokens. The position is the name's.
    #[error("the macro is defined otherwise")]
    Redefined(At),
    /// A limit is passed. The 1,001st macro, or a body of more than 1,000 tokens after replacement, has the
    /// position of its name. Token 100,001 has its own position.
    #[error("too many macros or tokens")]
    TooMany(At),
    /// Out of memory.
    #[error("out of memory")]
    Memory,
}

impl From<AllocError> for LexError {
    ghost use Rattle.std.specs.Prelude.{◌≡◌};
    ghost use Rattle.ba_lex.specs.declared.error.LexError.TheVariants.{Memory};

    ghost from_gives = { λ _ error. error ≡ Memory };

    fn from(_error: AllocError) -> LexError {
        LexError::Memory
    }
}

impl<T: Drop> From<AllocFailed<T>> for LexError {
    ghost use Rattle.std.specs.Prelude.{◌≡◌};
    ghost use Rattle.ba_lex.specs.declared.error.LexError.TheVariants.{Memory};

    ghost from_gives = { λ _ error. error ≡ Memory };

    fn from(_error: AllocFailed<T>) -> LexError {
        LexError::Memory
    }
}
