//! Why tokens are no program's.

use thiserror::Error;

/// The first error of a list of tokens, or out of memory.
#[derive(Clone, Copy, Debug, PartialEq, Eq, Error)]
pub enum ParseError {
    /// The token of this number, from 0, cannot follow those before it. At the count of tokens, more had to
    /// follow.
    #[error("the token cannot stand here")]
    Syntax(usize),
    /// More than 100 constructs are around the token of this number, from 0.
    #[error("too many constructs around the token")]
    TooDeep(usize),
    /// Out of memory.
    #[error("out of memory")]
    Memory,
}
