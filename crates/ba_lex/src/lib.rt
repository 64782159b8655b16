//! The lexer and preprocessor of the profile (C90 5.1.1.2, 6.1, 6.8).
//!
//! [`tokens`] cuts a text into pieces, each as long as it can be, reads its directives, and replaces its
//! macros. The profile is C90 with whole numbers only. Every other text has a first error, with its position.
#![tactic(auto)]

mod constants;
mod directives;
pub mod error;
pub mod laws;
mod lines;
mod macros;
mod piece;
mod spelling;

ghost use Rattle.std.specs.Prelude.{◌≤◌, [], length};
ghost use Rattle.ba_lex.specs.Lines.{answer, lines_of, reading, tokens_of, Gives};

use crate::error::LexError;
use crate::lines::{line_length, read_line};
use crate::macros::Macros;
use crate::piece::{Piece, pieces};
use ba_tokens::token::Token;
use std::alloc::Global;

/// The greatest length of a text in bytes.
pub const MAX_TEXT: usize = 65536;

/// The tokens of a text, with its macros replaced; or its first error.
///
/// The text has at most 65,536 bytes. The answer is that of the definition: all tokens with their positions,
/// or the first error at its position. Copies of one name that come from one macro share its bytes. Only
/// [`LexError::Memory`] may come for any text.
#[tactic(auto, unfolding(crate::specs::Lines::tokens_of))]
pub fn tokens(alloc: Global, text: &[u8]) -> Result<Vec<Token>, LexError>
    requires { length text.now ≤ MAX_TEXT }
    ensures { Gives (λ v. v.items) result (tokens_of text.now) }
{
    let pieces = pieces(alloc, text)?;
    read_lines(alloc, pieces.as_slice())
}

/// The tokens of the lines that these pieces form.
fn read_lines(alloc: Global, pieces: &[Piece]) -> Result<Vec<Token>, LexError>
    ensures { Gives (λ v. v.items) result (answer (reading [] (lines_of pieces.now))) }
{
    let mut macros = Macros::new(alloc);
    let mut out = Vec::new(alloc);
    let mut from = 0;
    while from < pieces.len() {
        let (_, rest) = pieces.split_at(from);
        let (line, _) = rest.split_at(line_length(rest));
        macros = read_line(alloc, macros, &mut out, line)?;
        from += line.len() + 1;
    }
    Ok(out)
}
