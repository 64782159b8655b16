//! Lines of a text: directives, and lines of the program, whose macros are replaced (C90 6.8).

ghost use Rattle.std.specs.Prelude.{◌≡◌, ℕ, ◌+◌, ◌<◌, ◌≤◌, ◌⊎◌, List, [], ◌∷◌, ◌++◌, length, take, drop, IsTrue, IfErr, IfOk, OnOk};
ghost use Rattle.ba_lex.specs.Storage.{reading_so_far};
ghost use Rattle.ba_lex.specs.Lines.{answer, begins_directive, only_tokens, sequence, is_line_end, lines_of, tokens_at, reading, reading_of, tokens_in, Fails, Gives};
ghost use Rattle.ba_lex.specs.declared.piece.Piece.{Piece};
ghost use Rattle.ba_lex.specs.declared.error.LexError.TheVariants.{Memory, TooMany};

use crate::directives::directive;
use crate::error::LexError;
use crate::macros::{Macros, replacement};
use crate::piece::{Form, Piece};
use ba_numbers::ids::At;
use ba_tokens::token::{Token, TokenKind};
use std::alloc::Global;

/// The greatest number of tokens.
pub const MAX_TOKENS: usize = 100000;

/// The error of a piece in a line, if it is at fault.
fn fault_of(piece: &Piece) -> Option<LexError>
    ensures { result ≡ (reading_of piece.now.form piece.now.at).fault }
{
    match piece.form {
        Form::Blank => None,
        Form::LineEnd => None,
        Form::Hash => Some(LexError::BadToken(piece.at)),
        Form::Token(_) => None,
        Form::BadByte => Some(LexError::BadByte(piece.at)),
        Form::BadToken => Some(LexError::BadToken(piece.at)),
        Form::NotInProfile => Some(LexError::NotInProfile(piece.at)),
    }
}

/// Adds a token, unless there are too many. Else the error is at this position.
fn push_token(out: &mut Vec<Token>, kind: &TokenKind, at: At) -> Result<(), LexError>
    requires { length out.old.items ≤ MAX_TOKENS }
    ensures ok { OnOk result ((out.new.items ≡ out.old.items ++ tokens_at at (kind.now ∷ []))
        × (length out.new.items ≤ MAX_TOKENS)) }
    ensures err { IfErr result (λ e. (e ≡ Memory)
        ⊎ ((e ≡ TooMany at) × (length out.old.items ≡ MAX_TOKENS))) }
{
    if out.len() == MAX_TOKENS {
        return Err(LexError::TooMany(at));
    }
    out.push(Token {
        kind: kind.copy()?,
        at,
    })?;
    Ok(())
}

/// Appends tokens of these kinds, all at this position.
fn push_tokens(out: &mut Vec<Token>, kinds: &[TokenKind], at: At) -> Result<(), LexError>
    requires { length out.old.items ≤ MAX_TOKENS }
    ensures ok { OnOk result ((out.new.items ≡ out.old.items ++ tokens_at at kinds.now)
        × (length out.new.items ≤ MAX_TOKENS)) }
    ensures err { IfErr result (λ e. (e ≡ Memory)
        ⊎ ((e ≡ TooMany at) × (MAX_TOKENS < length out.old.items + length kinds.now))) }
{
    for kind in kinds {
        push_token(out, kind, at)?;
    }
    Ok(())
}

/// Appends the tokens of a line of the program, whose macros are replaced.
fn text_line(macros: &Macros, out: &mut Vec<Token>, line: &[Piece]) -> Result<(), LexError>
    requires { length out.old.items ≤ MAX_TOKENS }
    ensures ok { OnOk result ((reading_so_far macros.now out.old.items line.now
        ≡ only_tokens out.new.items)
        × (length out.new.items ≤ MAX_TOKENS)) }
    ensures err { IfErr result (λ e.
        Fails e (answer (reading_so_far macros.now out.old.items line.now))) }
{
    for piece in line {
        if let Some(fault) = fault_of(piece) {
            return Err(fault);
        }
        if let Form::Token(kind) = &piece.form {
            push_tokens(out, replacement(&*macros, kind), piece.at)?;
        }
    }
    Ok(())
}

/// The tokens of a line, or its first fault.
pub fn line_tokens(alloc: Global, line: &[Piece]) -> Result<Vec<Token>, LexError>
    ensures { Gives (λ v. v.items) result (tokens_in line.now) }
{
    let mut tokens = Vec::new(alloc);
    for piece in line {
        if let Some(fault) = fault_of(piece) {
            return Err(fault);
        }
        if let Form::Token(kind) = &piece.form {
            tokens.push(Token {
                kind: kind.copy()?,
                at: piece.at,
            })?;
        }
    }
    Ok(tokens)
}

/// Whether the piece ends a line.
fn is_line_end(piece: &Piece) -> bool
    ensures { result ≡ is_line_end piece.now.form }
{
    match piece.form {
        Form::LineEnd => true,
        _ => false,
    }
}

/// Whether the line is a directive.
fn begins_directive(line: &[Piece]) -> bool
    ensures value { result ≡ begins_directive line.now }
    ensures some { IsTrue result → 0 < length line.now }
{
    match line {
        [first, ..] => match first.form {
            Form::Hash => true,
            _ => false,
        },
        _ => false,
    }
}

/// How many pieces the first line has before its end.
pub fn line_length(pieces: &[Piece]) -> usize
    requires { 0 < length pieces.now }
    ensures lines { lines_of pieces.now ≡ take result pieces.now
        ∷ lines_of (drop (result + 1) pieces.now) }
    ensures within { result ≤ length pieces.now }
{
    for (i, piece) in pieces.iter().enumerate() {
        if is_line_end(piece) {
            return i;
        }
    }
    pieces.len()
}

/// Reads a line: appends the tokens of a line of the program, or gives the table after a directive.
pub fn read_line(
    alloc: Global,
    macros: Macros,
    out: &mut Vec<Token>,
    line: &[Piece],
) -> Result<Macros, LexError>
    requires { length out.old.items ≤ MAX_TOKENS }
    ensures ok { IfOk result (λ next. (lines : List (List Piece)) →
        sequence (only_tokens out.old.items) (reading macros (line.now ∷ lines))
        ≡ sequence (only_tokens out.new.items) (reading next lines)) }
    ensures room { OnOk result (length out.new.items ≤ MAX_TOKENS) }
    ensures err { IfErr result (λ e. (lines : List (List Piece)) →
        Fails e (answer
        (sequence (only_tokens out.old.items) (reading macros (line.now ∷ lines))))) }
{
    if begins_directive(line) {
        return directive(alloc, macros, line[0].at, &line[1..]);
    }
    text_line(&macros, out, line)?;
    Ok(macros)
}
