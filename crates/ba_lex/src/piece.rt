//! The pieces that a text is cut into (C90 6.1).

ghost use Rattle.std.specs.Prelude.{◌≡◌, ℕ, ◌+◌, ◌-◌, ◌<◌, ◌≤◌, ◌∷◌, [], false, not, length, IfOk, IfSome, MatchOption, List, ◌++◌, if◌then◌else◌};
ghost use Rattle.std.specs.List.{prefix_len};
ghost use Rattle.ba_bytes.specs.Classes.{is_letter, is_word_byte, is_number_byte, is_blank, is_line_end};
ghost use Rattle.ba_lex.specs.Pieces.{form_of, word_form, word_at, number_at, after_quote, character_at, string_at, is_comment_end, after_open, comment_at, punctuator_or, punctuator_at, mark_at, piece_at, first_piece, next_position, position_after, with_piece, pieces_of};
ghost use Rattle.ba_lex.specs.declared.piece.Piece.{Piece};

use crate::MAX_TEXT;
use crate::constants::{begins_with, character_kind, number_kind};
use crate::spelling::{in_one, in_three, in_two, is_refused, keyword_of};
use ba_bytes::classes::{is_blank, is_letter, is_line_end, is_number_byte, is_word_byte};
use ba_numbers::ids::At;
use ba_tokens::token::{Name, Punct, TokenKind};
use std::alloc::{AllocError, Global};

/// What a piece of a text is. The definition of a text's tokens uses these forms too. A comment is a blank.
#[derive(Debug, Drop)]
pub enum Form {
    Blank,
    LineEnd,
    Hash,
    Token(TokenKind),
    /// A byte that begins no piece.
    BadByte,
    /// A piece that is unfinished, or breaks its form or its value.
    BadToken,
    /// A word that the profile leaves out.
    NotInProfile,
}

/// A piece of a text and the position of its first byte.
#[derive(Debug, Drop)]
pub struct Piece {
    pub form: Form,
    pub at: At,
}

/// How many bytes of a word the text begins with.
fn word_count(text: &[u8]) -> usize
    ensures count { result ≡ prefix_len is_word_byte text.now }
    ensures within { result ≤ length text.now }
{
    text.iter().take_while(|byte| is_word_byte(**byte)).count()
}

/// How many bytes of a number the text begins with.
fn number_count(text: &[u8]) -> usize
    ensures count { result ≡ prefix_len is_number_byte text.now }
    ensures within { result ≤ length text.now }
{
    text.iter()
        .take_while(|byte| is_number_byte(**byte))
        .count()
}

/// How many bytes are before the end of the line.
fn line_count(text: &[u8]) -> usize
    ensures count { result ≡ prefix_len (λ b. not (is_line_end b)) text.now }
    ensures within { result ≤ length text.now }
{
    text.iter().take_while(|byte| !is_line_end(**byte)).count()
}

/// The piece of this token; a bad one without a token.
fn form_of(kind: Option<TokenKind>) -> Form
    ensures { result ≡ form_of kind }
{
    match kind {
        Some(kind) => Form::Token(kind),
        None => Form::BadToken,
    }
}

/// The piece of a word: a keyword, a name, or a word that is not in the profile.
fn word_form(alloc: Global, word: &[u8]) -> Result<Form, AllocError>
    ensures { IfOk result (λ form. form ≡ word_form word.now) }
{
    if is_refused(word) {
        return Ok(Form::NotInProfile);
    }
    match keyword_of(word) {
        Some(keyword) => Ok(Form::Token(TokenKind::Keyword(keyword))),
        None => Ok(Form::Token(TokenKind::Name(Name::new(alloc, word)?))),
    }
}

/// The piece of a word, and its length.
fn word_at(alloc: Global, word: &[u8]) -> Result<(Form, usize), AllocError>
    ensures value { IfOk result (λ piece. piece ≡ word_at word.now) }
    ensures within { IfOk result (λ piece. piece.1 ≡ length word.now) }
{
    Ok((word_form(alloc, word)?, word.len()))
}

/// The piece of a number, and its length.
fn number_at(number: &[u8]) -> (Form, usize)
    ensures value { result ≡ number_at number.now }
    ensures within { result.1 ≡ length number.now }
{
    (form_of(number_kind(number)), number.len())
}

/// How many bytes there are up to and with the closing quote, None if none comes in this line. A quote after
/// a backslash closes nothing.
fn after_quote(quote: u8, text: &[u8]) -> Option<usize>
    ensures value { result ≡ after_quote quote false text.now }
    ensures within { IfSome result (λ n. (1 ≤ n) × (n ≤ length text.now)) }
{
    let mut escaped = false;
    for (i, byte) in text.iter().enumerate() {
        if is_line_end(*byte) {
            return None;
        }
        if *byte == quote && !escaped {
            return Some(i + 1);
        }
        escaped = *byte == b'\\' && !escaped;
    }
    None
}

/// The piece of a character constant whose opening quote is before `rest`, and its length.
fn character_at(rest: &[u8]) -> (Form, usize)
    requires { length rest.now ≤ MAX_TEXT }
    ensures value { result ≡ character_at rest.now }
    ensures within { (1 ≤ result.1) × (result.1 ≤ length rest.now + 1) }
{
    match after_quote(b'\'', rest) {
        Some(count) => (form_of(character_kind(&rest[..count - 1])), count + 1),
        None => (Form::BadToken, 1),
    }
}

/// The piece of a string whose opening quote is before `rest`, and its length.
fn string_at(rest: &[u8]) -> (Form, usize)
    requires { length rest.now ≤ MAX_TEXT }
    ensures value { result ≡ string_at rest.now }
    ensures within { (1 ≤ result.1) × (result.1 ≤ length rest.now + 1) }
{
    match after_quote(b'"', rest) {
        Some(count) => (Form::Token(TokenKind::Quoted), count + 1),
        None => (Form::BadToken, 1),
    }
}

/// Whether the text begins with `*` and `/`.
fn is_comment_end(text: &[u8]) -> bool
    ensures { result ≡ is_comment_end text.now }
{
    match text {
        [b'*', rest @ ..] => begins_with(b'/', rest),
        _ => false,
    }
}

/// How many bytes of a comment follow its opening, up to and with its end; None if it never ends.
fn after_open(text: &[u8]) -> Option<usize>
    ensures value { result ≡ after_open text.now }
    ensures within { IfSome result (λ n. (1 ≤ n) × (n ≤ length text.now)) }
{
    for i in 0..text.len() {
        if is_comment_end(&text[i..]) {
            return Some(i + 2);
        }
    }
    None
}

/// The piece of a comment whose opening is before `rest`, and its length.
fn comment_at(rest: &[u8]) -> (Form, usize)
    requires { length rest.now ≤ MAX_TEXT }
    ensures value { result ≡ comment_at rest.now }
    ensures within { (1 ≤ result.1) × (result.1 ≤ length rest.now + 2) }
{
    match after_open(rest) {
        Some(count) => (Form::Blank, count + 2),
        None => (Form::BadToken, 1),
    }
}

/// The piece of a punctuator of so many bytes, or the other piece without one.
fn punctuator_or(punct: Option<Punct>, count: usize, other: (Form, usize)) -> (Form, usize)
    ensures value { result ≡ punctuator_or punct count other }
    ensures which { MatchOption punct (result.1 ≡ other.1) (λ p. result.1 ≡ count) }
{
    match punct {
        Some(punct) => (Form::Token(TokenKind::Punct(punct)), count),
        None => other,
    }
}

/// The longest punctuator that the text begins with, and its length; a bad byte if there is none.
fn punctuator_at(text: &[u8]) -> (Form, usize)
    requires { 0 < length text.now }
    ensures value { result ≡ punctuator_at text.now }
    ensures within { (1 ≤ result.1) × (result.1 ≤ length text.now) }
{
    let one = punctuator_or(in_one(text), 1, (Form::BadByte, 1));
    let two = punctuator_or(in_two(text), 2, one);
    punctuator_or(in_three(text), 3, two)
}

/// The first piece of a text that begins with no blank, letter or digit.
fn mark_at(first: u8, rest: &[u8], text: &[u8]) -> (Form, usize)
    requires parts { text.now ≡ first ∷ rest.now }
    requires short { length text.now ≤ MAX_TEXT }
    ensures value { result ≡ mark_at first rest.now }
    ensures within { (1 ≤ result.1) × (result.1 ≤ length text.now) }
{
    if first == b'\'' {
        character_at(rest)
    } else if first == b'"' {
        string_at(rest)
    } else if first == b'/' && begins_with(b'*', rest) {
        comment_at(&rest[1..])
    } else if first == b'/' && begins_with(b'/', rest) {
        (Form::Blank, line_count(rest) + 1)
    } else {
        punctuator_at(text)
    }
}

/// The first piece of a text, by its first byte, and its length.
fn piece_at(alloc: Global, first: u8, rest: &[u8], text: &[u8]) -> Result<(Form, usize), AllocError>
    requires parts { text.now ≡ first ∷ rest.now }
    requires short { length text.now ≤ MAX_TEXT }
    ensures value { IfOk result (λ piece. piece ≡ piece_at first rest.now) }
    ensures within { IfOk result (λ piece. (1 ≤ piece.1) × (piece.1 ≤ length text.now)) }
{
    if is_line_end(first) {
        Ok((Form::LineEnd, 1))
    } else if is_blank(first) {
        Ok((Form::Blank, 1))
    } else if first == b'#' {
        Ok((Form::Hash, 1))
    } else if is_letter(first) {
        word_at(alloc, &text[..1 + word_count(rest)])
    } else if first.is_ascii_digit() {
        Ok(number_at(&text[..1 + number_count(rest)]))
    } else {
        Ok(mark_at(first, rest, text))
    }
}

/// The first piece of a text, and how many bytes it has.
#[tactic(auto, unfolding(crate::specs::Pieces::first_piece), using(crate::proofs::CutLemmas::front))]
fn first_piece(alloc: Global, text: &[u8]) -> Result<(Form, usize), AllocError>
    requires some { 0 < length text.now }
    requires short { length text.now ≤ MAX_TEXT }
    ensures value { IfOk result (λ piece. piece ≡ first_piece text.now) }
    ensures within { IfOk result (λ piece. (1 ≤ piece.1) × (piece.1 ≤ length text.now)) }
{
    piece_at(alloc, text[0], &text[1..], text)
}

/// The position after a byte at this position.
fn next_position(at: At, byte: u8) -> At
    requires line { at.line < u32.MAX }
    requires column { at.column < u32.MAX }
    ensures { result ≡ next_position at byte }
{
    if is_line_end(byte) {
        At {
            line: at.line + 1,
            column: 1,
        }
    } else {
        At {
            line: at.line,
            column: at.column + 1,
        }
    }
}

/// The position after the bytes of a piece that begins at this position.
fn position_after(at: At, piece: &[u8]) -> At
    requires column { 1 ≤ at.column }
    requires room { at.line + at.column + length piece.now ≤ MAX_TEXT + 2 }
    ensures value { result ≡ position_after at piece.now }
    ensures column { 1 ≤ result.column }
    ensures room { result.line + result.column ≤ at.line + at.column + length piece.now }
{
    let mut here = at;
    for byte in piece {
        here = next_position(here, *byte);
    }
    here
}

/// Appends a piece, unless it is a blank, and tells whether reading goes on.
fn push_piece(pieces: &mut Vec<Piece>, form: Form, at: At) -> Result<bool, AllocError>
    ensures { IfOk result (λ goes_on. (rest : List Piece) →
        pieces.old.items ++ with_piece form at rest
        ≡ pieces.new.items ++ (if goes_on then rest else [])) }
{
    let goes_on = match form {
        Form::Blank => return Ok(true),
        Form::LineEnd => true,
        Form::Hash => true,
        Form::Token(_) => true,
        Form::BadByte => false,
        Form::BadToken => false,
        Form::NotInProfile => false,
    };
    pieces.push(Piece { form, at })?;
    Ok(goes_on)
}

/// The pieces of a text, up to the first at fault.
///
/// The only error is out of memory.
pub fn pieces(alloc: Global, text: &[u8]) -> Result<Vec<Piece>, AllocError>
    requires { length text.now ≤ MAX_TEXT }
    ensures { IfOk result (λ pieces. pieces.items ≡ pieces_of text.now) }
{
    let mut pieces = Vec::new(alloc);
    let mut at = At { line: 1, column: 1 };
    let mut rest = text;
    while !rest.is_empty() {
        let (form, count) = first_piece(alloc, rest)?;
        let (piece, others) = rest.split_at(count);
        if !push_piece(&mut pieces, form, at)? {
            break;
        }
        at = position_after(at, piece);
        rest = others;
    }
    Ok(pieces)
}
