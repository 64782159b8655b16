//! Directives (C90 6.8).

ghost use Rattle.std.specs.Prelude.{◌≡◌, ◌++◌, None, length, nat_lt, IfOk};
ghost use Rattle.std.specs.List.{list_any};
ghost use Rattle.std.specs.Cmp.Lexicographic.{pointwise};
ghost use Rattle.ba_lex.specs.Lines.{is_name, is_punct, is_keyword, body_of, is_header_name, is_header, is_parenthesis_next, body_from, same_kind, with_new, with_macro, definition, table_after, directive, Gives};

use crate::error::LexError;
use crate::lines::line_tokens;
use crate::macros::{Macros, body_from, replacement};
use crate::piece::Piece;
use ba_numbers::ids::At;
use ba_tokens::token::{Keyword, Punct, Token, TokenKind};
use std::alloc::{AllocError, Global};

/// The greatest number of macros.
const MAX_MACROS: usize = 1000;

/// The greatest number of tokens of one macro's body.
const MAX_BODY: usize = 1000;

/// Whether the token is this name.
fn is_name(token: &Token, name: &[u8]) -> bool
    ensures { result ≡ is_name name.now token.now }
{
    match &token.kind {
        TokenKind::Name(text) => text.as_bytes() == name,
        _ => false,
    }
}

/// Whether the token is this punctuator.
fn is_punct(token: &Token, wanted: Punct) -> bool
    ensures { result ≡ is_punct wanted token.now }
{
    match &token.kind {
        TokenKind::Punct(punct) => *punct == wanted,
        _ => false,
    }
}

/// Whether the token is this keyword.
fn is_keyword(token: &Token, wanted: Keyword) -> bool
    ensures { result ≡ is_keyword wanted token.now }
{
    match &token.kind {
        TokenKind::Keyword(keyword) => *keyword == wanted,
        _ => false,
    }
}

/// Whether the token is the name of a header that may be included.
fn is_header_name(token: &Token) -> bool
    ensures { result ≡ is_header_name token.now }
{
    is_keyword(token, Keyword::Assert) || is_name(token, b"stdio") || is_name(token, b"stdlib")
}

/// Whether the tokens are the name of a header that is accepted.
fn is_header(tokens: &[Token]) -> bool
    ensures { result ≡ is_header tokens.now }
{
    match tokens {
        [open, name, dot, ending, close] => {
            is_punct(open, Punct::Less)
                && is_header_name(name)
                && is_punct(dot, Punct::Dot)
                && is_name(ending, b"h")
                && is_punct(close, Punct::Greater)
        }
        _ => false,
    }
}

/// Whether the byte after the name is a parenthesis.
fn is_parenthesis_next(at: At, name: &[u8], body: &[Token]) -> bool
    ensures { result ≡ is_parenthesis_next at name.now body.now }
{
    match body {
        [first, ..] => {
            is_punct(first, Punct::OpenParenthesis)
                && first.at.line == at.line
                && first.at.column >= at.column
                && (first.at.column - at.column) as usize == name.len()
        }
        _ => false,
    }
}

/// Whether these tokens have more than `limit` tokens after replacement.
fn is_longer(macros: &Macros, tokens: &[Token], limit: usize) -> bool
    ensures { result ≡ nat_lt limit (length (body_from macros.now tokens.now)) }
{
    let mut room = limit;
    for token in tokens {
        let count = replacement(&*macros, &token.kind).len();
        if room < count {
            return true;
        }
        room -= count;
    }
    false
}

/// Whether the name is among the tokens.
fn has_name(tokens: &[Token], name: &[u8]) -> bool
    ensures { result ≡ list_any (is_name name.now) tokens.now }
{
    tokens.iter().any(|token| is_name(token, name))
}

/// The table with a new macro, unless its name is used too soon or a limit is passed.
fn with_new(
    alloc: Global,
    macros: Macros,
    at: At,
    name: &[u8],
    body: &[Token],
) -> Result<Macros, LexError>
    requires { body_of macros name.now ≡ None }
    ensures { Gives (λ m. m) result (with_new macros at name.now body.now) }
{
    if has_name(body, name) || macros.is_mentioned(name) {
        return Err(LexError::MacroOrder(at));
    }
    if macros.len() >= MAX_MACROS || is_longer(&macros, body, MAX_BODY) {
        return Err(LexError::TooMany(at));
    }
    Ok(macros.with(alloc, name, body)?)
}

/// Whether these tokens, after replacement, are the same as the old ones.
fn is_same(
    alloc: Global,
    macros: &Macros,
    old: &[TokenKind],
    body: &[Token],
) -> Result<bool, AllocError>
    ensures { IfOk result (λ same. same
        ≡ pointwise same_kind old.now (body_from macros.now body.now)) }
{
    if is_longer(macros, body, old.len()) {
        return Ok(false);
    }
    let kinds = body_from(alloc, macros, body)?;
    Ok(are_same(old, kinds.as_slice()))
}

/// Whether both lists have the same tokens.
fn are_same(old: &[TokenKind], new: &[TokenKind]) -> bool
    ensures { result ≡ pointwise same_kind old.now new.now }
{
    if old.len() != new.len() {
        return false;
    }
    for (i, kind) in old.iter().enumerate() {
        if *kind != new[i] {
            return false;
        }
    }
    true
}

/// The table after the definition of a macro.
fn with_macro(
    alloc: Global,
    macros: Macros,
    at: At,
    name: &[u8],
    body: &[Token],
) -> Result<Macros, LexError>
    ensures { Gives (λ m. m) result
        (with_macro macros at name.now body.now (body_of macros name.now)) }
{
    if let Some(old) = macros.body(name) {
        if !is_same(alloc, &macros, old.as_slice(), body)? {
            return Err(LexError::Redefined(at));
        }
        return Ok(macros);
    }
    with_new(alloc, macros, at, name, body)
}

/// The table after a `#define` with these tokens.
fn define(alloc: Global, macros: Macros, hash: At, tokens: &[Token]) -> Result<Macros, LexError>
    ensures { Gives (λ m. m) result (definition macros hash tokens.now) }
{
    let [first, body @ ..] = tokens else {
        return Err(LexError::BadDirective(hash));
    };
    let TokenKind::Name(name) = &first.kind else {
        return Err(LexError::BadDirective(hash));
    };
    if is_parenthesis_next(first.at, name.as_bytes(), body) {
        return Err(LexError::BadDirective(hash));
    }
    with_macro(alloc, macros, first.at, name.as_bytes(), body)
}

/// The table after a directive with these tokens after its `#`.
fn obey(alloc: Global, macros: Macros, hash: At, tokens: &[Token]) -> Result<Macros, LexError>
    ensures { Gives (λ m. m) result (table_after macros hash tokens.now) }
{
    let [first, rest @ ..] = tokens else {
        return Ok(macros);
    };
    if is_name(first, b"define") {
        return define(alloc, macros, hash, rest);
    }
    if is_name(first, b"include") && is_header(rest) {
        return Ok(macros);
    }
    Err(LexError::BadDirective(hash))
}

/// The table after the directive of this line.
pub fn directive(
    alloc: Global,
    macros: Macros,
    hash: At,
    line: &[Piece],
) -> Result<Macros, LexError>
    ensures { Gives (λ m. m) result (directive macros hash line.now) }
{
    let tokens = line_tokens(alloc, line)?;
    obey(alloc, macros, hash, tokens.as_slice())
}
