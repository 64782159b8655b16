//! The tokens of a C program (C90 6.1), as types: the lexer makes them, parser and type checker read them.
#![tactic(auto)]

pub mod token;

pub use token::{Keyword, Name, Punct, Token, TokenKind};
