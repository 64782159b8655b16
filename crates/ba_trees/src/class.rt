//! What the grammar sees of a token.

ghost use Rattle.std.specs.Prelude.{◌≡◌};
ghost use Rattle.ba_trees.specs.Classes.{class_of};

use ba_tokens::token::{Keyword, Punct, Token, TokenKind};

/// The class of a token, which is all that the grammar sees of it. It tells neither the spelling of a name
/// nor the value of a constant.
#[derive(Clone, Copy, Debug, PartialEq, Eq)]
pub enum TokenClass {
    Name,
    Constant,
    Quoted,
    Keyword(Keyword),
    Punct(Punct),
}

/// The class of a token.
pub fn class_of(token: &Token) -> TokenClass
    ensures { result ≡ class_of token.now }
{
    match &token.kind {
        TokenKind::Name(_) => TokenClass::Name,
        TokenKind::Constant { .. } => TokenClass::Constant,
        TokenKind::Quoted => TokenClass::Quoted,
        TokenKind::Keyword(keyword) => TokenClass::Keyword(*keyword),
        TokenKind::Punct(punct) => TokenClass::Punct(*punct),
    }
}
