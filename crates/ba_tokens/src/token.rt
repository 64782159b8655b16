//! The tokens of a program.

ghost use Rattle.std.specs.Prelude.{◌≡◌, IfOk};

use ba_numbers::ids::At;
use ba_numbers::numbers::CType;
use std::alloc::{AllocError, Global};
use std::marker::Model;
use std::rc::Rc;

/// A name of the program. It owns its bytes, and its copies share them. A contract sees the list of the bytes
/// and nothing else.
#[derive(Debug)]
pub struct Name {
    bytes: Rc<Vec<u8>>,
}

impl Drop for Name {
    fn drop(self) {
        let Name { bytes: _ } = self;
    }
}

impl Model for Name {
    ghost use Rattle.std.specs.Prelude.{List, ℕ};

    ghost Value = { List ℕ };

    ghost view = { λ name. name.bytes.value.items };
}

impl Name {
    /// The name of these bytes, which are copied.
    ///
    /// The only error is out of memory.
    pub fn new(alloc: Global, bytes: &[u8]) -> Result<Name, AllocError>
        ensures { IfOk result (λ name. name ≡ bytes.now) }
    {
        let copied = Vec::from_slice(alloc, bytes)?;
        let bytes = Rc::new(alloc, copied)?;
        Ok(Name { bytes })
    }

    /// The bytes in their order.
    pub fn as_bytes(&self) -> &[u8]
        ensures { result.now ≡ self.now }
    {
        self.bytes.as_slice()
    }

    /// Another copy of the name, which shares its bytes.
    ///
    /// The only error is out of memory, also if no more copies can be counted.
    pub fn copy(&self) -> Result<Name, AllocError>
        ensures { IfOk result (λ name. name ≡ self.now) }
    {
        let bytes = self.bytes.clone()?;
        Ok(Name { bytes })
    }
}

impl PartialEq for Name {
    ghost use Rattle.std.specs.Prelude.{nat_eq};
    ghost use Rattle.std.specs.Cmp.Lexicographic.{pointwise};
    ghost use Rattle.std.specs.Cmp.Rules.{comparing};
    ghost use Rattle.std.proofs.Common.{rules};

    ghost eq = { pointwise nat_eq };

    ghost laws = { Prim.search (comparing, rules) };

    fn eq(&self, other: &Name) -> bool {
        self.as_bytes() == other.as_bytes()
    }
}

impl Eq for Name {
    ghost use Rattle.std.specs.Cmp.Rules.{comparing};
    ghost use Rattle.std.proofs.Common.{rules};

    ghost laws = { Prim.search (comparing, rules) };
}

/// A keyword of the profile, named by its spelling (C90 6.1.1). `assert` and `printf` are among them.
#[derive(Clone, Copy, Debug, PartialEq, Eq)]
pub enum Keyword {
    Char,
    Short,
    Int,
    Long,
    Signed,
    Unsigned,
    Void,
    Enum,
    Const,
    Static,
    If,
    Else,
    Switch,
    Case,
    Default,
    While,
    Do,
    For,
    Break,
    Continue,
    Return,
    Assert,
    Printf,
}

/// A punctuator (C90 6.1.5, 6.1.6).
#[derive(Clone, Copy, Debug, PartialEq, Eq)]
pub enum Punct {
    /// `{`
    OpenBrace,
    /// `}`
    CloseBrace,
    /// `(`
    OpenParenthesis,
    /// `)`
    CloseParenthesis,
    /// `[`
    OpenBracket,
    /// `]`
    CloseBracket,
    /// `;`
    Semicolon,
    /// `,`
    Comma,
    /// `?`
    Question,
    /// `:`
    Colon,
    /// `~`
    Tilde,
    /// `!`
    Exclamation,
    /// `+`
    Plus,
    /// `-`
    Minus,
    /// `*`
    Star,
    /// `/`
    Slash,
    /// `%`
    Percent,
    /// `&`
    Ampersand,
    /// `|`
    Bar,
    /// `^`
    Caret,
    /// `=`
    Assign,
    /// `<`
    Less,
    /// `>`
    Greater,
    /// `++`
    Increment,
    /// `--`
    Decrement,
    /// `<<`
    ShiftLeft,
    /// `>>`
    ShiftRight,
    /// `<=`
    LessEqual,
    /// `>=`
    GreaterEqual,
    /// `==`
    Equal,
    /// `!=`
    NotEqual,
    /// `&&`
    AndAnd,
    /// `||`
    OrOr,
    /// `+=`
    PlusAssign,
    /// `-=`
    MinusAssign,
    /// `*=`
    StarAssign,
    /// `/=`
    SlashAssign,
    /// `%=`
    PercentAssign,
    /// `&=`
    AmpersandAssign,
    /// `^=`
    CaretAssign,
    /// `|=`
    BarAssign,
    /// `<<=`
    ShiftLeftAssign,
    /// `>>=`
    ShiftRightAssign,
    /// `->`
    Arrow,
    /// `.`
    Dot,
    /// `...`
    Ellipsis,
}

/// What a token is.
#[derive(Debug, PartialEq, Eq)]
pub enum TokenKind {
    /// A name, which is no keyword.
    Name(Name),
    /// A keyword.
    Keyword(Keyword),
    /// A constant of the type `t`; a character constant has type `I32`.
    Constant { t: CType, value: i64 },
    /// A string, whose bytes are dropped.
    Quoted,
    /// A punctuator.
    Punct(Punct),
}

impl Drop for TokenKind {
    fn drop(self) {
        match self {
            TokenKind::Name(_) => {}
            TokenKind::Keyword(_) => {}
            TokenKind::Constant { t: _, value: _ } => {}
            TokenKind::Quoted => {}
            TokenKind::Punct(_) => {}
        }
    }
}

impl TokenKind {
    /// Another copy of the kind. The copy shares the bytes of a name.
    ///
    /// The only error is out of memory, also if no more copies of a name can be counted.
    pub fn copy(&self) -> Result<TokenKind, AllocError>
        ensures { IfOk result (λ kind. kind ≡ self.now) }
    {
        Ok(match self {
            TokenKind::Name(name) => TokenKind::Name(name.copy()?),
            TokenKind::Keyword(keyword) => TokenKind::Keyword(*keyword),
            TokenKind::Constant { t, value } => TokenKind::Constant {
                t: *t,
                value: *value,
            },
            TokenKind::Quoted => TokenKind::Quoted,
            TokenKind::Punct(punct) => TokenKind::Punct(*punct),
        })
    }
}

/// A token with the position of its first byte. A token from a macro has the position of the macro's use.
#[derive(Debug, PartialEq, Eq)]
pub struct Token {
    pub kind: TokenKind,
    pub at: At,
}

impl Drop for Token {
    fn drop(self) {
        let Token { kind: _, at: _ } = self;
    }
}

impl Token {
    /// Another copy of the token. The copy shares the bytes of a name.
    ///
    /// The only error is out of memory, also if no more copies of a name can be counted.
    pub fn copy(&self) -> Result<Token, AllocError>
        ensures { IfOk result (λ token. token ≡ self.now) }
    {
        let kind = self.kind.copy()?;
        Ok(Token { kind, at: self.at })
    }
}
