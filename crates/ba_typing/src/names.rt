//! The meanings of the names, words and operators of a program.

ghost use Rattle.std.specs.Prelude.{◌≡◌, ◌++◌, is_some, not, option_map, option_to_list};
ghost use Rattle.ba_trees.specs.Classes.{class_of, word};
ghost use Rattle.ba_typing.specs.Names.{binary_operator, by_sign, changing_operator, first_name, has_word, jump_of, name_of, punct_of, tag_of, type_named, type_of_told, type_specified, unary_operator, words_of, words_of_declaration};

use crate::text::Text;
use ba_numbers::numbers::{BinOp, CType, UnOp};
use ba_tokens::token::{Keyword, Punct, Token, TokenKind};
use ba_trees::tree::declarations::Specifiers;
use ba_trees::tree::expressions::TypeName;

/// A binary operator. It has a value of two operands, or its left operand may decide alone.
#[derive(Clone, Copy)]
pub enum Operator {
    Value(BinOp),
    AndAlso,
    OrElse,
}

/// A jump without a value (C90 6.6.6).
#[derive(Clone, Copy)]
pub enum Jump {
    Break,
    Continue,
    Return,
}

/// Which jumps are accepted (C90 6.6.6.2, 6.6.6.3): a `break` in a loop or a `switch`, a `continue` in a
/// loop.
#[derive(Clone, Copy, Debug, PartialEq, Eq)]
pub struct Exits {
    pub breaks: bool,
    pub continues: bool,
}

/// The name of a token, without bytes if it is no name.
pub fn name_of<'a>(token: &'a Token) -> Text<'a>
    ensures { result ≡ name_of token.now }
{
    match &token.kind {
        TokenKind::Name(name) => Text::new(name.as_bytes()),
        _ => Text::new(b""),
    }
}

/// The punctuator of a token, `None` if it is none.
pub fn punct_of(token: &Token) -> Option<Punct>
    ensures { result ≡ punct_of token.now }
{
    match &token.kind {
        TokenKind::Punct(punct) => Some(*punct),
        _ => None,
    }
}

/// Whether a keyword is among the words of a type.
fn has_word(words: &[Token], keyword: Keyword) -> bool
    ensures { result ≡ has_word words.now keyword }
{
    words.iter().any(|word| is_keyword(word, keyword))
}

/// Whether a keyword is among the words of a declaration.
fn specifies(specifiers: &Specifiers, keyword: Keyword) -> bool
    ensures { result ≡ has_word (words_of_declaration specifiers.now) keyword }
{
    has_word(specifiers.words.as_slice(), keyword)
        || has_word(specifiers.behind.as_slice(), keyword)
}

/// Whether a token is this keyword.
pub fn is_keyword(token: &Token, keyword: Keyword) -> bool
    ensures { result ≡ word keyword (class_of token.now) }
{
    match &token.kind {
        TokenKind::Keyword(found) => *found == keyword,
        _ => false,
    }
}

/// Which words that decide a type occur in the words of a type or of a declaration.
#[derive(Clone, Copy)]
struct TypeWords {
    is_void: bool,
    is_char: bool,
    is_short: bool,
    is_unsigned: bool,
}

impl TypeWords {
    /// The type that the words name, `None` for `void`.
    fn named(self) -> Option<CType>
        ensures { result ≡ type_of_told self }
    {
        if self.is_void {
            return None;
        }
        Some(if self.is_char {
            by_sign(self.is_unsigned, CType::I8, CType::U8)
        } else if self.is_short {
            by_sign(self.is_unsigned, CType::I16, CType::U16)
        } else {
            by_sign(self.is_unsigned, CType::I32, CType::U32)
        })
    }
}

/// The type that the words name (C90 6.5.2), `None` for `void`.
pub fn type_named(name: &TypeName) -> Option<CType>
    ensures { result ≡ type_named name.now }
{
    let words = name.words.as_slice();
    TypeWords {
        is_void: has_word(words, Keyword::Void),
        is_char: has_word(words, Keyword::Char),
        is_short: has_word(words, Keyword::Short),
        is_unsigned: has_word(words, Keyword::Unsigned),
    }
    .named()
}

/// The type that the words of a declaration name, `None` for `void`.
pub fn type_specified(specifiers: &Specifiers) -> Option<CType>
    ensures { result ≡ type_specified specifiers.now }
{
    TypeWords {
        is_void: specifies(specifiers, Keyword::Void),
        is_char: specifies(specifiers, Keyword::Char),
        is_short: specifies(specifiers, Keyword::Short),
        is_unsigned: specifies(specifiers, Keyword::Unsigned),
    }
    .named()
}

/// The tag in the words of a type, `None` if there is none (C90 6.5.2.3).
pub fn tag_of_type(name: &TypeName) -> Option<&Token>
    ensures { option_map (λ tag. tag.now) result ≡ tag_of (words_of name.now) }
{
    tag_in(name.words.as_slice())
}

/// The tag in the words of a declaration, `None` if there is none.
pub fn tag_of_declaration(specifiers: &Specifiers) -> Option<&Token>
    ensures { option_map (λ tag. tag.now) result ≡ tag_of (words_of_declaration specifiers.now) }
{
    tag_of(specifiers.words.as_slice(), specifiers.behind.as_slice())
}

/// The name after the first `enum` of these words, which go on in `behind`; `None` if there is none.
fn tag_of<'a>(words: &'a [Token], behind: &'a [Token]) -> Option<&'a Token>
    ensures { option_map (λ tag. tag.now) result ≡ tag_of (words.now ++ behind.now) }
{
    let mut rest = words;
    while let Some((word, others)) = rest.split_first() {
        if is_keyword(word, Keyword::Enum) {
            return first_name(others, behind);
        }
        rest = others;
    }
    tag_in(behind)
}

/// The name after the first `enum` of these words; `None` if there is none.
fn tag_in(words: &[Token]) -> Option<&Token>
    ensures { option_map (λ tag. tag.now) result ≡ tag_of words.now }
{
    let mut rest = words;
    while let Some((word, others)) = rest.split_first() {
        if is_keyword(word, Keyword::Enum) {
            return named(others.first());
        }
        rest = others;
    }
    None
}

/// The first of these words, which go on in `behind`, if it is a name.
fn first_name<'a>(words: &'a [Token], behind: &'a [Token]) -> Option<&'a Token>
    ensures { option_map (λ name. name.now) result ≡ first_name (words.now ++ behind.now) }
{
    match words.first() {
        None => named(behind.first()),
        Some(first) => named(Some(first)),
    }
}

/// A token that is a name.
fn named(token: Option<&Token>) -> Option<&Token>
    ensures { option_map (λ name. name.now) result
        ≡ first_name (option_to_list (option_map (λ t. t.now) token.entry)) }
{
    let token = token?;
    match &token.kind {
        TokenKind::Name(_) => Some(token),
        _ => None,
    }
}

/// Whether the type is `void`.
pub fn is_void(t: Option<CType>) -> bool
    ensures { result ≡ not (is_some t) }
{
    t.is_none()
}

/// The signed or the unsigned type of a width.
fn by_sign(is_unsigned: bool, signed: CType, unsigned: CType) -> CType
    ensures { result ≡ by_sign is_unsigned signed unsigned }
{
    if is_unsigned { unsigned } else { signed }
}

/// The operator before a unary expression (C90 6.3.3.3), `None` for `+`.
pub fn unary_operator(punct: Option<Punct>) -> Option<UnOp>
    ensures { result ≡ unary_operator punct }
{
    match punct {
        Some(Punct::Minus) => Some(UnOp::Neg),
        Some(Punct::Tilde) => Some(UnOp::Flip),
        Some(Punct::Exclamation) => Some(UnOp::IsZero),
        _ => None,
    }
}

/// The operator between two operands (C90 6.3.5 to 6.3.14).
pub fn binary_operator(punct: Option<Punct>) -> Operator
    ensures { result ≡ binary_operator punct }
{
    match punct {
        Some(Punct::Star) => Operator::Value(BinOp::Mul),
        Some(Punct::Slash) => Operator::Value(BinOp::Div),
        Some(Punct::Percent) => Operator::Value(BinOp::Rem),
        Some(Punct::Plus) => Operator::Value(BinOp::Add),
        Some(Punct::Minus) => Operator::Value(BinOp::Sub),
        Some(Punct::ShiftLeft) => Operator::Value(BinOp::Shl),
        Some(Punct::ShiftRight) => Operator::Value(BinOp::Shr),
        Some(Punct::Less) => Operator::Value(BinOp::Lt),
        Some(Punct::LessEqual) => Operator::Value(BinOp::Le),
        Some(Punct::Greater) => Operator::Value(BinOp::Gt),
        Some(Punct::GreaterEqual) => Operator::Value(BinOp::Ge),
        Some(Punct::Equal) => Operator::Value(BinOp::Eq),
        Some(Punct::NotEqual) => Operator::Value(BinOp::Ne),
        Some(Punct::Ampersand) => Operator::Value(BinOp::And),
        Some(Punct::Caret) => Operator::Value(BinOp::Xor),
        Some(Punct::Bar) => Operator::Value(BinOp::Or),
        Some(Punct::AndAnd) => Operator::AndAlso,
        _ => Operator::OrElse,
    }
}

/// The operator of a compound assignment or a step (C90 6.3.16.2, 6.3.2.4, 6.3.3.1), `None` for `=`.
pub fn changing_operator(punct: Option<Punct>) -> Option<BinOp>
    ensures { result ≡ changing_operator punct }
{
    match punct {
        Some(Punct::StarAssign) => Some(BinOp::Mul),
        Some(Punct::SlashAssign) => Some(BinOp::Div),
        Some(Punct::PercentAssign) => Some(BinOp::Rem),
        Some(Punct::PlusAssign | Punct::Increment) => Some(BinOp::Add),
        Some(Punct::MinusAssign | Punct::Decrement) => Some(BinOp::Sub),
        Some(Punct::ShiftLeftAssign) => Some(BinOp::Shl),
        Some(Punct::ShiftRightAssign) => Some(BinOp::Shr),
        Some(Punct::AmpersandAssign) => Some(BinOp::And),
        Some(Punct::CaretAssign) => Some(BinOp::Xor),
        Some(Punct::BarAssign) => Some(BinOp::Or),
        _ => None,
    }
}

/// The jump of this keyword (C90 6.6.6).
pub fn jump_of(keyword: &Token) -> Jump
    ensures { result ≡ jump_of keyword.now }
{
    match &keyword.kind {
        TokenKind::Keyword(Keyword::Break) => Jump::Break,
        TokenKind::Keyword(Keyword::Continue) => Jump::Continue,
        _ => Jump::Return,
    }
}
