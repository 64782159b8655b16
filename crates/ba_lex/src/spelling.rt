//! The words and punctuators of the language, by their spellings.

ghost use Rattle.std.specs.Prelude.{◌≡◌, ◌≤◌, length, IsSome};
ghost use Rattle.std.specs.Str.{bytes_eq};
ghost use Rattle.ba_lex.specs.Spelling.{keyword_of, is_refused, one_byte, two_bytes, three_bytes, in_one, in_two, in_three};

use ba_tokens::token::{Keyword, Punct};

/// Whether the bytes are those of the text.
pub(crate) fn is_spelled(word: &[u8], text: &str) -> bool
    ensures { result ≡ bytes_eq word.now text.now }
{
    word == text.as_bytes()
}

/// The keyword of this spelling, if there is one.
pub(crate) fn keyword_of(word: &[u8]) -> Option<Keyword>
    ensures { result ≡ keyword_of word.now }
{
    if is_spelled(word, "char") {
        Some(Keyword::Char)
    } else if is_spelled(word, "short") {
        Some(Keyword::Short)
    } else if is_spelled(word, "int") {
        Some(Keyword::Int)
    } else if is_spelled(word, "long") {
        Some(Keyword::Long)
    } else if is_spelled(word, "signed") {
        Some(Keyword::Signed)
    } else if is_spelled(word, "unsigned") {
        Some(Keyword::Unsigned)
    } else if is_spelled(word, "void") {
        Some(Keyword::Void)
    } else if is_spelled(word, "enum") {
        Some(Keyword::Enum)
    } else if is_spelled(word, "const") {
        Some(Keyword::Const)
    } else if is_spelled(word, "static") {
        Some(Keyword::Static)
    } else if is_spelled(word, "if") {
        Some(Keyword::If)
    } else if is_spelled(word, "else") {
        Some(Keyword::Else)
    } else if is_spelled(word, "switch") {
        Some(Keyword::Switch)
    } else if is_spelled(word, "case") {
        Some(Keyword::Case)
    } else if is_spelled(word, "default") {
        Some(Keyword::Default)
    } else if is_spelled(word, "while") {
        Some(Keyword::While)
    } else if is_spelled(word, "do") {
        Some(Keyword::Do)
    } else if is_spelled(word, "for") {
        Some(Keyword::For)
    } else if is_spelled(word, "break") {
        Some(Keyword::Break)
    } else if is_spelled(word, "continue") {
        Some(Keyword::Continue)
    } else if is_spelled(word, "return") {
        Some(Keyword::Return)
    } else if is_spelled(word, "assert") {
        Some(Keyword::Assert)
    } else if is_spelled(word, "printf") {
        Some(Keyword::Printf)
    } else {
        None
    }
}

/// Whether the word is one of C that this profile leaves out.
pub(crate) fn is_refused(word: &[u8]) -> bool
    ensures { result ≡ is_refused word.now }
{
    if is_spelled(word, "auto") {
        true
    } else if is_spelled(word, "double") {
        true
    } else if is_spelled(word, "extern") {
        true
    } else if is_spelled(word, "float") {
        true
    } else if is_spelled(word, "goto") {
        true
    } else if is_spelled(word, "register") {
        true
    } else if is_spelled(word, "sizeof") {
        true
    } else if is_spelled(word, "struct") {
        true
    } else if is_spelled(word, "typedef") {
        true
    } else if is_spelled(word, "union") {
        true
    } else if is_spelled(word, "volatile") {
        true
    } else {
        false
    }
}

/// The punctuator of this byte.
fn one_byte(first: u8) -> Option<Punct>
    ensures { result ≡ one_byte first }
{
    match first {
        b'{' => Some(Punct::OpenBrace),
        b'}' => Some(Punct::CloseBrace),
        b'(' => Some(Punct::OpenParenthesis),
        b')' => Some(Punct::CloseParenthesis),
        b'[' => Some(Punct::OpenBracket),
        b']' => Some(Punct::CloseBracket),
        b';' => Some(Punct::Semicolon),
        b',' => Some(Punct::Comma),
        b'?' => Some(Punct::Question),
        b':' => Some(Punct::Colon),
        b'~' => Some(Punct::Tilde),
        b'!' => Some(Punct::Exclamation),
        b'+' => Some(Punct::Plus),
        b'-' => Some(Punct::Minus),
        b'*' => Some(Punct::Star),
        b'/' => Some(Punct::Slash),
        b'%' => Some(Punct::Percent),
        b'&' => Some(Punct::Ampersand),
        b'|' => Some(Punct::Bar),
        b'^' => Some(Punct::Caret),
        b'=' => Some(Punct::Assign),
        b'<' => Some(Punct::Less),
        b'>' => Some(Punct::Greater),
        b'.' => Some(Punct::Dot),
        _ => None,
    }
}

/// The punctuator of these two bytes.
fn two_bytes(first: u8, second: u8) -> Option<Punct>
    ensures { result ≡ two_bytes first second }
{
    match (first, second) {
        (b'+', b'+') => Some(Punct::Increment),
        (b'-', b'-') => Some(Punct::Decrement),
        (b'<', b'<') => Some(Punct::ShiftLeft),
        (b'>', b'>') => Some(Punct::ShiftRight),
        (b'<', b'=') => Some(Punct::LessEqual),
        (b'>', b'=') => Some(Punct::GreaterEqual),
        (b'=', b'=') => Some(Punct::Equal),
        (b'!', b'=') => Some(Punct::NotEqual),
        (b'&', b'&') => Some(Punct::AndAnd),
        (b'|', b'|') => Some(Punct::OrOr),
        (b'+', b'=') => Some(Punct::PlusAssign),
        (b'-', b'=') => Some(Punct::MinusAssign),
        (b'*', b'=') => Some(Punct::StarAssign),
        (b'/', b'=') => Some(Punct::SlashAssign),
        (b'%', b'=') => Some(Punct::PercentAssign),
        (b'&', b'=') => Some(Punct::AmpersandAssign),
        (b'^', b'=') => Some(Punct::CaretAssign),
        (b'|', b'=') => Some(Punct::BarAssign),
        (b'-', b'>') => Some(Punct::Arrow),
        _ => None,
    }
}

/// The punctuator of these three bytes.
fn three_bytes(first: u8, second: u8, third: u8) -> Option<Punct>
    ensures { result ≡ three_bytes first second third }
{
    match (first, second, third) {
        (b'<', b'<', b'=') => Some(Punct::ShiftLeftAssign),
        (b'>', b'>', b'=') => Some(Punct::ShiftRightAssign),
        (b'.', b'.', b'.') => Some(Punct::Ellipsis),
        _ => None,
    }
}

/// The punctuator of one byte that the text begins with.
pub(crate) fn in_one(text: &[u8]) -> Option<Punct>
    ensures value { result ≡ in_one text.now }
    ensures within { IsSome result → 1 ≤ length text.now }
{
    match text {
        [first, ..] => one_byte(*first),
        _ => None,
    }
}

/// The punctuator of two bytes that the text begins with.
pub(crate) fn in_two(text: &[u8]) -> Option<Punct>
    ensures value { result ≡ in_two text.now }
    ensures within { IsSome result → 2 ≤ length text.now }
{
    match text {
        [first, second, ..] => two_bytes(*first, *second),
        _ => None,
    }
}

/// The punctuator of three bytes that the text begins with.
pub(crate) fn in_three(text: &[u8]) -> Option<Punct>
    ensures value { result ≡ in_three text.now }
    ensures within { IsSome result → 3 ≤ length text.now }
{
    match text {
        [first, second, third, ..] => three_bytes(*first, *second, *third),
        _ => None,
    }
}
