//! Numbers and character constants (C90 6.1.3.2, 6.1.3.4).

ghost use Rattle.std.specs.Prelude.{◌≡◌, ℕ, ◌+◌, ◌<◌, ◌≤◌, nat_le, if◌then◌else◌, Some, None, pos, length};
ghost use Rattle.std.specs.Char.{is_digit};
ghost use Rattle.std.specs.List.{list_any, list_all};
ghost use Rattle.std.specs.Str.Parse.{digits_value};
ghost use Rattle.ba_numbers.specs.Numbers.{converted};
ghost use Rattle.ba_numbers.specs.declared.numbers.CType.TheVariants.{I8};
ghost use Rattle.ba_lex.specs.Constants.{begins_with, is_hexadecimal, base_of, without_prefix, is_u, is_l, is_suffix, number_of, digit_count, number_with, number_kind, byte_code, simple_escape, escape_value, is_plain, character_value, character_kind};

use ba_bytes::classes::{digit_value, is_digit};
use ba_numbers::numbers::CType;
use ba_tokens::token::TokenKind;

/// The greatest value of an `int`.
const INT_MAX: u32 = 2147483647;

/// Whether the text begins with the byte.
pub(crate) fn begins_with(byte: u8, text: &[u8]) -> bool
    ensures { result ≡ begins_with byte text.now }
{
    match text {
        [first, ..] => *first == byte,
        _ => false,
    }
}

/// The number that the digits write, if it is at most the limit.
fn value_within(base: u8, digits: &[u8], limit: u32) -> Option<u32>
    requires { 0 < base }
    ensures { result ≡ (if nat_le (digits_value base digits.now) limit
        then Some (digits_value base digits.now) else None) }
{
    let mut value = 0u64;
    for digit in digits {
        value = value * u64::from(base) + u64::from(digit_value(*digit));
        if value > u64::from(limit) {
            return None;
        }
    }
    Some(value as u32)
}

/// Whether the number begins with `0x` or `0X`.
fn is_hexadecimal(number: &[u8]) -> bool
    ensures { result ≡ is_hexadecimal number.now }
{
    match number {
        [b'0', rest @ ..] => begins_with(b'x', rest) || begins_with(b'X', rest),
        _ => false,
    }
}

/// The base of a number: 16 after `0x`, 8 after another `0`, else 10.
fn base_of(number: &[u8]) -> u8
    ensures value { result ≡ base_of number.now }
    ensures positive { 0 < result }
{
    if is_hexadecimal(number) {
        16
    } else if begins_with(b'0', number) {
        8
    } else {
        10
    }
}

/// The number without `0x`.
fn without_prefix(number: &[u8]) -> &[u8]
    ensures { result.now ≡ without_prefix number.now }
{
    match number {
        [_, _, rest @ ..] if is_hexadecimal(number) => rest,
        _ => number,
    }
}

/// Whether the byte is `u` or `U`.
fn is_u(byte: u8) -> bool
    ensures { result ≡ is_u byte }
{
    byte == b'u' || byte == b'U'
}

/// Whether the byte is `l` or `L`.
fn is_l(byte: u8) -> bool
    ensures { result ≡ is_l byte }
{
    byte == b'l' || byte == b'L'
}

/// Whether the text is a suffix of integer constants: at most one `u` and one `l`.
fn is_suffix(text: &[u8]) -> bool
    ensures { result ≡ is_suffix text.now }
{
    match text {
        [] => true,
        [only] => is_u(*only) || is_l(*only),
        [first, second] => { (is_u(*first) && is_l(*second)) || (is_l(*first) && is_u(*second)) }
        _ => false,
    }
}

/// Whether the suffix has a `u`.
fn has_u(suffix: &[u8]) -> bool
    ensures { result ≡ list_any is_u suffix.now }
{
    suffix.iter().any(|byte| is_u(*byte))
}

/// The constant of these digits and this suffix, if there is a digit, the suffix is one, and the value fits
/// 32 bits.
fn number_of(base: u8, digits: &[u8], suffix: &[u8]) -> Option<TokenKind>
    requires { 0 < base }
    ensures { result ≡ number_of base digits.now suffix.now }
{
    if digits.is_empty() || !is_suffix(suffix) {
        return None;
    }
    let value = value_within(base, digits, u32::MAX)?;
    let t = if has_u(suffix) || value > INT_MAX {
        CType::U32
    } else {
        CType::I32
    };
    Some(TokenKind::Constant {
        t,
        value: i64::from(value),
    })
}

/// How many digits of the base the text begins with.
fn digit_count(base: u8, text: &[u8]) -> usize
    ensures count { result ≡ digit_count base text.now }
    ensures within { result ≤ length text.now }
{
    text.iter()
        .take_while(|byte| is_digit(**byte, base))
        .count()
}

/// The constant that a number without prefix spells in this base, if it is one.
fn number_with(base: u8, text: &[u8]) -> Option<TokenKind>
    requires { 0 < base }
    ensures { result ≡ number_with base text.now }
{
    let (digits, suffix) = text.split_at(digit_count(base, text));
    number_of(base, digits, suffix)
}

/// The constant that a number spells, if it keeps its form and its value fits 32 bits.
#[tactic(auto, unfolding(crate::specs::Constants::number_kind))]
pub(crate) fn number_kind(number: &[u8]) -> Option<TokenKind>
    ensures { result ≡ number_kind number.now }
{
    number_with(base_of(number), without_prefix(number))
}

/// Whether all bytes are digits of the base.
fn are_digits(base: u8, text: &[u8]) -> bool
    ensures { result ≡ list_all (λ b. is_digit b base) text.now }
{
    text.iter().all(|byte| is_digit(*byte, base))
}

/// The value of one digit or more, all of the base, if it is at most 255.
fn byte_code(base: u8, digits: &[u8]) -> Option<u8>
    requires { 0 < base }
    ensures { result ≡ byte_code base digits.now }
{
    if digits.is_empty() || !are_digits(base, digits) {
        return None;
    }
    let value = value_within(base, digits, 255)?;
    Some(value as u8)
}

/// The value of an escape of one letter or mark (C90 6.1.3.4).
fn simple_escape(byte: u8) -> Option<u8>
    ensures { result ≡ simple_escape byte }
{
    match byte {
        b'n' => Some(10),
        b't' => Some(9),
        b'r' => Some(13),
        b'a' => Some(7),
        b'b' => Some(8),
        b'f' => Some(12),
        b'v' => Some(11),
        b'\\' => Some(92),
        b'\'' => Some(39),
        b'"' => Some(34),
        b'?' => Some(63),
        _ => None,
    }
}

/// The value of what follows a backslash: `x` and hexadecimal digits, up to three octal digits, or a simple
/// escape.
fn escape_value(text: &[u8]) -> Option<u8>
    ensures { result ≡ escape_value text.now }
{
    match text {
        [] => None,
        [b'x', digits @ ..] => byte_code(16, digits),
        [first, rest @ ..] => {
            if !is_digit(*first, 8) {
                if rest.is_empty() {
                    simple_escape(*first)
                } else {
                    None
                }
            } else if rest.len() <= 2 {
                byte_code(8, text)
            } else {
                None
            }
        }
    }
}

/// Whether the byte is a printing one of ASCII, and neither a quote nor a backslash.
fn is_plain(byte: u8) -> bool
    ensures { result ≡ is_plain byte }
{
    32 <= byte && byte <= 126 && byte != b'\'' && byte != b'\\'
}

/// The value of what is between the quotes of a character constant, if it is one byte or escape.
fn character_value(text: &[u8]) -> Option<u8>
    ensures { result ≡ character_value text.now }
{
    match text {
        [b'\\', rest @ ..] => escape_value(rest),
        [only] if is_plain(*only) => Some(*only),
        _ => None,
    }
}

/// The value of the byte as a `signed char`.
fn signed_char(byte: u8) -> i64
    ensures { result ≡ converted I8 (pos byte) }
{
    let value = i64::from(byte);
    if byte < 128 { value } else { value - 256 }
}

/// The constant that a character constant spells, by the bytes between its quotes.
#[tactic(auto, unfolding(crate::specs::Constants::character_kind))]
pub(crate) fn character_kind(text: &[u8]) -> Option<TokenKind>
    ensures { result ≡ character_kind text.now }
{
    let byte = character_value(text)?;
    Some(TokenKind::Constant {
        t: CType::I32,
        value: signed_char(byte),
    })
}
