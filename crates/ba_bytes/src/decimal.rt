//! Decimal numbers.

ghost use Rattle.std.specs.Prelude.{◌≡◌, ◌^◌, ◌-◌, pos, neg_ℤ, min, option_map};
ghost use Rattle.std.specs.Char.{is_digit};
ghost use Rattle.std.specs.List.{list_all};
ghost use Rattle.std.specs.Str.Parse.{digits_value};
ghost use Rattle.ba_bytes.specs.Decimal.{are_digits, natural_of, decimal_of, nearest};

use crate::classes::{digit_value, is_digit};

/// Whether each byte is a decimal digit.
fn all_digits(bytes: &[u8]) -> bool
    ensures { result ≡ list_all (λ b. is_digit b 10) bytes.now }
{
    bytes.iter().all(|byte| is_digit(*byte, 10))
}

/// Whether the piece is one or more decimal digits.
pub fn are_digits(piece: &[u8]) -> bool
    ensures { result ≡ are_digits piece.now }
{
    !piece.is_empty() && all_digits(piece)
}

/// The number that decimal digits write, or 2^64 - 1 if that is smaller.
fn digits_value(digits: &[u8]) -> u64
    ensures { result ≡ min (digits_value 10 digits.now) (2 ^ 64 - 1) }
{
    let mut value = 0u64;
    for digit in digits {
        value = value
            .saturating_mul(10)
            .saturating_add(u64::from(digit_value(*digit)));
    }
    value
}

/// The number that one or more decimal digits write, or 2^64 - 1 if that is smaller. Any other piece gives
/// `None`.
pub fn natural(piece: &[u8]) -> Option<u64>
    ensures { result ≡ option_map (λ n. min n (2 ^ 64 - 1)) (natural_of piece.now) }
{
    if are_digits(piece) {
        Some(digits_value(piece))
    } else {
        None
    }
}

/// The number of type `i64` nearest to this one.
fn positive(number: u64) -> i64
    ensures { result ≡ nearest (pos number) }
{
    i64::try_from(number).unwrap_or(i64::MAX)
}

/// The number of type `i64` nearest to minus this one.
fn negative(number: u64) -> i64
    ensures { result ≡ nearest (neg_ℤ (pos number)) }
{
    if number < 0x8000_0000_0000_0000 {
        -(number as i64)
    } else {
        i64::MIN
    }
}

/// The number that one or more decimal digits write, with or without a minus sign before them. A number
/// outside -2^63 to 2^63 - 1 gives the nearest one inside. Any other piece gives `None`.
pub fn decimal(piece: &[u8]) -> Option<i64>
    ensures { result ≡ option_map nearest (decimal_of piece.now) }
{
    match piece.split_first() {
        Some((b'-', digits)) => natural(digits).map(negative),
        _ => natural(piece).map(positive),
    }
}
