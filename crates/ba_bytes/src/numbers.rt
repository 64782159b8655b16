//! Decimal numbers within a range.

ghost use Rattle.std.specs.Prelude.{◌≡◌, ◌≤◌, IfSome};
ghost use Rattle.ba_bytes.specs.Numbers.{number_in};

use crate::decimal::natural;

/// The number that a text of one to `digits` decimal digits writes, if it is from `least` to `most`. Any
/// other text gives `None`.
pub fn number_in(text: &[u8], digits: usize, least: u32, most: u32) -> Option<u32>
    ensures value { result ≡ number_in digits least most text.now }
    ensures within { IfSome result (λ number. number ≤ most) }
{
    if text.len() > digits {
        return None;
    }
    let number = natural(text)?;
    if u64::from(least) <= number && number <= u64::from(most) {
        Some(number as u32)
    } else {
        None
    }
}
