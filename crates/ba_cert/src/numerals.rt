//! Numbers, literals and values as parts of a line.

ghost use Rattle.std.specs.Prelude.{◌≡◌, ◌^◌, ◌<◌, ◌≤◌, option_map, IfSome};
ghost use Rattle.ba_cert.specs.Text.{sign_text};
ghost use Rattle.ba_cert.specs.Reading.{after_minus, counted_of, group_of, if_below, leads_with_zero, literal_of, number_of, small_of, value_of};

use ba_bytes::decimal::natural;
use ba_lits::Lit;

/// The limit on numbers in a line, 2^62: all are below it.
const LIMIT: u64 = 0x4000_0000_0000_0000;

/// Whether the part is longer than one byte and begins with the digit 0.
fn leads_with_zero(part: &[u8]) -> bool
    ensures { result ≡ leads_with_zero part.now }
{
    match part {
        [first, _, ..] => *first == b'0',
        _ => false,
    }
}

/// The number below 2^62 that the part writes in decimal digits, without leading zeros.
#[tactic(auto, unfolding(crate::specs::Reading::number_of))]
pub(crate) fn number_of(part: &[u8]) -> Option<u64>
    ensures value { result ≡ number_of part.now }
    ensures below { IfSome result (λ number. number < 2 ^ 62) }
{
    if leads_with_zero(part) {
        return None;
    }
    let number = natural(part)?;
    if number < LIMIT { Some(number) } else { None }
}

/// The same for numbers from 1 on: a variable, or the number of a clause.
#[tactic(auto, unfolding(crate::specs::Reading::counted_of))]
pub(crate) fn counted_of(part: &[u8]) -> Option<u64>
    ensures value { result ≡ counted_of part.now }
    ensures counted { IfSome result (λ number. 1 ≤ number) }
    ensures below { IfSome result (λ number. number < 2 ^ 62) }
{
    let number = number_of(part)?;
    if number == 0 {
        return None;
    }
    Some(number)
}

/// The number, if it has 32 bits.
fn if_below_32(number: u64) -> Option<u32>
    ensures { result ≡ if_below (2 ^ 32) number }
{
    if number < 0x1_0000_0000 {
        Some(number as u32)
    } else {
        None
    }
}

/// A number of 32 bits.
#[tactic(auto, unfolding(crate::specs::Reading::small_of))]
pub(crate) fn small_of(part: &[u8]) -> Option<u32>
    ensures { result ≡ small_of part.now }
{
    if_below_32(number_of(part)?)
}

/// The number of a group, from 1 to 2^32 - 1.
#[tactic(auto, unfolding(crate::specs::Reading::group_of))]
pub(crate) fn group_of(part: &[u8]) -> Option<u32>
    ensures { result ≡ group_of part.now }
{
    if_below_32(counted_of(part)?)
}

/// What follows a minus sign, if the part begins with one.
fn after_minus(part: &[u8]) -> Option<&[u8]>
    ensures { option_map (λ rest. rest.now) result ≡ after_minus part.now }
{
    match part.split_first() {
        Some((b'-', rest)) => Some(rest),
        _ => None,
    }
}

/// A literal: its variable, with a minus sign before it if it is negated.
#[tactic(auto, unfolding(crate::specs::Reading::literal_of))]
pub(crate) fn literal_of(part: &[u8]) -> Option<Lit>
    ensures { result ≡ literal_of part.now }
{
    match after_minus(part) {
        Some(digits) => Some(Lit::positive(counted_of(digits)?).negated()),
        None => Some(Lit::positive(counted_of(part)?)),
    }
}

/// A value of a choice: a number, with a minus sign before it if it is negative.
#[tactic(auto, unfolding(crate::specs::Reading::value_of))]
pub(crate) fn value_of(part: &[u8]) -> Option<i64>
    ensures { result ≡ value_of part.now }
{
    match after_minus(part) {
        Some(digits) => Some(-(counted_of(digits)? as i64)),
        None => Some(number_of(part)? as i64),
    }
}

/// The sign before a variable.
pub(crate) fn sign_text(negated: bool) -> &'static [u8]
    ensures { result.now ≡ sign_text negated }
{
    if negated { b"-" } else { b"" }
}
