//! Signed divisions by constant powers of 2 and their negations, as shifts.

ghost use Rattle.std.specs.Prelude.{◌≡◌, ℕ, ◌+◌, ◌/◌, ◌<◌, ◌≤◌, ◌^◌, Bool, true, false, List, length, IfOk, IfSome, OnSome};
ghost use Rattle.ba_nodes.specs.declared.Bit.{Bit};
ghost use Rattle.ba_nodes.specs.declared.Node.{Node};
ghost use Rattle.ba_nodes.specs.Gates.{truth, IsBitOf, MakesBit};
ghost use Rattle.ba_words.specs.Words.{number_of, AreBitsOf, MakesWord};
ghost use Rattle.ba_muldiv.specs.Division.{signed_power, quotient_of, remainder_of, has_negative_remainder, shifted_sum};

use crate::constants::constant_of;
use ba_nodes::{Bit, Nodes};
use ba_words::{Word, add_with_carry, extended, flip, nonzero};
use std::alloc::AllocError;

/// A power of 2, or its negation, in the range of a signed word of 32 bits.
#[derive(Clone, Copy)]
pub(crate) struct SignedPower {
    exponent: usize,
    negative: bool,
    ghost few: { exponent < 32 },
    ghost in_range: { negative ≡ false → exponent < 31 },
}

/// The power of 2, or its negation, if the word is constant and such a number.
pub(crate) fn constant_power(word: &Word, signed: bool) -> Option<SignedPower>
    ensures signed { OnSome result (signed ≡ true) }
    ensures number { IfSome result (λ power. (nodes : List Node) (free : ℕ → Bool) →
        number_of free nodes word.now ≡ signed_power power.negative power.exponent) }
{
    if !signed {
        return None;
    }
    power_of(constant_of(word)?)
}

/// The power of 2, or its negation, if a number of 32 bits is one, read as signed.
fn power_of(number: u32) -> Option<SignedPower>
    ensures { IfSome result (λ power. number ≡ signed_power power.negative power.exponent) }
{
    let negative = number >= 0x8000_0000;
    let magnitude = if negative {
        number.wrapping_neg()
    } else {
        number
    };
    let exponent = exponent_of(magnitude)?;
    Some(SignedPower { exponent, negative })
}

/// The exponent of a power of two.
fn exponent_of(number: u32) -> Option<usize>
    ensures few { IfSome result (λ exponent. exponent < 32) }
    ensures power { IfSome result (λ exponent. number ≡ 2 ^ exponent) }
{
    let exponent = number.trailing_zeros();
    if exponent < 32 && number == 1 << exponent {
        Some(exponent as usize)
    } else {
        None
    }
}

/// The quotient of a signed word by a power of 2 or its negation. It is rounded down, and one more if the
/// remainder is negative. For a negated power the complement of the word is shifted, and 1 is added unless
/// the remainder is negative.
pub(crate) fn quotient_by_power(
    nodes: &mut Nodes,
    a: &Word,
    power: SignedPower,
) -> Result<Word, AllocError>
    requires { AreBitsOf nodes.old a.now }
    ensures { MakesWord nodes.old nodes.new result 321
        (λ free. quotient_of true (number_of free nodes.old a.now)
        (signed_power power.negative power.exponent)) }
{
    let below = has_negative_remainder(nodes, a, power.exponent)?;
    if power.negative {
        shifted_sum(nodes, &flip(a), power.exponent, Nodes::not(below))
    } else {
        shifted_sum(nodes, a, power.exponent, below)
    }
}

/// The remainder of a signed word by a power of 2 or its negation. It is the low bits of the word, with ones
/// above if it is negative.
pub(crate) fn remainder_by_power(
    nodes: &mut Nodes,
    a: &Word,
    power: SignedPower,
) -> Result<Word, AllocError>
    requires { AreBitsOf nodes.old a.now }
    ensures { MakesWord nodes.old nodes.new result 32
        (λ free. remainder_of true (number_of free nodes.old a.now)
        (signed_power power.negative power.exponent)) }
{
    let below = has_negative_remainder(nodes, a, power.exponent)?;
    Ok(extended(a, power.exponent, below))
}

/// Whether the remainder of a signed word by a power of 2 is negative: the word is, and one of its low bits
/// is true.
fn has_negative_remainder(nodes: &mut Nodes, a: &Word, exponent: usize) -> Result<Bit, AllocError>
    requires few { exponent < 32 }
    requires bits { AreBitsOf nodes.old a.now }
    ensures { MakesBit nodes.old nodes.new result 32
        (λ free. has_negative_remainder (number_of free nodes.old a.now) exponent) }
{
    let low = extended(a, exponent, Nodes::constant(false));
    let some = nonzero(nodes, &low)?;
    nodes.and(a[31], some)
}

/// The word shifted down by `by` bits, with its sign, and the bit added.
fn shifted_sum(nodes: &mut Nodes, a: &Word, by: usize, bit: Bit) -> Result<Word, AllocError>
    requires few { by < 32 }
    requires first { AreBitsOf nodes.old a.now }
    requires second { IsBitOf nodes.old bit }
    ensures { MakesWord nodes.old nodes.new result 289
        (λ free. shifted_sum (number_of free nodes.old a.now) by (truth free nodes.old bit)) }
{
    let zero = [Nodes::constant(false); 32];
    let (sum, _) = add_with_carry(nodes, &upper_bits(a, by), &zero, bit)?;
    let sign = nodes.and(a[31], sum[31 - by])?;
    Ok(extended(&sum, 32 - by, sign))
}

/// The bits of the word from this index on, with zeros above them.
fn upper_bits(word: &Word, from: usize) -> Word
    requires { from ≤ 32 }
    ensures bits { (nodes : List Node) → AreBitsOf nodes word.now → AreBitsOf nodes result }
    ensures number { (nodes : List Node) (free : ℕ → Bool) →
        number_of free nodes result ≡ number_of free nodes word.now / 2 ^ from }
    ensures long { length result ≡ 32 }
{
    let mut upper = [Nodes::constant(false); 32];
    for i in from..32 {
        upper[i - from] = word[i];
    }
    upper
}
