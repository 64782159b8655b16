//! Products, by shifted sums.

ghost use Rattle.std.specs.Prelude.{◌≡◌, ℕ, ◌+◌, ◌-◌, ◌*◌, ◌/◌, ◌%◌, ◌<◌, ◌≤◌, ◌^◌, ◌==◌, Bool, true, false, not, nat_lt, nat_le, ◌&&◌, ◌||◌, List, length, IfOk, if◌then◌else◌};
ghost use Rattle.ba_numbers.specs.declared.numbers.BinOp.{BinOp};
ghost use Rattle.ba_nodes.specs.declared.Bit.{Bit};
ghost use Rattle.ba_nodes.specs.declared.Node.{Node};
ghost use Rattle.ba_nodes.specs.Gates.{bool_xor, truth, IsBitOf, Grows, MakesBit};
ghost use Rattle.ba_words.specs.Words.{digit, number_of, AreBitsOf, AreWords, HasNumber, MakesWord, Computes, IsCircuit};
ghost use Rattle.ba_muldiv.specs.Division.{multiple_of, sum_or_difference};

use crate::constants::{constant_of, known_bits};
use crate::division::negated_where;
use ba_nodes::{Bit, Nodes};
use ba_words::{Word, add_moved_up, flip, moved_up};
use std::alloc::AllocError;

/// The product of two words modulo 2^32 (C90 6.3.5), by at most 5,000 gates. If neither sign is known it is
/// made of the magnitudes, so that small numbers take few bits whatever their signs are.
pub fn mul(nodes: &mut Nodes, a: &Word, b: &Word) -> Result<Word, AllocError>
    requires { AreWords nodes.old a.now b.now }
    ensures { IsCircuit BinOp.Mul nodes.old a.now b.now nodes.new result 5000
        (λ m n. (m * n) % 2 ^ 32) }
{
    any_product(nodes, a, b)
}

/// The product of two words, by their magnitudes if neither sign is known.
fn any_product(nodes: &mut Nodes, a: &Word, b: &Word) -> Result<Word, AllocError>
    requires { AreWords nodes.old a.now b.now }
    ensures { Computes nodes.old a.now b.now nodes.new result 5000 (λ m n. (m * n) % 2 ^ 32) }
{
    if a[31].index != 0 && b[31].index != 0 {
        product_by_magnitudes(nodes, a, b)
    } else {
        plain_product(nodes, a, b)
    }
}

/// The product of two words, by their magnitudes.
fn product_by_magnitudes(nodes: &mut Nodes, a: &Word, b: &Word) -> Result<Word, AllocError>
    requires { AreWords nodes.old a.now b.now }
    ensures { Computes nodes.old a.now b.now nodes.new result 5000 (λ m n. (m * n) % 2 ^ 32) }
{
    let first = negated_where(nodes, a[31], a)?;
    let second = negated_where(nodes, b[31], b)?;
    let product = free_product(nodes, &first, &second)?;
    let negative = nodes.xor(a[31], b[31])?;
    negated_where(nodes, negative, &product)
}

/// The product of two words without a look at signs; by the digits of a constant one, if there is one.
fn plain_product(nodes: &mut Nodes, a: &Word, b: &Word) -> Result<Word, AllocError>
    requires { AreWords nodes.old a.now b.now }
    ensures { Computes nodes.old a.now b.now nodes.new result 4752 (λ m n. (m * n) % 2 ^ 32) }
{
    if let Some(value) = constant_of(b) {
        return constant_product(nodes, a, value);
    }
    match constant_of(a) {
        Some(value) => constant_product(nodes, b, value),
        None => free_product(nodes, a, b),
    }
}

/// The product of two words. The digits of the word with more known bits tell which multiples of the other
/// are summed.
fn free_product(nodes: &mut Nodes, a: &Word, b: &Word) -> Result<Word, AllocError>
    requires { AreWords nodes.old a.now b.now }
    ensures { Computes nodes.old a.now b.now nodes.new result 4135 (λ m n. (m * n) % 2 ^ 32) }
{
    if known_bits(a) > known_bits(b) {
        sum_of_multiples(nodes, b, a)
    } else {
        sum_of_multiples(nodes, a, b)
    }
}

/// The product of a word and a factor, by the factor's digits to base 4, from the highest down.
fn sum_of_multiples(nodes: &mut Nodes, a: &Word, factor: &Word) -> Result<Word, AllocError>
    requires { AreWords nodes.old a.now factor.now }
    ensures { Computes nodes.old a.now factor.now nodes.new result 4135 (λ m n. (m * n) % 2 ^ 32) }
{
    let no = Nodes::constant(false);
    let thrice = add_moved_up(nodes, a, a, no, 1)?;
    let mut sum = [no; 32];
    for i in 0..16 {
        let place = 30 - 2 * i;
        let (low, high) = (factor[place], factor[place + 1]);
        let more = multiple(nodes, a, &thrice, low, high, 32 - place)?;
        sum = add_moved_up(nodes, &sum, &more, no, place)?;
    }
    Ok(sum)
}

/// The low bits of a multiple of a word, by 0, 1, 2 or 3 as two binary digits say.
fn multiple(
    nodes: &mut Nodes,
    a: &Word,
    thrice: &Word,
    low: Bit,
    high: Bit,
    width: usize,
) -> Result<Word, AllocError>
    requires few { width ≤ 32 }
    requires words { AreWords nodes.old a.now thrice.now }
    requires third { IsBitOf nodes.old low }
    requires fourth { IsBitOf nodes.old high }
    requires thrice { (free : ℕ → Bool) → number_of free nodes.old thrice.now
        ≡ (3 * number_of free nodes.old a.now) % 2 ^ 32 }
    ensures { MakesWord nodes.old nodes.new result (5 * width + 3)
        (λ free. multiple_of (truth free nodes.old high) (truth free nodes.old low)
        (number_of free nodes.old a.now) % 2 ^ width) }
{
    let twice = moved_up(a, 1);
    let one = nodes.and(low, Nodes::not(high))?;
    let two = nodes.and(high, Nodes::not(low))?;
    let three = nodes.and(high, low)?;
    let mut word = [Nodes::constant(false); 32];
    for place in 0..width {
        let (x, y, z) = (a[place], twice[place], thrice[place]);
        word[place] = some_pair(nodes, (one, x), (two, y), (three, z))?;
    }
    Ok(word)
}

/// Whether both bits of one of three pairs are true.
fn some_pair(
    nodes: &mut Nodes,
    first: (Bit, Bit),
    second: (Bit, Bit),
    third: (Bit, Bit),
) -> Result<Bit, AllocError>
    requires first { IsBitOf nodes.old first.0 × IsBitOf nodes.old first.1 }
    requires second { IsBitOf nodes.old second.0 × IsBitOf nodes.old second.1 }
    requires third { IsBitOf nodes.old third.0 × IsBitOf nodes.old third.1 }
    ensures { MakesBit nodes.old nodes.new result 5
        (λ free. ((truth free nodes.old first.0 && truth free nodes.old first.1)
        || (truth free nodes.old second.0 && truth free nodes.old second.1))
        || (truth free nodes.old third.0 && truth free nodes.old third.1)) }
{
    let x = nodes.and(first.0, first.1)?;
    let y = nodes.and(second.0, second.1)?;
    let z = nodes.and(third.0, third.1)?;
    let either = nodes.or(x, y)?;
    nodes.or(either, z)
}

/// The product of a word and a constant, by as few sums and differences as its digits allow.
fn constant_product(nodes: &mut Nodes, a: &Word, factor: u32) -> Result<Word, AllocError>
    requires { AreBitsOf nodes.old a.now }
    ensures { MakesWord nodes.old nodes.new result 4752
        (λ free. (number_of free nodes.old a.now * factor) % 2 ^ 32) }
{
    let minus = taken_digits(factor);
    sum_of_rows(nodes, a, factor.wrapping_add(minus), minus)
}

/// The word times the difference of two numbers, by their digits, from the highest down.
fn sum_of_rows(nodes: &mut Nodes, a: &Word, plus: u32, minus: u32) -> Result<Word, AllocError>
    requires { AreBitsOf nodes.old a.now }
    ensures number { IfOk result (λ word. (factor : ℕ) → plus ≡ (factor + minus) % 2 ^ 32 →
        HasNumber nodes.new word (λ free. (number_of free nodes.old a.now * factor) % 2 ^ 32)) }
    ensures grows { Grows nodes.old nodes.new 4752 }
{
    let mut sum = [Nodes::constant(false); 32];
    for i in 0..32 {
        let place = 31 - i;
        sum = row(
            nodes,
            &sum,
            a,
            place,
            has_one(plus, place),
            has_one(minus, place),
        )?;
    }
    Ok(sum)
}

/// The sum plus the shifted word, if the digit to add is one, or minus it, if the digit to subtract is.
fn row(
    nodes: &mut Nodes,
    sum: &Word,
    a: &Word,
    place: usize,
    plus: bool,
    minus: bool,
) -> Result<Word, AllocError>
    requires small { place < 32 }
    requires words { AreWords nodes.old sum.now a.now }
    ensures { MakesWord nodes.old nodes.new result (9 * (32 - place))
        (λ free. sum_or_difference minus (number_of free nodes.old sum.now) (if bool_xor minus plus
        then (number_of free nodes.old a.now * 2 ^ place) % 2 ^ 32 else 0)) }
{
    if plus == minus {
        return Ok(*sum);
    }
    if minus {
        add_moved_up(nodes, sum, &flip(a), Nodes::constant(true), place)
    } else {
        add_moved_up(nodes, sum, a, Nodes::constant(false), place)
    }
}

/// Whether the number has a one at this index.
fn has_one(number: u32, place: usize) -> bool
    requires { place < 32 }
    ensures { digit result ≡ number / 2 ^ place % 2 }
{
    (number >> place) % 2 == 1
}

/// The digits to subtract, so that few are left. A constant c is c + c / 2 minus c / 2, and where both have
/// the same digit nothing is summed (G. W. Reitwiesner, "Binary arithmetic"). None are subtracted for a
/// number with as few ones of its own.
fn taken_digits(factor: u32) -> u32 {
    let half = factor >> 1;
    let signed = factor.wrapping_add(half) ^ half;
    if signed.count_ones() < factor.count_ones() {
        half
    } else {
        0
    }
}
