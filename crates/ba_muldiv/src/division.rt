//! Quotients and remainders, by restoring division.

ghost use Rattle.std.specs.Prelude.{◌≡◌, ℕ, ◌+◌, ◌-◌, ◌*◌, ◌/◌, ◌%◌, ◌<◌, ◌≤◌, ◌^◌, ◌==◌, ◌⊎◌, Bool, true, false, not, nat_lt, nat_le, ◌&&◌, List, length, IfOk, if◌then◌else◌};
ghost use Rattle.std.specs.Bool.{OnTrue};
ghost use Rattle.ba_numbers.specs.declared.numbers.BinOp.{BinOp};
ghost use Rattle.ba_nodes.specs.declared.Bit.{Bit};
ghost use Rattle.ba_nodes.specs.declared.Node.{Node};
ghost use Rattle.ba_nodes.specs.Gates.{truth, IsBitOf, HasValue, Grows, MakesBit};
ghost use Rattle.ba_words.specs.Words.{digit, number_of, bit_at, AreBitsOf, AreWords, HasNumber, MakesWord, Computes};
ghost use Rattle.ba_muldiv.specs.Division.{negated_where, long_quotient, quotient_of, remainder_of, IsValueWhereDefined, IsBounded, AreOnesFrom, high_number};

use crate::powers::{constant_power, quotient_by_power, remainder_by_power};
use ba_nodes::{Bit, Nodes};
use ba_words::{Word, add_with_carry, extended, flip, less, moved_up, select, sign_of};
use std::alloc::AllocError;

/// The quotient of two words, rounded towards zero (C90 6.3.5), by at most 14,500 gates. For a divisor of 0
/// its magnitude is 2^32 - 1, and its sign the product of the signs.
pub fn div(nodes: &mut Nodes, a: &Word, b: &Word, signed: bool) -> Result<Word, AllocError>
    requires { AreWords nodes.old a.now b.now }
    ensures makes { Computes nodes.old a.now b.now nodes.new result 14500 (quotient_of signed) }
    ensures value { IfOk result (λ word.
        IsValueWhereDefined BinOp.Div signed nodes.old a.now b.now nodes.new word) }
{
    match constant_power(b, signed) {
        Some(power) => quotient_by_power(nodes, a, power),
        None => quotient_by_magnitudes(nodes, a, b, signed),
    }
}

/// The quotient of two words, by their magnitudes.
fn quotient_by_magnitudes(
    nodes: &mut Nodes,
    a: &Word,
    b: &Word,
    signed: bool,
) -> Result<Word, AllocError>
    requires { AreWords nodes.old a.now b.now }
    ensures { Computes nodes.old a.now b.now nodes.new result 14500 (quotient_of signed) }
{
    let a_sign = sign_of(a, signed);
    let b_sign = sign_of(b, signed);
    let dividend = negated_where(nodes, a_sign, a)?;
    let divisor = negated_where(nodes, b_sign, b)?;
    let quotient = long_quotient(nodes, &dividend, &divisor)?;
    let negative = nodes.xor(a_sign, b_sign)?;
    negated_where(nodes, negative, &quotient)
}

/// The remainder of two words, with the sign of the first (C90 6.3.5), by at most 14,500 gates. For a divisor
/// of 0 it is the dividend.
pub fn rem(nodes: &mut Nodes, a: &Word, b: &Word, signed: bool) -> Result<Word, AllocError>
    requires { AreWords nodes.old a.now b.now }
    ensures makes { Computes nodes.old a.now b.now nodes.new result 14500 (remainder_of signed) }
    ensures value { IfOk result (λ word.
        IsValueWhereDefined BinOp.Rem signed nodes.old a.now b.now nodes.new word) }
{
    match constant_power(b, signed) {
        Some(power) => remainder_by_power(nodes, a, power),
        None => remainder_by_magnitudes(nodes, a, b, signed),
    }
}

/// The remainder of two words, by their magnitudes.
fn remainder_by_magnitudes(
    nodes: &mut Nodes,
    a: &Word,
    b: &Word,
    signed: bool,
) -> Result<Word, AllocError>
    requires { AreWords nodes.old a.now b.now }
    ensures { Computes nodes.old a.now b.now nodes.new result 14500 (remainder_of signed) }
{
    let sign = sign_of(a, signed);
    let other_sign = sign_of(b, signed);
    let dividend = negated_where(nodes, sign, a)?;
    let divisor = negated_where(nodes, other_sign, b)?;
    let rest = long_remainder(nodes, &dividend, &divisor)?;
    negated_where(nodes, sign, &rest)
}

/// The word, negated if the bit is true: then the bits above its lowest one are inverted.
pub(crate) fn negated_where(nodes: &mut Nodes, negative: Bit, a: &Word) -> Result<Word, AllocError>
    requires first { IsBitOf nodes.old negative }
    requires second { AreBitsOf nodes.old a.now }
    ensures { MakesWord nodes.old nodes.new result 189
        (λ free. negated_where (truth free nodes.old negative) (number_of free nodes.old a.now)) }
{
    let mut word = *a;
    let mut turned = Nodes::constant(false);
    for place in 0..31 {
        word[place] = nodes.xor(a[place], turned)?;
        turned = nodes.mux(a[place], negative, turned)?;
    }
    word[31] = nodes.xor(a[31], turned)?;
    Ok(word)
}

/// The quotient of two unsigned words.
fn long_quotient(nodes: &mut Nodes, dividend: &Word, divisor: &Word) -> Result<Word, AllocError>
    requires { AreWords nodes.old dividend.now divisor.now }
    ensures { Computes nodes.old dividend.now divisor.now nodes.new result (32 + 421 * 32)
        (long_quotient 32) }
{
    let above = ones_from(nodes, divisor)?;
    quotient_by_steps(nodes, dividend, divisor, &above)
}

/// The quotient of two unsigned words. `above` tells for each index whether the divisor has a one there or
/// above it.
fn quotient_by_steps(
    nodes: &mut Nodes,
    dividend: &Word,
    divisor: &Word,
    above: &Word,
) -> Result<Word, AllocError>
    requires words { AreWords nodes.old dividend.now divisor.now }
    requires above { AreOnesFrom nodes.old divisor.now above.now }
    ensures { Computes nodes.old dividend.now divisor.now nodes.new result (421 * 32)
        (long_quotient 32) }
{
    let (quotient, rest, bounds) = upper_steps(nodes, dividend, divisor, above)?;
    let last = brought_down(&rest, dividend[0]);
    let last_bounds = next_bounds(nodes, &bounds, dividend[0])?;
    let exceeds = less(nodes, &last, divisor, false)?;
    let fits = fits_into_nonzero(nodes, Nodes::not(exceeds), last_bounds[0], above[0])?;
    Ok(brought_down(&quotient, fits))
}

/// The remainder of two unsigned words.
fn long_remainder(nodes: &mut Nodes, dividend: &Word, divisor: &Word) -> Result<Word, AllocError>
    requires { AreWords nodes.old dividend.now divisor.now }
    ensures { Computes nodes.old dividend.now divisor.now nodes.new result (32 + 421 * 32)
        (λ m n. m % n) }
{
    let above = ones_from(nodes, divisor)?;
    remainder_by_steps(nodes, dividend, divisor, &above)
}

/// The remainder of two unsigned words. `above` tells for each index whether the divisor has a one there or
/// above it.
fn remainder_by_steps(
    nodes: &mut Nodes,
    dividend: &Word,
    divisor: &Word,
    above: &Word,
) -> Result<Word, AllocError>
    requires words { AreWords nodes.old dividend.now divisor.now }
    requires above { AreOnesFrom nodes.old divisor.now above.now }
    ensures { Computes nodes.old dividend.now divisor.now nodes.new result (421 * 32)
        (λ m n. m % n) }
{
    let (_, rest, bounds) = upper_steps(nodes, dividend, divisor, above)?;
    let last = brought_down(&rest, dividend[0]);
    let last_bounds = next_bounds(nodes, &bounds, dividend[0])?;
    let known = known_width(divisor);
    let (_, left) = bounded_step(nodes, &last, &last_bounds, divisor, above, known)?;
    Ok(left)
}

/// The quotient and the remainder of all bits of the dividend but the lowest, and bounds of the remainder. A
/// bit of it is false if its bound is. If the highest bit of the divisor is known, or the divisor is 0, unit
/// propagation needs no bounds, and all are true.
fn upper_steps(
    nodes: &mut Nodes,
    dividend: &Word,
    divisor: &Word,
    above: &Word,
) -> Result<(Word, Word, Word), AllocError>
    requires words { AreWords nodes.old dividend.now divisor.now }
    requires above { AreOnesFrom nodes.old divisor.now above.now }
    ensures quotient { IfOk result (λ r.
        HasNumber nodes.new r.0 (λ free.
        long_quotient 31 (high_number free nodes.old dividend.now 1)
        (number_of free nodes.old divisor.now))) }
    ensures rest { IfOk result (λ r.
        HasNumber nodes.new r.1 (λ free.
        high_number free nodes.old dividend.now 1 % number_of free nodes.old divisor.now)) }
    ensures long { IfOk result (λ r. length r.2 ≡ 32) }
    ensures bits { IfOk result (λ r. AreBitsOf nodes.new r.2) }
    ensures bounds { IfOk result (λ r. (free : ℕ → Bool)
        → IsBounded free nodes.new r.2 (number_of free nodes.new r.1)) }
    ensures grows { Grows nodes.old nodes.new (421 * 31) }
{
    let known = known_width(divisor);
    let zero = [Nodes::constant(false); 32];
    let mut quotient = zero;
    let mut rest = zero;
    let width = width_of(divisor);
    let settled = width == 0 || is_surely_wider(divisor, width - 1);
    let any = Nodes::constant(settled);
    let mut bounds = [any; 32];
    for i in 0..31 {
        let next = brought_down(&rest, dividend[31 - i]);
        bounds = next_bounds(nodes, &bounds, dividend[31 - i])?;
        let (fits, left) = bounded_step(nodes, &next, &bounds, divisor, above, known)?;
        quotient = brought_down(&quotient, fits);
        rest = left;
    }
    Ok((quotient, rest, bounds))
}

/// The bounds of the partial remainder with one more bit of the dividend brought down.
fn next_bounds(nodes: &mut Nodes, bounds: &Word, bit: Bit) -> Result<Word, AllocError>
    requires first { AreBitsOf nodes.old bounds.now }
    requires second { IsBitOf nodes.old bit }
    ensures long { IfOk result (λ word. length word ≡ 32) }
    ensures bits { IfOk result (λ word. AreBitsOf nodes.new word) }
    ensures more { IfOk result (λ word. (free : ℕ → Bool) (n : ℕ)
        → IsBounded free nodes.old bounds.now n
        → IsBounded free nodes.new word (2 * n + digit (truth free nodes.old bit))) }
    ensures grows { Grows nodes.old nodes.new 1 }
{
    let some = nodes.or(bounds[0], bit)?;
    Ok(brought_down(bounds, some))
}

/// A step with bounds of the partial remainder. By unit propagation a bit is false if its bound is. If the
/// lowest bound is false, a divisor with a true bit doesn't fit.
fn bounded_step(
    nodes: &mut Nodes,
    rest: &Word,
    bounds: &Word,
    divisor: &Word,
    above: &Word,
    known: usize,
) -> Result<(Bit, Word), AllocError>
    requires words { AreWords nodes.old rest.now divisor.now }
    requires third { AreBitsOf nodes.old bounds.now }
    requires above { AreOnesFrom nodes.old divisor.now above.now }
    requires bounds { (free : ℕ → Bool)
        → IsBounded free nodes.old bounds.now (number_of free nodes.old rest.now) }
    requires known { known ≤ 32 }
    requires narrow { (free : ℕ → Bool) → number_of free nodes.old divisor.now < 2 ^ known }
    requires twice { known < 32 → (free : ℕ → Bool)
        → number_of free nodes.old rest.now < 2 * number_of free nodes.old divisor.now }
    ensures fits { IfOk result (λ r.
        HasValue nodes.new r.0 (λ free.
        nat_le (number_of free nodes.old divisor.now) (number_of free nodes.old rest.now))) }
    ensures left { IfOk result (λ r. HasNumber nodes.new r.1 (λ free.
        if nat_le (number_of free nodes.old divisor.now) (number_of free nodes.old rest.now)
        then number_of free nodes.old rest.now - number_of free nodes.old divisor.now
        else number_of free nodes.old rest.now)) }
    ensures grows { Grows nodes.old nodes.new 420 }
{
    let width = width_of(rest);
    let wider = bit_at(above, width);
    let (enough, difference) = step(nodes, rest, divisor, wider, width, known)?;
    let fits = fits_into_nonzero(nodes, enough, bounds[0], above[0])?;
    let left = bounded(nodes, &difference, bounds)?;
    Ok((fits, left))
}

/// A bit equal to `fits`, which tells whether the divisor fits. By unit propagation it is false if the
/// partial remainder is 0 and a bit of the divisor is true. Only a divisor of 0 fits then.
fn fits_into_nonzero(
    nodes: &mut Nodes,
    fits: Bit,
    some: Bit,
    divides: Bit,
) -> Result<Bit, AllocError>
    requires first { IsBitOf nodes.old fits }
    requires second { IsBitOf nodes.old some }
    requires third { IsBitOf nodes.old divides }
    requires none { (free : ℕ → Bool) → truth free nodes.old some ≡ false
        → truth free nodes.old fits ≡ true → truth free nodes.old divides ≡ false }
    ensures { MakesBit nodes.old nodes.new result 2 (λ free. truth free nodes.old fits) }
{
    let possible = nodes.or(some, Nodes::not(divides))?;
    nodes.and(fits, possible)
}

/// The same word; by unit propagation each bit of it is false if its bound is.
fn bounded(nodes: &mut Nodes, word: &Word, bounds: &Word) -> Result<Word, AllocError>
    requires words { AreWords nodes.old word.now bounds.now }
    requires small { (free : ℕ → Bool)
        → IsBounded free nodes.old bounds.now (number_of free nodes.old word.now) }
    ensures { MakesWord nodes.old nodes.new result 32 (λ free. number_of free nodes.old word.now) }
{
    let mut out = *word;
    for place in 0..32 {
        out[place] = nodes.and(word[place], bounds[place])?;
    }
    Ok(out)
}

/// Whether the divisor fits into the partial remainder of this width, and what is left then. `wider` tells
/// whether the divisor has more bits. If the width of the divisor is known, only these bits are subtracted.
/// At most one bit more is there, and the divisor fits if it is true.
fn step(
    nodes: &mut Nodes,
    rest: &Word,
    divisor: &Word,
    wider: Bit,
    width: usize,
    known: usize,
) -> Result<(Bit, Word), AllocError>
    requires words { AreWords nodes.old rest.now divisor.now }
    requires wider { HasValue nodes.old wider
        (λ free. nat_le (2 ^ width) (number_of free nodes.old divisor.now)) }
    requires width { width ≤ 32 }
    requires small { (free : ℕ → Bool) → number_of free nodes.old rest.now < 2 ^ width }
    requires known { known ≤ 32 }
    requires narrow { (free : ℕ → Bool) → number_of free nodes.old divisor.now < 2 ^ known }
    requires twice { known < 32 → (free : ℕ → Bool)
        → number_of free nodes.old rest.now < 2 * number_of free nodes.old divisor.now }
    ensures fits { IfOk result (λ r.
        HasValue nodes.new r.0 (λ free.
        nat_le (number_of free nodes.old divisor.now) (number_of free nodes.old rest.now))) }
    ensures left { IfOk result (λ r. HasNumber nodes.new r.1 (λ free.
        if nat_le (number_of free nodes.old divisor.now) (number_of free nodes.old rest.now)
        then number_of free nodes.old rest.now - number_of free nodes.old divisor.now
        else number_of free nodes.old rest.now)) }
    ensures grows { Grows nodes.old nodes.new 386 }
{
    let no = Nodes::constant(false);
    if is_surely_wider(divisor, width) {
        return Ok((no, *rest));
    }
    let kept = least(width, known);
    let low = extended(rest, kept, no);
    let complement = flip(&extended(divisor, kept, no));
    let (difference, carry) = add_with_carry(nodes, &low, &complement, Nodes::constant(true))?;
    let enough = nodes.or(carry, bit_at(rest, kept))?;
    let fits = nodes.and(enough, Nodes::not(wider))?;
    let left = select(nodes, fits, &extended(&difference, kept, no), &low)?;
    Ok((fits, left))
}

/// The width of the word: the bits above are constant zeros.
fn width_of(word: &Word) -> usize
    ensures few { result ≤ 32 }
    ensures narrow { (nodes : List Node) (free : ℕ → Bool)
        → number_of free nodes word.now < 2 ^ result }
{
    for i in 0..32 {
        let bit = word[31 - i];
        if bit.index != 0 {
            return 32 - i;
        }
        if bit.negated {
            return 32 - i;
        }
    }
    0
}

/// The width of the word, if its highest bit is a constant, and else 32.
fn known_width(word: &Word) -> usize
    ensures few { result ≤ 32 }
    ensures narrow { (nodes : List Node) (free : ℕ → Bool)
        → number_of free nodes word.now < 2 ^ result }
    ensures some { result < 32 → (nodes : List Node) (free : ℕ → Bool)
        → 0 < number_of free nodes word.now }
{
    let places = width_of(word);
    if places == 0 {
        return 32;
    }
    let highest = word[places - 1];
    if highest.index == 0 && highest.negated {
        return places;
    }
    32
}

/// The lesser of the two.
fn least(a: usize, b: usize) -> usize
    ensures first { result ≤ a }
    ensures second { result ≤ b }
    ensures one { (result ≡ a) ⊎ (result ≡ b) }
{
    if a < b { a } else { b }
}

/// The bit at an index, and false past the end.
fn bit_at(word: &Word, place: usize) -> Bit
    ensures { result ≡ bit_at word.now place }
{
    if place < 32 {
        word[place]
    } else {
        Nodes::constant(false)
    }
}

/// Whether the word has a constant one at this index or above it.
fn is_surely_wider(word: &Word, width: usize) -> bool
    ensures { OnTrue result ((nodes : List Node) (free : ℕ → Bool) →
        2 ^ width ≤ number_of free nodes word.now) }
{
    for i in width..32 {
        let bit = word[i];
        if bit.index == 0 && bit.negated {
            return true;
        }
    }
    false
}

/// For each index, whether the word has a one there or above it.
fn ones_from(nodes: &mut Nodes, word: &Word) -> Result<Word, AllocError>
    requires { AreBitsOf nodes.old word.now }
    ensures value { IfOk result (λ above. AreOnesFrom nodes.new word.now above) }
    ensures grows { Grows nodes.old nodes.new 32 }
{
    let mut some = Nodes::constant(false);
    let mut above = [some; 32];
    for i in 0..32 {
        some = nodes.or(some, word[31 - i])?;
        above[31 - i] = some;
    }
    Ok(above)
}

/// The word shifted up by one bit, with the given bit as its lowest.
fn brought_down(word: &Word, bit: Bit) -> Word
    ensures bits { (nodes : List Node) → AreBitsOf nodes word.now → IsBitOf nodes bit
        → AreBitsOf nodes result }
    ensures number { (nodes : List Node) (free : ℕ → Bool) → number_of free nodes result
        ≡ (2 * number_of free nodes word.now + digit (truth free nodes bit)) % 2 ^ 32 }
    ensures lowest { bit_at result 0 ≡ bit }
    ensures places { (place : ℕ) → 0 < place → place < 32
        → bit_at result place ≡ bit_at word.now (place - 1) }
    ensures long { length result ≡ 32 }
{
    let mut down = moved_up(word, 1);
    down[0] = bit;
    down
}
