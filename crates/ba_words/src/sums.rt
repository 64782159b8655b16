//! Ripple-carry sums, differences and negation.

ghost use Rattle.std.specs.Prelude.{◌≡◌, ℕ, ◌+◌, ◌-◌, ◌*◌, ◌/◌, ◌%◌, ◌<◌, ◌≤◌, ◌^◌, ◌==◌, Bool, true, false, ◌&&◌, ◌||◌, length, IfOk, if◌then◌else◌};
ghost use Rattle.ba_numbers.specs.declared.numbers.BinOp.{BinOp};
ghost use Rattle.ba_numbers.specs.declared.numbers.BinOp.TheVariants.{Add, Sub};
ghost use Rattle.ba_numbers.specs.declared.numbers.UnOp.{UnOp};
ghost use Rattle.ba_numbers.specs.declared.numbers.UnOp.TheVariants.{Neg};
ghost use Rattle.ba_nodes.specs.declared.Bit.{Bit};
ghost use Rattle.ba_nodes.specs.Gates.{bool_xor, truth, IsBitOf, HasValue, Grows, MakesBit};
ghost use Rattle.ba_words.specs.Words.{digit, number_of, low_number, AreBitsOf, AreWords, AddUp, IsValueOfOne, MakesWord, IsCircuit};

use crate::{Word, flip, moved_up};
use ba_nodes::{Bit, Nodes};
use std::alloc::AllocError;

/// The sum of two words modulo 2^32 (C90 6.3.6), by at most 288 gates.
pub fn add(nodes: &mut Nodes, a: &Word, b: &Word) -> Result<Word, AllocError>
    requires { AreWords nodes.old a.now b.now }
    ensures { IsCircuit BinOp.Add nodes.old a.now b.now nodes.new result 288
        (λ m n. (m + n) % 2 ^ 32) }
{
    sum(nodes, a, b, Nodes::constant(false))
}

/// The difference of two words modulo 2^32 (C90 6.3.6), by at most 288 gates.
pub fn sub(nodes: &mut Nodes, a: &Word, b: &Word) -> Result<Word, AllocError>
    requires { AreWords nodes.old a.now b.now }
    ensures { IsCircuit BinOp.Sub nodes.old a.now b.now nodes.new result 288
        (λ m n. (m + (2 ^ 32 - n)) % 2 ^ 32) }
{
    let complement = flip(b);
    sum(nodes, a, &complement, Nodes::constant(true))
}

/// The negated word, modulo 2^32 (C90 6.3.3.3), by at most 288 gates.
pub fn neg(nodes: &mut Nodes, a: &Word) -> Result<Word, AllocError>
    requires { AreBitsOf nodes.old a.now }
    ensures makes { MakesWord nodes.old nodes.new result 288
        (λ free. (2 ^ 32 - number_of free nodes.old a.now) % 2 ^ 32) }
    ensures value { IfOk result (λ word. (signed : Bool)
        → IsValueOfOne UnOp.Neg signed nodes.old a.now nodes.new word) }
{
    let complement = flip(a);
    let zero = [Nodes::constant(false); 32];
    sum(nodes, &zero, &complement, Nodes::constant(true))
}

/// The sum of two words and a carry, and the carry out of the highest bit, by at most 288 gates.
pub fn add_with_carry(
    nodes: &mut Nodes,
    a: &Word,
    b: &Word,
    carry: Bit,
) -> Result<(Word, Bit), AllocError>
    requires words { AreWords nodes.old a.now b.now }
    requires carry { IsBitOf nodes.old carry }
    ensures bits { IfOk result (λ r. (length r.0 ≡ 32) × AreBitsOf nodes.new r.0
        × IsBitOf nodes.new r.1) }
    ensures sum { IfOk result (λ r. (free : ℕ → Bool) →
        number_of free nodes.new r.0 + 2 ^ 32 * digit (truth free nodes.new r.1)
        ≡ number_of free nodes.old a.now + number_of free nodes.old b.now
        + digit (truth free nodes.old carry)) }
    ensures grows { Grows nodes.old nodes.new 288 }
{
    let (mut sums, carried) = low_sums(nodes, a, b, carry, 0)?;
    let (highest, carry_out) = full_adder(nodes, a[31], b[31], carried)?;
    sums[31] = highest;
    Ok((sums, carry_out))
}

/// The sum of `a`, and of `b` and a carry, both shifted up by `place` bits, modulo 2^32. It takes at most 9
/// gates for each bit from there on.
pub fn add_moved_up(
    nodes: &mut Nodes,
    a: &Word,
    b: &Word,
    carry: Bit,
    place: usize,
) -> Result<Word, AllocError>
    requires small { place < 32 }
    requires words { AreWords nodes.old a.now b.now }
    requires carry { IsBitOf nodes.old carry }
    ensures { MakesWord nodes.old nodes.new result (9 * (32 - place))
        (λ free. (number_of free nodes.old a.now
        + (number_of free nodes.old b.now + digit (truth free nodes.old carry)) * 2 ^ place)
        % 2 ^ 32) }
{
    sum_from(nodes, a, &moved_up(b, place), carry, place)
}

/// The sum of two words and a carry modulo 2^32.
fn sum(nodes: &mut Nodes, a: &Word, b: &Word, carry: Bit) -> Result<Word, AllocError>
    requires words { AreWords nodes.old a.now b.now }
    requires carry { IsBitOf nodes.old carry }
    ensures { MakesWord nodes.old nodes.new result 288
        (λ free. (number_of free nodes.old a.now + number_of free nodes.old b.now
        + digit (truth free nodes.old carry)) % 2 ^ 32) }
{
    sum_from(nodes, a, b, carry, 0)
}

/// The sum of a word, the bits of another from an index on, and a carry into that bit, modulo 2^32.
fn sum_from(
    nodes: &mut Nodes,
    a: &Word,
    b: &Word,
    carry: Bit,
    from: usize,
) -> Result<Word, AllocError>
    requires small { from < 32 }
    requires words { AreWords nodes.old a.now b.now }
    requires carry { IsBitOf nodes.old carry }
    ensures { MakesWord nodes.old nodes.new result (9 * (32 - from))
        (λ free. (number_of free nodes.old a.now
        + (number_of free nodes.old b.now - low_number free nodes.old b.now from) + 2 ^ from
        * digit (truth free nodes.old carry)) % 2 ^ 32) }
{
    let (mut sums, carried) = low_sums(nodes, a, b, carry, from)?;
    sums[31] = sum_bit(nodes, a[31], b[31], carried)?;
    Ok(sums)
}

/// The sum of three bits, without the carry.
fn sum_bit(nodes: &mut Nodes, a: Bit, b: Bit, carry: Bit) -> Result<Bit, AllocError>
    requires first { IsBitOf nodes.old a }
    requires second { IsBitOf nodes.old b }
    requires third { IsBitOf nodes.old carry }
    ensures { MakesBit nodes.old nodes.new result 6
        (λ free. bool_xor (bool_xor (truth free nodes.old a) (truth free nodes.old b))
        (truth free nodes.old carry)) }
{
    let half = nodes.xor(a, b)?;
    nodes.xor(half, carry)
}

/// The sums of the bits from an index on and below the highest, and the carry into that. The bits before are
/// those of `a`.
fn low_sums(
    nodes: &mut Nodes,
    a: &Word,
    b: &Word,
    carry: Bit,
    from: usize,
) -> Result<(Word, Bit), AllocError>
    requires small { from < 32 }
    requires words { AreWords nodes.old a.now b.now }
    requires carry { IsBitOf nodes.old carry }
    ensures sums { IfOk result (λ r.
        AddUp nodes.old a.now b.now carry from nodes.new r.0 r.1 31) }
    ensures grows { Grows nodes.old nodes.new (9 * (31 - from)) }
{
    let mut sums = *a;
    let mut carried = carry;
    for i in from..31 {
        let (sum, next) = full_adder(nodes, a[i], b[i], carried)?;
        sums[i] = sum;
        carried = next;
    }
    Ok((sums, carried))
}

/// The sum of three bits, and the carry.
#[tactic(auto, using(crate::proofs::Carries::carry_by_majority))]
fn full_adder(nodes: &mut Nodes, a: Bit, b: Bit, carry: Bit) -> Result<(Bit, Bit), AllocError>
    requires first { IsBitOf nodes.old a }
    requires second { IsBitOf nodes.old b }
    requires third { IsBitOf nodes.old carry }
    ensures sum { IfOk result (λ r.
        HasValue nodes.new r.0 (λ free.
        bool_xor (bool_xor (truth free nodes.old a) (truth free nodes.old b))
        (truth free nodes.old carry))) }
    ensures carry { IfOk result (λ r.
        HasValue nodes.new r.1 (λ free. (truth free nodes.old a && truth free nodes.old b)
        || (bool_xor (truth free nodes.old a) (truth free nodes.old b)
        && truth free nodes.old carry))) }
    ensures grows { Grows nodes.old nodes.new 9 }
{
    let half = nodes.xor(a, b)?;
    let sum = nodes.xor(half, carry)?;
    let carried = nodes.majority(a, b, carry)?;
    Ok((sum, carried))
}
