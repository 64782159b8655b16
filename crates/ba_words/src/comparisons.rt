//! Comparisons, and the test for zero.

ghost use Rattle.std.specs.Prelude.{◌≡◌, ℕ, ◌+◌, ◌-◌, ◌*◌, ◌/◌, ◌%◌, ◌<◌, ◌≤◌, ◌^◌, ◌==◌, Bool, false, not, nat_lt, ◌&&◌, ◌||◌, IfOk, if◌then◌else◌};
ghost use Rattle.ba_numbers.specs.declared.numbers.BinOp.{BinOp};
ghost use Rattle.ba_numbers.specs.declared.numbers.BinOp.TheVariants.{Lt, Eq};
ghost use Rattle.ba_nodes.specs.declared.Bit.{Bit};
ghost use Rattle.ba_nodes.specs.Gates.{bool_xor, truth, IsBitOf, HasValue, Grows, MakesBit};
ghost use Rattle.ba_words.specs.Words.{number_of, low_number, AreBitsOf, AreWords, IsComparison, IsTest};

use crate::Word;
use ba_nodes::{Bit, Nodes};
use std::alloc::AllocError;

/// Whether `a` is less than `b`, read as signed or as unsigned (C90 6.3.8), by at most 288 gates. It is the
/// borrow of their difference; signs are exchanged for it.
pub fn less(nodes: &mut Nodes, a: &Word, b: &Word, signed: bool) -> Result<Bit, AllocError>
    requires { AreWords nodes.old a.now b.now }
    ensures bit { IfOk result (IsBitOf nodes.new) }
    ensures value { IfOk result (λ bit.
        IsComparison BinOp.Lt signed nodes.old a.now b.now nodes.new bit) }
    ensures below { IfOk result (λ bit. signed ≡ false
        → HasValue nodes.new bit (λ free.
        nat_lt (number_of free nodes.old a.now) (number_of free nodes.old b.now))) }
    ensures grows { Grows nodes.old nodes.new 288 }
{
    let low = low_less(nodes, a, b)?;
    if signed {
        borrow(nodes, b[31], a[31], low)
    } else {
        borrow(nodes, a[31], b[31], low)
    }
}

/// Whether the low 31 bits of `a` are less than those of `b`.
fn low_less(nodes: &mut Nodes, a: &Word, b: &Word) -> Result<Bit, AllocError>
    requires { AreWords nodes.old a.now b.now }
    ensures { MakesBit nodes.old nodes.new result (3 * 31)
        (λ free. nat_lt (low_number free nodes.old a.now 31) (low_number free nodes.old b.now 31)) }
{
    let mut below = Nodes::constant(false);
    for i in 0..31 {
        below = borrow(nodes, a[i], b[i], below)?;
    }
    Ok(below)
}

/// The borrow of `a` minus `b` at one bit: `a` is false and `b` true, or they are equal and the bits below
/// borrow.
#[tactic(auto, using(crate::proofs::Carries::borrow_by_majority))]
fn borrow(nodes: &mut Nodes, a: Bit, b: Bit, below: Bit) -> Result<Bit, AllocError>
    requires first { IsBitOf nodes.old a }
    requires second { IsBitOf nodes.old b }
    requires third { IsBitOf nodes.old below }
    ensures { MakesBit nodes.old nodes.new result 3
        (λ free. (not (truth free nodes.old a) && truth free nodes.old b)
        || (not (truth free nodes.old a && not (truth free nodes.old b))
        && truth free nodes.old below)) }
{
    nodes.majority(Nodes::not(a), b, below)
}

/// Whether two words are equal (C90 6.3.9), by at most 127 gates.
pub fn equal(nodes: &mut Nodes, a: &Word, b: &Word) -> Result<Bit, AllocError>
    requires { AreWords nodes.old a.now b.now }
    ensures makes { MakesBit nodes.old nodes.new result 127
        (λ free. number_of free nodes.old a.now == number_of free nodes.old b.now) }
    ensures value { IfOk result (λ bit. (signed : Bool)
        → IsComparison BinOp.Eq signed nodes.old a.now b.now nodes.new bit) }
{
    let mut same = Nodes::not(nodes.xor(a[0], b[0])?);
    for i in 1..32 {
        same = also_equal(nodes, same, a[i], b[i])?;
    }
    Ok(same)
}

/// Whether `same` is true and the two bits are equal.
fn also_equal(nodes: &mut Nodes, same: Bit, a: Bit, b: Bit) -> Result<Bit, AllocError>
    requires first { IsBitOf nodes.old same }
    requires second { IsBitOf nodes.old a }
    requires third { IsBitOf nodes.old b }
    ensures { MakesBit nodes.old nodes.new result 4
        (λ free. truth free nodes.old same
        && not (bool_xor (truth free nodes.old a) (truth free nodes.old b))) }
{
    let differ = nodes.xor(a, b)?;
    nodes.and(same, Nodes::not(differ))
}

/// Whether the word is not zero, by at most 31 gates.
pub fn nonzero(nodes: &mut Nodes, a: &Word) -> Result<Bit, AllocError>
    requires { AreBitsOf nodes.old a.now }
    ensures makes { MakesBit nodes.old nodes.new result 31
        (λ free. nat_lt 0 (number_of free nodes.old a.now)) }
    ensures value { IfOk result (λ bit. (signed : Bool)
        → IsTest signed nodes.old a.now nodes.new bit) }
{
    let mut some = a[0];
    for i in 1..32 {
        some = nodes.or(some, a[i])?;
    }
    Ok(some)
}
