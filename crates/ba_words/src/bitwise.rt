//! Bitwise operators.

ghost use Rattle.std.specs.Prelude.{◌≡◌, ℕ, ◌+◌, ◌-◌, ◌*◌, ◌/◌, ◌%◌, ◌<◌, ◌≤◌, ◌^◌, ◌==◌, Bool, not, ◌&&◌, ◌||◌, List, length, bit_and, bit_or, bit_xor, IfOk, if◌then◌else◌};
ghost use Rattle.ba_numbers.specs.declared.numbers.BinOp.{BinOp};
ghost use Rattle.ba_numbers.specs.declared.numbers.BinOp.TheVariants.{And, Xor, Or};
ghost use Rattle.ba_numbers.specs.declared.numbers.UnOp.{UnOp};
ghost use Rattle.ba_numbers.specs.declared.numbers.UnOp.TheVariants.{Flip};
ghost use Rattle.ba_nodes.specs.declared.Bit.{Bit};
ghost use Rattle.ba_nodes.specs.declared.Node.{Node};
ghost use Rattle.ba_nodes.specs.Gates.{truth, IsBitOf};
ghost use Rattle.ba_words.specs.Words.{number_of, AreBitsOf, AreWords, IsValueOfOne, MakesWord, IsCircuit};

use crate::Word;
use ba_nodes::{Bit, Nodes};
use std::alloc::AllocError;

/// The `and` of the bits of two words (C90 6.3.10), by at most 32 gates.
pub fn bit_and(nodes: &mut Nodes, a: &Word, b: &Word) -> Result<Word, AllocError>
    requires { AreWords nodes.old a.now b.now }
    ensures { IsCircuit BinOp.And nodes.old a.now b.now nodes.new result 32 bit_and }
{
    let mut word = *a;
    for i in 0..32 {
        word[i] = nodes.and(a[i], b[i])?;
    }
    Ok(word)
}

/// The `or` of the bits of two words (C90 6.3.12), by at most 32 gates.
pub fn bit_or(nodes: &mut Nodes, a: &Word, b: &Word) -> Result<Word, AllocError>
    requires { AreWords nodes.old a.now b.now }
    ensures { IsCircuit BinOp.Or nodes.old a.now b.now nodes.new result 32 bit_or }
{
    let mut word = *a;
    for i in 0..32 {
        word[i] = nodes.or(a[i], b[i])?;
    }
    Ok(word)
}

/// The exclusive `or` of the bits of two words (C90 6.3.11), by at most 96 gates.
pub fn bit_xor(nodes: &mut Nodes, a: &Word, b: &Word) -> Result<Word, AllocError>
    requires { AreWords nodes.old a.now b.now }
    ensures { IsCircuit BinOp.Xor nodes.old a.now b.now nodes.new result 96 bit_xor }
{
    let mut word = *a;
    for i in 0..32 {
        word[i] = nodes.xor(a[i], b[i])?;
    }
    Ok(word)
}

/// The word `yes` if `which` is true, and else `no`, by at most 96 gates.
pub fn select(nodes: &mut Nodes, which: Bit, yes: &Word, no: &Word) -> Result<Word, AllocError>
    requires chooser { IsBitOf nodes.old which }
    requires words { AreWords nodes.old yes.now no.now }
    ensures { MakesWord nodes.old nodes.new result 96
        (λ free. if truth free nodes.old which then number_of free nodes.old yes.now
        else number_of free nodes.old no.now) }
{
    let mut word = *yes;
    for i in 0..32 {
        word[i] = nodes.mux(which, yes[i], no[i])?;
    }
    Ok(word)
}

/// The complement of each bit (C90 6.3.3.3). It takes no memory.
pub fn flip(a: &Word) -> Word
    ensures bits { (nodes : List Node) → AreBitsOf nodes a.now → AreBitsOf nodes result }
    ensures number { (nodes : List Node) (free : ℕ → Bool)
        → number_of free nodes result + number_of free nodes a.now + 1 ≡ 2 ^ 32 }
    ensures value { (nodes : List Node) (signed : Bool)
        → IsValueOfOne UnOp.Flip signed nodes a.now nodes result }
    ensures long { length result ≡ 32 }
{
    let mut word = *a;
    for i in 0..32 {
        word[i] = Nodes::not(a[i]);
    }
    word
}
