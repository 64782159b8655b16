//! Barrel shifters: one level of selects for each of the five bits of the count.

ghost use Rattle.std.specs.Prelude.{◌≡◌, ℕ, ◌+◌, ◌-◌, ◌*◌, ◌/◌, ◌%◌, ◌<◌, ◌≤◌, ◌^◌, ◌==◌, Bool, false, nat_lt, ◌&&◌, ◌||◌, List, length, IfOk, if◌then◌else◌};
ghost use Rattle.ba_numbers.specs.declared.numbers.BinOp.{BinOp};
ghost use Rattle.ba_numbers.specs.declared.numbers.BinOp.TheVariants.{Shl, Shr};
ghost use Rattle.ba_nodes.specs.declared.Bit.{Bit};
ghost use Rattle.ba_nodes.specs.declared.Node.{Node};
ghost use Rattle.ba_nodes.specs.Gates.{constant_bit, truth, IsBitOf};
ghost use Rattle.ba_words.specs.Words.{number_of, bit_at, AreBitsOf, AreWords, IsShift, shifted_down, MakesWord};

use crate::{Word, select};
use ba_nodes::{Bit, Nodes};
use std::alloc::AllocError;

/// The word times 2 to the power of the low five bits of `count`, modulo 2^32 (C90 6.3.7), by at most 480
/// gates.
pub fn shl(nodes: &mut Nodes, a: &Word, count: &Word) -> Result<Word, AllocError>
    requires { AreWords nodes.old a.now count.now }
    ensures makes { MakesWord nodes.old nodes.new result 480
        (λ free. (number_of free nodes.old a.now * 2 ^ (number_of free nodes.old count.now % 32))
        % 2 ^ 32) }
    ensures value { IfOk result (λ word. (signed counted : Bool)
        → IsShift BinOp.Shl signed counted nodes.old a.now count.now nodes.new word) }
{
    let mut word = *a;
    for level in 0..5 {
        let shifted = moved_up(&word, 1 << level);
        word = select(nodes, count[level], &shifted, &word)?;
    }
    Ok(word)
}

/// The word divided by 2 to the power of the low five bits of `count`, rounded down (C90 6.3.7), by at most
/// 480 gates. A signed word keeps its sign.
pub fn shr(nodes: &mut Nodes, a: &Word, count: &Word, signed: bool) -> Result<Word, AllocError>
    requires { AreWords nodes.old a.now count.now }
    ensures makes { MakesWord nodes.old nodes.new result 480
        (λ free. shifted_down (number_of free nodes.old a.now) (signed
        && truth free nodes.old (bit_at a.now 31)) (number_of free nodes.old count.now % 32)) }
    ensures value { IfOk result (λ word. (counted : Bool)
        → IsShift BinOp.Shr signed counted nodes.old a.now count.now nodes.new word) }
{
    let sign = sign_of(a, signed);
    let mut word = *a;
    for level in 0..5 {
        let shifted = moved_down(&word, 1 << level, sign);
        word = select(nodes, count[level], &shifted, &word)?;
    }
    Ok(word)
}

/// Whether the word is negative: its highest bit, or false for an unsigned word. It takes no memory.
pub fn sign_of(a: &Word, signed: bool) -> Bit
    ensures bit { result ≡ (if signed then bit_at a.now 31 else constant_bit false) }
    ensures value { (nodes : List Node) (free : ℕ → Bool) → truth free nodes result
        ≡ (signed && truth free nodes (bit_at a.now 31)) }
{
    if signed {
        a[31]
    } else {
        Nodes::constant(false)
    }
}

/// The bits shifted up by `by`, with false below them. It takes no memory.
pub fn moved_up(word: &Word, by: usize) -> Word
    ensures long { length result ≡ 32 }
    ensures bits { (nodes : List Node) → AreBitsOf nodes word.now → AreBitsOf nodes result }
    ensures places { (place : ℕ) → place < 32 → bit_at result place
        ≡ (if nat_lt place by then constant_bit false else bit_at word.now (place - by)) }
{
    let mut moved = *word;
    for i in 0..32 {
        moved[i] = if i < by {
            Nodes::constant(false)
        } else {
            word[i - by]
        };
    }
    moved
}

/// The bits shifted down by `by`, with `fill` above them.
fn moved_down(word: &Word, by: usize, fill: Bit) -> Word
    requires { by ≤ 32 }
    ensures long { length result ≡ 32 }
    ensures bits { (nodes : List Node) → AreBitsOf nodes word.now → IsBitOf nodes fill
        → AreBitsOf nodes result }
    ensures places { (place : ℕ) → place < 32 → bit_at result place
        ≡ (if nat_lt place (32 - by) then bit_at word.now (place + by) else fill) }
{
    let mut moved = *word;
    for i in 0..32 {
        moved[i] = if i < 32 - by { word[i + by] } else { fill };
    }
    moved
}
