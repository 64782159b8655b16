//! Conversions to the types of C.

ghost use Rattle.std.specs.Prelude.{◌≡◌, ℕ, ◌+◌, ◌-◌, ◌*◌, ◌/◌, ◌%◌, ◌<◌, ◌≤◌, ◌^◌, ◌==◌, pos, Bool, false, nat_lt, ◌&&◌, ◌||◌, List, length, if◌then◌else◌};
ghost use Rattle.ba_numbers.specs.Numbers.{converted, low_word};
ghost use Rattle.ba_nodes.specs.declared.Bit.{Bit};
ghost use Rattle.ba_nodes.specs.declared.Node.{Node};
ghost use Rattle.ba_nodes.specs.Gates.{IsBitOf};
ghost use Rattle.ba_words.specs.Words.{number_of, bit_at, AreBitsOf, word_type, word_value};

use crate::Word;
use ba_nodes::{Bit, Nodes};
use ba_numbers::numbers::CType;

/// The word converted to a type (C90 6.2.1.2): its low bits, with the sign or with zeros above them. It takes
/// no memory.
pub fn convert_word(t: CType, a: &Word) -> Word
    ensures bits { (nodes : List Node) → AreBitsOf nodes a.now → AreBitsOf nodes result }
    ensures number { (nodes : List Node) (free : ℕ → Bool) → number_of free nodes result
        ≡ low_word (converted t (pos (number_of free nodes a.now))) }
    ensures value { (nodes : List Node) (source target : Bool) (free : ℕ → Bool)
        → converted (word_type target) (converted t (word_value source free nodes a.now))
        ≡ word_value target free nodes result }
    ensures long { length result ≡ 32 }
{
    match t {
        CType::I8 => extended(a, 8, a[7]),
        CType::U8 => extended(a, 8, Nodes::constant(false)),
        CType::I16 => extended(a, 16, a[15]),
        CType::U16 => extended(a, 16, Nodes::constant(false)),
        CType::I32 => *a,
        CType::U32 => *a,
    }
}

/// The low `width` bits, and `fill` above them. It takes no memory.
pub fn extended(word: &Word, width: usize, fill: Bit) -> Word
    ensures long { length result ≡ 32 }
    ensures bits { (nodes : List Node) → AreBitsOf nodes word.now → IsBitOf nodes fill
        → AreBitsOf nodes result }
    ensures places { (place : ℕ) → place < 32 → bit_at result place
        ≡ (if nat_lt place width then bit_at word.now place else fill) }
{
    let mut wide = *word;
    for i in 0..32 {
        wide[i] = if i < width { word[i] } else { fill };
    }
    wide
}
