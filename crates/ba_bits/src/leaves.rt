//! Words without operands: constants, free words, and single bits as words.

ghost use Rattle.std.specs.Prelude.{◌≡◌, not, List, length, IfOk};
ghost use Rattle.ba_bits.specs.Bits.{HasLowBits};
ghost use Rattle.ba_nodes.specs.Gates.{Extends, IsBitOf, truth};
ghost use Rattle.ba_nodes.specs.declared.Node.{Node};
ghost use Rattle.ba_words.specs.Words.{AreBitsOf, HasNumber, digit};
ghost use Rattle.ba_bits.specs.Leaves.{CanSpell};

use ba_nodes::{Bit, Nodes};
use ba_words::Word;
use std::alloc::AllocError;

/// The 32 low bits of a number, as constant bits. It takes no memory.
pub(crate) fn word_of(value: i64) -> Word
    ensures { (nodes : List Node) → HasLowBits nodes result (λ free. value) }
{
    constant_word(value.rem_euclid(1 << 32) as u32)
}

/// The word of constant bits that has this number. It takes no memory.
pub(crate) fn constant_word(number: u32) -> Word
    ensures { (nodes : List Node) → HasNumber nodes result (λ free. number) }
{
    let mut word = [Nodes::constant(false); 32];
    let mut rest = number;
    for i in 0..32 {
        word[i] = Nodes::constant(rest % 2 == 1);
        rest /= 2;
    }
    word
}

/// The word that is 1 if the bit is true, and else 0. It takes no memory.
pub(crate) fn truth_word(bit: Bit) -> Word
    ensures { (nodes : List Node) → IsBitOf nodes bit
        → HasNumber nodes result (λ free. digit (truth free nodes bit)) }
{
    let mut word = constant_word(0);
    word[0] = bit;
    word
}

/// The word that is 0 if the bit is true, and else 1. It takes no memory.
pub(crate) fn negated_word(bit: Bit) -> Word
    ensures { (nodes : List Node) → IsBitOf nodes bit
        → HasNumber nodes result (λ free. digit (not (truth free nodes bit))) }
{
    truth_word(Nodes::not(bit))
}

/// A word of 32 new free bits.
pub(crate) fn free_word(nodes: &mut Nodes) -> Result<Word, AllocError>
    ensures bits { IfOk result (λ word. (length word ≡ 32) × AreBitsOf nodes.new word) }
    ensures any { IfOk result (CanSpell nodes.old nodes.new) }
    ensures extends { Extends nodes.old nodes.new }
{
    let mut word = [Nodes::constant(false); 32];
    for i in 0..32 {
        // The nodes are in order.
        let _ = nodes.as_slice();
        word[i] = nodes.free()?;
    }
    Ok(word)
}
