//! Constants among words.

ghost use Rattle.std.specs.Prelude.{◌≡◌, ℕ, ◌≤◌, Bool, List, IfSome};
ghost use Rattle.ba_nodes.specs.declared.Node.{Node};
ghost use Rattle.ba_words.specs.Words.{number_of};

use ba_words::Word;

/// How many bits of the word are constants.
pub(crate) fn known_bits(word: &Word) -> u32
    ensures { result ≤ 32 }
{
    let mut known = 0;
    for i in 0..32 {
        if word[i].index == 0 {
            known += 1;
        }
    }
    known
}

/// The number of a word, if each of its bits is a constant.
pub(crate) fn constant_of(word: &Word) -> Option<u32>
    ensures { IfSome result (λ value. (nodes : List Node) (free : ℕ → Bool) →
        number_of free nodes word.now ≡ value) }
{
    let mut value = 0;
    for i in 0..32 {
        let bit = word[31 - i];
        if bit.index != 0 {
            return None;
        }
        value = 2 * value + u32::from(bit.negated);
    }
    Some(value)
}
