//! The operators of word lists, on single words.

ghost use Rattle.std.specs.Prelude.{◌≡◌, true, IfOk, cond};
ghost use Rattle.ba_bits.specs.Bits.{HasLowBits, value_in};
ghost use Rattle.ba_code.specs.Operators.{converting};
ghost use Rattle.ba_nodes.specs.Gates.{Extends, HasValue};
ghost use Rattle.ba_numbers.specs.Numbers.{converted};
ghost use Rattle.ba_numbers.specs.Types.{is_promoted};
ghost use Rattle.ba_wordlist.specs.Meaning.{binary_value, is_nonzero};
ghost use Rattle.ba_words.specs.Words.{AreBitsOf, word_type};

use crate::leaves::{negated_word, truth_word};
use ba_muldiv::{div, mul, rem};
use ba_nodes::{Bit, Nodes};
use ba_numbers::numbers::{BinOp, CType, UnOp};
use ba_words::{
    Word, add, bit_and, bit_or, bit_xor, convert_word, equal, flip, less, neg, nonzero, select,
    shl, shr, sub,
};
use std::alloc::AllocError;

/// Whether a type of 32 bits is signed.
fn is_signed(t: CType) -> bool
    requires { is_promoted t ≡ true }
    ensures { word_type result ≡ t }
{
    matches!(t, CType::I32)
}

/// The value of a unary operator that works in the type `t` (C90 6.3.3.3).
pub(crate) fn unary(nodes: &mut Nodes, op: UnOp, t: CType, a: &Word) -> Result<Word, AllocError>
    requires promoted { is_promoted t ≡ true }
    requires operand { AreBitsOf nodes.old a.now }
    ensures value { IfOk result (λ word. HasLowBits nodes.new word (λ free.
        converting.unary op t (value_in free nodes.old a.now))) }
    ensures extends { Extends nodes.old nodes.new }
{
    match op {
        UnOp::Neg => neg(nodes, a),
        UnOp::Flip => Ok(flip(a)),
        UnOp::IsZero => {
            let some = nonzero(nodes, a)?;
            Ok(negated_word(some))
        }
    }
}

/// The value of a binary operator that works in the type `t` (C90 6.3.5 to 6.3.12).
pub(crate) fn binary(
    nodes: &mut Nodes,
    op: BinOp,
    t: CType,
    a: &Word,
    b: &Word,
) -> Result<Word, AllocError>
    requires promoted { is_promoted t ≡ true }
    requires first { AreBitsOf nodes.old a.now }
    requires second { AreBitsOf nodes.old b.now }
    ensures value { IfOk result (λ word. HasLowBits nodes.new word (λ free.
        binary_value op t (value_in free nodes.old a.now) (value_in free nodes.old b.now))) }
    ensures extends { Extends nodes.old nodes.new }
{
    let signed = is_signed(t);
    match op {
        BinOp::Mul => mul(nodes, a, b),
        BinOp::Div => div(nodes, a, b, signed),
        BinOp::Rem => rem(nodes, a, b, signed),
        BinOp::Add => add(nodes, a, b),
        BinOp::Sub => sub(nodes, a, b),
        BinOp::Shl => shl(nodes, a, b),
        BinOp::Shr => shr(nodes, a, b, signed),
        BinOp::And => bit_and(nodes, a, b),
        BinOp::Xor => bit_xor(nodes, a, b),
        BinOp::Or => bit_or(nodes, a, b),
        BinOp::Lt => {
            let below = less(nodes, a, b, signed)?;
            Ok(truth_word(below))
        }
        BinOp::Gt => {
            let above = less(nodes, b, a, signed)?;
            Ok(truth_word(above))
        }
        BinOp::Ge => {
            let lower = less(nodes, a, b, signed)?;
            Ok(negated_word(lower))
        }
        BinOp::Le => {
            let higher = less(nodes, b, a, signed)?;
            Ok(negated_word(higher))
        }
        BinOp::Eq => {
            let same = equal(nodes, a, b)?;
            Ok(truth_word(same))
        }
        BinOp::Ne => {
            let alike = equal(nodes, a, b)?;
            Ok(negated_word(alike))
        }
    }
}

/// The word converted to the type `t` (C90 6.2.1). It takes no memory.
pub(crate) fn convert(nodes: &Nodes, t: CType, a: &Word) -> Word
    requires { AreBitsOf nodes.now a.now }
    ensures { HasLowBits nodes.now result (λ free. converted t (value_in free nodes.now a.now)) }
{
    convert_word(t, a)
}

/// Whether a word is other than 0.
pub(crate) fn is_set(nodes: &mut Nodes, a: &Word) -> Result<Bit, AllocError>
    requires { AreBitsOf nodes.old a.now }
    ensures value { IfOk result (λ bit. HasValue nodes.new bit (λ free.
        is_nonzero (value_in free nodes.old a.now))) }
    ensures extends { Extends nodes.old nodes.new }
{
    nonzero(nodes, a)
}

/// The word `yes` if `which` is not 0, and else `no`.
pub(crate) fn choose(
    nodes: &mut Nodes,
    which: &Word,
    yes: &Word,
    no: &Word,
) -> Result<Word, AllocError>
    requires chooser { AreBitsOf nodes.old which.now }
    requires first { AreBitsOf nodes.old yes.now }
    requires second { AreBitsOf nodes.old no.now }
    ensures value { IfOk result (λ word. HasLowBits nodes.new word (λ free.
        cond (is_nonzero (value_in free nodes.old which.now))
        (value_in free nodes.old yes.now) (value_in free nodes.old no.now))) }
    ensures extends { Extends nodes.old nodes.new }
{
    let bit = is_set(nodes, which)?;
    select(nodes, bit, yes, no)
}
