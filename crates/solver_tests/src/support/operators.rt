//! The operators of C on words by their names, and the numbers that their circuits give.

ghost use Rattle.ba_words.specs.Words.{AreBitsOf};

use crate::support::words::{number, word};
use ba_muldiv::{div, mul, rem};
use ba_nodes::{Bit, Nodes};
use ba_words::{Word, add, bit_and, bit_or, bit_xor, equal, less, shl, shr, sub};
use std::alloc::Global;
use std::panic::Expect;
use std::process::Abort;

/// An operator of two words, with whether they are signed if that tells.
#[derive(Clone, Copy)]
pub enum Operator {
    Add,
    Sub,
    Less(bool),
    Equal,
    And,
    Or,
    Xor,
    Shl,
    Shr(bool),
    Mul,
    Div(bool),
    Rem(bool),
    DivAndRem(bool),
}

/// The word of an operator at two words: of a comparison 1 or 0, of a division with its remainder the
/// remainder.
pub fn circuit(rt: &impl Abort, nodes: &mut Nodes, operator: Operator, a: &Word, b: &Word) -> Word
    requires first { AreBitsOf nodes.old a.now }
    requires second { AreBitsOf nodes.old b.now }
{
    match operator {
        Operator::Add => add(nodes, a, b),
        Operator::Sub => sub(nodes, a, b),
        Operator::Less(signed) => less(nodes, a, b, signed).map(one_or_zero),
        Operator::Equal => equal(nodes, a, b).map(one_or_zero),
        Operator::And => bit_and(nodes, a, b),
        Operator::Or => bit_or(nodes, a, b),
        Operator::Xor => bit_xor(nodes, a, b),
        Operator::Shl => shl(nodes, a, b),
        Operator::Shr(signed) => shr(nodes, a, b, signed),
        Operator::Mul => mul(nodes, a, b),
        Operator::Div(signed) => div(nodes, a, b, signed),
        Operator::Rem(signed) => rem(nodes, a, b, signed),
        Operator::DivAndRem(signed) => {
            div(nodes, a, b, signed).expect(rt, "memory");
            rem(nodes, a, b, signed)
        }
    }
    .expect(rt, "memory")
}

/// The word of this lowest bit.
fn one_or_zero(bit: Bit) -> Word {
    let mut word = [Nodes::constant(false); 32];
    word[0] = bit;
    word
}

/// The value at two constants, or nothing if it takes a gate.
pub fn at_constants(
    rt: &impl Abort,
    alloc: Global,
    operator: Operator,
    a: u32,
    b: u32,
) -> Option<u32> {
    let mut nodes = Nodes::new(alloc);
    folded(rt, &mut nodes, operator, a, b)
}

/// The value at two constants, or nothing if there are gates.
fn folded(rt: &impl Abort, nodes: &mut Nodes, operator: Operator, a: u32, b: u32) -> Option<u32> {
    let word = circuit(rt, nodes, operator, &word(a), &word(b));
    if nodes.count() == 0 {
        Some(number(&[false], &word))
    } else {
        None
    }
}
