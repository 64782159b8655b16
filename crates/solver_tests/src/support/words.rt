//! Constant words, free words, and their numbers under an assignment.

ghost use Rattle.std.specs.Prelude.{◌≡◌, List, length};
ghost use Rattle.ba_nodes.specs.declared.Node.{Node};
ghost use Rattle.ba_nodes.specs.Gates.{Extends};
ghost use Rattle.ba_words.specs.Words.{AreBitsOf};

use ba_nodes::{Bit, Node, Nodes};
use ba_words::Word;
use std::alloc::Global;
use std::panic::Expect;
use std::process::Abort;

/// The word of a constant.
pub fn word(value: u32) -> Word
    ensures { (nodes : List Node) → AreBitsOf nodes result }
{
    let mut bits = [Nodes::constant(false); 32];
    for i in 0..32 {
        bits[i] = Nodes::constant(value >> i & 1 == 1);
    }
    bits
}

/// A word of free bits.
pub fn free_word(rt: &impl Abort, nodes: &mut Nodes) -> Word
    ensures bits { AreBitsOf nodes.new result }
    ensures extends { Extends nodes.old nodes.new }
{
    let mut word = [Nodes::constant(false); 32];
    for i in 0..32 {
        word[i] = nodes.free().expect(rt, "memory");
    }
    word
}

/// The value of a bit, by the values of the constant and of the nodes.
pub fn value_in(values: &[bool], bit: Bit) -> bool {
    values.get(bit.index as usize).copied().unwrap_or(false) != bit.negated
}

/// The values of the constant and of the nodes. The first 32 nodes are free bits with the digits of `a`, and
/// the next 32 with those of `b`.
pub fn values(rt: &impl Abort, alloc: Global, nodes: &Nodes, a: u32, b: u32) -> Vec<bool> {
    let mut values = vec![in alloc; false].expect(rt, "memory");
    for node in nodes.as_slice() {
        let value = value_of(values.as_slice(), *node, a, b);
        values.push(value).expect(rt, "memory");
    }
    values
}

/// The value of a node.
fn value_of(values: &[bool], node: Node, a: u32, b: u32) -> bool {
    match node {
        Node::Free(number) => digit(a, b, number),
        Node::And(x, y) => value_in(values, x) && value_in(values, y),
        Node::Xor(x, y) => value_in(values, x) != value_in(values, y),
        Node::Mux(which, x, y) => value_in(values, if value_in(values, which) { x } else { y }),
        Node::Majority(x, y, z) => {
            if value_in(values, x) {
                value_in(values, y) || value_in(values, z)
            } else {
                value_in(values, y) && value_in(values, z)
            }
        }
    }
}

/// The digit of this number, of `a` and then `b`.
fn digit(a: u32, b: u32, number: u32) -> bool {
    if number < 32 {
        a >> number & 1 == 1
    } else if number < 64 {
        b >> (number - 32) & 1 == 1
    } else {
        false
    }
}

/// The number of a word.
pub fn number(values: &[bool], word: &Word) -> u32 {
    let mut number = 0;
    for i in 0..32 {
        if value_in(values, word[i]) {
            number |= 1 << i;
        }
    }
    number
}

/// The number of a word of circuits. The first 32 nodes are free bits with the digits of `a`, and the next 32
/// with those of `b`.
pub fn number_at(
    rt: &impl Abort,
    alloc: Global,
    nodes: &Nodes,
    word: &Word,
    a: u32,
    b: u32,
) -> u32 {
    let values = values(rt, alloc, nodes, a, b);
    number(values.as_slice(), word)
}
