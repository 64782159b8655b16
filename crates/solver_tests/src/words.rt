//! Values of the circuits at constant words, of which none needs a gate.

use crate::support::operators::{Operator, at_constants};
use crate::support::words::word;
use ba_nodes::Nodes;
use ba_numbers::numbers::CType;
use ba_words::{add_with_carry, convert_word, flip, neg, nonzero, select};
use std::alloc::Global;
use std::panic::Expect;
use std::process::Abort;

/// Values of the operators at two constants.
static VALUES: [(Operator, [u32; 2], u32); 18] = [
    (Operator::Add, [2147483647, 1], 2147483648),
    (Operator::Sub, [7, 9], 4294967294),
    (Operator::Less(true), [4294967295, 1], 1),
    (Operator::Less(false), [4294967295, 1], 0),
    (Operator::Equal, [65537, 65537], 1),
    (Operator::And, [0x1234_5678, 0xa987_6543], 0x0004_4440),
    (Operator::Or, [0x1234_5678, 0xa987_6543], 0xbbb7_777b),
    (Operator::Xor, [0x1234_5678, 0xa987_6543], 0xbbb3_333b),
    (Operator::Shl, [1, 33], 2),
    (Operator::Shr(true), [4294967288, 1], 4294967292),
    (Operator::Shr(false), [4294967288, 1], 2147483644),
    (Operator::Mul, [65536, 65536], 0),
    (Operator::Div(true), [4294967289, 2], 4294967293),
    (Operator::Rem(true), [4294967289, 2], 4294967295),
    (Operator::Div(true), [2147483648, 4294967295], 2147483648),
    (Operator::Rem(true), [2147483648, 4294967295], 0),
    (Operator::Div(false), [4294967289, 2], 2147483644),
    (Operator::Rem(false), [4294967289, 2], 1),
];

/// The first row of the table that is not so, if there is one.
fn first_difference(rt: &impl Abort, alloc: Global) -> Option<usize> {
    for i in 0..VALUES.len() {
        let (operator, [a, b], expected) = &VALUES[i];
        if at_constants(rt, alloc, *operator, *a, *b) != Some(*expected) {
            return Some(i);
        }
    }
    None
}

/// Whether a sum with a carry, an opposite, a test and a choice have their values without a gate.
fn adds_and_chooses(rt: &impl Abort, nodes: &mut Nodes) -> bool {
    let yes = Nodes::constant(true);
    let (low, carry) = add_with_carry(nodes, &word(4294967295), &word(1), yes).expect(rt, "memory");
    let opposite = neg(nodes, &word(46341)).expect(rt, "memory");
    let some = nonzero(nodes, &word(2147483648)).expect(rt, "memory");
    let chosen = select(nodes, yes, &word(5), &word(6)).expect(rt, "memory");
    let sums = low == word(1) && carry == yes && opposite == word(4294920955);
    sums && some == yes && chosen == word(5) && nodes.count() == 0
}

/// The same from no nodes on.
fn has_the_others(rt: &impl Abort, alloc: Global) -> bool {
    let mut nodes = Nodes::new(alloc);
    adds_and_chooses(rt, &mut nodes)
}

/// Whether words converted and turned over have their values.
fn converts() -> bool {
    convert_word(CType::I8, &word(200)) == word(4294967240)
        && convert_word(CType::U16, &word(4294967295)) == word(65535)
        && flip(&word(0x1234_5678)) == word(0xedcb_a987)
}

#[test]
fn has_the_values_of_the_operators(rt: HostRuntime) {
    assert_eq!(rt; first_difference(&rt, rt.alloc()), None);
    assert!(rt; has_the_others(&rt, rt.alloc()) && converts());
}
