//! The gates that each circuit takes, counted as and-gates.

use crate::support::operators::{Operator, circuit};
use crate::support::words::{free_word, word};
use ba_nodes::Nodes;
use std::alloc::Global;
use std::process::Abort;

/// The second operands that are counted, if nothing stands for a free word.
static SECOND: [Option<u32>; 9] = [
    None,
    Some(0),
    Some(1),
    Some(2),
    Some(5),
    Some(255),
    Some(256),
    Some(4294967288),
    Some(4294967295),
];

/// Each circuit with its gates, counted as and-gates, on a free word and each second operand.
static COUNTS: [(Operator, [u64; 9]); 18] = [
    (Operator::Add, [280, 0, 123, 119, 123, 123, 91, 111, 123]),
    (Operator::Sub, [280, 0, 123, 119, 123, 123, 91, 111, 123]),
    (Operator::Less(true), [94, 0, 31, 30, 31, 31, 23, 28, 31]),
    (Operator::Less(false), [94, 0, 31, 30, 31, 31, 23, 28, 31]),
    (Operator::Equal, [127, 31, 31, 31, 31, 31, 31, 31, 31]),
    (Operator::And, [32, 0, 0, 0, 0, 0, 0, 0, 0]),
    (Operator::Or, [32, 0, 0, 0, 0, 0, 0, 0, 0]),
    (Operator::Xor, [96, 0, 0, 0, 0, 0, 0, 0, 0]),
    (Operator::Shl, [418, 0, 0, 0, 0, 0, 0, 0, 0]),
    (Operator::Shr(true), [465, 0, 0, 0, 0, 0, 0, 0, 0]),
    (Operator::Shr(false), [418, 0, 0, 0, 0, 0, 0, 0, 0]),
    (Operator::Mul, [4242, 0, 0, 0, 262, 241, 0, 111, 123]),
    (
        Operator::Div(true),
        [7099, 184, 0, 126, 883, 1608, 105, 120, 125],
    ),
    (Operator::Div(false), [6544, 0, 0, 0, 524, 1279, 0, 28, 31]),
    (Operator::Rem(true), [7413, 367, 0, 1, 736, 1551, 8, 3, 0]),
    (
        Operator::Rem(false),
        [6861, 0, 0, 0, 539, 1324, 0, 199, 220],
    ),
    (
        Operator::DivAndRem(true),
        [7600, 367, 0, 126, 911, 1696, 105, 120, 125],
    ),
    (
        Operator::DivAndRem(false),
        [6861, 0, 0, 0, 539, 1324, 0, 199, 220],
    ),
];

/// How many gates the quotient and the remainder of a dividend by a free word take.
fn gates_of_dividend(rt: &impl Abort, alloc: Global, dividend: u32) -> u64 {
    let mut nodes = Nodes::new(alloc);
    let divisor = free_word(rt, &mut nodes);
    circuit(
        rt,
        &mut nodes,
        Operator::DivAndRem(false),
        &word(dividend),
        &divisor,
    );
    nodes.count()
}

/// How many gates a circuit of a free word and the second operand takes.
fn gates(rt: &impl Abort, alloc: Global, operator: Operator, second: Option<u32>) -> u64 {
    let mut nodes = Nodes::new(alloc);
    added(rt, &mut nodes, operator, second)
}

/// The gates that there are after that circuit.
fn added(rt: &impl Abort, nodes: &mut Nodes, operator: Operator, second: Option<u32>) -> u64 {
    let a = free_word(rt, nodes);
    let b = match second {
        Some(value) => word(value),
        None => free_word(rt, nodes),
    };
    circuit(rt, nodes, operator, &a, &b);
    nodes.count()
}

/// Whether a circuit takes these gates.
fn takes(rt: &impl Abort, alloc: Global, operator: Operator, counts: &[u64; 9]) -> bool {
    for (second, expected) in SECOND.iter().zip(counts) {
        if gates(rt, alloc, operator, *second) != *expected {
            return false;
        }
    }
    true
}

/// The first row of the table that is not so, if there is one.
fn first_difference(rt: &impl Abort, alloc: Global) -> Option<usize> {
    for i in 0..COUNTS.len() {
        let (operator, counts) = &COUNTS[i];
        if !takes(rt, alloc, *operator, counts) {
            return Some(i);
        }
    }
    None
}

#[test]
fn takes_the_gates_of_the_table(rt: HostRuntime) {
    assert_eq!(rt; first_difference(&rt, rt.alloc()), None);
}

#[test]
fn takes_fewer_gates_for_a_small_dividend(rt: HostRuntime) {
    let alloc = rt.alloc();
    let counts = [
        gates_of_dividend(&rt, alloc, 0),
        gates_of_dividend(&rt, alloc, 1),
        gates_of_dividend(&rt, alloc, 255),
        gates_of_dividend(&rt, alloc, 4294967295),
    ];
    assert_eq!(rt; counts, [63, 62, 371, 5890]);
}
