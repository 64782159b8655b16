//! Signed quotients and remainders by constant powers of two and their opposites, as a C compiler computes
//! them.

use crate::support::operators::{Operator, circuit};
use crate::support::words::{free_word, number_at, word};
use ba_nodes::Nodes;
use std::alloc::Global;
use std::process::Abort;

/// The dividends, one for each column of a table.
static DIVIDENDS: [u32; 16] = [
    0, 1, 7, 8, 255, 257, 2147483647, 4294967295, 4294967294, 4294967289, 4294967288, 4294967287,
    4294967040, 4294967039, 2147483649, 2147483648,
];

/// The divisors, one for each row.
static DIVISORS: [u32; 8] = [
    2, 8, 256, 1073741824, 4294967295, 4294967294, 4294967040, 2147483648,
];

/// The quotients, modulo 2^32; that of the least number by -1 has no value in C, and is the least number
/// here.
static QUOTIENTS: [[u32; 16]; 8] = [
    [
        0, 0, 3, 4, 127, 128, 1073741823, 0, 4294967295, 4294967293, 4294967292, 4294967292,
        4294967168, 4294967168, 3221225473, 3221225472,
    ],
    [
        0, 0, 0, 1, 31, 32, 268435455, 0, 0, 0, 4294967295, 4294967295, 4294967264, 4294967264,
        4026531841, 4026531840,
    ],
    [
        0, 0, 0, 0, 0, 1, 8388607, 0, 0, 0, 0, 0, 4294967295, 4294967295, 4286578689, 4286578688,
    ],
    [
        0, 0, 0, 0, 0, 0, 1, 0, 0, 0, 0, 0, 0, 0, 4294967295, 4294967294,
    ],
    [
        0, 4294967295, 4294967289, 4294967288, 4294967041, 4294967039, 2147483649, 1, 2, 7, 8, 9,
        256, 257, 2147483647, 2147483648,
    ],
    [
        0, 0, 4294967293, 4294967292, 4294967169, 4294967168, 3221225473, 0, 1, 3, 4, 4, 128, 128,
        1073741823, 1073741824,
    ],
    [
        0, 0, 0, 0, 0, 4294967295, 4286578689, 0, 0, 0, 0, 0, 1, 1, 8388607, 8388608,
    ],
    [0, 0, 0, 0, 0, 0, 0, 0, 0, 0, 0, 0, 0, 0, 0, 1],
];

/// The remainders, modulo 2^32.
static REMAINDERS: [[u32; 16]; 8] = [
    [
        0, 1, 1, 0, 1, 1, 1, 4294967295, 0, 4294967295, 0, 4294967295, 0, 4294967295, 4294967295, 0,
    ],
    [
        0, 1, 7, 0, 7, 1, 7, 4294967295, 4294967294, 4294967289, 0, 4294967295, 0, 4294967295,
        4294967289, 0,
    ],
    [
        0, 1, 7, 8, 255, 1, 255, 4294967295, 4294967294, 4294967289, 4294967288, 4294967287, 0,
        4294967295, 4294967041, 0,
    ],
    [
        0, 1, 7, 8, 255, 257, 1073741823, 4294967295, 4294967294, 4294967289, 4294967288,
        4294967287, 4294967040, 4294967039, 3221225473, 0,
    ],
    [0, 0, 0, 0, 0, 0, 0, 0, 0, 0, 0, 0, 0, 0, 0, 0],
    [
        0, 1, 1, 0, 1, 1, 1, 4294967295, 0, 4294967295, 0, 4294967295, 0, 4294967295, 4294967295, 0,
    ],
    [
        0, 1, 7, 8, 255, 1, 255, 4294967295, 4294967294, 4294967289, 4294967288, 4294967287, 0,
        4294967295, 4294967041, 0,
    ],
    [
        0, 1, 7, 8, 255, 257, 2147483647, 4294967295, 4294967294, 4294967289, 4294967288,
        4294967287, 4294967040, 4294967039, 2147483649, 0,
    ],
];

/// The first divisor at which the circuit of a free word differs from a table, if there is one.
fn first_difference(
    rt: &impl Abort,
    alloc: Global,
    operator: Operator,
    table: &[[u32; 16]; 8],
) -> Option<u32> {
    for (divisor, row) in DIVISORS.iter().zip(table) {
        let mut nodes = Nodes::new(alloc);
        if differs(rt, alloc, &mut nodes, operator, *divisor, row) {
            return Some(*divisor);
        }
    }
    None
}

/// Whether the circuit of a free word and a divisor has another value at some dividend.
fn differs(
    rt: &impl Abort,
    alloc: Global,
    nodes: &mut Nodes,
    operator: Operator,
    divisor: u32,
    row: &[u32; 16],
) -> bool {
    let dividend = free_word(rt, nodes);
    let result = circuit(rt, nodes, operator, &dividend, &word(divisor));
    for (a, expected) in DIVIDENDS.iter().zip(row) {
        if number_at(rt, alloc, nodes, &result, *a, 0) != *expected {
            return true;
        }
    }
    false
}

#[test]
fn divides_by_powers_as_a_compiler_does(rt: HostRuntime) {
    let tables = [
        (Operator::Div(true), &QUOTIENTS),
        (Operator::Rem(true), &REMAINDERS),
    ];
    for (operator, table) in tables {
        assert_eq!(rt; first_difference(&rt, rt.alloc(), operator, table), None);
    }
}
