//! Truth tables of the gates, and which gates are met again.

ghost use Rattle.std.specs.Prelude.{◌<◌, ◌≤◌, length};
ghost use Rattle.ba_nodes.specs.Gates.{IsBitOf};

use crate::support::words::{value_in, values};
use ba_nodes::{Bit, Nodes};
use std::alloc::Global;
use std::panic::Expect;
use std::process::Abort;

/// The gates of three bits: `and`, `or` and exclusive `or` of the first two, the choice and the majority.
fn gates(rt: &impl Abort, nodes: &mut Nodes, a: Bit, b: Bit, c: Bit) -> [Bit; 5]
    requires first { IsBitOf nodes.old a }
    requires second { IsBitOf nodes.old b }
    requires third { IsBitOf nodes.old c }
    ensures { length nodes.old ≤ length nodes.new }
{
    let both = nodes.and(a, b).expect(rt, "memory");
    let either = nodes.or(a, b).expect(rt, "memory");
    let one = nodes.xor(a, b).expect(rt, "memory");
    let chosen = nodes.mux(a, b, c).expect(rt, "memory");
    let most = nodes.majority(a, b, c).expect(rt, "memory");
    [both, either, one, chosen, most]
}

/// The same gates of bits that are turned round or negated.
fn turned_gates(rt: &impl Abort, nodes: &mut Nodes, a: Bit, b: Bit, c: Bit) -> [Bit; 5]
    requires first { IsBitOf nodes.old a }
    requires second { IsBitOf nodes.old b }
    requires third { IsBitOf nodes.old c }
    ensures { length nodes.old ≤ length nodes.new }
{
    let both = nodes.and(b, a).expect(rt, "memory");
    let neither = nodes.and(Nodes::not(b), Nodes::not(a)).expect(rt, "memory");
    let same = nodes.xor(Nodes::not(b), a).expect(rt, "memory");
    let chosen = nodes.mux(Nodes::not(a), c, b).expect(rt, "memory");
    let fewest = nodes
        .majority(Nodes::not(b), Nodes::not(c), Nodes::not(a))
        .expect(rt, "memory");
    [
        both,
        Nodes::not(neither),
        Nodes::not(same),
        chosen,
        Nodes::not(fewest),
    ]
}

/// The values of the gates if the three free bits are the digits of the row.
static ROWS: [[bool; 5]; 8] = [
    [false, false, false, false, false],
    [false, true, true, false, false],
    [false, true, true, false, false],
    [true, true, false, true, true],
    [false, false, false, true, false],
    [false, true, true, false, true],
    [false, true, true, true, true],
    [true, true, false, true, true],
];

/// Whether the gates have these values under the assignment whose free bits are the digits of the row.
fn has_values(rt: &impl Abort, alloc: Global, nodes: &Nodes, gates: &[Bit; 5], row: usize) -> bool
    requires { row < 8 }
{
    let values = values(rt, alloc, nodes, row as u32, 0);
    let mut found = [false; 5];
    for i in 0..5 {
        found[i] = value_in(values.as_slice(), gates[i]);
    }
    found == ROWS[row]
}

/// Whether constants, equal and opposite bits, and choices between opposite bits are folded.
fn folds(rt: &impl Abort, nodes: &mut Nodes, a: Bit, b: Bit) -> bool
    requires first { IsBitOf nodes.old a }
    requires second { IsBitOf nodes.old b }
{
    let same = nodes.and(a, Nodes::constant(true)).expect(rt, "memory");
    let none = nodes.and(a, Nodes::not(a)).expect(rt, "memory");
    let one = nodes.xor(a, b).expect(rt, "memory");
    let choice = nodes.mux(a, Nodes::not(b), b).expect(rt, "memory");
    same == a && none == Nodes::constant(false) && choice == one
}

/// The gates of three free bits, where each is met again: an `and` and an `or` count one each, the others
/// three.
fn gates_met_again(rt: &impl Abort, nodes: &mut Nodes) -> Option<[Bit; 5]> {
    let a = nodes.free().expect(rt, "memory");
    let b = nodes.free().expect(rt, "memory");
    let c = nodes.free().expect(rt, "memory");
    let made = gates(rt, nodes, a, b, c);
    let turned = turned_gates(rt, nodes, a, b, c);
    let folded = folds(rt, nodes, a, b);
    if folded && turned == made && nodes.count() == 11 {
        Some(made)
    } else {
        None
    }
}

/// The first row in which a gate has another value, if there is one.
fn first_difference(
    rt: &impl Abort,
    alloc: Global,
    nodes: &Nodes,
    gates: &[Bit; 5],
) -> Option<usize> {
    for row in 0..8 {
        if !has_values(rt, alloc, nodes, gates, row) {
            return Some(row);
        }
    }
    None
}

/// Whether the gates are met again and have their values.
fn holds(rt: &impl Abort, alloc: Global, nodes: &mut Nodes) -> bool {
    let Some(gates) = gates_met_again(rt, nodes) else {
        return false
    };
    first_difference(rt, alloc, nodes, &gates).is_none()
}

/// The same from no nodes on.
fn has_the_gates(rt: &impl Abort, alloc: Global) -> bool {
    let mut nodes = Nodes::new(alloc);
    holds(rt, alloc, &mut nodes)
}

#[test]
fn meets_gates_again_with_their_values(rt: HostRuntime) {
    assert!(rt; has_the_gates(&rt, rt.alloc()));
}
