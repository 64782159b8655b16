//! Reads and writes of constant cells, which need no gate.

ghost use Rattle.std.specs.Prelude.{◌≡◌, List, length};
ghost use Rattle.ba_nodes.specs.declared.Node.{Node};
ghost use Rattle.ba_cells.specs.Cells.{AreCellsOf};

use crate::support::words::word;
use ba_cells::{read_cell, write_cell};
use ba_nodes::Nodes;
use ba_words::Word;
use std::alloc::Global;
use std::panic::Expect;
use std::process::Abort;

/// Cells of three constants.
fn three() -> [Word; 3]
    ensures cells { (nodes : List Node) → AreCellsOf nodes result }
    ensures long { length result ≡ 3 }
{
    [word(10), word(20), word(30)]
}

/// Indices with the number of the cell that is read: the first one's if the low 8 bits lead past the last.
static READ: [[u32; 2]; 5] = [[0, 10], [1, 20], [2, 30], [3, 10], [257, 20]];

/// Whether each read gives its number.
fn reads(rt: &impl Abort, nodes: &mut Nodes) -> bool {
    let cells = three();
    for [index, expected] in &READ {
        if read_cell(nodes, &cells, &word(*index)).expect(rt, "memory") != word(*expected) {
            return false;
        }
    }
    true
}

/// Writes of a 7 by index and condition, with the numbers of the cells after them.
static WRITTEN: [(u32, bool, [u32; 3]); 4] = [
    (1, true, [10, 7, 30]),
    (2, false, [10, 20, 30]),
    (3, true, [10, 20, 30]),
    (257, true, [10, 20, 30]),
];

/// Whether a write leaves cells of these numbers.
fn leaves(
    rt: &impl Abort,
    alloc: Global,
    nodes: &mut Nodes,
    index: u32,
    when: bool,
    expected: &[u32; 3],
) -> bool {
    let condition = Nodes::constant(when);
    let cells = write_cell(alloc, nodes, &three(), &word(index), &word(7), condition).expect(
        rt, "memory",
    );
    let [first, second, third] = expected;
    cells.as_slice() == [word(*first), word(*second), word(*third)].as_slice()
}

/// Whether each write leaves its cells.
fn writes(rt: &impl Abort, alloc: Global, nodes: &mut Nodes) -> bool {
    for (index, when, expected) in &WRITTEN {
        if !leaves(rt, alloc, nodes, *index, *when, expected) {
            return false;
        }
    }
    true
}

/// Whether reads and writes have their values without a gate.
fn reads_then_writes(rt: &impl Abort, alloc: Global, nodes: &mut Nodes) -> bool {
    reads(rt, nodes) && writes(rt, alloc, nodes) && nodes.count() == 0
}

/// The same from no nodes on.
fn has_the_values(rt: &impl Abort, alloc: Global) -> bool {
    let mut nodes = Nodes::new(alloc);
    reads_then_writes(rt, alloc, &mut nodes)
}

#[test]
fn reads_and_writes(rt: HostRuntime) {
    assert!(rt; has_the_values(&rt, rt.alloc()));
}
