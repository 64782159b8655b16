//! How many variables and clauses circuits take.

ghost use Rattle.ba_nodes.specs.Gates.{IsBitOf};
ghost use Rattle.ba_words.specs.Words.{AreBitsOf};

use crate::support::words::free_word;
use ba_clauses::{Encoding, clauses_of};
use ba_muldiv::mul;
use ba_nodes::{Bit, Nodes};
use ba_words::{Word, add, equal, less};
use std::alloc::Global;
use std::panic::Expect;
use std::process::Abort;

/// A circuit of two free words, with what is said of it.
#[derive(Clone, Copy)]
enum Circuit {
    /// The sum, which is read.
    Sum,
    /// The product, which is read.
    Product,
    /// The first is less, which is required.
    Less,
    /// They are equal, which is required.
    Equal,
    /// They differ, which is required.
    Different,
}

/// The circuits, each with its variables and its clauses:
/// - a sum has 14 clauses for each bit but the lowest, which has 7, and the highest, which has no carry and 8
/// - in `less` a majority has three clauses in one direction, and the `and` at the lowest bit two
/// - equal words have two clauses and a unit clause for each bit
/// - different words have two for each bit, and one over all
static SIZES: [(Circuit, u64, u64); 5] = [
    (Circuit::Sum, 158, 435),
    (Circuit::Product, 2151, 7945),
    (Circuit::Less, 95, 95),
    (Circuit::Equal, 96, 96),
    (Circuit::Different, 96, 65),
];

/// What is said of a circuit of two free words.
fn encoding(rt: &impl Abort, alloc: Global, circuit: Circuit) -> Encoding {
    let mut nodes = Nodes::new(alloc);
    let a = free_word(rt, &mut nodes);
    let b = free_word(rt, &mut nodes);
    match circuit {
        Circuit::Sum => {
            let word = add(&mut nodes, &a, &b).expect(rt, "memory");
            word_read(rt, alloc, &nodes, &word)
        }
        Circuit::Product => {
            let word = mul(&mut nodes, &a, &b).expect(rt, "memory");
            word_read(rt, alloc, &nodes, &word)
        }
        Circuit::Less => {
            let bit = less(&mut nodes, &a, &b, false).expect(rt, "memory");
            bit_required(rt, alloc, &nodes, bit)
        }
        Circuit::Equal => {
            let bit = equal(&mut nodes, &a, &b).expect(rt, "memory");
            bit_required(rt, alloc, &nodes, bit)
        }
        Circuit::Different => {
            let bit = equal(&mut nodes, &a, &b).expect(rt, "memory");
            bit_required(rt, alloc, &nodes, Nodes::not(bit))
        }
    }
}

/// A word is read.
fn word_read(rt: &impl Abort, alloc: Global, nodes: &Nodes, word: &Word) -> Encoding
    requires { AreBitsOf nodes.now word.now }
{
    clauses_of(alloc, nodes, &[], word).expect(rt, "memory")
}

/// A bit is required.
fn bit_required(rt: &impl Abort, alloc: Global, nodes: &Nodes, bit: Bit) -> Encoding
    requires { IsBitOf nodes.now bit }
{
    clauses_of(alloc, nodes, &[bit], &[]).expect(rt, "memory")
}

/// Whether a circuit takes so many variables and clauses.
fn takes(rt: &impl Abort, alloc: Global, circuit: Circuit, variables: u64, clauses: u64) -> bool {
    let encoding = encoding(rt, alloc, circuit);
    encoding.formula.variables() == variables && encoding.formula.len() == clauses
}

/// Whether all circuits take what they are to take.
fn all_take(rt: &impl Abort, alloc: Global) -> bool {
    for (circuit, variables, clauses) in SIZES {
        if !takes(rt, alloc, circuit, variables, clauses) {
            return false;
        }
    }
    true
}

#[test]
fn circuits_take_few_clauses(rt: HostRuntime) {
    assert!(rt; all_take(&rt, rt.alloc()));
}
