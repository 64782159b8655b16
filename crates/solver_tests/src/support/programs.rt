//! The formulas of programs.

use ba_encode::Encoded;
use ba_formula::formula_of;
use ba_inputs::{read_input, read_weights};
use ba_tree::run::Bounds;
use std::alloc::Global;
use std::panic::Expect;
use std::process::Abort;
use test_programs::program_of;

/// The formula of a program on an input and with weights, each as users write it. Each entry of a loop may
/// have so many turns.
pub fn encoded_of(
    rt: &impl Abort,
    alloc: Global,
    program: &str,
    input: &str,
    turns: u32,
    weights: &str,
) -> Encoded {
    assert!(rt; input.len() <= 65_536 && 1 <= turns && turns <= 128);
    let program = program_of(alloc, program).expect(rt, "a program");
    let input = read_input(alloc, &program, input.as_bytes()).expect(rt, "an input");
    let weights = read_weights(alloc, &program, weights.as_bytes()).expect(rt, "weights");
    let bounds = Bounds { turns, frames: 16 };
    formula_of(alloc, &program, &input, bounds, &weights).expect(rt, "memory")
}
