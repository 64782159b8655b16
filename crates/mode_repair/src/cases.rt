//! A program that fails on one input and passes others.

ghost use Rattle.std.specs.Prelude.{◌≡◌, true, None, IfErr, IfOk};
ghost use Rattle.ba_cases.specs.AtOnce.{IsStopped, Tells};
ghost use Rattle.ba_tree.specs.Run.{are_bounds};
ghost use Rattle.mode_repair.specs.Cases.{IsCaseOf, passing_end, passing_ends, repair_answer, not_passing};
ghost use Rattle.mode_repair.specs.Jobs.{AreShort};

use crate::texts::RepairTexts;
use ba_answers::answers::Answer;
use ba_answers::file::File;
use ba_cases::{
    Stop, check_failing, check_size, plain_run, read_one_input, read_program, read_several_inputs,
    read_weights_of,
};
use ba_inputs::InputLine;
use ba_items::Items;
use ba_tree::run::{Bounds, Input, Outcome, Weights};
use ba_tree::tree::Program;
use std::alloc::Global;

/// A program with an input on which it fails and inputs on which it passes, and the weights of its
/// statements.
pub struct RepairCase {
    pub program: Program,
    pub failing: Input,
    pub passing: Items<InputLine>,
    pub weights: Weights,
}

impl Drop for RepairCase {
    fn drop(self) {
        let RepairCase {
            program: _,
            failing: _,
            passing: _,
            weights: _,
        } = self;
    }
}

/// Nothing if a run with this end is done; else the answer that the input in this line doesn't pass.
fn check_done(line: u64, outcome: Outcome) -> Result<(), Stop>
    ensures ok { IfOk result (λ _. not_passing line outcome ≡ None) }
    ensures err { IfErr result (λ stop. Tells stop (not_passing line outcome)) }
{
    match outcome {
        Outcome::Done => Ok(()),
        _ => Err(Stop::Answered(Answer::PassingFails(line))),
    }
}

/// Nothing if the run on this input is done; else the answer that it doesn't pass.
fn check_pass(
    alloc: Global,
    program: &Program,
    bounds: Bounds,
    entry: &InputLine,
) -> Result<(), Stop>
    requires bounds { are_bounds bounds ≡ true }
    ensures ok { IfOk result (λ _. passing_end bounds program.now entry.now ≡ None) }
    ensures err { IfErr result (λ stop. Tells stop (passing_end bounds program.now entry.now)) }
{
    let outcome = plain_run(alloc, program, &entry.input, bounds)?;
    check_done(entry.line, outcome)
}

/// Nothing if the runs on all inputs are done; else the answer of the first that isn't.
fn check_passes(
    alloc: Global,
    program: &Program,
    bounds: Bounds,
    inputs: &[InputLine],
) -> Result<(), Stop>
    requires bounds { are_bounds bounds ≡ true }
    ensures ok { IfOk result (λ _. passing_ends bounds program.now inputs.now ≡ None) }
    ensures err { IfErr result (λ stop. Tells stop (passing_ends bounds program.now inputs.now)) }
{
    for entry in inputs {
        check_pass(alloc, program, bounds, entry)?;
    }
    Ok(())
}

/// The case of these texts, if the run on the failing input fails and those on the passing ones are done.
/// Else the answer before any search, or out of memory.
///
/// It reads the program, the failing input, the passing ones and the weights, in this order. Then it counts
/// the units and runs the program as written on each input.
pub fn read_repair_case(
    alloc: Global,
    texts: &RepairTexts,
    bounds: Bounds,
) -> Result<RepairCase, Stop>
    requires short { AreShort texts.now }
    requires bounds { are_bounds bounds ≡ true }
    ensures ok { IfOk result (IsCaseOf bounds texts.now) }
    ensures err { IfErr result (IsStopped texts.now.program (repair_answer bounds texts.now)) }
{
    let program = read_program(alloc, texts.program.as_slice())?;
    let failing = read_one_input(alloc, File::Failing, &program, texts.failing.as_slice())?;
    let passing = read_several_inputs(alloc, File::Passing, 0, &program, texts.passing.as_slice())?;
    let weights = read_weights_of(alloc, &program, texts.weights.as_slice())?;
    check_size(&program, bounds)?;
    let outcome = plain_run(alloc, &program, &failing, bounds)?;
    check_failing(&program, None, outcome)?;
    check_passes(alloc, &program, bounds, passing.as_slice())?;
    Ok(RepairCase {
        program,
        failing,
        passing,
        weights,
    })
}
