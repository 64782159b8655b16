//! A program with several inputs, the run on each of which fails.

ghost use Rattle.std.specs.Prelude.{◌≡◌, true, IfErr, IfOk};
ghost use Rattle.ba_cases.specs.AtOnce.{IsStopped};
ghost use Rattle.ba_cases.specs.Reading.{AreShort};
ghost use Rattle.ba_tree.specs.Run.{are_bounds};
ghost use Rattle.mode_rank.specs.Inputs.{AreRunsOf, rank_answer};

use ba_answers::file::File;
use ba_cases::{
    Stop, Texts, check_runs, check_size, read_program, read_several_inputs, read_weights_of,
};
use ba_inputs::InputLine;
use ba_items::Items;
use ba_tree::run::{Bounds, Weights};
use ba_tree::tree::Program;
use std::alloc::Global;

/// A program with several inputs, and the weights of its statements.
pub struct Runs {
    pub program: Program,
    pub inputs: Items<InputLine>,
    pub weights: Weights,
}

impl Drop for Runs {
    fn drop(self) {
        let Runs {
            program: _,
            inputs: _,
            weights: _,
        } = self;
    }
}

/// The runs of these texts, if each of them fails within the bounds. Else the answer before any search, or
/// out of memory.
///
/// In this order it reads the program, the inputs and the weights, counts the units, and runs the program as
/// written on each input.
pub fn read_runs(alloc: Global, texts: &Texts, bounds: Bounds) -> Result<Runs, Stop>
    requires short { AreShort texts.now }
    requires bounds { are_bounds bounds ≡ true }
    ensures ok { IfOk result (AreRunsOf bounds texts.now) }
    ensures err { IfErr result (IsStopped texts.now.program (rank_answer bounds texts.now)) }
{
    let program = read_program(alloc, texts.program.as_slice())?;
    let inputs = read_several_inputs(alloc, File::Inputs, 1, &program, texts.input.as_slice())?;
    let weights = read_weights_of(alloc, &program, texts.weights.as_slice())?;
    check_size(&program, bounds)?;
    check_runs(alloc, &program, bounds, inputs.as_slice())?;
    Ok(Runs {
        program,
        inputs,
        weights,
    })
}
