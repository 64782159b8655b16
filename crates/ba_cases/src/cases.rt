//! A program with an input whose run fails, and the weights of its statements.

ghost use Rattle.std.specs.Prelude.{◌≡◌, ◌≤◌, true, length, IfErr, IfOk};
ghost use Rattle.ba_answers.specs.Limits.{limit};
ghost use Rattle.ba_cases.specs.AtOnce.{IsStopped, case_answer};
ghost use Rattle.ba_cases.specs.Cases.{IsCaseOf};
ghost use Rattle.ba_tree.specs.Run.{are_bounds};

use crate::parts::{check_failing, check_size, plain_run, read_one_input, read_weights_of};
use crate::programs::read_program;
use crate::stop::Stop;
use crate::texts::Texts;
use ba_answers::file::File;
use ba_tree::run::{Bounds, Input, Weights};
use ba_tree::tree::Program;
use std::alloc::Global;

/// A program with an input, and the weights of its statements.
pub struct Case {
    pub program: Program,
    pub input: Input,
    pub weights: Weights,
}

impl Drop for Case {
    fn drop(self) {
        let Case {
            program: _,
            input: _,
            weights: _,
        } = self;
    }
}

/// The case of these texts, if its run as written fails within the bounds. Else the answer before any search,
/// or out of memory.
///
/// In this order it reads the program, the input and the weights, counts the units, and runs the program as
/// written.
pub fn read_case(alloc: Global, texts: &Texts, bounds: Bounds) -> Result<Case, Stop>
    requires program_short { length texts.now.program ≤ limit }
    requires input_short { length texts.now.input ≤ limit }
    requires bounds { are_bounds bounds ≡ true }
    ensures ok { IfOk result (IsCaseOf bounds texts.now) }
    ensures err { IfErr result (IsStopped texts.now.program (case_answer bounds texts.now)) }
{
    let program = read_program(alloc, texts.program.as_slice())?;
    let input = read_one_input(alloc, File::Input, &program, texts.input.as_slice())?;
    let weights = read_weights_of(alloc, &program, texts.weights.as_slice())?;
    check_size(&program, bounds)?;
    let outcome = plain_run(alloc, &program, &input, bounds)?;
    check_failing(&program, None, outcome)?;
    Ok(Case {
        program,
        input,
        weights,
    })
}
