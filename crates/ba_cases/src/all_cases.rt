//! A program with several inputs that are taken together, and the weights of its statements.

ghost use Rattle.std.specs.Prelude.{◌≡◌, ◌≤◌, true, None, length, map, IfErr, IfOk};
ghost use Rattle.ba_answers.specs.Limits.{limit};
ghost use Rattle.ba_cases.specs.AllCases.{IsCaseOfAll, all_answer, size_refusal_of_all};
ghost use Rattle.ba_cases.specs.AtOnce.{IsStopped, Tells};
ghost use Rattle.ba_inputs.specs.declared.inputs.InputLine.{InputLine};
ghost use Rattle.ba_tree.specs.Run.{are_bounds};

use crate::inputs::{check_runs, read_several_inputs};
use crate::parts::{UNIT_LIMIT, read_weights_of};
use crate::programs::read_program;
use crate::stop::Stop;
use crate::texts::Texts;
use ba_answers::answers::Answer;
use ba_answers::file::File;
use ba_inputs::InputLine;
use ba_items::Items;
use ba_tree::run::{Bounds, Input, Weights};
use ba_tree::tree::Program;
use ba_units::units;
use std::alloc::{AllocError, Global};

/// A program with several inputs, and the weights of its statements.
pub struct CaseOfAll {
    pub program: Program,
    pub inputs: Items<Input>,
    pub weights: Weights,
}

impl Drop for CaseOfAll {
    fn drop(self) {
        let CaseOfAll {
            program: _,
            inputs: _,
            weights: _,
        } = self;
    }
}

/// Succeeds if a program isn't too large that is taken once for each of this many inputs. Else its refusal.
fn check_size_of_all(program: &Program, bounds: Bounds, count: usize) -> Result<(), Stop>
    requires { are_bounds bounds ≡ true }
    ensures ok { IfOk result (λ _. size_refusal_of_all program.now bounds count ≡ None) }
    ensures err { IfErr result
        (λ stop. Tells stop (size_refusal_of_all program.now bounds count)) }
{
    let units = units(program, bounds) as usize;
    match units.checked_mul(count) {
        Some(all) if all <= UNIT_LIMIT as usize => Ok(()),
        _ => Err(Stop::Answered(Answer::TooLarge)),
    }
}

/// Inputs without the numbers of their lines.
///
/// The only error is out of memory.
fn without_lines(alloc: Global, entries: Items<InputLine>) -> Result<Items<Input>, AllocError>
    ensures { IfOk result (λ inputs. inputs
        ≡ map (λ (entry : InputLine). entry.input) entries) }
{
    let inputs = entries
        .into_vec()
        .into_iter()
        .map(|entry| entry.input)
        .collect(alloc)?;
    Ok(Items::from_vec(inputs))
}

/// The case of these texts, if each run as written fails within the bounds. Else the answer before any
/// search, or out of memory.
///
/// In this order it reads the program, the inputs and the weights, and counts the units, once for each input.
/// Then it runs the program as written on each input.
pub fn read_case_of_all(alloc: Global, texts: &Texts, bounds: Bounds) -> Result<CaseOfAll, Stop>
    requires program_short { length texts.now.program ≤ limit }
    requires input_short { length texts.now.input ≤ limit }
    requires bounds { are_bounds bounds ≡ true }
    ensures ok { IfOk result (IsCaseOfAll bounds texts.now) }
    ensures err { IfErr result (IsStopped texts.now.program (all_answer bounds texts.now)) }
{
    let program = read_program(alloc, texts.program.as_slice())?;
    let inputs = read_several_inputs(alloc, File::Inputs, 1, &program, texts.input.as_slice())?;
    let weights = read_weights_of(alloc, &program, texts.weights.as_slice())?;
    check_size_of_all(&program, bounds, inputs.len())?;
    check_runs(alloc, &program, bounds, inputs.as_slice())?;
    Ok(CaseOfAll {
        program,
        inputs: without_lines(alloc, inputs)?,
        weights,
    })
}
