//! Several inputs of a program: their text, and whether each run fails.

ghost use Rattle.std.specs.Prelude.{◌≡◌, ◌≤◌, true, All, None, length, IfErr, IfOk};
ghost use Rattle.ba_answers.specs.Limits.{limit};
ghost use Rattle.ba_cases.specs.AtOnce.{Tells};
ghost use Rattle.ba_cases.specs.Inputs.{end_of, ends_answer, inputs_of, inputs_refusal};
ghost use Rattle.ba_tree.specs.Run.{are_bounds, fits};

use crate::parts::{check_failing, plain_run};
use crate::stop::Stop;
use ba_answers::answers::{Answer, InputFault};
use ba_answers::file::File;
use ba_inputs::{InputLine, InputsError, read_inputs};
use ba_items::Items;
use ba_tree::run::Bounds;
use ba_tree::tree::Program;
use std::alloc::Global;

/// The refusal of the inputs of a file for a fault, in the line that has it.
fn refused(file: File, fault: InputFault, line: Option<u64>) -> Stop
    ensures { result ≡ Stop.Answered (Answer.BadInput file fault line) }
{
    Stop::Answered(Answer::BadInput { file, fault, line })
}

/// The inputs that the text of a file writes for a program, one a line. So many are wanted at least. Else the
/// refusal of the text, or out of memory.
pub fn read_several_inputs(
    alloc: Global,
    file: File,
    least: u32,
    program: &Program,
    text: &[u8],
) -> Result<Items<InputLine>, Stop>
    requires { length text.now ≤ limit }
    ensures ok { IfOk result (λ inputs. inputs ≡ inputs_of program.now text.now) }
    ensures fit { IfOk result
        (λ inputs. All (λ entry. fits program.now entry.input ≡ true) inputs) }
    ensures accepted { IfOk result
        (λ _. inputs_refusal file least program.now text.now ≡ None) }
    ensures err { IfErr result
        (λ stop. Tells stop (inputs_refusal file least program.now text.now)) }
{
    match read_inputs(alloc, program, text, least) {
        Ok(inputs) => Ok(inputs),
        Err(InputsError::NotANumber { line, number }) => {
            Err(refused(file, InputFault::NotANumber(number), Some(line)))
        }
        Err(InputsError::OutOfRange { line, number }) => {
            Err(refused(file, InputFault::OutOfRange(number), Some(line)))
        }
        Err(InputsError::WrongCount { line }) => {
            Err(refused(file, InputFault::WrongCount, Some(line)))
        }
        Err(InputsError::NoInput) => Err(refused(file, InputFault::NoInput, None)),
        Err(InputsError::TooMany { line }) => Err(refused(file, InputFault::TooMany, Some(line))),
        Err(InputsError::Memory) => Err(Stop::Memory),
    }
}

/// Succeeds if the run on this input fails. Else the answer: it doesn't, or exceeds a bound.
fn check_run(
    alloc: Global,
    program: &Program,
    bounds: Bounds,
    entry: &InputLine,
) -> Result<(), Stop>
    requires bounds { are_bounds bounds ≡ true }
    ensures ok { IfOk result (λ _. end_of bounds program.now entry.now ≡ None) }
    ensures err { IfErr result (λ stop. Tells stop (end_of bounds program.now entry.now)) }
{
    let outcome = plain_run(alloc, program, &entry.input, bounds)?;
    check_failing(program, Some(entry.line), outcome)
}

/// Succeeds if the runs on all inputs fail. Else the answer of the first that doesn't.
pub fn check_runs(
    alloc: Global,
    program: &Program,
    bounds: Bounds,
    inputs: &[InputLine],
) -> Result<(), Stop>
    requires bounds { are_bounds bounds ≡ true }
    ensures ok { IfOk result (λ _. ends_answer bounds program.now inputs.now ≡ None) }
    ensures err { IfErr result (λ stop. Tells stop (ends_answer bounds program.now inputs.now)) }
{
    for entry in inputs {
        check_run(alloc, program, bounds, entry)?;
    }
    Ok(())
}
