//! The parts of a call before any search: the input, the weights, the size of the program, and its run as
//! written.

ghost use Rattle.std.specs.Prelude.{◌≡◌, ◌≢◌, ◌≤◌, true, None, Option, Some, length, IfErr, IfOk, IsSome};
ghost use Rattle.ba_cases.specs.AtOnce.{Tells, input_of, input_refusal, position_of, size_refusal, unfailing, weights_refusal};
ghost use Rattle.ba_answers.specs.Limits.{limit};
ghost use Rattle.ba_inputs.specs.Weights.{weights_in};
ghost use Rattle.ba_laws.specs.Names.{NamesStatement};
ghost use Rattle.ba_tree.specs.Choices.{info_of};
ghost use Rattle.ba_tree.specs.Least.{AreWeightsOf};
ghost use Rattle.ba_tree.specs.Run.{are_bounds, fits, plain_run};
ghost use Rattle.ba_tree.specs.declared.run.Outcome.{Outcome};

use crate::stop::Stop;
use ba_answers::answers::{Answer, InputFault};
use ba_answers::file::File;
use ba_inputs::{InputError, WeightsError, read_input, read_weights};
use ba_interp::run;
use ba_items::Items;
use ba_numbers::ids::{At, StmtId};
use ba_tree::run::{Allowed, Bounds, Input, Outcome, Weights};
use ba_tree::tree::Program;
use ba_units::units;
use std::alloc::{AllocError, Global};

/// The limit on units of a program.
pub(crate) const UNIT_LIMIT: u32 = 20000;

/// The input that the text of a file writes for a program. Else the refusal of the text, or out of memory.
pub fn read_one_input(
    alloc: Global,
    file: File,
    program: &Program,
    text: &[u8],
) -> Result<Input, Stop>
    requires { length text.now ≤ limit }
    ensures ok { IfOk result (λ input. input ≡ input_of program.now text.now) }
    ensures fits { IfOk result (λ input. fits program.now input ≡ true) }
    ensures accepted { IfOk result (λ _. input_refusal file program.now text.now ≡ None) }
    ensures err { IfErr result (λ stop. Tells stop (input_refusal file program.now text.now)) }
{
    let fault = match read_input(alloc, program, text) {
        Ok(input) => return Ok(input),
        Err(InputError::NotANumber(number)) => InputFault::NotANumber(number),
        Err(InputError::OutOfRange(number)) => InputFault::OutOfRange(number),
        Err(InputError::WrongCount) => InputFault::WrongCount,
        Err(InputError::Memory) => return Err(Stop::Memory),
    };
    Err(Stop::Answered(Answer::BadInput {
        file,
        fault,
        line: None,
    }))
}

/// The weights that a text gives the statements of a program. Else the refusal of the text, or out of memory.
pub fn read_weights_of(alloc: Global, program: &Program, text: &[u8]) -> Result<Weights, Stop>
    ensures ok { IfOk result (λ weights. weights.of ≡ weights_in program.now text.now) }
    ensures weighed { IfOk result (λ weights. AreWeightsOf program.now weights.of) }
    ensures accepted { IfOk result (λ _. weights_refusal text.now ≡ None) }
    ensures err { IfErr result (λ stop. Tells stop (weights_refusal text.now)) }
{
    match read_weights(alloc, program, text) {
        Ok(weights) => Ok(weights),
        Err(WeightsError::Line(line)) => Err(Stop::Answered(Answer::BadWeights(line))),
        Err(WeightsError::Memory) => Err(Stop::Memory),
    }
}

/// Succeeds if a program isn't too large. Else its refusal, or out of memory.
pub fn check_size(program: &Program, bounds: Bounds) -> Result<(), Stop>
    requires { are_bounds bounds ≡ true }
    ensures ok { IfOk result (λ _. size_refusal program.now bounds ≡ None) }
    ensures err { IfErr result (λ stop. Tells stop (size_refusal program.now bounds)) }
{
    if units(program, bounds) > UNIT_LIMIT {
        return Err(Stop::Answered(Answer::TooLarge));
    }
    Ok(())
}

/// The outcome of the run as written.
///
/// The only error is out of memory.
pub fn plain_run(
    alloc: Global,
    program: &Program,
    input: &Input,
    bounds: Bounds,
) -> Result<Outcome, AllocError>
    requires { are_bounds bounds ≡ true }
    ensures outcome { IfOk result
        (λ outcome. outcome ≡ plain_run program.now input.now bounds) }
    ensures chosen { IfOk result (λ outcome. outcome ≢ Outcome.WrongChoices) }
    ensures named { IfOk result (NamesStatement program.now) }
{
    let nothing = Allowed::Statements(Items::new(alloc));
    run(alloc, program, input, bounds, &nothing, &[])
}

/// The position of a statement of the program.
pub fn position_of(program: &Program, stmt: StmtId) -> At
    requires there { IsSome (info_of program.now stmt) }
    ensures { position_of program.now stmt ≡ Some result }
{
    program.statements.as_slice()[stmt.0 as usize - 1].at
}

/// Succeeds if a run with this outcome fails. Else the answer: the run doesn't fail, or exceeds a bound. If
/// there are several inputs, the line of this one is named.
pub fn check_failing(program: &Program, line: Option<u64>, outcome: Outcome) -> Result<(), Stop>
    requires named { NamesStatement program.now outcome }
    ensures ok { IfOk result (λ _. unfailing program.now line outcome ≡ None) }
    ensures err { IfErr result (λ stop. Tells stop (unfailing program.now line outcome)) }
{
    let answer = match outcome {
        Outcome::Done => Answer::NotFailing { line },
        Outcome::Beyond(stmt) => Answer::BeyondBound {
            at: position_of(program, stmt),
            line,
        },
        Outcome::AssertFails(_) | Outcome::Trap(_) | Outcome::WrongChoices => return Ok(()),
    };
    Err(Stop::Answered(answer))
}
