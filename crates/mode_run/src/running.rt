//! The run of a program as written.

ghost use Rattle.std.specs.Prelude.{◌≡◌, ◌≢◌, true, IfErr, IfOk, Some};
ghost use Rattle.ba_cases.specs.AtOnce.{IsAtOnce, IsStopped, Tells};
ghost use Rattle.ba_cases.specs.Reading.{AreShort};
ghost use Rattle.ba_laws.specs.Names.{NamesStatement};
ghost use Rattle.ba_search.specs.declared.search.SearchError.{SearchError};
ghost use Rattle.ba_tree.specs.Run.{are_bounds};
ghost use Rattle.ba_tree.specs.declared.run.Outcome.{Outcome};
ghost use Rattle.mode_run.specs.Runs.{end_answer, files_of, run_answer};

use ba_answers::answers::Answer;
use ba_answers::file::File;
use ba_cases::{
    Stop, Texts, check_failing, check_size, files_for, plain_run, position_of, read_one_input,
    read_program, read_weights_of,
};
use ba_commands::Text;
use ba_files::Named;
use ba_search::SearchError;
use ba_tree::run::{Bounds, Outcome};
use ba_tree::tree::Program;
use std::alloc::Global;

/// The job of running a program.
#[derive(Drop)]
pub struct RunJob<'a> {
    /// The file of the program.
    pub program: Text<'a>,
    /// The file of the input.
    pub input: Text<'a>,
    /// The bounds of the run.
    pub bounds: Bounds,
}

impl<'a> RunJob<'a> {
    /// The files that are read: the program and the input.
    pub fn files(&self) -> [Named<'a>; 3]
        ensures { result ≡ files_of self.now }
    {
        files_for(&self.program, File::Input, &self.input, &None)
    }
}

/// The answer for a run with this outcome.
fn end_answer(program: &Program, outcome: Outcome) -> Result<Answer, Stop>
    requires unchosen { outcome ≢ Outcome.WrongChoices }
    requires named { NamesStatement program.now outcome }
    ensures ok { IfOk result (λ answer. end_answer program.now outcome ≡ Some answer) }
    ensures err { IfErr result (λ stop. Tells stop (end_answer program.now outcome)) }
{
    check_failing(program, None, outcome)?;
    match outcome {
        Outcome::AssertFails(stmt) => Ok(Answer::AssertFails(position_of(program, stmt))),
        Outcome::Trap(stmt) => Ok(Answer::Trap(position_of(program, stmt))),
        // The run fails.
        _ => unreachable!(),
    }
}

/// The answer for the run of these texts.
fn run_case(alloc: Global, texts: &Texts, bounds: Bounds) -> Result<Answer, Stop>
    requires short { AreShort texts.now }
    requires bounds { are_bounds bounds ≡ true }
    ensures ok { IfOk result (IsAtOnce texts.now.program (run_answer bounds texts.now)) }
    ensures err { IfErr result (IsStopped texts.now.program (run_answer bounds texts.now)) }
{
    let program = read_program(alloc, texts.program.as_slice())?;
    let input = read_one_input(alloc, File::Input, &program, texts.input.as_slice())?;
    let _weights = read_weights_of(alloc, &program, texts.weights.as_slice())?;
    check_size(&program, bounds)?;
    let outcome = plain_run(alloc, &program, &input, bounds)?;
    end_answer(&program, outcome)
}

/// Where the run of a program fails; or that it doesn't fail or exceeds a bound; or why there is no run.
///
/// In this order it reads the program and the input, counts the units, and runs the program as written. The
/// only error is out of memory.
pub fn run_texts(alloc: Global, job: &RunJob, texts: &Texts) -> Result<Answer, SearchError>
    requires short { AreShort texts.now }
    requires bounds { are_bounds job.now.bounds ≡ true }
    ensures answer { IfOk result
        (IsAtOnce texts.now.program (run_answer job.now.bounds texts.now)) }
    ensures err { IfErr result (λ error. error ≡ SearchError.Memory) }
{
    match run_case(alloc, texts, job.bounds) {
        Ok(answer) => Ok(answer),
        Err(stop) => stop.answer(),
    }
}
