//! The test oracle of runs. Choices are good for a set of statements if the run on the failing input with
//! these relaxed is `Done`.
#![tactic(auto)]

ghost use Rattle.std.specs.Prelude.{◌≡◌, IfOk, IsTrue, map, true};
ghost use Rattle.ba_tree.specs.Run.{are_bounds, is_done};
ghost use Rattle.ba_tree.specs.Least.{judge_of, stmt_of};

use ba_choices::Choice;
use ba_interp::run;
use ba_items::Items;
use ba_numbers::ids::StmtId;
use ba_steps::RunJudge;
use ba_tree::run::{Allowed, Bounds, Input, Outcome};
use ba_tree::tree::Program;
use std::alloc::{AllocError, Global};

/// The statements of these numbers.
///
/// The only error is out of memory.
fn statements(alloc: Global, numbers: &[u32]) -> Result<Items<StmtId>, AllocError>
    ensures { IfOk result (λ statements. statements ≡ map stmt_of numbers.now) }
{
    let mut statements = Items::new(alloc);
    for number in numbers {
        statements.push(StmtId(*number))?;
    }
    Ok(statements)
}

/// Whether a run met every assertion, without a trap and within its bounds.
fn is_done(outcome: Outcome) -> bool
    ensures { result ≡ is_done outcome }
{
    matches!(outcome, Outcome::Done)
}

/// A judge that runs a program on an input, within bounds.
#[derive(Drop)]
pub struct ProgramJudge<'a> {
    alloc: Global,
    program: &'a Program,
    input: &'a Input,
    bounds: Bounds,
    ghost bounds_hold: { IsTrue (are_bounds bounds) },
}

impl<'a> ProgramJudge<'a> {
    /// The judge of this program on this input, within these bounds: 1 to 128 iterations and 1 to 32 frames.
    /// It takes no memory.
    pub fn new(
        alloc: Global,
        program: &'a Program,
        input: &'a Input,
        bounds: Bounds,
    ) -> ProgramJudge<'a>
        requires { are_bounds bounds ≡ true }
        ensures program { result.program.now ≡ program.now }
        ensures input { result.input.now ≡ input.now }
        ensures bounds { result.bounds ≡ bounds }
    {
        ProgramJudge {
            alloc,
            program,
            input,
            bounds,
        }
    }
}

impl<'a> RunJudge for ProgramJudge<'a> {
    ghost use Rattle.ba_tree.specs.Least.{judge_of};

    ghost accepts = { λ judge. judge_of judge.program.now judge.input.now judge.bounds };

    fn good(&self, groups: &[u32], run: &[Choice]) -> Result<bool, AllocError> {
        let allowed = Allowed::Statements(statements(self.alloc, groups)?);
        let outcome = ba_interp::run(
            self.alloc,
            self.program,
            self.input,
            self.bounds,
            &allowed,
            run,
        )?;
        Ok(is_done(outcome))
    }
}
