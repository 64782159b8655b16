//! A judge.

use ba_choices::Choice;
use ba_steps::RunJudge;
use std::alloc::AllocError;

/// A judge to whom each run without choices is good, for whatever groups.
#[derive(Clone, Copy, Drop)]
pub struct EmptyRuns;

impl RunJudge for EmptyRuns {
    ghost use Rattle.solver_tests.specs.Runs.{is_empty_run};

    ghost accepts = { λ _. is_empty_run };

    fn good(&self, _groups: &[u32], run: &[Choice]) -> Result<bool, AllocError> {
        Ok(run.is_empty())
    }
}
