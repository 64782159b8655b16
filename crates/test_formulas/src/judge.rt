//! A judge.

ghost use Rattle.std.specs.Prelude.{false};

use ba_choices::Choice;
use ba_steps::RunJudge;
use std::alloc::AllocError;

/// A judge for whom no run is good.
#[derive(Clone, Copy, Drop)]
pub struct NoRuns;

impl RunJudge for NoRuns {
    ghost accepts = { λ _ _ _. false };

    fn good(&self, _groups: &[u32], _run: &[Choice]) -> Result<bool, AllocError> {
        Ok(false)
    }
}
