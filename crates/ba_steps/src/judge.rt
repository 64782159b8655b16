//! Judges of runs.

ghost use Rattle.std.specs.Prelude.{◌≡◌, Bool, IfOk, List, ℕ};
ghost use Rattle.ba_choices.specs.declared.Choice.{Choice};

use ba_choices::Choice;
use std::alloc::AllocError;

/// A judge tells which lists of choices are good runs for which groups.
pub trait RunJudge {
    // Whether the run is good if these groups are relaxed.
    ghost accepts: { Self → List ℕ → List Choice → Bool };

    /// Whether the run is good if these groups are relaxed. The only error is out of memory.
    fn good(&self, groups: &[u32], run: &[Choice]) -> Result<bool, AllocError>
        ensures { IfOk result (λ good. good ≡ accepts self.now groups.now run.now) };
}
