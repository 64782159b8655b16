//! The judge of the runs on several inputs.

ghost use Rattle.std.specs.Prelude.{◌≡◌, IfOk, IsTrue, true};
ghost use Rattle.ba_all.specs.AllRuns.{judge_of_all};
ghost use Rattle.ba_tree.specs.Run.{are_bounds};

use crate::cuts::{allowed_by, good_prefix};
use ba_choices::Choice;
use ba_steps::RunJudge;
use ba_tree::run::{Bounds, Input};
use ba_tree::tree::Program;
use std::alloc::{AllocError, Global};

/// A judge that runs a program on several inputs, one after the other, within bounds.
#[derive(Drop)]
pub struct JudgeOfAll<'a> {
    alloc: Global,
    program: &'a Program,
    inputs: &'a [Input],
    bounds: Bounds,
    ghost bounds_hold: { IsTrue (are_bounds bounds) },
}

impl<'a> JudgeOfAll<'a> {
    /// The judge of this program on these inputs, within these bounds: 1 to 128 iterations of a loop, and
    /// 1 to 32 frames. It takes no memory.
    pub fn new(
        alloc: Global,
        program: &'a Program,
        inputs: &'a [Input],
        bounds: Bounds,
    ) -> JudgeOfAll<'a>
        requires { are_bounds bounds ≡ true }
        ensures program { result.program.now ≡ program.now }
        ensures inputs { result.inputs.now ≡ inputs.now }
        ensures bounds { result.bounds ≡ bounds }
    {
        JudgeOfAll {
            alloc,
            program,
            inputs,
            bounds,
        }
    }
}

impl<'a> RunJudge for JudgeOfAll<'a> {
    ghost use Rattle.ba_all.specs.AllRuns.{judge_of_all};

    ghost accepts = { λ judge. judge_of_all judge.program.now judge.inputs.now judge.bounds };

    fn good(&self, groups: &[u32], run: &[Choice]) -> Result<bool, AllocError> {
        are_good(
            self.alloc,
            self.program,
            self.inputs,
            self.bounds,
            groups,
            run,
        )
    }
}

/// Whether these choices are good for the runs on all inputs where the statements of these numbers are
/// relaxed: from the left each run uses up what it needs, and none is left.
///
/// The only error is out of memory.
fn are_good(
    alloc: Global,
    program: &Program,
    inputs: &[Input],
    bounds: Bounds,
    groups: &[u32],
    run: &[Choice],
) -> Result<bool, AllocError>
    requires bounds { are_bounds bounds ≡ true }
    ensures { IfOk result (λ good. good
        ≡ judge_of_all program.now inputs.now bounds groups.now run.now) }
{
    let allowed = allowed_by(alloc, groups)?;
    let mut rest = run;
    for input in inputs {
        let Some(count) = good_prefix(alloc, program, input, bounds, &allowed, rest)? else {
            return Ok(false);
        };
        let (_, others) = rest.split_at(count);
        rest = others;
    }
    Ok(rest.is_empty())
}
