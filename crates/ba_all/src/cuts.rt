//! Choices of several runs, cut from the left.

ghost use Rattle.std.specs.Prelude.{◌≡◌, ◌≤◌, ℕ, true, List, Some, length, map, take, IfOk, IfSome};
ghost use Rattle.ba_all.specs.AllRuns.{judge_of_all, tests_of};
ghost use Rattle.ba_all.specs.Cuts.{IsCut};
ghost use Rattle.ba_tree.specs.Least.{judge_of, stmt_of};
ghost use Rattle.ba_tree.specs.Run.{are_bounds, is_done};
ghost use Rattle.ba_tree.specs.declared.run.Allowed.{Allowed};

use ba_choices::Choice;
use ba_interp::run_prefix;
use ba_items::Items;
use ba_numbers::ids::StmtId;
use ba_tree::run::{Allowed, Bounds, Input, Outcome};
use ba_tree::tree::Program;
use std::alloc::{AllocError, Global};

/// The statements of these numbers, as what a run may relax.
///
/// The only error is out of memory.
pub(crate) fn allowed_by(alloc: Global, numbers: &[u32]) -> Result<Allowed, AllocError>
    ensures { IfOk result (λ allowed. allowed ≡ Allowed.Statements (map stmt_of numbers.now)) }
{
    let mut statements = Items::new(alloc);
    for number in numbers {
        statements.push(StmtId(*number))?;
    }
    Ok(Allowed::Statements(statements))
}

/// Whether a run met every assertion, without a trap and within its bounds.
fn is_done(outcome: Outcome) -> bool
    ensures { result ≡ is_done outcome }
{
    matches!(outcome, Outcome::Done)
}

/// How many of these choices make a good run on an input where these statements are relaxed, if some number
/// of them does. No other number does, since a run leaves what it does not need.
///
/// The only error is out of memory.
pub(crate) fn good_prefix(
    alloc: Global,
    program: &Program,
    input: &Input,
    bounds: Bounds,
    allowed: &Allowed,
    choices: &[Choice],
) -> Result<Option<usize>, AllocError>
    requires bounds { are_bounds bounds ≡ true }
    ensures good { (set : List ℕ) → allowed.now ≡ Allowed.Statements (map stmt_of set)
        → IfOk result (λ found. IfSome found (λ count.
        judge_of program.now input.now bounds set (take count choices.now) ≡ true)) }
    ensures within { IfOk result (λ found. IfSome found (λ count. count ≤ length choices.now)) }
    ensures only { (set : List ℕ) (count : ℕ) → allowed.now ≡ Allowed.Statements (map stmt_of set)
        → count ≤ length choices.now
        → judge_of program.now input.now bounds set (take count choices.now) ≡ true
        → IfOk result (λ found. found ≡ Some count) }
{
    let run = run_prefix(alloc, program, input, bounds, allowed, choices)?;
    if is_done(run.outcome) {
        Ok(Some(choices.len() - run.left))
    } else {
        Ok(None)
    }
}

/// The choices of the runs on all inputs, cut into those of each run. There is one such cut. The choices are
/// good for the set.
///
/// The only error is out of memory.
pub fn runs_in<'a>(
    alloc: Global,
    program: &Program,
    inputs: &[Input],
    bounds: Bounds,
    set: &[u32],
    choices: &'a [Choice],
) -> Result<Vec<&'a [Choice]>, AllocError>
    requires bounds { are_bounds bounds ≡ true }
    requires good { judge_of_all program.now inputs.now bounds set.now choices.now ≡ true }
    ensures { IfOk result (λ runs. IsCut (tests_of program.now inputs.now bounds set.now)
        choices.now (map (λ run. run.now) runs.items)) }
{
    let allowed = allowed_by(alloc, set)?;
    let mut runs = Vec::with_capacity(alloc, inputs.len())?;
    let mut rest = choices;
    for input in inputs {
        let Some(count) = good_prefix(alloc, program, input, bounds, &allowed, rest)? else {
            unreachable!()
        };
        let (run, others) = rest.split_at(count);
        runs.push(run)?;
        rest = others;
    }
    Ok(runs)
}
