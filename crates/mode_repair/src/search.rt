//! The search for the least sets of a program that fails, and the edits of their statements.

ghost use Rattle.std.specs.Prelude.{◌≡◌, ◌∷◌, true, map, IfOk};
ghost use Rattle.ba_derivations.specs.Derivations.{sets_of};
ghost use Rattle.ba_repair.specs.Edits.{edits_of};
ghost use Rattle.ba_repair.specs.Good.{AreGood};
ghost use Rattle.ba_tree.specs.Run.{are_bounds};
ghost use Rattle.ba_tree.specs.Trees.{tree_of};
ghost use Rattle.mode_repair.specs.Answers.{IsRepaired, TellsVerdict, statements_in};
ghost use Rattle.mode_repair.specs.Cases.{IsCaseOf};
ghost use Rattle.mode_repair.specs.Jobs.{AreShort, MayBeDone};
ghost use Rattle.mode_repair.specs.Searches.{IsSearch, TextsEnd};
ghost use Rattle.mode_repair.specs.declared.texts.RepairTexts.{RepairTexts};

use crate::cases::{RepairCase, read_repair_case};
use crate::jobs::RepairJob;
use crate::report::repair_text;
use crate::statements::statements_in;
use crate::texts::RepairTexts;
use ba_answers::answers::Answer;
use ba_derivations::{FoundSet, Verdict};
use ba_items::Items;
use ba_localise::localise;
use ba_repair::{Edit, edits, good_edits};
use ba_search::{SearchError, SearchRules};
use ba_steps::StepSink;
use ba_tree::run::{Bounds, Input};
use std::alloc::{AllocError, Global};

/// All inputs of a case, the failing one first.
///
/// The only error is out of memory.
fn all_inputs(alloc: Global, case: &RepairCase) -> Result<Vec<&Input>, AllocError>
    ensures { IfOk result (λ inputs. map (λ input. input.now) inputs.items
        ≡ case.now.failing ∷ map (λ entry. entry.input) case.now.passing) }
{
    let mut inputs = Vec::new(alloc);
    inputs.push(&case.failing)?;
    for entry in case.passing.as_slice() {
        inputs.push(&entry.input)?;
    }
    Ok(inputs)
}

/// The edits at the statements of these sets that are good for all inputs of a case.
///
/// The only error is out of memory.
fn good_at(
    alloc: Global,
    case: &RepairCase,
    bounds: Bounds,
    sets: &[FoundSet],
) -> Result<Vec<Edit>, AllocError>
    requires bounds { are_bounds bounds ≡ true }
    ensures { IfOk result (λ good. AreGood case.now.program bounds
        (case.now.failing ∷ map (λ entry. entry.input) case.now.passing)
        (edits_of (tree_of case.now.program) (statements_in case.now.program (sets_of sets.now)))
        good.items) }
{
    let stmts = statements_in(alloc, &case.program, sets)?;
    let tried = edits(alloc, &case.program, stmts.as_slice())?;
    let inputs = all_inputs(alloc, case)?;
    good_edits(
        alloc,
        &case.program,
        tried.as_slice(),
        inputs.as_slice(),
        bounds,
    )
}

/// The answer that reports the edits at the statements of these sets that are good for all inputs of a case.
///
/// The only error is out of memory.
fn repaired_answer(
    alloc: Global,
    job: &RepairJob,
    source: &[u8],
    case: &RepairCase,
    sets: &[FoundSet],
) -> Result<Answer, AllocError>
    requires bounds { are_bounds job.now.bounds ≡ true }
    ensures { (x : RepairTexts) → source.now ≡ x.program → IsCaseOf job.now.bounds x case.now
        → IfOk result (IsRepaired job.now x case.now.program (sets_of sets.now)) }
{
    let edits = good_at(alloc, case, job.bounds, sets)?;
    let bytes = repair_text(alloc, source, &case.program, edits.as_slice())?;
    Ok(Answer::Edits(Items::from_vec(bytes)))
}

/// The answer that tells a verdict on the failing run of a case.
///
/// The only error is out of memory.
fn verdict_answer(
    alloc: Global,
    job: &RepairJob,
    source: &[u8],
    case: &RepairCase,
    verdict: &Verdict,
) -> Result<Answer, AllocError>
    requires bounds { are_bounds job.now.bounds ≡ true }
    ensures { (x : RepairTexts) → source.now ≡ x.program → IsCaseOf job.now.bounds x case.now
        → IfOk result (TellsVerdict job.now x case.now.program verdict.now) }
{
    match verdict {
        Verdict::Located { sets, .. } => {
            repaired_answer(alloc, job, source, case, sets.as_slice())
        }
        Verdict::NoRepair => Ok(Answer::NoRepair),
        Verdict::TooMany { weight, .. } => Ok(Answer::TooManySets {
            weight: *weight,
            most: job.sets,
            line: None,
        }),
        Verdict::Spent => Ok(Answer::BudgetSpent {
            conflicts: job.conflicts,
            line: None,
        }),
    }
}

/// The answer of a case: the search for its least sets, and then the edits of their statements. The
/// derivation is handed to `steps`.
///
/// `SinkFailed` comes only if the faults of `steps` rose; `Memory` if memory runs out.
fn repair_case<D: StepSink + Drop, R: SearchRules + Drop>(
    alloc: Global,
    job: &RepairJob,
    texts: &RepairTexts,
    case: &RepairCase,
    rules: R,
    steps: &mut D,
) -> Result<Answer, SearchError>
    requires search { IsSearch job.now texts.now case.now }
    requires rules { R.are_rules rules }
    ensures { TextsEnd job.now texts.now (D.told steps.old) (D.told steps.new) result }
{
    let verdict = localise(
        alloc,
        &case.program,
        &case.failing,
        job.bounds,
        &case.weights,
        job.conflicts,
        job.sets,
        rules,
        steps,
    )?;
    let source = texts.program.as_slice();
    Ok(verdict_answer(alloc, job, source, case, &verdict)?)
}

/// The edits of statements of the least sets that make the program of these texts pass all inputs; or why
/// they aren't told.
///
/// It reads the program, the failing input, the passing ones and the weights, in this order. Then it counts
/// the units and runs the program as written on each input. At last it searches for the least sets of the
/// failing run, and tries the edits. The derivation of the search is handed to `steps`: the formula, and then
/// each step as it is made.
///
/// `SinkFailed` comes only if the faults of `steps` rose; `Memory` if memory runs out. What was handed on
/// before an error stays.
pub fn repair_texts<D: StepSink + Drop, R: SearchRules + Drop>(
    alloc: Global,
    job: &RepairJob,
    texts: &RepairTexts,
    rules: R,
    steps: &mut D,
) -> Result<Answer, SearchError>
    requires short { AreShort texts.now }
    requires job { MayBeDone job.now }
    requires rules { R.are_rules rules }
    ensures { TextsEnd job.now texts.now (D.told steps.old) (D.told steps.new) result }
{
    match read_repair_case(alloc, texts, job.bounds) {
        Ok(case) => repair_case(alloc, job, texts, &case, rules, steps),
        Err(stop) => stop.answer(),
    }
}
