//! The search for the least sets that repair several runs together.

ghost use Rattle.std.specs.Prelude.{◌≡◌, ◌≤◌, true, All, IfOk};
ghost use Rattle.ba_all.specs.AllRuns.{judge_of_all};
ghost use Rattle.ba_cases.specs.Reading.{AreShort};
ghost use Rattle.ba_tree.specs.Run.{are_bounds};
ghost use Rattle.mode_all.specs.Answers.{AreGoodIn, TellsVerdict};
ghost use Rattle.mode_all.specs.Jobs.{MayBeDone, head_by};
ghost use Rattle.mode_all.specs.Searches.{IsSearch, TextsEnd};

use crate::jobs::AllJob;
use crate::report::all_report;
use ba_all::JudgeOfAll;
use ba_answers::answers::Answer;
use ba_cases::{CaseOfAll, Texts, read_case_of_all};
use ba_cert::CertHead;
use ba_certified::search_certified;
use ba_derivations::Verdict;
use ba_formula::formula_of_all;
use ba_items::Items;
use ba_search::{SearchError, SearchRules};
use ba_steps::StepSink;
use ba_world::World;
use std::alloc::{AllocError, Global};

/// The answer for a verdict on a case whose program this source text spells.
///
/// The only error is out of memory.
fn verdict_answer(
    alloc: Global,
    job: &AllJob,
    source: &[u8],
    case: &CaseOfAll,
    verdict: &Verdict,
) -> Result<Answer, AllocError>
    requires bounds { are_bounds job.now.bounds ≡ true }
    requires good { AreGoodIn
        (judge_of_all case.now.program case.now.inputs job.now.bounds) verdict.now }
    ensures { IfOk result (TellsVerdict job.now source.now
        case.now.program case.now.inputs verdict.now) }
{
    match verdict {
        Verdict::Located { weight, sets } => {
            let bytes = all_report(
                alloc,
                source,
                &case.program,
                case.inputs.as_slice(),
                job.bounds,
                *weight,
                sets.as_slice(),
                job.runs,
            )?;
            Ok(Answer::Located(Items::from_vec(bytes)))
        }
        Verdict::NoRepair => Ok(Answer::NoRepair),
        Verdict::TooMany { weight, .. } => Ok(Answer::TooManySets {
            weight: *weight,
            most: job.sets,
            line: None,
        }),
        Verdict::Spent => Ok(Answer::BudgetSpent {
            conflicts: job.conflicts,
            line: None,
        }),
    }
}

/// The settings of a job, as a certificate has them.
fn head_by(job: &AllJob) -> CertHead
    ensures { result ≡ head_by job.now }
{
    CertHead {
        bounds: job.bounds,
        conflicts: job.conflicts,
        sets: job.sets,
    }
}

/// The answer of a search for the least sets of a case. The derivation is handed to `steps`, and its steps
/// are written to the certificate, if one is named.
///
/// - `SinkFailed`: the faults of `steps` rose. If a certificate is named, those of `steps` and of the world's
///   writing count together.
/// - `Memory`: out of memory.
///
/// What was handed on before an error stays.
fn locate<W, D, R>(
    alloc: Global,
    world: &mut W,
    job: &AllJob,
    texts: &Texts,
    case: &CaseOfAll,
    rules: R,
    steps: &mut D,
) -> Result<Answer, SearchError>
where
    W: World,
    D: StepSink + Drop,
    R: SearchRules + Drop,
    requires search { IsSearch job.now texts.now case.now }
    requires rules { R.are_rules rules }
    ensures ends { TextsEnd job.now texts.now (W.outside world.old) (W.outside world.new)
        (D.told steps.old) (D.told steps.new) result }
    ensures bounded { (W.outside world.new).given ≤ (W.outside world.old).given }
{
    let inputs = case.inputs.as_slice();
    let encoded = formula_of_all(alloc, &case.program, inputs, job.bounds, &case.weights)?;
    let judge = JudgeOfAll::new(alloc, &case.program, inputs, job.bounds);
    let head = head_by(job);
    let verdict = search_certified(alloc, world, &job.cert, head, &encoded, judge, rules, steps)?;
    Ok(verdict_answer(alloc, job, texts.program.as_slice(), case, &verdict)?)
}

/// The least sets of the program that these texts spell that repair its runs on all inputs together; or why
/// there are none. Each of the runs fails.
///
/// In this order it reads the program, the inputs and the weights, and counts the units, once for each input.
/// It runs the program as written on each input, and searches. The derivation is handed to `steps`: the
/// formula, and then each step as it is made. If a certificate is named, it is begun before the search, and
/// each step is written to it before it is handed on.
///
/// - `SinkFailed`: the faults of `steps` rose. If a certificate is named, those of `steps` and of the world's
///   writing count together.
/// - `Memory`: out of memory.
///
/// What was handed on before an error stays.
pub fn all_texts<W, D, R>(
    alloc: Global,
    world: &mut W,
    job: &AllJob,
    texts: &Texts,
    rules: R,
    steps: &mut D,
) -> Result<Answer, SearchError>
where
    W: World,
    D: StepSink + Drop,
    R: SearchRules + Drop,
    requires short { AreShort texts.now }
    requires job { MayBeDone job.now }
    requires rules { R.are_rules rules }
    ensures ends { TextsEnd job.now texts.now (W.outside world.old) (W.outside world.new)
        (D.told steps.old) (D.told steps.new) result }
    ensures bounded { (W.outside world.new).given ≤ (W.outside world.old).given }
{
    match read_case_of_all(alloc, texts, job.bounds) {
        Ok(case) => locate(alloc, world, job, texts, &case, rules, steps),
        Err(stop) => stop.answer(),
    }
}
