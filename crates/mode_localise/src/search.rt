//! The search for the least sets of a program that fails.

ghost use Rattle.std.specs.Prelude.{◌≡◌, ◌≤◌, IfOk};
ghost use Rattle.ba_cases.specs.Reading.{AreShort};
ghost use Rattle.mode_localise.specs.Answers.{verdict_answer};
ghost use Rattle.mode_localise.specs.Jobs.{MayBeDone, head_by};
ghost use Rattle.mode_localise.specs.Leaving.{IsSearch, TextsEnd};

use crate::jobs::{LocaliseJob, Telling};
use ba_answers::answers::Answer;
use ba_cases::{Case, Texts, read_case};
use ba_cert::CertHead;
use ba_certified::search_certified;
use ba_derivations::Verdict;
use ba_formula::formula_of;
use ba_items::Items;
use ba_judge::ProgramJudge;
use ba_report::report;
use ba_search::{SearchError, SearchRules};
use ba_steps::StepSink;
use ba_tree::tree::Program;
use ba_world::World;
use std::alloc::{AllocError, Global};

/// The answer for a verdict on the program of this source text.
///
/// The only error is out of memory.
fn verdict_answer(
    alloc: Global,
    job: &LocaliseJob,
    source: &[u8],
    program: &Program,
    verdict: &Verdict,
) -> Result<Answer, AllocError>
    ensures { IfOk result (λ answer. answer
        ≡ verdict_answer job.now source.now program.now verdict.now) }
{
    match verdict {
        Verdict::Located { weight, sets } => match job.telling {
            Telling::Report { runs } => {
                let bytes = report(alloc, source, program, verdict, runs)?;
                Ok(Answer::Located(Items::from_vec(bytes)))
            }
            Telling::Count { additions } => Ok(Answer::Sampled {
                additions,
                weight: *weight,
                sets: sets.as_slice().len() as u64,
            }),
        },
        Verdict::NoRepair => Ok(Answer::NoRepair),
        Verdict::TooMany { weight, .. } => Ok(Answer::TooManySets {
            weight: *weight,
            most: job.sets,
            line: None,
        }),
        Verdict::Spent => Ok(Answer::BudgetSpent {
            conflicts: job.conflicts,
            line: None,
        }),
    }
}

/// The settings of a job, as a certificate has them.
fn head_by(job: &LocaliseJob) -> CertHead
    ensures { result ≡ head_by job.now }
{
    CertHead {
        bounds: job.bounds,
        conflicts: job.conflicts,
        sets: job.sets,
    }
}

/// The answer of a search for the least sets of a case. The derivation is handed to `steps`, and its steps
/// are written to the certificate, if one is named.
///
/// - `SinkFailed`: the faults of `steps` rose. If a certificate is named, those of `steps` and of the world's
///   writing count together.
/// - `Memory`: out of memory.
///
/// What was handed on before an error stays.
fn locate<W, D, R>(
    alloc: Global,
    world: &mut W,
    job: &LocaliseJob,
    texts: &Texts,
    case: &Case,
    rules: R,
    steps: &mut D,
) -> Result<Answer, SearchError>
where
    W: World,
    D: StepSink + Drop,
    R: SearchRules + Drop,
    requires search { IsSearch job.now texts.now case.now }
    requires rules { R.are_rules rules }
    ensures ends { TextsEnd job.now texts.now (W.outside world.old) (W.outside world.new)
        (D.told steps.old) (D.told steps.new) result }
    ensures bounded { (W.outside world.new).given ≤ (W.outside world.old).given }
{
    let encoded = formula_of(alloc, &case.program, &case.input, job.bounds, &case.weights)?;
    let judge = ProgramJudge::new(alloc, &case.program, &case.input, job.bounds);
    let head = head_by(job);
    let verdict = search_certified(alloc, world, &job.cert, head, &encoded, judge, rules, steps)?;
    let source = texts.program.as_slice();
    Ok(verdict_answer(alloc, job, source, &case.program, &verdict)?)
}

/// The least sets of the program that these texts spell, whose run on the input fails; or why there are none.
///
/// In this order it reads the program, the input and the weights, counts the units, runs the program as
/// written, and searches. The derivation is handed to `steps`: the formula, and then each step as it is made.
/// If a certificate is named, it is begun before the search, and each step is written to it before it is
/// handed on.
///
/// - `SinkFailed`: the faults of `steps` rose. If a certificate is named, those of `steps` and of the world's
///   writing count together.
/// - `Memory`: out of memory.
///
/// What was handed on before an error stays.
pub fn localise_texts<W, D, R>(
    alloc: Global,
    world: &mut W,
    job: &LocaliseJob,
    texts: &Texts,
    rules: R,
    steps: &mut D,
) -> Result<Answer, SearchError>
where
    W: World,
    D: StepSink + Drop,
    R: SearchRules + Drop,
    requires short { AreShort texts.now }
    requires job { MayBeDone job.now }
    requires rules { R.are_rules rules }
    ensures ends { TextsEnd job.now texts.now (W.outside world.old) (W.outside world.new)
        (D.told steps.old) (D.told steps.new) result }
    ensures bounded { (W.outside world.new).given ≤ (W.outside world.old).given }
{
    match read_case(alloc, texts, job.bounds) {
        Ok(case) => locate(alloc, world, job, texts, &case, rules, steps),
        Err(stop) => stop.answer(),
    }
}
