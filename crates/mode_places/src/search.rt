//! The search for the least sets of places of a program that fails.

ghost use Rattle.std.specs.Prelude.{◌≡◌, IfOk};
ghost use Rattle.ba_cases.specs.Reading.{AreShort};
ghost use Rattle.mode_places.specs.Answers.{verdict_answer};
ghost use Rattle.mode_places.specs.Jobs.{MayBeDone};
ghost use Rattle.mode_places.specs.Searches.{IsSearch, TextsEnd};

use crate::jobs::PlacesJob;
use crate::report::place_report;
use ba_answers::answers::Answer;
use ba_cases::{Case, Texts, read_case};
use ba_derivations::Verdict;
use ba_items::Items;
use ba_localise::{PlaceVerdict, localise_places};
use ba_search::{SearchError, SearchRules};
use ba_steps::StepSink;
use ba_tree::tree::Program;
use std::alloc::{AllocError, Global};

/// The answer that tells a verdict on places of the program of this source text.
///
/// The only error is out of memory.
fn verdict_answer(
    alloc: Global,
    job: &PlacesJob,
    source: &[u8],
    program: &Program,
    found: &PlaceVerdict,
) -> Result<Answer, AllocError>
    ensures { IfOk result (λ answer. answer ≡ verdict_answer job.now source.now program.now
        found.now.places found.now.verdict) }
{
    match &found.verdict {
        Verdict::Located { weight, sets } => {
            let places = found.places.as_slice();
            let sets = sets.as_slice();
            let bytes = place_report(alloc, source, program, places, *weight, sets, job.runs)?;
            Ok(Answer::Located(Items::from_vec(bytes)))
        }
        Verdict::NoRepair => Ok(Answer::NoRepair),
        Verdict::TooMany { weight, .. } => Ok(Answer::TooManySets {
            weight: *weight,
            most: job.sets,
            line: None,
        }),
        Verdict::Spent => Ok(Answer::BudgetSpent {
            conflicts: job.conflicts,
            line: None,
        }),
    }
}

/// What a search for the least sets of places of a case comes to; its derivation is handed to `steps`.
///
/// `SinkFailed` comes only if the faults of `steps` rose; `Memory` if memory runs out.
fn locate<D: StepSink + Drop, R: SearchRules + Drop>(
    alloc: Global,
    job: &PlacesJob,
    texts: &Texts,
    case: &Case,
    rules: R,
    steps: &mut D,
) -> Result<Answer, SearchError>
    requires search { IsSearch job.now texts.now case.now }
    requires rules { R.are_rules rules }
    ensures { TextsEnd job.now texts.now (D.told steps.old) (D.told steps.new) result }
{
    let found = localise_places(
        alloc,
        &case.program,
        &case.input,
        job.bounds,
        &case.weights,
        job.conflicts,
        job.sets,
        rules,
        steps,
    )?;
    let source = texts.program.as_slice();
    Ok(verdict_answer(alloc, job, source, &case.program, &found)?)
}

/// The least sets of places of the program that these texts spell, whose run on the input fails; or why they
/// aren't told.
///
/// In this order it reads the program, the input and the weights, counts the units, runs the program as
/// written, and searches. The derivation is handed to `steps`: the formula, and then each step as it is made.
///
/// `SinkFailed` comes only if the faults of `steps` rose; `Memory` if memory runs out. What was handed on
/// before an error stays.
pub fn places_texts<D: StepSink + Drop, R: SearchRules + Drop>(
    alloc: Global,
    job: &PlacesJob,
    texts: &Texts,
    rules: R,
    steps: &mut D,
) -> Result<Answer, SearchError>
    requires short { AreShort texts.now }
    requires job { MayBeDone job.now }
    requires rules { R.are_rules rules }
    ensures { TextsEnd job.now texts.now (D.told steps.old) (D.told steps.new) result }
{
    match read_case(alloc, texts, job.bounds) {
        Ok(case) => locate(alloc, job, texts, &case, rules, steps),
        Err(stop) => stop.answer(),
    }
}
