//! The searches for the least sets of several runs, one after the other.

ghost use Rattle.std.specs.Prelude.{◌≡◌, ◌≢◌, true, IfOk};
ghost use Rattle.ba_cases.specs.declared.texts.Texts.{Texts};
ghost use Rattle.ba_derivations.specs.Derivations.{sets_of};
ghost use Rattle.ba_tree.specs.Least.{AreWeightsOf};
ghost use Rattle.ba_tree.specs.Run.{are_bounds, fits, plain_run};
ghost use Rattle.ba_tree.specs.declared.run.Outcome.{Outcome};
ghost use Rattle.mode_rank.specs.Answers.{TellsList};
ghost use Rattle.mode_rank.specs.Inputs.{AreRunsOf};
ghost use Rattle.mode_rank.specs.Searches.{AllEnd, MayBeSearched, OneEnds};

use crate::jobs::RankJob;
use crate::lent::LentRules;
use crate::runs::Runs;
use ba_answers::answers::Answer;
use ba_derivations::{FoundSet, Verdict};
use ba_inputs::InputLine;
use ba_items::Items;
use ba_localise::localise;
use ba_search::{SearchError, SearchRules};
use ba_steps::StepSink;
use std::alloc::{AllocError, Global};

/// What the search over one input finds.
#[derive(Drop)]
pub enum Found {
    /// These sets.
    Sets(Items<Items<u32>>),
    /// This answer; no other search is begun.
    Stopped(Answer),
}

/// What the searches over all inputs find.
#[derive(Drop)]
pub enum Searched {
    /// These lists of sets, one for each input.
    Lists(Items<Items<Items<u32>>>),
    /// This answer.
    Stopped(Answer),
}

/// The sets without their runs.
fn sets_of(alloc: Global, found: &[FoundSet]) -> Result<Items<Items<u32>>, AllocError>
    ensures { IfOk result (λ sets. sets ≡ sets_of found.now) }
{
    let mut sets = Items::new(alloc);
    for set in found {
        sets.push(Items::from_slice(alloc, set.groups.as_slice())?)?;
    }
    Ok(sets)
}

/// The sets of a verdict, none if there is no repair. For any other verdict its answer, with the line of the
/// input.
fn found_by(alloc: Global, job: &RankJob, line: u64, verdict: &Verdict) -> Result<Found, AllocError>
    ensures { IfOk result (TellsList job.now line verdict.now) }
{
    match verdict {
        Verdict::Located { sets, .. } => Ok(Found::Sets(sets_of(alloc, sets.as_slice())?)),
        Verdict::NoRepair => Ok(Found::Sets(Items::new(alloc))),
        Verdict::TooMany { weight, .. } => Ok(Found::Stopped(Answer::TooManySets {
            weight: *weight,
            most: job.sets,
            line: Some(line),
        })),
        Verdict::Spent => Ok(Found::Stopped(Answer::BudgetSpent {
            conflicts: job.conflicts,
            line: Some(line),
        })),
    }
}

/// The least sets of the run on one input; the derivation is handed to `steps`.
///
/// `SinkFailed` comes only if the faults of `steps` rose; `Memory` if memory runs out.
fn search_one<D: StepSink + Drop, R: SearchRules>(
    alloc: Global,
    job: &RankJob,
    runs: &Runs,
    entry: &InputLine,
    rules: &R,
    steps: &mut D,
) -> Result<Found, SearchError>
    requires bounds { are_bounds job.now.bounds ≡ true }
    requires fits { fits runs.now.program entry.now.input ≡ true }
    requires weights { AreWeightsOf runs.now.program runs.now.weights.of }
    requires failing { plain_run runs.now.program entry.now.input job.now.bounds ≢ Outcome.Done }
    requires rules { R.are_rules rules.now }
    ensures { (x : Texts) → AreRunsOf job.now.bounds x runs.now → OneEnds job.now x
        runs.now.program entry.now (D.told steps.old) (D.told steps.new) result }
{
    let verdict = localise(
        alloc,
        &runs.program,
        &entry.input,
        job.bounds,
        &runs.weights,
        job.conflicts,
        job.sets,
        LentRules { rules },
        steps,
    )?;
    Ok(found_by(alloc, job, entry.line, &verdict)?)
}

/// The least sets of the runs on all inputs, in order; the derivations are handed to `steps`. It stops at the
/// first input with more sets than may be listed, or with spent conflicts.
///
/// `SinkFailed` comes only if the faults of `steps` rose; `Memory` if memory runs out.
pub fn search_all<D: StepSink + Drop, R: SearchRules>(
    alloc: Global,
    job: &RankJob,
    runs: &Runs,
    rules: &R,
    steps: &mut D,
) -> Result<Searched, SearchError>
    requires runs { MayBeSearched job.now runs.now }
    requires rules { R.are_rules rules.now }
    ensures { (x : Texts) → AreRunsOf job.now.bounds x runs.now → AllEnd job.now x
        runs.now.program (D.told steps.old) (D.told steps.new) result }
{
    let mut lists = Items::new(alloc);
    for entry in runs.inputs.as_slice() {
        match search_one(alloc, job, runs, entry, rules, steps)? {
            Found::Sets(sets) => lists.push(sets)?,
            Found::Stopped(answer) => return Ok(Searched::Stopped(answer)),
        }
    }
    Ok(Searched::Lists(lists))
}
