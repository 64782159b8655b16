//! The ranking of the statements of a program over several inputs.

ghost use Rattle.std.specs.Prelude.{◌≡◌, List, length, IfOk};
ghost use Rattle.ba_cases.specs.Reading.{AreShort};
ghost use Rattle.ba_rank.specs.Ranking.{IsRanking};
ghost use Rattle.ba_rank.specs.declared.ranking.Ranked.{Ranked};
ghost use Rattle.mode_rank.specs.Inputs.{AreRunsOf};
ghost use Rattle.mode_rank.specs.Jobs.{MayBeDone};
ghost use Rattle.mode_rank.specs.Report.{ranked_text};
ghost use Rattle.mode_rank.specs.Searches.{MayBeSearched, TextsEnd};

use crate::jobs::RankJob;
use crate::report::ranked_text;
use crate::runs::{Runs, read_runs};
use crate::searches::{Searched, search_all};
use ba_answers::answers::Answer;
use ba_cases::Texts;
use ba_items::Items;
use ba_rank::rank;
use ba_search::{SearchError, SearchRules};
use ba_steps::StepSink;
use std::alloc::{AllocError, Global};

/// The answer with the ranking of these lists of sets, one for each input.
///
/// The only error is out of memory.
fn ranked_answer(
    alloc: Global,
    source: &[u8],
    runs: &Runs,
    lists: &[Items<Items<u32>>],
) -> Result<Answer, AllocError>
    ensures { IfOk result (λ answer. (entries : List Ranked) × IsRanking lists.now entries
        × (answer ≡ Answer.Ranked
        (ranked_text source.now runs.now.program (length runs.now.inputs) entries))) }
{
    let entries = rank(alloc, lists)?;
    let all = runs.inputs.len() as u64;
    let bytes = ranked_text(alloc, source, &runs.program, all, entries.as_slice())?;
    Ok(Answer::Ranked(Items::from_vec(bytes)))
}

/// The ranking over failing runs of a program with these texts; or the answer at which the searches stop.
///
/// `SinkFailed` comes only if the faults of `steps` rose; `Memory` if memory runs out.
fn rank_runs<D: StepSink + Drop, R: SearchRules>(
    alloc: Global,
    job: &RankJob,
    texts: &Texts,
    runs: &Runs,
    rules: &R,
    steps: &mut D,
) -> Result<Answer, SearchError>
    requires runs { MayBeSearched job.now runs.now }
    requires case { AreRunsOf job.now.bounds texts.now runs.now }
    requires rules { R.are_rules rules.now }
    ensures { TextsEnd job.now texts.now (D.told steps.old) (D.told steps.new) result }
{
    match search_all(alloc, job, runs, rules, steps)? {
        Searched::Lists(lists) => {
            let source = texts.program.as_slice();
            Ok(ranked_answer(alloc, source, runs, lists.as_slice())?)
        }
        Searched::Stopped(answer) => Ok(answer),
    }
}

/// Ranks the statements of the program that these texts spell, by how many of several failing runs their
/// change could repair; or says why not.
///
/// In this order it reads the program, the inputs and the weights, counts the units, and runs the program as
/// written on each input. Then it searches for the least sets of each run, one after the other. Each search
/// has the full limits on conflicts and sets. It stops at the first input with more sets or spent conflicts.
/// Each derivation is handed to `steps`: the formula, and then each step as it is made.
///
/// `SinkFailed` comes only if the faults of `steps` rose; `Memory` if memory runs out. What was handed on
/// before an error stays.
pub fn rank_texts<D: StepSink + Drop, R: SearchRules + Drop>(
    alloc: Global,
    job: &RankJob,
    texts: &Texts,
    rules: R,
    steps: &mut D,
) -> Result<Answer, SearchError>
    requires short { AreShort texts.now }
    requires job { MayBeDone job.now }
    requires rules { R.are_rules rules }
    ensures { TextsEnd job.now texts.now (D.told steps.old) (D.told steps.new) result }
{
    match read_runs(alloc, texts, job.bounds) {
        Ok(runs) => rank_runs(alloc, job, texts, &runs, &rules, steps),
        Err(stop) => stop.answer(),
    }
}
