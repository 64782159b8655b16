//! The top call of the program.

ghost use Rattle.std.specs.Prelude.{◌≡◌, ◌≤◌, true};
ghost use Rattle.ba_answers.specs.Printed.{text_of};
ghost use Rattle.ba_files.specs.Files.{GivesAtMost};
ghost use Rattle.ba_rules.specs.Rules.{AreJobRules};
ghost use Rattle.ba_steps.specs.Sinks.{Outlasts, Told};
ghost use Rattle.ba_tree.specs.Run.{are_bounds};
ghost use Rattle.ba_world.specs.World.{OnlyPrints, PrintsPrefix};
ghost use Rattle.mode_all.specs.Jobs.{MayBeDone as MayBeLocalisedForAll};
ghost use Rattle.mode_localise.specs.Jobs.{MayBeDone as MayBeLocalised};
ghost use Rattle.mode_places.specs.Jobs.{MayBeDone as MayBeLocalisedByPlace};
ghost use Rattle.mode_rank.specs.Jobs.{MayBeDone as MayBeRanked};
ghost use Rattle.mode_repair.specs.Jobs.{MayBeDone as MayBeRepaired};
ghost use Rattle.ba_tool.specs.Calls.{EndsWhere, IsPrinted, IsShown, RequestEnds, Says, WritesOnly, asked_by, call, most_given};
ghost use Rattle.ba_tool.specs.Requests.{MayBeDone, cert_of, steady_of};
ghost use Rattle.ba_tool.specs.declared.requests.Request.{Request};

use crate::requests::{Request, read_request};
use ba_answers::answers::Answer;
use ba_answers::status::Status;
use ba_cases::Texts;
use ba_rules::rules::{CallRules, Rules};
use ba_search::{SearchError, SearchRules};
use ba_steps::StepSink;
use ba_world::{World, WorldError};
use mode_all::{AllJob, all_texts};
use mode_check::{CheckJob, check_all_texts, check_texts};
use mode_localise::{LocaliseJob, localise_texts, sample_job, sample_texts};
use mode_places::{PlacesJob, places_texts};
use mode_rank::{RankJob, rank_texts};
use mode_repair::{RepairJob, RepairTexts, repair_texts};
use mode_run::{RunJob, run_texts};
use std::alloc::Global;

/// What the least sets of a sample come to: its text is made, and they are searched for.
///
/// `SinkFailed`: the faults of `steps` rose. `Memory`: out of memory.
fn sample_answer<W, D, R>(
    alloc: Global,
    world: &mut W,
    additions: u32,
    rules: R,
    steps: &mut D,
) -> Result<Answer, SearchError>
where
    W: World,
    D: StepSink + Drop,
    R: SearchRules + Drop,
    requires few { additions ≤ 500 }
    requires rules { R.are_rules rules }
    ensures ends { RequestEnds (Request.Sample additions)
        (W.outside world.old) (W.outside world.new) (D.told steps.old) (D.told steps.new) result }
    ensures bounded { (W.outside world.new).given ≤ (W.outside world.old).given }
{
    let job = sample_job(additions);
    let texts = sample_texts(alloc, additions)?;
    localise_texts(alloc, world, &job, &texts, rules, steps)
}

/// What the least sets of a program come to: its files are read whole, and then they are searched for.
///
/// `SinkFailed`: the faults of `steps` rose. If a certificate is named, those of `steps` and of the world's
/// writing count together. `Memory`: out of memory.
fn localise_answer<W, D, R>(
    alloc: Global,
    world: &mut W,
    job: &LocaliseJob,
    rules: R,
    steps: &mut D,
) -> Result<Answer, SearchError>
where
    W: World,
    D: StepSink + Drop,
    R: SearchRules + Drop,
    requires job { MayBeLocalised job.now }
    requires rules { R.are_rules rules }
    ensures ends { RequestEnds (Request.Localise job.now)
        (W.outside world.old) (W.outside world.new) (D.told steps.old) (D.told steps.new) result }
    ensures bounded { GivesAtMost (most_given (Request.Localise job.now))
        (W.outside world.old) (W.outside world.new) }
{
    let files = job.files();
    match Texts::read(alloc, world, files.as_slice()) {
        Ok(texts) => localise_texts(alloc, world, job, &texts, rules, steps),
        Err(stop) => stop.answer(),
    }
}

/// What the least sets of places of a program come to: its files are read whole, and then they are searched
/// for.
///
/// `SinkFailed`: the faults of `steps` rose. `Memory`: out of memory.
fn places_answer<W, D, R>(
    alloc: Global,
    world: &mut W,
    job: &PlacesJob,
    rules: R,
    steps: &mut D,
) -> Result<Answer, SearchError>
where
    W: World,
    D: StepSink + Drop,
    R: SearchRules + Drop,
    requires job { MayBeLocalisedByPlace job.now }
    requires rules { R.are_rules rules }
    ensures ends { RequestEnds (Request.Places job.now)
        (W.outside world.old) (W.outside world.new) (D.told steps.old) (D.told steps.new) result }
    ensures bounded { GivesAtMost (most_given (Request.Places job.now))
        (W.outside world.old) (W.outside world.new) }
{
    let files = job.files();
    match Texts::read(alloc, world, files.as_slice()) {
        Ok(texts) => places_texts(alloc, job, &texts, rules, steps),
        Err(stop) => stop.answer(),
    }
}

/// What the least sets that repair several runs together come to: the files are read whole, and then they
/// are searched for.
///
/// `SinkFailed`: the faults of `steps` rose. If a certificate is named, those of `steps` and of the world's
/// writing count together. `Memory`: out of memory.
fn all_answer<W, D, R>(
    alloc: Global,
    world: &mut W,
    job: &AllJob,
    rules: R,
    steps: &mut D,
) -> Result<Answer, SearchError>
where
    W: World,
    D: StepSink + Drop,
    R: SearchRules + Drop,
    requires job { MayBeLocalisedForAll job.now }
    requires rules { R.are_rules rules }
    ensures ends { RequestEnds (Request.LocaliseAll job.now)
        (W.outside world.old) (W.outside world.new) (D.told steps.old) (D.told steps.new) result }
    ensures bounded { GivesAtMost (most_given (Request.LocaliseAll job.now))
        (W.outside world.old) (W.outside world.new) }
{
    let files = job.files();
    match Texts::read(alloc, world, files.as_slice()) {
        Ok(texts) => all_texts(alloc, world, job, &texts, rules, steps),
        Err(stop) => stop.answer(),
    }
}

/// What a certificate comes to: the files beside it are read whole, and then it is judged as it is read.
///
/// `SinkFailed`: the faults of `steps` rose. `Memory`: out of memory.
fn check_answer<W, D>(
    alloc: Global,
    world: &mut W,
    job: &CheckJob,
    steps: &mut D,
) -> Result<Answer, SearchError>
where
    W: World,
    D: StepSink + Drop,
    requires bounds { are_bounds job.now.bounds ≡ true }
    ensures ends { RequestEnds (Request.Check job.now)
        (W.outside world.old) (W.outside world.new) (D.told steps.old) (D.told steps.new) result }
    ensures bounded { GivesAtMost (most_given (Request.Check job.now))
        (W.outside world.old) (W.outside world.new) }
{
    let files = job.files();
    match Texts::read(alloc, world, files.as_slice()) {
        Ok(texts) => check_texts(alloc, world, job, &texts, steps),
        Err(stop) => stop.answer(),
    }
}

/// What a certificate of several runs together comes to: the files beside it are read whole. Then it is
/// judged as it is read.
///
/// `SinkFailed`: the faults of `steps` rose. `Memory`: out of memory.
fn check_all_answer<W, D>(
    alloc: Global,
    world: &mut W,
    job: &CheckJob,
    steps: &mut D,
) -> Result<Answer, SearchError>
where
    W: World,
    D: StepSink + Drop,
    requires bounds { are_bounds job.now.bounds ≡ true }
    ensures ends { RequestEnds (Request.CheckAll job.now)
        (W.outside world.old) (W.outside world.new) (D.told steps.old) (D.told steps.new) result }
    ensures bounded { GivesAtMost (most_given (Request.CheckAll job.now))
        (W.outside world.old) (W.outside world.new) }
{
    let files = job.files_with_inputs();
    match Texts::read(alloc, world, files.as_slice()) {
        Ok(texts) => check_all_texts(alloc, world, job, &texts, steps),
        Err(stop) => stop.answer(),
    }
}

/// What the run of a program comes to: its files are read whole, and then it is run.
///
/// The only error is out of memory.
fn run_answer<W: World>(alloc: Global, world: &mut W, job: &RunJob) -> Result<Answer, SearchError>
    requires bounds { are_bounds job.now.bounds ≡ true }
    ensures ends { (t : Told) → RequestEnds (Request.Run job.now)
        (W.outside world.old) (W.outside world.new) t t result }
    ensures bounded { GivesAtMost (most_given (Request.Run job.now))
        (W.outside world.old) (W.outside world.new) }
{
    let files = job.files();
    match Texts::read(alloc, world, files.as_slice()) {
        Ok(texts) => run_texts(alloc, job, &texts),
        Err(stop) => stop.answer(),
    }
}

/// What a ranking comes to: its files are read whole, and then the least sets of its runs are searched for.
///
/// `SinkFailed`: the faults of `steps` rose. `Memory`: out of memory.
fn rank_answer<W, D, R>(
    alloc: Global,
    world: &mut W,
    job: &RankJob,
    rules: R,
    steps: &mut D,
) -> Result<Answer, SearchError>
where
    W: World,
    D: StepSink + Drop,
    R: SearchRules + Drop,
    requires job { MayBeRanked job.now }
    requires rules { R.are_rules rules }
    ensures ends { RequestEnds (Request.Rank job.now)
        (W.outside world.old) (W.outside world.new) (D.told steps.old) (D.told steps.new) result }
    ensures bounded { GivesAtMost (most_given (Request.Rank job.now))
        (W.outside world.old) (W.outside world.new) }
{
    let files = job.files();
    match Texts::read(alloc, world, files.as_slice()) {
        Ok(texts) => rank_texts(alloc, job, &texts, rules, steps),
        Err(stop) => stop.answer(),
    }
}

/// What a repair comes to: its files are read whole. Then the least sets of the failing run are searched
/// for, and the edits of their statements tried.
///
/// `SinkFailed`: the faults of `steps` rose. `Memory`: out of memory.
fn repair_answer<W, D, R>(
    alloc: Global,
    world: &mut W,
    job: &RepairJob,
    rules: R,
    steps: &mut D,
) -> Result<Answer, SearchError>
where
    W: World,
    D: StepSink + Drop,
    R: SearchRules + Drop,
    requires job { MayBeRepaired job.now }
    requires rules { R.are_rules rules }
    ensures ends { RequestEnds (Request.Repair job.now)
        (W.outside world.old) (W.outside world.new) (D.told steps.old) (D.told steps.new) result }
    ensures bounded { GivesAtMost (most_given (Request.Repair job.now))
        (W.outside world.old) (W.outside world.new) }
{
    let files = job.files();
    match RepairTexts::read(alloc, world, files.as_slice()) {
        Ok(texts) => repair_texts(alloc, job, &texts, rules, steps),
        Err(stop) => stop.answer(),
    }
}

/// What a request comes to, before it is printed.
///
/// `SinkFailed`: the faults of `steps` rose. If a certificate is named, those of `steps` and of the world's
/// writing count together. `Memory`: out of memory.
fn request_answer<W, D, R>(
    alloc: Global,
    world: &mut W,
    request: &Request,
    rules: R,
    steps: &mut D,
) -> Result<Answer, SearchError>
where
    W: World,
    D: StepSink + Drop,
    R: SearchRules + Drop,
    requires request { MayBeDone request.now }
    requires rules { R.are_rules rules }
    ensures ends { RequestEnds request.now
        (W.outside world.old) (W.outside world.new) (D.told steps.old) (D.told steps.new) result }
    ensures bounded { GivesAtMost (most_given request.now)
        (W.outside world.old) (W.outside world.new) }
{
    match request {
        Request::Refused => Ok(Answer::BadWords),
        Request::Sample(additions) => sample_answer(alloc, world, *additions, rules, steps),
        Request::Localise(job) => localise_answer(alloc, world, job, rules, steps),
        Request::Places(job) => places_answer(alloc, world, job, rules, steps),
        Request::LocaliseAll(job) => all_answer(alloc, world, job, rules, steps),
        Request::Check(job) => check_answer(alloc, world, job, steps),
        Request::CheckAll(job) => check_all_answer(alloc, world, job, steps),
        Request::Run(job) => run_answer(alloc, world, job),
        Request::Rank(job) => rank_answer(alloc, world, job, rules, steps),
        Request::Repair(job) => repair_answer(alloc, world, job, rules, steps),
    }
}

/// Prints a text by one call, and answers how the program then ends.
fn show<W: World>(world: &mut W, text: &[u8], status: Status) -> Status
    ensures shown { IsPrinted text.now status (W.outside world.old) (W.outside world.new) result }
    ensures prefix { PrintsPrefix (W.outside world.old) (W.outside world.new) text.now }
    ensures stays { OnlyPrints (W.outside world.old) (W.outside world.new) }
{
    match world.print(text) {
        Ok(()) => status,
        Err(WorldError::Failed) => Status::WriteFault,
        Err(WorldError::Memory) => Status::Memory,
    }
}

/// Prints the answer's text, and answers how the program then ends.
fn finish<W: World>(alloc: Global, world: &mut W, answer: &Answer) -> Status
    ensures shown { IsShown answer.now (W.outside world.old) (W.outside world.new) result }
    ensures prefix { PrintsPrefix (W.outside world.old) (W.outside world.new) (text_of answer.now) }
    ensures stays { OnlyPrints (W.outside world.old) (W.outside world.new) }
{
    match answer.text(alloc) {
        Ok(text) => show(world, text.as_slice(), answer.status()),
        Err(_) => Status::Memory,
    }
}

/// Does what the words ask for, prints one text, and answers how the program then ends.
///
/// - `localise`: reads a program and a failing input, and prints the sets of statements of least weight
///   whose change could repair that run. With `--places` it prints those of single executions, of fewest
///   members. With `--all` it reads several inputs, and prints the sets whose change could repair all runs
///   together.
/// - `check`: judges a certificate of such sets, and prints what it claims.
/// - `run`: runs the program on the input, and prints how it fails.
/// - `rank`: reads several inputs, and ranks the statements by how many of the runs their change could
///   repair.
/// - `repair`: reads a failing input and passing ones. It prints the small edits of statements of the least
///   sets that make the program pass all of them.
/// - `sample`: makes a sample program, and prints how many such sets it has.
///
/// It reads the words, and then the files of the program, of the input or inputs and of the weights, each
/// of them whole. It reads program, input or inputs, and weights from their texts, in this order. It counts
/// the program's units, with `--all` once for each input, and runs it as written on each input. If all runs
/// end as they are to, it searches: once, or in a ranking once for each input. After its search `repair`
/// tries the edits.
///
/// A search hands its derivation to `steps`: the formula, and then each step as it is made. A certificate
/// is begun before the search, and each step is written to it before it is handed on. It is whole before
/// anything is printed. A check hands the formula to `steps`, and no step. Then it reads the certificate in
/// pieces and judges it over that formula, up to its first refused line.
///
/// The text is made whole before it is printed. Where `steps` or the certificate fails, nothing is printed.
/// `steps` then has the derivations of a ranking's first inputs and the beginning of at most one more; a
/// certificate has the beginning of its one. Out of memory is the one answer that no clause ties to a
/// cause. Every clause holds for all rules of the search that keep what is asked of them.
pub fn tool<W, D, L, G, K>(
    alloc: Global,
    words: &[&str],
    world: &mut W,
    steps: &mut D,
    rules: Rules<L, G, K>,
) -> Status
where
    W: World,
    D: StepSink + Drop,
    L: Fn(u64) -> u64 + Drop,
    G: Fn(u64) -> u64 + Drop,
    K: Fn(u64, u64) -> bool + Drop,
    requires rules { AreJobRules (steady_of (asked_by words.now))
        (L.pre rules.luby) (L.post rules.luby) (G.pre rules.steady) (G.post rules.steady)
        (K.pre rules.keep) (K.post rules.keep) }

    // What the status says of the call: which answer its words and files come to, what was handed on and
    // written for it, and what was printed.
    ensures says { Says (call words.now (W.outside world.old) (W.outside world.new)
        (D.told steps.old) (D.told steps.new)) result }

    // The other way round: with which status the call ends, by its words and its told files.
    ensures where_told { EndsWhere (call words.now (W.outside world.old) (W.outside world.new)
        (D.told steps.old) (D.told steps.new)) result }

    // No file is written but the certificate of a search. Each file that is read gives no more bytes than its
    // limit and one piece.
    ensures stays { WritesOnly (cert_of (asked_by words.now))
        (W.outside world.old) (W.outside world.new) }
    ensures bounded { GivesAtMost (most_given (asked_by words.now))
        (W.outside world.old) (W.outside world.new) }

    // The sink writes where it wrote, and its count of faults does not fall.
    ensures outlasts { Outlasts (D.told steps.old) (D.told steps.new) }
{
    let request = match read_request(alloc, words) {
        Ok(request) => request,
        Err(_) => return Status::Memory,
    };
    let rules = CallRules {
        rules,
        is_steady: request.is_steady(),
    };
    match request_answer(alloc, world, &request, rules, steps) {
        Ok(answer) => finish(alloc, world, &answer),
        Err(SearchError::SinkFailed) => Status::WriteFault,
        Err(SearchError::Memory) => Status::Memory,
    }
}
