//! What the words of a call ask for.

ghost use Rattle.std.specs.Prelude.{◌≡◌, Some, map, IfOk};
ghost use Rattle.ba_tool.specs.Requests.{check_by, request_by, request_of, steady_of};

use ba_commands::{Command, WordsError, read_words};
use mode_all::AllJob;
use mode_check::CheckJob;
use mode_localise::{LocaliseJob, Telling};
use mode_places::PlacesJob;
use mode_rank::RankJob;
use mode_repair::RepairJob;
use mode_run::RunJob;
use std::alloc::{AllocError, Global};

/// What words come to, before any file is read.
#[derive(Drop)]
pub enum Request<'a> {
    /// The words are no command.
    Refused,
    /// They ask for the sample with so many additions.
    Sample(u32),
    /// They ask for the least sets of a program.
    Localise(LocaliseJob<'a>),
    /// They ask for the least sets of places of a program.
    Places(PlacesJob<'a>),
    /// They ask for the least sets that repair several runs of a program together.
    LocaliseAll(AllJob<'a>),
    /// They ask to judge a certificate.
    Check(CheckJob<'a>),
    /// They ask to judge a certificate of several runs together.
    CheckAll(CheckJob<'a>),
    /// They ask to run a program.
    Run(RunJob<'a>),
    /// They ask to rank the statements of a program over several inputs.
    Rank(RankJob<'a>),
    /// They ask for the edits that pass.
    Repair(RepairJob<'a>),
}

impl Request<'_> {
    /// Whether searches restart steadily, and not by Luby's sequence.
    pub fn is_steady(&self) -> bool
        ensures { result ≡ steady_of self.now }
    {
        match self {
            Request::Localise(job) => job.steady,
            Request::Places(job) => job.steady,
            Request::LocaliseAll(job) => job.steady,
            Request::Rank(job) => job.steady,
            Request::Repair(job) => job.steady,
            Request::Refused
            | Request::Sample(_)
            | Request::Check(_)
            | Request::CheckAll(_)
            | Request::Run(_) => false,
        }
    }
}

/// A check of one run, or of all.
fn check_by(job: CheckJob, all: bool) -> Request
    ensures { result ≡ check_by job.entry all }
{
    if all {
        Request::CheckAll(job)
    } else {
        Request::Check(job)
    }
}

/// What a command asks for.
fn request_by(command: Command) -> Request
    ensures { result ≡ request_by (Some command.entry) }
{
    match command {
        Command::Localise {
            program,
            input,
            bounds,
            weights,
            conflicts,
            sets,
            cert: _,
            runs,
            places: true,
            all: _,
            steady,
        } => Request::Places(PlacesJob {
            program,
            input,
            weights,
            bounds,
            conflicts,
            sets,
            runs,
            steady,
        }),
        Command::Localise {
            program,
            input,
            bounds,
            weights,
            conflicts,
            sets,
            cert,
            runs,
            places: false,
            all: true,
            steady,
        } => Request::LocaliseAll(AllJob {
            program,
            inputs: input,
            weights,
            bounds,
            conflicts,
            sets,
            cert,
            runs,
            steady,
        }),
        Command::Localise {
            program,
            input,
            bounds,
            weights,
            conflicts,
            sets,
            cert,
            runs,
            places: false,
            all: false,
            steady,
        } => Request::Localise(LocaliseJob {
            program,
            input,
            weights,
            bounds,
            conflicts,
            sets,
            cert,
            telling: Telling::Report { runs },
            steady,
        }),
        Command::Run {
            program,
            input,
            bounds,
        } => Request::Run(RunJob {
            program,
            input,
            bounds,
        }),
        Command::Check {
            program,
            input,
            cert,
            bounds,
            weights,
            conflicts,
            sets,
            all,
        } => check_by(
            CheckJob {
                program,
                input,
                cert,
                weights,
                bounds,
                conflicts,
                sets,
            },
            all,
        ),
        Command::Rank {
            program,
            inputs,
            bounds,
            weights,
            conflicts,
            sets,
            steady,
        } => Request::Rank(RankJob {
            program,
            inputs,
            weights,
            bounds,
            conflicts,
            sets,
            steady,
        }),
        Command::Repair {
            program,
            failing,
            passing,
            bounds,
            weights,
            conflicts,
            sets,
            steady,
        } => Request::Repair(RepairJob {
            program,
            failing,
            passing,
            weights,
            bounds,
            conflicts,
            sets,
            steady,
        }),
        Command::Sample { additions } => Request::Sample(additions),
    }
}

/// What the words ask for.
///
/// The only error is out of memory.
pub fn read_request<'a>(alloc: Global, words: &'a [&str]) -> Result<Request<'a>, AllocError>
    ensures { IfOk result (λ request. request ≡ request_of (map (λ word. word.now) words.now)) }
{
    let command = match read_words(alloc, words) {
        Ok(command) => command,
        Err(WordsError::Bad) => return Ok(Request::Refused),
        Err(WordsError::Memory) => return Err(AllocError),
    };
    Ok(request_by(command))
}
