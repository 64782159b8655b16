//! The jobs of localising.

ghost use Rattle.std.specs.Prelude.{◌≡◌, ◌≤◌, IfOk};
ghost use Rattle.mode_localise.specs.Jobs.{files_of, sample_job, sample_texts};

use ba_answers::file::File;
use ba_cases::{Texts, files_for};
use ba_commands::Text;
use ba_files::Named;
use ba_items::Items;
use ba_samples::sample_text;
use ba_tree::run::Bounds;
use std::alloc::{AllocError, Global};

/// How the least sets are told.
#[derive(Clone, Copy)]
pub enum Telling {
    /// By their report.
    Report {
        /// Whether a run is shown for each set.
        runs: bool,
    },
    /// By their weight and their number, as for a sample.
    Count {
        /// How many additions the sample has.
        additions: u32,
    },
}

/// A search for least sets: the names of its files, the bounds of runs, and the limits of the search.
#[derive(Drop)]
pub struct LocaliseJob<'a> {
    /// The file of the program.
    pub program: Text<'a>,
    /// The file of the input.
    pub input: Text<'a>,
    /// The file of the weights, if there is one.
    pub weights: Option<Text<'a>>,
    /// The bounds of runs.
    pub bounds: Bounds,
    /// The limit on conflicts of the search.
    pub conflicts: u64,
    /// The limit on listed sets.
    pub sets: u32,
    /// The file that the certificate is written to, if there is one.
    pub cert: Option<Text<'a>>,
    pub telling: Telling,
    /// Whether restarts are steady, and not by Luby's sequence.
    pub steady: bool,
}

impl<'a> LocaliseJob<'a> {
    /// The files that are read: the program, the input, and the weights if they are named.
    pub fn files(&self) -> [Named<'a>; 3]
        ensures { result ≡ files_of self.now }
    {
        files_for(&self.program, File::Input, &self.input, &self.weights)
    }
}

/// The job of a sample with this many additions. It has no files.
pub fn sample_job(additions: u32) -> LocaliseJob<'static>
    ensures { result ≡ sample_job additions }
{
    LocaliseJob {
        program: Text::new(""),
        input: Text::new(""),
        weights: None,
        bounds: Bounds {
            turns: 1,
            frames: 16,
        },
        conflicts: 200_000,
        sets: 1000,
        cert: None,
        telling: Telling::Count { additions },
        steady: false,
    }
}

/// The texts of a sample: its program, an empty input and no weights.
///
/// The only error is out of memory.
pub fn sample_texts(alloc: Global, additions: u32) -> Result<Texts, AllocError>
    requires { additions ≤ 500 }
    ensures { IfOk result (λ texts. texts ≡ sample_texts additions) }
{
    Ok(Texts {
        program: Items::from_vec(sample_text(alloc, additions)?),
        input: Items::new(alloc),
        weights: Items::new(alloc),
    })
}
