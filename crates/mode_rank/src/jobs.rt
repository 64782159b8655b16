//! The jobs of ranking.

ghost use Rattle.std.specs.Prelude.{◌≡◌};
ghost use Rattle.mode_rank.specs.Jobs.{files_of};

use ba_answers::file::File;
use ba_cases::files_for;
use ba_commands::Text;
use ba_files::Named;
use ba_tree::run::Bounds;

/// A ranking over several inputs: the names of its files, the bounds of runs, and the limits of each search.
#[derive(Drop)]
pub struct RankJob<'a> {
    /// The file of the program.
    pub program: Text<'a>,
    /// The file of the inputs, one a line.
    pub inputs: Text<'a>,
    /// The file of the weights, if there is one.
    pub weights: Option<Text<'a>>,
    /// The bounds of runs.
    pub bounds: Bounds,
    /// The limit on conflicts of each search.
    pub conflicts: u64,
    /// The limit on listed sets of each search.
    pub sets: u32,
    /// Whether restarts are steady, and not by Luby's sequence.
    pub steady: bool,
}

impl<'a> RankJob<'a> {
    /// The files that are read: the program, the inputs, and the weights if they are named.
    pub fn files(&self) -> [Named<'a>; 3]
        ensures { result ≡ files_of self.now }
    {
        files_for(&self.program, File::Inputs, &self.inputs, &self.weights)
    }
}
