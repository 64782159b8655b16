//! The jobs of localising over several inputs.

ghost use Rattle.std.specs.Prelude.{◌≡◌};
ghost use Rattle.mode_all.specs.Jobs.{files_of};

use ba_answers::file::File;
use ba_cases::files_for;
use ba_commands::Text;
use ba_files::Named;
use ba_tree::run::Bounds;

/// A search for the least sets that repair several runs together: the names of its files, the bounds of runs,
/// and the limits of the search.
#[derive(Drop)]
pub struct AllJob<'a> {
    /// The file of the program.
    pub program: Text<'a>,
    /// The file of the inputs, one a line.
    pub inputs: Text<'a>,
    /// The file of the weights, if there is one.
    pub weights: Option<Text<'a>>,
    /// The bounds of runs.
    pub bounds: Bounds,
    /// The limit on conflicts of the search.
    pub conflicts: u64,
    /// The limit on listed sets.
    pub sets: u32,
    /// The file that the certificate is written to, if there is one.
    pub cert: Option<Text<'a>>,
    /// Whether runs are shown for each set, one for each input.
    pub runs: bool,
    /// Whether restarts are steady, and not by Luby's sequence.
    pub steady: bool,
}

impl<'a> AllJob<'a> {
    /// The files that are read: the program, the inputs, and the weights if they are named.
    pub fn files(&self) -> [Named<'a>; 3]
        ensures { result ≡ files_of self.now }
    {
        files_for(&self.program, File::Inputs, &self.inputs, &self.weights)
    }
}
