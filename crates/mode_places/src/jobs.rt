//! What is to be localised by places.

ghost use Rattle.std.specs.Prelude.{◌≡◌};
ghost use Rattle.mode_places.specs.Jobs.{files_of};

use ba_answers::file::File;
use ba_cases::files_for;
use ba_commands::Text;
use ba_files::Named;
use ba_tree::run::Bounds;

/// A search for least sets of places: the names of its files, and how far the runs and the search may
/// go.
#[derive(Drop)]
pub struct PlacesJob<'a> {
    /// The file of the program.
    pub program: Text<'a>,
    /// The file of the input.
    pub input: Text<'a>,
    /// The file of the weights, if there is one. What it fixes is not relaxed; other weights count for
    /// nothing.
    pub weights: Option<Text<'a>>,
    /// How far a run may go.
    pub bounds: Bounds,
    /// How many conflicts the search may have.
    pub conflicts: u64,
    /// How many sets may be listed.
    pub sets: u32,
    /// Whether a run is shown for each set.
    pub runs: bool,
    /// Whether the search restarts steadily, and not by Luby's sequence.
    pub steady: bool,
}

impl<'a> PlacesJob<'a> {
    /// The files that are read: the program, the input, and the weights if they are named.
    pub fn files(&self) -> [Named<'a>; 3]
        ensures { result ≡ files_of self.now }
    {
        files_for(&self.program, File::Input, &self.input, &self.weights)
    }
}
