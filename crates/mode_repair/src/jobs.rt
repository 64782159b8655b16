//! What is to be repaired.

ghost use Rattle.std.specs.Prelude.{◌≡◌, Some};
ghost use Rattle.ba_answers.specs.declared.file.File.{File};
ghost use Rattle.mode_repair.specs.Jobs.{files_of};

use ba_answers::file::File;
use ba_commands::Text;
use ba_files::Named;
use ba_tree::run::Bounds;

/// What is to be repaired: the names of the files, and how far the runs and the search may go.
#[derive(Drop)]
pub struct RepairJob<'a> {
    /// The file of the program.
    pub program: Text<'a>,
    /// The file of the input on which it fails.
    pub failing: Text<'a>,
    /// The file of the inputs on which it passes, one a line.
    pub passing: Text<'a>,
    /// The file of the weights, if there is one.
    pub weights: Option<Text<'a>>,
    /// How far a run may go.
    pub bounds: Bounds,
    /// How many conflicts the search may have.
    pub conflicts: u64,
    /// How many sets the search may list.
    pub sets: u32,
    /// Whether the search restarts steadily, and not by Luby's sequence.
    pub steady: bool,
}

/// A file with this name.
fn named<'a>(file: File, name: &Text<'a>) -> Named<'a>
    ensures { result ≡ record { file = file; name = Some name.now } }
{
    Named {
        file,
        name: Some(Text::new(name.as_str())),
    }
}

/// The file of the weights, if they are named.
fn weights_file<'a>(name: &Option<Text<'a>>) -> Named<'a>
    ensures { result ≡ record { file = File.Weights; name = name.now } }
{
    match name {
        Some(name) => named(File::Weights, name),
        None => Named {
            file: File::Weights,
            name: None,
        },
    }
}

impl<'a> RepairJob<'a> {
    /// The files that are read: the program, the failing input, the passing ones, and the weights if they are
    /// named.
    pub fn files(&self) -> [Named<'a>; 4]
        ensures { result ≡ files_of self.now }
    {
        [
            named(File::Program, &self.program),
            named(File::Failing, &self.failing),
            named(File::Passing, &self.passing),
            weights_file(&self.weights),
        ]
    }
}
