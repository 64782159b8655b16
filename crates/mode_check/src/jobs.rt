//! The jobs of checking a certificate.

ghost use Rattle.std.specs.Prelude.{◌≡◌};
ghost use Rattle.mode_check.specs.Jobs.{files_of, files_with_inputs};

use ba_answers::file::File;
use ba_cases::files_for;
use ba_commands::Text;
use ba_files::Named;
use ba_tree::run::Bounds;

/// A check: the names of its files, and the settings that the certificate has to have.
#[derive(Drop)]
pub struct CheckJob<'a> {
    /// The file of the program.
    pub program: Text<'a>,
    /// The file of the input, or of the inputs, one a line.
    pub input: Text<'a>,
    /// The file of the certificate.
    pub cert: Text<'a>,
    /// The file of the weights, if there is one.
    pub weights: Option<Text<'a>>,
    /// The bounds of runs.
    pub bounds: Bounds,
    /// The limit on conflicts of the search.
    pub conflicts: u64,
    /// The limit on listed sets.
    pub sets: u32,
}

impl<'a> CheckJob<'a> {
    /// The files that are read whole: the program, the input, and the weights if they are named. The
    /// certificate is read after them, in pieces.
    pub fn files(&self) -> [Named<'a>; 3]
        ensures { result ≡ files_of self.now }
    {
        files_for(&self.program, File::Input, &self.input, &self.weights)
    }

    /// The same files, if there are several inputs.
    pub fn files_with_inputs(&self) -> [Named<'a>; 3]
        ensures { result ≡ files_with_inputs self.now }
    {
        files_for(&self.program, File::Inputs, &self.input, &self.weights)
    }
}
