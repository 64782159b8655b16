//! What the program is asked to do.

ghost use Rattle.std.specs.Prelude.{◌≡◌};

use ba_tree::run::Bounds;
use std::marker::Model;

/// A text that stands in the words of the call, and takes no memory of its own: the name of a file. Contracts
/// see the list of its bytes and nothing else.
#[derive(Drop)]
pub struct Text<'a> {
    text: &'a str,
}

impl<'a> Model for Text<'a> {
    ghost use Rattle.std.specs.Prelude.{List, ℕ};

    ghost Value = { List ℕ };

    ghost view = { λ text. text.text.now };
}

impl<'a> Text<'a> {
    /// The text of this word, or of a part of it.
    pub fn new(text: &'a str) -> Text<'a>
        ensures { result ≡ text.now }
    {
        Text { text }
    }

    /// The text as it stands in the words.
    pub fn as_str(&self) -> &'a str
        ensures { result.now ≡ self.now }
    {
        self.text
    }
}

/// What the words of a call ask for. Files are named as the words name them; what is left out has its
/// default.
#[derive(Drop)]
pub enum Command<'a> {
    /// Find the least sets of statements, or of single executions, whose change could repair the run. If
    /// there are several inputs, find those of statements whose change could repair all runs together.
    Localise {
        /// The file of the program.
        program: Text<'a>,
        /// The file of the input, or of the inputs, one a line.
        input: Text<'a>,
        /// How far a run may go.
        bounds: Bounds,
        /// The file of the weights, if there is one.
        weights: Option<Text<'a>>,
        /// How many conflicts the search may have: 1 to 1,000,000, by default 200,000.
        conflicts: u64,
        /// How many sets may be listed: 1 to 10,000, by default 1,000.
        sets: u32,
        /// The file that the certificate is written to, if there is one.
        cert: Option<Text<'a>>,
        /// Whether a run is shown for each set.
        runs: bool,
        /// Whether single executions are suspects, and not whole statements. Then no certificate is written.
        places: bool,
        /// Whether there are several inputs, whose runs are repaired together. Then single executions are no
        /// suspects.
        all: bool,
        /// Whether the search restarts steadily, and not by Luby's sequence.
        steady: bool,
    },
    /// Check a certificate.
    Check {
        /// The file of the program.
        program: Text<'a>,
        /// The file of the input, or of the inputs, one a line.
        input: Text<'a>,
        /// The file of the certificate.
        cert: Text<'a>,
        /// How far a run may go.
        bounds: Bounds,
        /// The file of the weights, if there is one.
        weights: Option<Text<'a>>,
        /// How many conflicts the certificate is of: 1 to 1,000,000, by default 200,000.
        conflicts: u64,
        /// How many sets may be listed: 1 to 10,000, by default 1,000.
        sets: u32,
        /// Whether there are several inputs, whose runs are repaired together.
        all: bool,
    },
    /// Run the program.
    Run {
        /// The file of the program.
        program: Text<'a>,
        /// The file of the input.
        input: Text<'a>,
        /// How far the run may go.
        bounds: Bounds,
    },
    /// Rank the statements over several inputs.
    Rank {
        /// The file of the program.
        program: Text<'a>,
        /// The file of the inputs, one a line.
        inputs: Text<'a>,
        /// How far a run may go.
        bounds: Bounds,
        /// The file of the weights, if there is one.
        weights: Option<Text<'a>>,
        /// How many conflicts each search may have: 1 to 1,000,000, by default 200,000.
        conflicts: u64,
        /// How many sets each search may list: 1 to 10,000, by default 1,000.
        sets: u32,
        /// Whether the searches restart steadily, and not by Luby's sequence.
        steady: bool,
    },
    /// Try small edits at the statements of the least sets.
    Repair {
        /// The file of the program.
        program: Text<'a>,
        /// The file of the input on which it fails.
        failing: Text<'a>,
        /// The file of the inputs on which it passes, one a line.
        passing: Text<'a>,
        /// How far a run may go.
        bounds: Bounds,
        /// The file of the weights, if there is one.
        weights: Option<Text<'a>>,
        /// How many conflicts the search may have: 1 to 1,000,000, by default 200,000.
        conflicts: u64,
        /// How many sets may be listed: 1 to 10,000, by default 1,000.
        sets: u32,
        /// Whether the search restarts steadily, and not by Luby's sequence.
        steady: bool,
    },
    /// Search a program made for the purpose.
    Sample {
        /// How many additions the program has: 1 to 500.
        additions: u32,
    },
}
