//! The exit statuses.

ghost use Rattle.std.specs.Prelude.{◌≡◌};
ghost use Rattle.ba_answers.specs.Printed.{number_of};

/// The exit status of the program.
#[derive(Clone, Copy, Debug, PartialEq, Eq)]
pub enum Status {
    /// The call has what it asked for. The least sets were found and reported, a certificate was accepted,
    /// statements were ranked, or edits were tried. Or a program that was to be run failed, and its position
    /// was printed.
    Ok = 0,
    /// The run as written meets every assertion: there is nothing to repair.
    NotFailing = 1,
    /// The words of the command line are no command.
    BadWords = 2,
    /// The text of the program spells no program.
    BadProgram = 3,
    /// The text of the input is no input of the program.
    BadInput = 4,
    /// The program has more than 20,000 units.
    TooLarge = 5,
    /// The run exceeds the bound on iterations or on frames.
    BeyondBound = 6,
    /// No set of statements could repair the run.
    NoRepair = 7,
    /// There are more least sets than may be listed.
    TooManySets = 8,
    /// The search spent its conflicts before the least sets were known.
    BudgetSpent = 9,
    /// A line of the certificate is refused, or it ends too early.
    BadCertificate = 10,
    /// A file could not be read.
    ReadFault = 11,
    /// A write failed: a text could not be printed whole, or the certificate or the sink of steps refused.
    WriteFault = 12,
    /// Out of memory.
    Memory = 13,
    /// A file is longer than 65,536 bytes, or a certificate longer than 2^62 bytes.
    TooLong = 14,
    /// A line of the weights is refused.
    BadWeights = 15,
    /// A run that had to pass doesn't. There is no status 16.
    PassingFails = 17,
}

impl Status {
    /// The number of the status.
    pub fn number(self) -> u8
        ensures { result ≡ number_of self }
    {
        self as u8
    }
}
