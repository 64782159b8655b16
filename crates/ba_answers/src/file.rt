//! The files that the words of a call name, and their limits.

ghost use Rattle.std.specs.Prelude.{◌≡◌};
ghost use Rattle.ba_answers.specs.Limits.{limit_of};

/// A file that the words name.
#[derive(Clone, Copy)]
pub enum File {
    Program,
    Input,
    /// The inputs of several runs, one a line.
    Inputs,
    /// The input on which the program as written fails, and an edited one is to pass.
    Failing,
    /// The inputs on which both pass, one a line.
    Passing,
    Weights,
    /// The certificate to check.
    Certificate,
}

impl File {
    /// The limit on the file's bytes.
    pub fn limit(self) -> u64
        ensures { result ≡ limit_of self }
    {
        match self {
            File::Program | File::Input | File::Inputs | File::Failing | File::Passing => LIMIT,
            File::Weights => LIMIT,
            File::Certificate => CERTIFICATE_LIMIT,
        }
    }
}

/// The limit on the bytes of a file that is read whole.
pub const LIMIT: u64 = 65536;

/// The limit on the bytes of a certificate.
pub const CERTIFICATE_LIMIT: u64 = 4_611_686_018_427_387_904;
