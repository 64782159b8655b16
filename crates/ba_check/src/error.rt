//! Why a certificate isn't accepted.

ghost use Rattle.std.specs.Prelude.{◌≡◌};
ghost use Rattle.ba_check.specs.Readings.{error_at, unread_at};

use ba_cert::CertError;
use ba_steps::StepError;
use std::alloc::{AllocError, AllocFailed};
use thiserror::Error;

/// The code of a line that should be a head line, settings or a step, and isn't.
pub(crate) const BAD_LINE: u8 = 20;

/// The code of a text that ends before an End step, or inside a line.
pub(crate) const TOO_EARLY: u8 = 21;

/// The code of a settings line whose numbers aren't those of the call.
pub(crate) const OTHER_SETTINGS: u8 = 22;

/// Why a certificate isn't accepted.
#[derive(Clone, Copy, Debug, PartialEq, Eq, Error)]
pub enum CheckError {
    /// The first refused line, counted from 1, and its code:
    /// - 1 to 14: the number of the step's error.
    /// - 20: the line has not the form that it has to have, of a head line, of settings or of a step.
    /// - 21: the text ends inside this line, or before it without an End step.
    /// - 22: the settings are not those of the call.
    #[error("line {line} is refused by code {code}")]
    Line { line: u64, code: u8 },
    /// Out of memory.
    #[error("out of memory")]
    Memory,
}

impl From<AllocError> for CheckError {
    ghost use Rattle.std.specs.Prelude.{◌≡◌};
    ghost use Rattle.ba_check.specs.declared.error.CheckError.TheVariants.{Memory};

    ghost from_gives = { λ _ error. error ≡ Memory };

    fn from(_error: AllocError) -> CheckError {
        CheckError::Memory
    }
}

impl<T: Drop> From<AllocFailed<T>> for CheckError {
    ghost use Rattle.std.specs.Prelude.{◌≡◌};
    ghost use Rattle.ba_check.specs.declared.error.CheckError.TheVariants.{Memory};

    ghost from_gives = { λ _ error. error ≡ Memory };

    fn from(_error: AllocFailed<T>) -> CheckError {
        CheckError::Memory
    }
}

/// The error of a line whose step has this error.
pub(crate) fn error_at(line: u64, error: StepError) -> CheckError
    ensures { result ≡ error_at line error }
{
    match error.number() {
        Some(code) => CheckError::Line { line, code },
        None => CheckError::Memory,
    }
}

/// The error of a line that isn't read.
pub(crate) fn unread_at(line: u64, error: CertError) -> CheckError
    ensures { result ≡ unread_at line error }
{
    match error {
        CertError::BadLine => CheckError::Line {
            line,
            code: BAD_LINE,
        },
        CertError::Memory => CheckError::Memory,
    }
}
