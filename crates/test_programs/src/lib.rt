//! Programs for tests, as C texts, and what tests ask of their runs.
#![tactic(auto)]

mod choices;
pub mod examples;
mod program;
mod relaxed;

pub use choices::choices_of;
pub use program::program_of;
pub use relaxed::Relaxed;
use std::alloc::{AllocError, AllocFailed};

/// Why a text of a test could not be read: it spells no program, a word is no choice, or out of memory.
#[derive(Clone, Copy, Debug, PartialEq, Eq)]
pub enum Fault {
    NoProgram,
    NoChoice,
    Memory,
}

impl From<AllocError> for Fault {
    fn from(_error: AllocError) -> Fault {
        Fault::Memory
    }
}

impl<T: Drop> From<AllocFailed<T>> for Fault {
    fn from(_error: AllocFailed<T>) -> Fault {
        Fault::Memory
    }
}
