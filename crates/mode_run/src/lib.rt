//! The mode `run`: how the run of a program as written ends.
#![tactic(auto)]

pub mod laws;
mod running;

pub use running::{RunJob, run_texts};
