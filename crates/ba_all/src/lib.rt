//! Runs of a program on several inputs: which choices make good runs on all of them where some of its
//! statements are relaxed.
//!
//! The choices of all runs stand in one list, those of one run behind those of the one before. [`JudgeOfAll`]
//! cuts such a list from the left: a run uses up what it needs, and the next run has the rest.
#![tactic(auto)]

mod cuts;
mod judge;
pub mod laws;

pub use cuts::runs_in;
pub use judge::JudgeOfAll;
