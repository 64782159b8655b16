//! The exit statuses and messages of the program. No world and no search is in it.
#![tactic(auto)]

pub mod answers;
pub mod fault;
pub mod file;
pub mod status;
