//! The mode `check`: proof checking of a certificate for a failing run, or for several together, line by line
//! as it is read.
#![tactic(auto)]

mod certificates;
mod jobs;

pub use certificates::{check_all_texts, check_texts};
pub use jobs::CheckJob;
