//! The mode `localise`: fault localisation of one failing run, with a certificate if one is named. A sample,
//! a program made for the purpose, is localised too.
#![tactic(auto)]

mod jobs;
pub mod laws;
mod search;

pub use jobs::{LocaliseJob, Telling, sample_job, sample_texts};
pub use search::localise_texts;
