//! The mode `localise` with `--all`: the least sets of statements whose change could repair several failing
//! runs together. A certificate is written if one is named.
#![tactic(auto)]

mod jobs;
pub mod laws;
mod report;
mod search;

pub use jobs::AllJob;
pub use search::all_texts;
