//! The mode `localise` with `--places`: the least sets of single executions of statements whose change
//! could repair a run that fails.
#![tactic(auto)]

mod jobs;
pub mod laws;
mod report;
mod search;

pub use jobs::PlacesJob;
pub use search::places_texts;
