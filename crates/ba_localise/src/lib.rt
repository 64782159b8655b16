//! The least sets of statements whose change could repair a failing run.
//!
//! The formula of the run is made, and the models of least cost are searched for. A checker allows each step
//! of the search, and the interpreter judges the run of each set.
#![tactic(auto)]

mod lent;
mod search;
mod verdict;

pub use search::{localise, localise_places, search_for};
pub use verdict::PlaceVerdict;
