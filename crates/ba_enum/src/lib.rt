//! Enumeration of minimum-weight correction sets: all sets of soft literals of least weight whose falsity
//! leaves a model.
//!
//! After the first model of least cost a clause blocks its set, and the search goes on under the same
//! assumptions. Each further model has the same cost and another set. If no model is left, the last core
//! shows that all others cost more.
#![tactic(auto)]

mod blocking;
mod endings;
mod enumerating;
mod putting;
mod task;
mod turns;

pub use enumerating::all_sets;
