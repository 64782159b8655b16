//! From a program and an input to the formula whose models are its good runs.
//!
//! The program becomes code without calls and loops, its runs a list of guarded words, and the words clauses.
//! Each model is a good run, and each good run a model. That follows from what the four steps promise.
#![tactic(auto)]

mod by_place;
mod of_all;
mod runs;
mod whole;

pub use by_place::{PlaceFormula, place_formula_of};
pub use of_all::formula_of_all;
pub use whole::formula_of;
