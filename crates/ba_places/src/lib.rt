//! Single executions of statements as suspects: the order of their places, which runs are good if some are
//! relaxed, and the least sets.
//!
//! A list of places numbers them, so that a search over numbered groups is one over places.
#![tactic(auto)]

mod judge;
pub mod laws;
mod listing;
mod numbers;
mod order;

pub use judge::PlaceJudge;
pub use listing::places_of;
pub use numbers::{place_at, places_at};
