//! Soundness of the proof system, as laws: over a faithful encoding steps derive exactly the least sets.
#![tactic(auto)]

pub mod laws;
pub mod verdict;

pub use verdict::{FoundSet, Verdict};
