//! Ranking of suspicious statements over several failing inputs, by counting.
//!
//! Each failing input has a list of least sets of statements, each of which could repair its run. [`rank`]
//! orders the statements by the number of inputs that have them in such a set.
#![tactic(auto)]

pub mod laws;
mod ranking;

pub use ranking::{Ranked, rank};
