//! Static single assignment form over bit vectors: a run whose choices are open, as a list of entries, each
//! an operator over earlier entries.
//!
//! Symbolic execution (`guard`) makes such lists, and bit-blasting reads them. An assignment gives each free
//! word and flag a number, and so every entry a value. [`append`] puts a list behind another, so that one
//! list holds several runs.
#![tactic(auto)]

mod joining;
pub mod laws;
pub mod words;

pub use joining::{append, empty_list};
