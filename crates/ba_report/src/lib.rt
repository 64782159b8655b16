//! The report generator: the text that names the least sets of a program.
//!
//! Each set has a line for each of its statements, with position, kind and source line, and may have a line
//! for a good run. [`report`] makes the text of a verdict.
#![tactic(auto)]

mod lines;
mod listing;
mod statements;

pub use lines::Lines;
pub use listing::{Listing, report};
pub use statements::{info_of, push_source, push_statement_head};
