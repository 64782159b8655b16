//! A streaming proof checker: a certificate from anywhere is checked line by line, without any search.
//!
//! Each step is put to a checker over the formula of a program's run, and the interpreter judges the run of
//! each blocked set. An accepted text shows its verdict, wherever it comes from. [`Confirm`] takes a text in
//! pieces, and keeps only its last unfinished line; [`confirm`] takes it whole.
#![tactic(auto)]

mod checked_lines;
mod confirmed;
mod cut;
mod error;
pub mod laws;
mod pieces;
mod reading;
mod settings;
mod whole;

pub use confirmed::Confirmed;
pub use error::CheckError;
pub use pieces::Confirm;
pub use settings::{Settings, head_of};
pub use whole::confirm;
