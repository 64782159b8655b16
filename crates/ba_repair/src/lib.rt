//! Small edits of a program: which there are at given statements, what one makes of the program, and which
//! are good for given inputs.
//!
//! An edit changes one constant by 1, or one operator to its partner. [`edits`] lists them, and [`edited`]
//! makes one. [`good_edits`] keeps those with which the program as a whole passes all inputs.
#![tactic(auto)]

mod expressions;
mod good;
pub mod laws;
mod listing;
mod nodes;
mod programs;
mod rows;
mod statements;
mod walk;

pub use good::good_edits;
pub use listing::{Change, Edit, edits};
pub use programs::edited;
