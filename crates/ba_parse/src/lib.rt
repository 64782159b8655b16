//! A recursive-descent parser for the profile of C (C90 6.3 to 6.7).
//!
//! [`parse`] gives the one tree of the grammar with these tokens. Else it names the first token at which no
//! file can go on, or the first with too many constructs around it.
#![tactic(auto)]

mod declarations;
pub mod error;
mod expressions;
pub mod laws;
mod naming;
pub mod parser;
mod reader;
mod sets;
mod simple;
mod statements;
mod types;

pub use error::ParseError;
pub use parser::parse;
