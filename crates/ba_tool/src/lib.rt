//! The top call of the program: what its words ask for, the answer that its files come to, and what
//! is printed.
#![tactic(auto)]

pub mod entry;
mod requests;
pub mod tool;
