//! The parse trees of C (C90 6.3 to 6.7), and the classes of tokens.
#![tactic(auto)]

pub mod class;
pub mod tree;

pub use tree::statements::RawProgram;
