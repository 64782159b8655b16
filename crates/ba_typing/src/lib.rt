//! The type system of the profile (C90 6.1.2, 6.3, 6.5 to 6.7), as definitions over the parse tree. They give
//! all faults of a tree, and its typed tree if there is no fault. The names, words and operators that they
//! use are types of this crate.
#![tactic(auto)]

pub mod error;
pub mod fault;
pub mod meanings;
pub mod names;
pub mod text;

pub use error::TypeError;
