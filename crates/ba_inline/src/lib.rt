//! Procedure inlining: from typed C to three-address code without calls.
//!
//! [`inline`] replaces each call by the body of its function, down to a bound on frames, and makes the order
//! of evaluation explicit. The code has the outcomes of the program.
#![tactic(auto)]

mod binding;
mod blocks;
mod calls;
mod control;
mod declared;
mod emit;
mod expressions;
mod frames;
mod labels;
mod leaves;
mod operands;
mod scope;
mod simple;
mod starting;
mod switches;
mod whole;

pub use whole::inline;
