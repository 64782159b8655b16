//! Symbolic execution with path conditions into SSA. Source: R. Cytron, J. Ferrante, B. Rosen, M. Wegman and
//! F. Zadeck, "Efficiently computing static single assignment form and the control dependence graph".
//!
//! [`guard`] walks over a loop-free program as over one line of code, and computes each word once. A branch
//! is executed if its path condition, a word, isn't 0. If branches join, each variable is a select of its two
//! words.
#![tactic(auto)]

mod builder;
mod choices;
mod exits;
mod expressions;
mod names;
mod starting;
mod steps;
mod variables;
mod walking;
mod whole;
mod words;

pub use whole::{guard, inputs_are_words};
