//! Parsers of the files beside a program: a failing input, several inputs, and the weights of statements.
//!
//! [`read_input`] reads the input of a text, and [`read_inputs`] the inputs of its lines. [`read_weights`]
//! reads the weights of a program's statements.
#![tactic(auto)]

mod input;
mod inputs;
pub mod laws;
mod weights;

pub use input::{InputError, read_input};
pub use inputs::{InputLine, InputsError, read_inputs};
pub use weights::{WeightsError, read_weights};
