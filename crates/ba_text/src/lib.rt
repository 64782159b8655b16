//! Printing of numbers and choices, for reports and certificates.
#![tactic(auto)]

mod choices;
mod numbers;

pub use choices::push_choices;
pub use numbers::{push_number, push_value};
