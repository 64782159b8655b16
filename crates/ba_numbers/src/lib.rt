//! The integer arithmetic of C (C90 6.1.2.5, 6.2.1, 6.3): values and types of operators. The names of a
//! program's parts and positions in its text are here too.
#![tactic(auto)]

pub mod ids;
pub mod numbers;
pub mod types;
