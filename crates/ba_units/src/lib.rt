//! The size of a program whose calls are replaced by bodies and whose loops by their iterations.
//!
//! [`units`] gives exactly the number of the definition, or 20,001 if it is larger. It takes no memory. A
//! loop is counted by one iteration. Each call takes at least one unit of what is left up to the limit, and
//! nothing is counted once nothing is left.
#![tactic(auto)]

mod costs;
mod counting;
mod frame;
mod setting;
mod whole;

pub use whole::units;
