//! Bounded loop unrolling, as in bounded model checking (Clarke, Kroening and Lerda, "A tool for checking
//! ANSI-C programs").
//!
//! [`unroll`] copies the body of each loop once for each iteration that the bound allows. An iteration is
//! inside the branch that its condition takes, so a false condition needs no label.
#![tactic(auto)]

mod nodes;
mod places;
mod turns;
mod whole;

pub use whole::unroll;
