//! Conflict analysis to the first unique implication point.
//!
//! A false clause is resolved with the reasons of its literals, latest first. That gives a clause that the
//! live clauses imply (J. Marques-Silva, K. Sakallah, GRASP: A New Search Algorithm for Satisfiability). It
//! stops when one literal of the present level is left, the first unique implication point. Source: L. Zhang,
//! C. Madigan, M. Moskewicz, S. Malik, Efficient Conflict Driven Learning in a Boolean Satisfiability Solver.
#![tactic(auto)]

mod analyser;
pub mod laws;
mod learnt;
mod resolution;

pub use analyser::{Analyser, analyse, core_of, refutation};
pub use learnt::Learnt;
