//! A proof checker for clauses by reverse unit propagation with hints, with core steps of MaxSAT resolution
//! and steps that block sets.
//!
//! A derivation starts from a formula in conjunctive normal form with weighted soft literals. Each step adds
//! a clause that follows by its hints, deletes learnt clauses, or ends the derivation. A core, a clause of
//! negated soft literals, raises the lower bound of the cost. It is split so that costs stay exact (N.
//! Narodytska, F. Bacchus, Maximum Satisfiability Using Core-Guided MaxSAT Resolution).
//!
//! The [`Checker`] answers for each step whether it is allowed, or its first error. [`Checked`] hands each
//! allowed step to a sink.
#![tactic(auto)]

mod block;
mod checked;
mod checker;
mod clauses;
mod index;
pub mod laws;
mod replay;
mod split;
mod store;

pub use checked::{Checked, ProofLog};
pub use checker::{APART_BY, Checker};
