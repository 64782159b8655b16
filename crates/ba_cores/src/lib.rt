//! Core-guided MaxSAT with stratification.
//!
//! The present soft literals are assumed. Each core raises the lower bound and is split, until a model
//! satisfies the soft literals that are left. Sources: Z. Fu, S. Malik, On Solving the Partial MAX-SAT
//! Problem; N. Narodytska, F. Bacchus, Maximum Satisfiability Using Core-Guided MaxSAT Resolution. Heavy ones
//! are assumed first, lighter ones once a model satisfies these (C. Ansotegui, M. Bonet, J. Gabas, J. Levy,
//! Improving SAT-Based Weighted MaxSAT Solvers).
#![tactic(auto)]

mod costs;
mod rounds;

pub use costs::{Found, least};
