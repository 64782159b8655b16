//! A SAT solver under assumptions by conflict-driven clause learning.
//!
//! The search decides, propagates, and learns a clause from each conflict. Sources: J. Marques-Silva, K.
//! Sakallah, GRASP: A New Search Algorithm for Satisfiability. M. Moskewicz, C. Madigan, Y. Zhao, L. Zhang,
//! S. Malik, Chaff: Engineering an Efficient SAT Solver. N. Een, N. Sorensson, An Extensible SAT-solver. Each
//! learnt clause is put to a checker of derivations and its sink before it is used. That the checker allows
//! it is proved, so nothing tests it at run time.
//!
//! Each heuristic has its file, and needs no proof: `order`, `candidates`, `restarts`, `reduction`, `sweep`
//! and `simulation`.
#![tactic(auto)]

mod candidates;
mod clause_numbers;
mod deciding;
mod engine;
mod iteration;
pub mod laws;
mod learning;
mod order;
mod phases;
mod reduction;
mod restarts;
mod rules;
mod search;
mod simulation;
mod sweep;

pub use rules::{RulesBy, SearchRules};
pub use search::{Answer, Search, SearchError};
