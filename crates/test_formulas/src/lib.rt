//! Formulas for tests and benchmarks, and tests of the conditions of the solver's calls.
#![tactic(auto)]

mod clauses;
mod conditions;
mod instances;
mod judge;
mod literals;
mod source;

pub use clauses::{add, add_clause, formula_of, without_clauses};
pub use conditions::{are_numbers, are_selectors};
pub use instances::{pigeons, random};
pub use judge::NoRuns;
pub use literals::{lit, literal, lits};
pub use source::Source;
