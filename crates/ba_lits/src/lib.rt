//! Propositional logic: literals, clauses, formulas in conjunctive normal form, their models, and sets of
//! literals and of indices.
#![tactic(auto)]

pub mod assignment;
pub mod clause;
pub mod formula;
pub mod literal;
mod literal_set;
mod marks;

pub use assignment::Model;
pub use clause::is_clause;
pub use formula::Formula;
pub use literal::Lit;
pub use literal_set::LiteralSet;
pub use marks::Marks;
