//! Tseitin's transformation with polarity (G. S. Tseitin, "On the complexity of derivation in propositional
//! calculus").
//!
//! A formula in conjunctive normal form says that bits of gates are true. It has a variable for a gate, and
//! clauses that tie it to the gate's operands. A gate that is only needed true, or only false, has the
//! clauses of that direction. Polarity: D. A. Plaisted and S. Greenbaum, "A structure-preserving clause form
//! translation". A gate that nothing needs has none. A tree of `and`s that are each used once is one gate
//! with many operands.
#![tactic(auto)]

mod clauses;
mod encoding;
mod gates;
mod numbers;
mod sides;
mod uses;

pub use encoding::{Encoding, Reading, clauses_of};
