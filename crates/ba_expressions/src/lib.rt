//! Type checking of expressions with constant folding (C90 6.3, 6.4): type, typed tree, value as a constant,
//! calls and faults.
#![tactic(auto)]

mod arguments;
pub mod expressions;
pub mod inferred;
pub mod tally;
mod trees;
pub mod uses;
mod values;
