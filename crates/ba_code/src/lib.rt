//! The intermediate representation: three-address code without calls, and its semantics (Aho, Sethi and
//! Ullman, "Compilers", 8.1).
//!
//! The inliner, the unroller and the symbolic execution share these definitions: the trees of nodes, their
//! runs, and what holds of each tree.
#![tactic(auto)]

pub mod fitting;
pub mod nodes;
pub mod trees;
