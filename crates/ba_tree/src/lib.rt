//! The typed abstract syntax tree of C and its big-step semantics (C90 6.3, 6.5, 6.6), with statements that
//! may be relaxed. All other crates are measured against these definitions.
#![tactic(auto)]

pub mod laws;
pub mod lookup;
pub mod run;
pub mod tree;
