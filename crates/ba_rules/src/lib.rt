//! Restart and clause-deletion policies of the search, which a caller may choose.
#![tactic(auto)]

pub mod rules;
