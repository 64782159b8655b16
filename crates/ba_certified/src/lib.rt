//! Searches for least sets whose derivation is written to the file of a certificate, if one is named.
//!
//! The file is begun before the search. Each step is written to it as it is made, and then handed to a sink.
//! So the file and the sink have the same derivation.
#![tactic(auto)]

mod search;

pub use search::search_certified;
