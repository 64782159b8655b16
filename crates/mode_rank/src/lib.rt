//! The mode `rank`: ranking of statements by how many of several failing runs their change could repair.
#![tactic(auto)]

mod jobs;
pub mod laws;
mod lent;
mod ranking;
mod report;
mod runs;
mod searches;

pub use jobs::RankJob;
pub use ranking::rank_texts;
