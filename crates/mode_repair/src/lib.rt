//! The mode `repair`: the small edits of statements of the least sets that make the program pass the failing
//! input and every passing one.
#![tactic(auto)]

mod cases;
mod jobs;
pub mod laws;
mod report;
mod search;
mod statements;
mod texts;

pub use jobs::RepairJob;
pub use search::repair_texts;
pub use texts::RepairTexts;
