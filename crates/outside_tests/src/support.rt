//! What the tests of files and calls share.

pub mod calls;
pub mod counted;
pub mod endless;
pub mod problems;
pub mod programs;
pub mod verdicts;
