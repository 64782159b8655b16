//! The reader of the files of a call: each that its words name, whole, one after the other.
#![tactic(auto)]

mod files;

pub use files::{Named, Unread, read_files};
