//! What a call of the program asks for.
//!
//! [`read_words`] gives the command that the words are, exactly where they are one; `clap` reads them.
#![tactic(auto)]

mod commands;
mod modes;
mod parsing;
mod words;

pub use commands::{Command, Text};
pub use words::{WordsError, read_words};
