//! The type checker of whole files (C90 6.1.2, 6.3, 6.5 to 6.7): from the parse tree to the typed program.
#![tactic(auto)]

mod files;
mod parameters;
mod signatures;

pub use files::check;
