//! The text format of proofs (certificates): a derivation as a file that a stranger can check.
//!
//! The first two lines have the version and the settings. Each step has a line, and no line is that of two
//! steps. [`step_text`] writes a line and [`read_line`] reads one. A [`TextSink`] writes each step into a
//! file of a world as it is made.
#![tactic(auto)]

mod choices;
mod entry;
mod error;
mod head;
pub mod laws;
mod numerals;
mod parts;
mod reader;
mod settings;
mod text_sink;
mod writer;

pub use error::CertError;
pub use head::CertHead;
pub use reader::read_line;
pub use settings::read_settings;
pub use text_sink::{CertSink, Start, TextSink, begin_text};
pub use writer::{head_text, step_text};
