//! The program of a text.

use crate::Fault;
use ba_lex::{MAX_TEXT, tokens};
use ba_parse::parse;
use ba_tree::tree::Program;
use ba_types::check;
use std::alloc::Global;

/// The program that a C text spells.
///
/// `NoProgram` if it spells none, or has more than 65,536 bytes.
pub fn program_of(alloc: Global, text: &str) -> Result<Program, Fault> {
    if text.len() > MAX_TEXT {
        return Err(Fault::NoProgram);
    }
    let tokens = tokens(alloc, text.as_bytes()).map_err(|_error| Fault::NoProgram)?;
    let raw = parse(alloc, tokens.as_slice()).map_err(|_error| Fault::NoProgram)?;
    check(alloc, &raw).map_err(|_error| Fault::NoProgram)
}
