//! A symbol table (C90 6.1.2.1, 6.1.2.3): the variables, enumeration constants and tags in scope, and the
//! functions of a file.
#![tactic(auto)]

mod number_maps;
pub mod scopes;
