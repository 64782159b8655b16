//! Type checking of declarations and statements (C90 6.5, 6.6).
#![tactic(auto)]

mod assignments;
mod control;
pub mod declarations;
mod labels;
pub mod statements;
pub mod work;
