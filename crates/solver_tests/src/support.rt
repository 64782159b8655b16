//! What the tests of circuits, formulas and the solver share.

pub mod conditions;
pub mod judge;
pub mod lists;
pub mod models;
pub mod operators;
pub mod programs;
pub mod values;
pub mod words;
