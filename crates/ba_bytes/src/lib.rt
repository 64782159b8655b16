//! Scanning of bytes: character classes, lines of a text, pieces between blanks, and decimal numbers.
#![tactic(auto)]

pub mod classes;
pub mod decimal;
pub mod lines;
pub mod numbers;
pub mod pieces;
