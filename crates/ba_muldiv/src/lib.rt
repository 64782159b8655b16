//! Multipliers and dividers over 32-bit words (C90 6.3.5).
//!
//! A product is a sum of shifted words. A constant factor takes one for each of its nonzero bits, or of its
//! nonzero signed digits if these are fewer. Another factor takes a multiple for each of its digits to base
//! 4.
//!
//! A division is a restoring division of 32 steps of subtract and select, each over the bits that the
//! remainder has by then. Constants are folded, so an unsigned division by a constant power of 2 is a shift.
//! A signed division by such a power or its negation is made as a shift.
//!
//! The only error is out of memory. It leaves every bit its value; gates may have been added.
#![tactic(auto)]

mod constants;
mod division;
mod powers;
mod product;

pub use division::{div, rem};
pub use product::mul;
