//! Circuits over 32-bit words: adders, comparators, shifters, bitwise operators, selects and conversions.
//!
//! A word is its bits, the lowest first. Each circuit gives the operator's value for every assignment of the
//! free bits, and adds at most the stated number of gates. Constants are folded, and existing gates are found
//! again. The only error is out of memory. It leaves every bit its value; gates may have been added.
#![tactic(auto)]

mod bitwise;
mod comparisons;
mod conversions;
mod shifts;
mod sums;

use ba_nodes::Bit;
pub use bitwise::{bit_and, bit_or, bit_xor, flip, select};
pub use comparisons::{equal, less, nonzero};
pub use conversions::{convert_word, extended};
pub use shifts::{moved_up, shl, shr, sign_of};
pub use sums::{add, add_moved_up, add_with_carry, neg, sub};

/// A word of 32 bits, the lowest bit first.
pub type Word = [Bit; 32];
