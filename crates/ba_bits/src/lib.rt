//! Bit-blasting: the entries of a word list as words of bits over an and-inverter graph, a
//! [`Nodes`](ba_nodes::Nodes).
//!
//! A word is one word of bits, an array one for each element. Under each assignment of the free bits they
//! spell the entry's elements, by the assignment of the list that the bits spell. Free words are free bits,
//! constants are constant bits, and operators are circuits.
//!
//! The only error is out of memory. It leaves every bit its value; gates may have been added.
#![tactic(auto)]

mod arrays;
mod cells;
mod entries;
mod leaves;
mod needs;
mod operators;

pub use cells::Cells;
pub use entries::bits_of;
pub use needs::needed_entries;
