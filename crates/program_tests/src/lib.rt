//! Unit tests by examples of the front end and of programs:
//! - texts with their tokens or their first error
//! - texts that the parser and typing accept or refuse, with the fault and its position
//! - C programs with outcomes and units worked out by hand, and texts of inputs
//! - the nodes of programs, without calls and then without loops
//! - the places and entries of word lists What types expressions have is shown by a run of `trials`.
#![tactic(auto)]

#[cfg(test)]
mod bytes;
#[cfg(test)]
mod edits;
#[cfg(test)]
mod guards;
#[cfg(test)]
mod inline;
#[cfg(test)]
mod inputs;
#[cfg(test)]
mod interp;
#[cfg(test)]
mod items;
#[cfg(test)]
mod laws;
#[cfg(test)]
mod levels;
#[cfg(test)]
mod lex;
#[cfg(test)]
mod limits;
#[cfg(test)]
mod numbers;
#[cfg(test)]
mod parse;
#[cfg(test)]
mod ranks;
#[cfg(test)]
mod support;
#[cfg(test)]
mod types;
#[cfg(test)]
mod units;
#[cfg(test)]
mod unroll;
