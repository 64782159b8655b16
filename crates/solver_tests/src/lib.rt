//! Unit tests of circuits, formulas and the solver:
//! - the circuits' values against those of a C compiler, and their gates
//! - formulas of gates against truth tables, and their sizes
//! - the bits of word lists, and their formulas
//! - all least sets of formulas without executions
//! - the formulas of programs, beside the sets of statements that could repair their runs
#![tactic(auto)]

#[cfg(test)]
mod arena;
#[cfg(test)]
mod bits;
#[cfg(test)]
mod cells;
#[cfg(test)]
mod checker;
#[cfg(test)]
mod clauses;
#[cfg(test)]
mod cores;
#[cfg(test)]
mod counts;
#[cfg(test)]
mod encode;
#[cfg(test)]
mod enumeration;
#[cfg(test)]
mod formula;
#[cfg(test)]
mod learn;
#[cfg(test)]
mod lits;
#[cfg(test)]
mod muldiv_borders;
#[cfg(test)]
mod muldiv_powers;
#[cfg(test)]
mod nodes;
#[cfg(test)]
mod places;
#[cfg(test)]
mod search;
#[cfg(test)]
mod steps;
#[cfg(test)]
mod support;
#[cfg(test)]
mod watch;
#[cfg(test)]
mod words;
