//! First phases: the values of all variables in the run in which some literals are true.
//!
//! Clauses of gates define variables by earlier ones. So the values of the variables that no clause defines
//! give all others theirs. A search that begins near a run of the program finds models near it.

use crate::simulation::definition;
use ba_checker::Checker;
use ba_lits::Lit;
use std::alloc::{AllocError, Global};

/// The signs with which the clauses that define a variable have it, and its value.
#[derive(Clone, Copy, Drop)]
struct Phase {
    is_positive: bool,
    is_negative: bool,
    value: bool,
}

/// The values of the variables, by their numbers, in the run in which these literals are true. Other
/// variables that no clause defines are false.
///
/// The only error is out of memory.
pub fn first_phases(
    alloc: Global,
    checker: &Checker,
    lits: &[Lit],
) -> Result<Vec<bool>, AllocError> {
    let none = Phase {
        is_positive: false,
        is_negative: false,
        value: false,
    };
    let count = (checker.variables() as usize).saturating_add(1);
    let mut phases = vec![in alloc; none; count]?;
    note_signs(&mut phases, checker);
    for lit in lits {
        set_value(&mut phases, *lit);
    }
    force_all(&mut phases, checker);
    let mut values = Vec::with_capacity(alloc, count)?;
    for phase in &phases {
        values.push(phase.value)?;
    }
    Ok(values)
}

/// Notes the signs with which the clauses that define variables have them. A variable that is negated in all
/// of these clauses is true at first.
fn note_signs(phases: &mut [Phase], checker: &Checker) {
    let mut greatest = 0;
    for place in 0..checker.last() {
        if let Some((last, _)) = definition(checker, place + 1, greatest) {
            greatest = last.variable();
            note_sign(phases, last);
        }
    }
    for phase in phases.iter_mut() {
        phase.value = phase.is_negative && !phase.is_positive;
    }
}

/// Notes the sign of a literal.
fn note_sign(phases: &mut [Phase], lit: Lit) {
    if let Some(phase) = phases.get_mut(lit.variable() as usize) {
        if lit.is_negated() {
            phase.is_negative = true;
        } else {
            phase.is_positive = true;
        }
    }
}

/// Makes the last literal of each clause that defines a variable true if its others are false.
fn force_all(phases: &mut [Phase], checker: &Checker) {
    let mut greatest = 0;
    for place in 0..checker.last() {
        if let Some((last, others)) = definition(checker, place + 1, greatest) {
            greatest = last.variable();
            if !has_true(phases, others) {
                set_value(phases, last);
            }
        }
    }
}

/// Whether one of the literals is true.
fn has_true(phases: &[Phase], lits: &[Lit]) -> bool {
    for lit in lits {
        if is_true(phases, *lit) {
            return true;
        }
    }
    false
}

/// Whether a literal is true.
fn is_true(phases: &[Phase], lit: Lit) -> bool {
    match phases.get(lit.variable() as usize) {
        Some(phase) => phase.value != lit.is_negated(),
        None => false,
    }
}

/// Makes a literal true.
fn set_value(phases: &mut [Phase], lit: Lit) {
    if let Some(phase) = phases.get_mut(lit.variable() as usize) {
        phase.value = !lit.is_negated();
    }
}
