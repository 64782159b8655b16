//! Formulas and watch lists, clause by clause.

use crate::literals::lits;
use ba_arena::ClauseRef;
use ba_lits::{Formula, Lit, is_clause};
use ba_watch::Watch;
use std::alloc::{AllocError, Global};

/// The formula over this many variables without clauses.
///
/// The only error is out of memory.
pub fn without_clauses(alloc: Global, variables: u64) -> Result<Formula, AllocError> {
    let mut formula = Formula::new(alloc);
    for _ in 0..variables {
        formula.fresh()?;
    }
    Ok(formula)
}

/// Adds a clause, if the literals form one.
///
/// The only error is out of memory.
pub fn add(formula: &mut Formula, lits: &[Lit]) -> Result<(), AllocError> {
    if is_clause(formula.variables(), lits) {
        formula.push(lits)?;
    }
    Ok(())
}

/// The formula over this many variables with the clauses that are written as numbers; what is no clause is
/// left out.
///
/// The only error is out of memory.
pub fn formula_of(
    alloc: Global,
    variables: u64,
    clauses: &[&[i64]],
) -> Result<Formula, AllocError> {
    let mut formula = without_clauses(alloc, variables)?;
    for codes in clauses {
        add(&mut formula, lits(alloc, codes)?.as_slice())?;
    }
    Ok(formula)
}

/// Adds a clause to watch lists at level 0, if the literals form one. `None` if they don't, or the level is
/// higher.
///
/// The only error is out of memory.
pub fn add_clause(
    watch: &mut Watch,
    lits: &[Lit],
    number: u64,
) -> Result<Option<ClauseRef>, AllocError> {
    if watch.level() == 0 && is_clause(watch.variables(), lits) {
        return Ok(Some(watch.add_clause(lits, number)?));
    }
    Ok(None)
}
