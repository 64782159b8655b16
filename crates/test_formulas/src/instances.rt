//! Formulas of a size that can be chosen.

use crate::clauses::{add, without_clauses};
use crate::literals::literal;
use crate::source::Source;
use ba_lits::{Formula, Lit};
use std::alloc::{AllocError, Global};

/// The pigeonhole formula: each pigeon is in a hole, and no two are in the same.
///
/// The only error is out of memory.
pub fn pigeons(alloc: Global, pigeons: u64, holes: u64) -> Result<Formula, AllocError> {
    let mut formula = without_clauses(alloc, pigeons.saturating_mul(holes))?;
    for pigeon in 0..pigeons {
        house(alloc, &mut formula, holes, pigeon)?;
    }
    for hole in 0..holes {
        part(&mut formula, pigeons, holes, hole)?;
    }
    Ok(formula)
}

/// Says that a pigeon is in a hole.
///
/// The only error is out of memory.
fn house(alloc: Global, formula: &mut Formula, holes: u64, pigeon: u64) -> Result<(), AllocError> {
    let mut clause = Vec::new(alloc);
    for hole in 0..holes {
        clause.push(is_in(holes, pigeon, hole))?;
    }
    add(formula, clause.as_slice())
}

/// Says that no two pigeons are in a hole.
///
/// The only error is out of memory.
fn part(formula: &mut Formula, pigeons: u64, holes: u64, hole: u64) -> Result<(), AllocError> {
    for second in 0..pigeons {
        for first in 0..second {
            let apart = [
                is_in(holes, first, hole).negated(),
                is_in(holes, second, hole).negated(),
            ];
            add(formula, apart.as_slice())?;
        }
    }
    Ok(())
}

/// The literal that says that a pigeon is in a hole.
fn is_in(holes: u64, pigeon: u64, hole: u64) -> Lit {
    literal(
        pigeon
            .wrapping_mul(holes)
            .wrapping_add(hole)
            .saturating_add(1),
        false,
    )
}

/// Random clauses of three literals, of different variables each.
///
/// The only error is out of memory.
pub fn random(
    alloc: Global,
    variables: u64,
    clauses: u64,
    seed: u64,
) -> Result<Formula, AllocError> {
    let mut formula = without_clauses(alloc, variables)?;
    let mut source = Source::new(seed);
    for _ in 0..clauses {
        let lits = three_literals(&mut source, variables);
        add(&mut formula, lits.as_slice())?;
    }
    Ok(formula)
}

/// Random literals of three variables in their order.
fn three_literals(source: &mut Source, variables: u64) -> [Lit; 3] {
    let [low, middle, high] = three_below(source, variables);
    let signs = source.next();
    [
        literal(low.saturating_add(1), signs & 1 == 1),
        literal(middle.saturating_add(1), signs & 2 == 2),
        literal(high.saturating_add(1), signs & 4 == 4),
    ]
}

/// Three different numbers below a limit, the least one first.
fn three_below(source: &mut Source, limit: u64) -> [u64; 3] {
    let one = source.below(limit);
    let other = past(source.below(limit.saturating_sub(1)), one);
    let low = one.min(other);
    let high = one.max(other);
    let last = past(past(source.below(limit.saturating_sub(2)), low), high);
    [low.min(last), low.max(last.min(high)), high.max(last)]
}

/// The number at an index among all but one of them.
fn past(place: u64, left_out: u64) -> u64 {
    if place >= left_out {
        place.saturating_add(1)
    } else {
        place
    }
}
