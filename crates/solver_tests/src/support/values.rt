//! Values of variables as the bits of a number, the first variable the lowest.

use ba_lits::{Formula, Lit, Model};

/// The values of a model, up to 60 of them.
pub fn bits_of(model: &Model) -> u64 {
    let mut bits = 0u64;
    for value in model.values.as_slice().iter().take(60).rev() {
        bits = bits.wrapping_mul(2).wrapping_add(u64::from(*value));
    }
    bits
}

/// Whether a literal is true.
pub fn is_true(bits: u64, lit: Lit) -> bool {
    let place = (lit.variable() - 1).min(63) as u32;
    let value = bits.checked_shr(place).unwrap_or(0) & 1 == 1;
    value != lit.is_negated()
}

/// Whether a formula and assumptions are satisfied.
pub fn satisfies(formula: &Formula, assumptions: &[Lit], bits: u64) -> bool {
    for place in 0..formula.len() {
        if !formula
            .clause(place + 1)
            .iter()
            .any(|lit| is_true(bits, *lit))
        {
            return false;
        }
    }
    assumptions.iter().all(|lit| is_true(bits, *lit))
}
