//! Literals.

use ba_lits::Lit;
use std::alloc::{AllocError, Global};

/// The literal of a variable with a sign.
pub fn literal(variable: u64, negated: bool) -> Lit {
    let lit = Lit::positive(variable.clamp(1, 1 << 32));
    if negated { lit.negated() } else { lit }
}

/// The literal of a number: the variable of its size, negated if it is below 0.
pub fn lit(code: i64) -> Lit {
    literal(code.unsigned_abs(), code < 0)
}

/// The literals of numbers.
///
/// The only error is out of memory.
pub fn lits(alloc: Global, codes: &[i64]) -> Result<Vec<Lit>, AllocError> {
    let mut list = Vec::new(alloc);
    for code in codes {
        list.push(lit(*code))?;
    }
    Ok(list)
}
