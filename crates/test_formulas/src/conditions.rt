//! Tests of the conditions of the solver's calls.

ghost use Rattle.std.specs.Prelude.{◌≡◌, ◌<◌, ◌≤◌, true, false};
ghost use Rattle.ba_steps.specs.Steps.{AreNumbers};
ghost use Rattle.ba_checker.specs.Facts.{AreSelectors};

use ba_lits::Lit;

/// Whether these can be numbers of clauses.
pub fn are_numbers(numbers: &[u64]) -> bool
    ensures { result ≡ true → AreNumbers numbers.now }
{
    numbers
        .iter()
        .all(|number| 1 <= *number && *number < 1 << 62)
}

/// Whether soft literals are positive and of ascending variables up to a number.
pub fn are_selectors(variables: u64, softs: &[(Lit, u32)]) -> bool
    ensures { result ≡ true → AreSelectors variables softs.now }
{
    let mut last = 0;
    for soft in softs {
        if !is_next(variables, last, soft.0) {
            return false;
        }
        last = soft.0.variable();
    }
    true
}

/// Whether a literal is positive, of a variable above one and up to another.
fn is_next(variables: u64, last: u64, lit: Lit) -> bool
    ensures { result ≡ true → (lit.negated ≡ false) × (last < lit.variable)
        × (lit.variable ≤ variables) }
{
    if lit.is_negated() || lit.variable() <= last {
        return false;
    }
    lit.variable() <= variables
}
