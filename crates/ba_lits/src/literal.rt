//! Literals.

ghost use Rattle.std.specs.Prelude.{◌≡◌, ◌+◌, ◌^◌, ◌<◌, ◌≤◌, false};
ghost use Rattle.ba_lits.specs.Literals.{negate, index_of, literal_at};

use ba_items::TryClone;
use std::alloc::{AllocError, Global};
use std::marker::Model;

/// A literal: a variable or its negation. Variables are counted from 1 and are below 2^62.
#[derive(Clone, Copy, PartialEq, Eq, Debug)]
pub struct Lit {
    /// Twice the variable, and 1 more if it is negated.
    code: u64,
}

impl Model for Lit {
    ghost use Rattle.std.specs.Prelude.{◌^◌, ◌<◌, ◌≤◌};
    ghost use Rattle.ba_lits.specs.Literals.{Literal, literal_at, index_of};
    ghost use Rattle.ba_lits.specs.Literals.{index_of-literal_at};
    ghost use Rattle.std.proofs.Common.{ap};

    ghost Value = { Literal };

    ghost view = { λ lit. literal_at lit.code };

    ghost invariant = { λ lit. (2 ≤ lit.code) × (lit.code < 2 ^ 63) };

    ghost inverse = { λ lit. record { code = index_of lit } };

    ghost inverse_ok = { λ lit h.
        ap (λ code. record { code = code }) (index_of-literal_at lit.code) };
}

impl Lit {
    /// The literal that is true if the variable is true.
    pub fn positive(variable: u64) -> Lit
        requires counted { 1 ≤ variable }
        requires below { variable < 2 ^ 62 }
        ensures { result ≡ record { variable = variable; negated = false } }
    {
        Lit { code: 2 * variable }
    }

    /// The literal of an index: the inverse of [`index`](Lit::index).
    pub fn from_index(index: usize) -> Lit
        requires counted { 2 ≤ index }
        requires below { index < 2 ^ 63 }
        ensures { result ≡ literal_at index }
    {
        Lit { code: index as u64 }
    }

    /// The literal of the same variable with the other sign.
    pub fn negated(self) -> Lit
        ensures { result ≡ negate self }
    {
        let code = if self.is_negated() {
            self.code - 1
        } else {
            self.code + 1
        };
        Lit { code }
    }

    /// The variable, at least 1 and below 2^62.
    pub fn variable(self) -> u64
        ensures variable { result ≡ self.variable }
        ensures counted { 1 ≤ result }
        ensures below { result < 2 ^ 62 }
    {
        self.code / 2
    }

    /// Whether the literal is the negation of its variable.
    pub fn is_negated(self) -> bool
        ensures { result ≡ self.negated }
    {
        self.code % 2 == 1
    }

    /// The literal's index in a vector with two entries a variable: twice the variable, and 1 more if it is
    /// negated.
    pub fn index(self) -> usize
        ensures index { result ≡ index_of self }
        ensures counted { 2 ≤ result }
        ensures below { result < 2 ^ 63 }
    {
        self.code as usize
    }
}

impl TryClone for Lit {
    fn try_clone(&self, _alloc: Global) -> Result<Lit, AllocError> {
        Ok(*self)
    }
}
