//! Formulas in conjunctive normal form.

ghost use Rattle.std.specs.Prelude.{◌≡◌, ◌+◌, ◌-◌, ◌^◌, ◌<◌, ◌≤◌, [], ◌∷◌, ◌++◌, length, slice_index_or, OnOk, OnErr, IfOk, All};
ghost use Rattle.ba_lits.specs.Literals.{IsClause};

use crate::literal::Lit;
use ba_items::{Items, TryClone};
use std::alloc::{AllocError, Global};
use std::marker::Model;

/// A formula in conjunctive normal form: how many variables there are, and a list of clauses over them,
/// counted from 1.
#[derive(Drop)]
pub struct Formula {
    alloc: Global,
    variables: u64,
    clauses: Items<Items<Lit>>,
}

impl Model for Formula {
    ghost use Rattle.std.specs.Prelude.{◌^◌, ◌<◌, All};
    ghost use Rattle.ba_lits.specs.Literals.{IsClause};
    ghost use Rattle.ba_lits.specs.Formulas.{Cnf};

    ghost Value = { Cnf };

    ghost view = { λ formula. record { variables = formula.variables; clauses = formula.clauses } };

    ghost invariant = { λ formula. (formula.variables < 2 ^ 62)
        × All (IsClause formula.variables) formula.clauses };
}

impl Formula {
    /// The formula without variables and clauses. It takes no memory.
    pub fn new(alloc: Global) -> Formula
        ensures { result ≡ record { variables = 0; clauses = [] } }
    {
        Formula {
            alloc,
            variables: 0,
            clauses: Items::new(alloc),
        }
    }

    /// Adds a variable and gives it.
    ///
    /// The only error is that there would be 2^62 variables. It leaves the formula as it was.
    pub fn fresh(&mut self) -> Result<u64, AllocError>
        ensures ok { IfOk result (λ variable. (variable ≡ self.old.variables + 1)
            × (self.new ≡ record self.old { variables = variable })) }
        ensures err { OnErr result (self.new ≡ self.old) }
    {
        if self.variables + 1 == 1 << 62 {
            return Err(AllocError);
        }
        self.variables += 1;
        Ok(self.variables)
    }

    /// Adds a clause at the end.
    ///
    /// The only error is out of memory, which leaves the formula as it was.
    pub fn push(&mut self, clause: &[Lit]) -> Result<(), AllocError>
        requires { IsClause self.old.variables clause.now }
        ensures ok { OnOk result (self.new
            ≡ record self.old { clauses = self.old.clauses ++ clause.now ∷ [] }) }
        ensures err { OnErr result (self.new ≡ self.old) }
    {
        self.clauses.push(Items::from_slice(self.alloc, clause)?)
    }

    /// How many variables there are, fewer than 2^62. All clauses are over them.
    pub fn variables(&self) -> u64
        ensures variables { result ≡ self.now.variables }
        ensures below { result < 2 ^ 62 }
        ensures clauses { All (IsClause self.now.variables) self.now.clauses }
    {
        self.variables
    }

    /// How many clauses there are.
    pub fn len(&self) -> u64
        ensures { result ≡ length self.now.clauses }
    {
        self.clauses.len() as u64
    }

    /// The literals of the clause of this number, counted from 1.
    pub fn clause(&self, number: u64) -> &[Lit]
        requires counted { 1 ≤ number }
        requires within { number ≤ length self.now.clauses }
        ensures clause { result.now ≡ slice_index_or self.now.clauses (number - 1) [] }
        ensures formed { IsClause self.now.variables result.now }
    {
        self.clauses.as_slice()[number as usize - 1].as_slice()
    }
}

impl TryClone for Formula {
    fn try_clone(&self, alloc: Global) -> Result<Formula, AllocError> {
        Ok(Formula {
            alloc,
            variables: self.variables,
            clauses: self.clauses.try_clone(alloc)?,
        })
    }
}
