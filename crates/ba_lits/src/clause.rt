//! Clauses.

ghost use Rattle.std.specs.Prelude.{IsTrue, ◌↔◌};
ghost use Rattle.ba_lits.specs.Literals.{IsClause};

use crate::literal::Lit;

/// Whether literals form a clause over this many variables: their variables strictly ascend from 1 on.
pub fn is_clause(variables: u64, lits: &[Lit]) -> bool
    ensures { IsTrue result ↔ IsClause variables lits.now }
{
    let mut last = 0;
    for lit in lits {
        let variable = lit.variable();
        if variable <= last || variable > variables {
            return false;
        }
        last = variable;
    }
    true
}
