//! Models of a formula, sought under assumptions.

ghost use Rattle.std.specs.Prelude.{◌≡◌, true};
ghost use Rattle.ba_search.specs.Answers.{AreAssumptions};

use ba_checker::{Checked, Checker};
use ba_lits::{Formula, Lit, is_clause};
use ba_search::{Answer, Search};
use ba_steps::NoSink;
use std::alloc::Global;
use std::panic::Expect;
use std::process::Abort;
use test_formulas::NoRuns;

/// How many conflicts a search may have.
const CONFLICTS: u64 = 100_000;

/// Whether literals of ascending variables are assumptions over so many variables.
pub fn are_assumptions(variables: u64, lits: &[Lit]) -> bool
    ensures { result ≡ true → AreAssumptions variables lits.now }
{
    is_clause(variables, lits)
}

/// Whether a formula has a model that satisfies these literals of ascending variables.
pub fn has_model(rt: &impl Abort, alloc: Global, formula: &Formula, assumptions: &[Lit]) -> bool {
    let checker = Checker::new(alloc, formula, &[], CONFLICTS, 0).expect(rt, "memory");
    let mut checked = Checked::new(checker, NoRuns, NoSink);
    let mut search = Search::new(
        alloc,
        formula,
        |_: u64| 100,
        |width: u64, _: u64| width <= 6,
    )
    .expect(rt, "memory");
    assert!(rt; are_assumptions(checked.checker().variables(), assumptions));
    match search.solve(assumptions, &mut checked).expect(rt, "memory") {
        Answer::Model(_) => true,
        Answer::Core(_) => false,
        Answer::Spent => panic!(rt; "the conflicts are spent"),
    }
}
