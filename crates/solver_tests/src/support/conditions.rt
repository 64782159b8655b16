//! Tests of what the search assumes.

ghost use Rattle.std.specs.Prelude.{◌≡◌, ◌≢◌, true, []};
ghost use Rattle.ba_derivations.specs.Encodings.{false_groups};
ghost use Rattle.ba_lits.specs.Satisfaction.{Assignment, all_true};
ghost use Rattle.ba_enum.specs.Problems.{IsReadable};
ghost use Rattle.ba_encode.specs.Softs.{softs_of};
ghost use Rattle.ba_checker.specs.Facts.{AreSelectors, IsStart};
ghost use Rattle.solver_tests.specs.Runs.{is_empty_run, has_selector, negates_selectors};

use ba_encode::Encoded;
use ba_lits::{Formula, Lit};
use test_formulas::are_selectors;

/// Whether a search for all least sets may begin, for a formula without executions whose groups have these
/// soft literals.
#[tactic(auto, using(crate::proofs::SomeLaws::readable_as, crate::proofs::SomeLaws::start_as))]
pub fn may_begin(encoded: &Encoded, softs: &[(Lit, u32)]) -> bool
    requires softs { softs.now ≡ softs_of encoded.now.groups }
    requires places { encoded.now.places ≡ [] }
    ensures selectors { result ≡ true → AreSelectors encoded.now.formula.variables softs.now }
    ensures clauses { result ≡ true → IsStart encoded.now.formula (softs_of encoded.now.groups) }
    ensures readable { result ≡ true → IsReadable encoded.now is_empty_run }
{
    let formula = encoded.formula();
    let variables = formula.variables();
    if !are_selectors(variables, softs) {
        return false;
    }
    gives_up_some(formula, softs)
}

/// Whether the first clause of a formula says that some selector of a group is false.
fn gives_up_some(formula: &Formula, softs: &[(Lit, u32)]) -> bool
    ensures { result ≡ true → (v : Assignment) → all_true v formula.now.clauses ≡ true
        → false_groups v softs.now ≢ [] }
{
    if formula.len() == 0 {
        return false;
    }
    negates_selectors(softs, formula.clause(1))
}

/// Whether each literal negates the selector of a group.
fn negates_selectors(softs: &[(Lit, u32)], lits: &[Lit]) -> bool
    ensures { result ≡ negates_selectors softs.now lits.now }
{
    lits.iter().all(|lit| lit.is_negated() && has_selector(softs, lit.variable()))
}

/// Whether a variable is the selector of a group.
fn has_selector(softs: &[(Lit, u32)], variable: u64) -> bool
    ensures { result ≡ has_selector softs.now variable }
{
    softs.iter().any(|soft| soft.1 > 0 && soft.0.variable() == variable && !soft.0.is_negated())
}
