//! Solving a formula, with a checker.

use crate::searches::report::{Report, Verdict};
use ba_checker::{Checked, Checker};
use ba_items::Items;
use ba_lits::{Formula, Lit, Model};
use ba_rules::rules::{keep, luby};
use ba_search::{Answer, Search, SearchError};
use ba_steps::{CertStep, NoSink};
use std::alloc::Global;
use test_formulas::{NoRuns, are_numbers};

/// How many conflicts there may be.
const CONFLICTS: u64 = 10_000_000;

/// Solves a formula, with each learnt clause put through a checker, and tries the answer.
///
/// The only error is out of memory.
pub fn solve(alloc: Global, formula: &Formula) -> Result<Report, SearchError> {
    let checker = Checker::new(alloc, formula, &[], CONFLICTS, 0)?;
    let mut checked = Checked::new(checker, NoRuns, NoSink);
    let mut search = Search::new(alloc, formula, luby, keep)?;
    let answer = search.solve(&[], &mut checked)?;
    let (mut checker, _) = checked.finish();
    Ok(Report {
        verdict: verdict(formula, &mut checker, answer),
        conflicts: checker.conflicts(),
        propagated: search.propagated(),
    })
}

/// What an answer comes to.
fn verdict(formula: &Formula, checker: &mut Checker, answer: Answer) -> Verdict {
    match answer {
        Answer::Model(model) => Verdict::Satisfiable {
            holds: holds(formula, &model),
        },
        Answer::Core(core) => Verdict::Unsatisfiable {
            allowed: core.lits.is_empty() && ends(checker, core.hints),
        },
        Answer::Spent => Verdict::Spent,
    }
}

/// Whether a checker allows the end by these hints, and then ends.
fn ends(checker: &mut Checker, hints: Items<u64>) -> bool {
    are_numbers(hints.as_slice())
        && checker
            .step(&CertStep::EndNoRepair { hints }, &NoRuns)
            .is_ok()
}

/// Whether a model satisfies each clause of a formula.
fn holds(formula: &Formula, model: &Model) -> bool {
    for place in 0..formula.len() {
        if !formula
            .clause(place + 1)
            .iter()
            .any(|lit| is_true(model, *lit))
        {
            return false;
        }
    }
    true
}

/// Whether a model makes a literal true.
fn is_true(model: &Model, lit: Lit) -> bool {
    let values = model.values.as_slice();
    match values.get(lit.variable() as usize - 1) {
        None => false,
        Some(value) => *value != lit.is_negated(),
    }
}
