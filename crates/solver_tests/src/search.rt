//! Tests of the search.

use crate::support::models::are_assumptions;
use crate::support::values::{bits_of, satisfies};
use ba_checker::{Checked, Checker};
use ba_lits::{Formula, Lit};
use ba_search::{Answer, Search};
use ba_steps::NoSink;
use std::alloc::Global;
use std::panic::Expect;
use std::process::Abort;
use test_formulas::{NoRuns, formula_of, literal, lits, pigeons, random};

/// How a search ends: with the values of a model as the bits of a number, a core with so many literals, or
/// spent.
#[derive(Clone, Copy, Debug, PartialEq, Eq)]
enum End {
    Model(u64),
    Core(usize),
    Spent,
}

/// How an answer ends a search.
fn end_of(answer: &Answer) -> End {
    match answer {
        Answer::Model(model) => End::Model(bits_of(model)),
        Answer::Core(core) => End::Core(core.lits.len()),
        Answer::Spent => End::Spent,
    }
}

/// How many numbers of a checker are those of deleted clauses.
fn deleted(checker: &Checker) -> u64 {
    let mut count = 0u64;
    for place in 0..checker.last() {
        if checker.clause(place.saturating_add(1)).is_none() {
            count = count.saturating_add(1);
        }
    }
    count
}

/// How a search ends that keeps learnt clauses of two literals alone, how many conflicts there were, and how
/// many clauses were deleted.
fn ends(
    rt: &impl Abort,
    alloc: Global,
    formula: &Formula,
    assumptions: &[Lit],
    conflicts: u64,
) -> (End, u64, u64) {
    let checker = Checker::new(alloc, formula, &[], conflicts, 0).expect(rt, "memory");
    let mut checked = Checked::new(checker, NoRuns, NoSink);
    let mut search = Search::new(
        alloc,
        formula,
        |_: u64| 10,
        |width: u64, _: u64| width <= 2,
    ).expect(rt, "memory");
    search.take_new(&checked).expect(rt, "memory");
    assert!(rt; are_assumptions(checked.checker().variables(), assumptions));
    let answer = search.solve(assumptions, &mut checked).expect(rt, "memory");
    let checker = checked.checker();
    (end_of(&answer), checker.conflicts(), deleted(checker))
}

/// Variables, clauses, assumptions, the stated number of conflicts, how the search ends, and how many
/// conflicts there were.
type Row<'a> = (u64, &'a [&'a [i64]], &'a [i64], u64, (End, u64));

/// Searches in a row's formula.
fn check(rt: &impl Abort, alloc: Global, row: &Row) {
    let (variables, clauses, codes, conflicts, want) = *row;
    let formula = formula_of(alloc, variables, clauses).expect(rt, "memory");
    let assumptions = lits(alloc, codes).expect(rt, "memory");
    let (end, count, _) = ends(rt, alloc, &formula, assumptions.as_slice(), conflicts);
    assert_eq!(rt; (end, count), want);
}

/// All clauses of three variables.
const ALL: &[&[i64]] = &[
    &[1, 2, 3],
    &[1, 2, -3],
    &[1, -2, 3],
    &[1, -2, -3],
    &[-1, 2, 3],
    &[-1, 2, -3],
    &[-1, -2, 3],
    &[-1, -2, -3],
];

/// Formulas with the end of their search.
static FORMULAS: [Row; 8] = [
    (2, &[&[1, 2], &[-1, 2], &[-2]], &[], 9, (End::Core(0), 0)),
    (2, &[&[1, 2]], &[-1], 9, (End::Model(2), 0)),
    (3, ALL, &[], 1, (End::Spent, 1)),
    (3, &[&[-1, 2], &[-2, 3], &[-3]], &[1], 9, (End::Core(1), 0)),
    (4, &[&[-1, -2], &[3]], &[1, 2, 4], 9, (End::Core(2), 0)),
    (4, &[&[-1, -2], &[3]], &[1, 4], 9, (End::Model(13), 0)),
    (1, &[&[1], &[-1]], &[], 0, (End::Spent, 0)),
    (0, &[], &[], 0, (End::Model(0), 0)),
];

#[test]
fn small_formulas_end_as_they_must(rt: HostRuntime) {
    for row in &FORMULAS {
        check(&rt, rt.alloc(), row);
    }
}

#[test]
fn clauses_are_deleted_after_a_thousand_conflicts(rt: HostRuntime) {
    for (count, deletes) in [(5, false), (7, true)] {
        let formula = pigeons(rt.alloc(), count, count - 1).expect(&rt, "memory");
        let (end, _, gone) = ends(&rt, rt.alloc(), &formula, &[], 100_000);
        assert_eq!(rt;
            (end, gone > 0),
            (End::Core(0), deletes),
            "with {count} pigeons"
        );
    }
}

/// Whether a search ended with a model, which has to be as enumeration says.
fn has_model(formula: &Formula, assumptions: &[Lit], end: End) -> Option<bool> {
    match end {
        End::Model(bits) => satisfies(formula, assumptions, bits).then_some(true),
        End::Core(_) => {
            if (0..256).any(|bits| satisfies(formula, assumptions, bits)) {
                None
            } else {
                Some(false)
            }
        }
        End::Spent => None,
    }
}

/// Searches in random formulas of eight variables with so many clauses, each under one assumption. How many
/// times there was a model.
fn try_random(rt: &impl Abort, alloc: Global, clauses: u64) -> u64 {
    let mut models = 0u64;
    for seed in 1..21 {
        let formula = random(alloc, 8, clauses, seed).expect(rt, "memory");
        let assumptions = [literal(seed % 8 + 1, seed % 2 == 1)];
        let (end, _, _) = ends(rt, alloc, &formula, assumptions.as_slice(), 100_000);
        let found = has_model(&formula, assumptions.as_slice(), end);
        assert!(rt; found.is_some(), "{clauses} clauses from {seed}");
        models = models.saturating_add(u64::from(found == Some(true)));
    }
    models
}

#[test]
fn random_formulas_end_as_enumeration_says(rt: HostRuntime) {
    let few = try_random(&rt, rt.alloc(), 20);
    let some = try_random(&rt, rt.alloc(), 34);
    let many = try_random(&rt, rt.alloc(), 60);
    assert!(rt; few > some && some > many);
}
