//! Tests of the least cost.

use crate::support::values::{bits_of, is_true, satisfies};
use ba_checker::{Checked, Checker};
use ba_cores::{Found, least};
use ba_lits::{Formula, Lit};
use ba_search::Search;
use ba_steps::NoSink;
use std::alloc::Global;
use std::panic::Expect;
use std::process::Abort;
use test_formulas::{NoRuns, Source, are_selectors, formula_of, literal, random};

/// Soft literals, one a variable from 1 on, with these weights.
fn softs_of(rt: &impl Abort, alloc: Global, weights: &[u32]) -> Vec<(Lit, u32)> {
    let mut softs = Vec::new(alloc);
    for (place, weight) in weights.iter().enumerate() {
        softs
            .push((literal(place as u64 + 1, false), *weight))
            .expect(rt, "memory");
    }
    softs
}

/// What is found for a formula with soft literals, by a search that keeps the last 400 learnt clauses alone.
fn find(
    rt: &impl Abort,
    alloc: Global,
    formula: &Formula,
    softs: &[(Lit, u32)],
    conflicts: u64,
) -> Found {
    assert!(rt; are_selectors(formula.variables(), softs));
    let checker = Checker::new(alloc, formula, softs, conflicts, 0).expect(rt, "memory");
    let mut checked = Checked::new(checker, NoRuns, NoSink);
    let mut search = Search::new(
        alloc,
        formula,
        |_: u64| 10,
        |width: u64, age: u64| width <= 2 || age < 400,
    )
    .expect(rt, "memory");
    least(alloc, &mut search, &mut checked).expect(rt, "memory")
}

/// How a search for the least cost ends.
#[derive(Clone, Copy, Debug, PartialEq, Eq)]
enum End {
    Cost(u64),
    NoModel,
    Spent,
    Wrong,
}

/// The weights of the soft literals that are false if values are given by the bits of a number.
fn cost(softs: &[(Lit, u32)], bits: u64) -> u64 {
    let mut cost = 0u64;
    for soft in softs {
        if !is_true(bits, soft.0) {
            cost = cost.saturating_add(u64::from(soft.1));
        }
    }
    cost
}

/// The end that a find is. It is wrong if the model isn't one of that cost.
fn end_of(formula: &Formula, softs: &[(Lit, u32)], found: &Found) -> End {
    match found {
        Found::Least { weight, model } => {
            let bits = bits_of(model);
            if satisfies(formula, &[], bits) && cost(softs, bits) == *weight {
                End::Cost(*weight)
            } else {
                End::Wrong
            }
        }
        Found::NoModel { .. } => End::NoModel,
        Found::Spent => End::Spent,
    }
}

/// Variables, clauses, the weights of the first variables, the stated number of conflicts, and how the search
/// ends.
type Row<'a> = (u64, &'a [&'a [i64]], &'a [u32], u64, End);

/// Finds the least cost of a row's formula.
fn check(rt: &impl Abort, alloc: Global, row: &Row) {
    let (variables, clauses, weights, conflicts, end) = *row;
    let formula = formula_of(alloc, variables, clauses).expect(rt, "memory");
    let softs = softs_of(rt, alloc, weights);
    let found = find(rt, alloc, &formula, softs.as_slice(), conflicts);
    assert_eq!(rt; end_of(&formula, softs.as_slice(), &found), end);
}

/// Formulas with the end of their search.
static FORMULAS: [Row; 8] = [
    (2, &[&[-1, -2]], &[3, 1], 99, End::Cost(1)),
    (2, &[&[-1, -2], &[1], &[-1]], &[3, 1], 99, End::NoModel),
    (1, &[&[-1]], &[1_000], 99, End::Cost(1_000)),
    (
        6,
        &[&[-1, -2], &[-3, -4], &[-5, -6]],
        &[3, 1, 4, 9, 5, 5],
        99,
        End::Cost(10),
    ),
    (
        4,
        &[&[-1, -2], &[-1, -3], &[-1, -4]],
        &[1_000, 300, 300, 300],
        99,
        End::Cost(900),
    ),
    (
        3,
        &[&[-1, -2], &[-1, -3], &[-2, -3]],
        &[5, 0, 3],
        99,
        End::Cost(3),
    ),
    (4, &[&[-1, -2], &[-3, -4]], &[1, 1, 1, 1], 1, End::Spent),
    (4, &[&[-1, -2], &[-3, -4]], &[1, 1, 1, 1], 9, End::Cost(2)),
];

#[test]
fn small_formulas_have_their_least_cost(rt: HostRuntime) {
    for row in &FORMULAS {
        check(&rt, rt.alloc(), row);
    }
}

/// Random weights below a number, of six soft literals.
fn weights(rt: &impl Abort, alloc: Global, below: u64, seed: u64) -> Vec<u32> {
    let mut source = Source::new(seed);
    let mut list = Vec::new(alloc);
    for _ in 0..6 {
        list.push(u32::try_from(source.below(below)).unwrap_or(1))
            .expect(rt, "memory");
    }
    list
}

/// The least cost of a formula's models over seven variables, by trying all values.
fn by_enumeration(formula: &Formula, softs: &[(Lit, u32)]) -> End {
    let mut least = End::NoModel;
    for bits in 0..128 {
        if satisfies(formula, &[], bits) {
            least = lesser(least, cost(softs, bits));
        }
    }
    least
}

/// The lesser of two costs, of which the first may be missing.
fn lesser(least: End, cost: u64) -> End {
    match least {
        End::Cost(other) => End::Cost(cost.min(other)),
        _ => End::Cost(cost),
    }
}

/// Finds the least cost of random formulas with so many clauses, and compares it with that by enumeration.
/// How many have a model.
fn try_random(rt: &impl Abort, alloc: Global, clauses: u64, below: u64) -> u64 {
    let mut models = 0u64;
    for seed in 1..41 {
        let formula = random(alloc, 7, clauses, seed).expect(rt, "memory");
        let softs = softs_of(rt, alloc, weights(rt, alloc, below, seed).as_slice());
        let want = by_enumeration(&formula, softs.as_slice());
        let found = find(rt, alloc, &formula, softs.as_slice(), 100_000);
        let got = end_of(&formula, softs.as_slice(), &found);
        assert_eq!(rt; got, want, "{clauses} clauses from {seed}");
        models = models.saturating_add(u64::from(got != End::NoModel));
    }
    models
}

#[test]
fn random_formulas_cost_what_enumeration_says(rt: HostRuntime) {
    let few = try_random(&rt, rt.alloc(), 12, 1_000);
    let some = try_random(&rt, rt.alloc(), 28, 4);
    let many = try_random(&rt, rt.alloc(), 50, 40);
    assert!(rt; few > some && some > many);
}
