//! Tests of learnt clauses, cores and refutations.

use crate::watch::decided;
use ba_learn::{Learnt, analyse, core_of, refutation};
use ba_lits::Lit;
use ba_watch::Watch;
use std::alloc::Global;
use std::panic::Expect;
use std::process::Abort;
use test_formulas::{lit, lits};

/// The clause learnt from a conflict above level 0.
fn learn(rt: &impl Abort, alloc: Global, watch: &mut Watch) -> Option<Learnt> {
    let Some(conflict) = watch.propagate() else {
        return None;
    };
    if watch.level() == 0 {
        return None;
    }
    Some(analyse(alloc, watch, conflict).expect(rt, "memory"))
}

/// The core of a literal that is false and wasn't decided.
fn find_core(rt: &impl Abort, alloc: Global, watch: &mut Watch, lit: Lit) -> Option<Learnt> {
    if watch.propagate().is_some() {
        return None;
    }
    if lit.variable() > watch.variables() {
        return None;
    }
    let Some(false) = watch.value(lit) else {
        return None;
    };
    if watch.reason(lit.variable()).is_none() {
        return None;
    }
    Some(core_of(alloc, watch, lit).expect(rt, "memory"))
}

/// The hints by which a conflict at level 0 refutes the clauses.
fn refute(rt: &impl Abort, alloc: Global, watch: &mut Watch) -> Option<Vec<u64>> {
    let Some(conflict) = watch.propagate() else {
        return None;
    };
    if watch.level() != 0 {
        return None;
    }
    Some(refutation(alloc, watch, conflict).expect(rt, "memory"))
}

/// Literals, the level to go back to, and how many hints there are.
type Want<'a> = (&'a [i64], usize, usize);

/// A clause is the one that was expected.
fn expect(rt: &impl Abort, alloc: Global, learnt: Option<Learnt>, want: &Want) {
    let learnt = learnt.expect(rt, "nothing is learnt");
    assert_eq!(rt;
        learnt.lits.as_slice(),
        lits(alloc, want.0).expect(rt, "memory").as_slice()
    );
    assert_eq!(rt; (learnt.back, learnt.hints.len()), (want.1, want.2));
}

/// Clauses, decisions, and what is learnt of the conflict.
static CONFLICTS: [(u64, &[&[i64]], &[i64], Want); 6] = [
    (2, &[&[1, 2], &[-1, 2]], &[-2], (&[2], 0, 2)),
    (3, &[&[-1, 2], &[-2, 3], &[-1, -3]], &[1], (&[-1], 0, 3)),
    (
        4,
        &[&[-1, -2, -3, 4], &[-1, -2, -3, -4]],
        &[2, 1, 3],
        (&[-1, -2, -3], 2, 2),
    ),
    (
        4,
        &[&[-1, 2], &[-1, -2, -3, 4], &[-2, -3, -4]],
        &[1, 3],
        (&[-1, -3], 1, 3),
    ),
    (
        4,
        &[&[4], &[1, -4], &[-1, -2, 3], &[-2, -3]],
        &[2],
        (&[-2], 0, 4),
    ),
    (
        4,
        &[&[-1, 2], &[-2, 3], &[-2, 4], &[-3, -4]],
        &[1],
        (&[-2], 0, 3),
    ),
];

#[test]
fn conflicts_give_the_clause_of_the_first_implication_point(rt: HostRuntime) {
    for row in &CONFLICTS {
        let (variables, clauses, decisions, want) = *row;
        let mut watch = decided(&rt, rt.alloc(), variables, clauses, decisions);
        expect(&rt, rt.alloc(), learn(&rt, rt.alloc(), &mut watch), &want);
    }
}

#[test]
fn a_core_has_the_decisions_that_make_a_literal_false(rt: HostRuntime) {
    let clauses: [&[i64]; 3] = [&[7], &[-1, -2, 3, -7], &[-3, 4]];
    let mut watch = decided(&rt, rt.alloc(), 7, &clauses, &[1, 5, 2]);
    let core = find_core(&rt, rt.alloc(), &mut watch, lit(-4));
    expect(&rt, rt.alloc(), core, &(&[-1, -2, 4], 0, 3))
}

#[test]
fn clauses_false_at_level_0_refute(rt: HostRuntime) {
    let clauses: [&[i64]; 4] = [&[1], &[-1, 2], &[-1, -2, 3], &[-2, -3]];
    let mut watch = decided(&rt, rt.alloc(), 3, &clauses, &[]);
    let hints = refute(&rt, rt.alloc(), &mut watch).expect(&rt, "no clause is false");
    assert_eq!(rt; hints.len(), 4);
}
