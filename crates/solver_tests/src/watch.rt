//! Tests of propagation.

use ba_lits::Lit;
use ba_watch::Watch;
use std::alloc::Global;
use std::panic::Expect;
use std::process::Abort;
use test_formulas::{add_clause, lit, lits};

/// Watch lists over clauses that are written as numbers, each under its place from 1 on.
fn watch_of(rt: &impl Abort, alloc: Global, variables: u64, clauses: &[&[i64]]) -> Watch {
    let mut watch = Watch::new(alloc);
    watch.grow(variables).expect(rt, "memory");
    for (place, codes) in clauses.iter().enumerate() {
        let number = (place as u64).saturating_add(1);
        let _ = add_clause(
            &mut watch,
            lits(alloc, codes).expect(rt, "memory").as_slice(),
            number,
        )
        .expect(rt, "memory");
    }
    watch
}

/// Propagates, and decides a literal if no clause is false and it has no value.
fn decide(watch: &mut Watch, lit: Lit) {
    if watch.propagate().is_some() {
        return;
    }
    if lit.variable() > watch.variables() {
        return;
    }
    if watch.value(lit).is_some() {
        return;
    }
    watch.decide(lit);
}

/// Watch lists after literals were decided in turn.
pub fn decided(
    rt: &impl Abort,
    alloc: Global,
    variables: u64,
    clauses: &[&[i64]],
    decisions: &[i64],
) -> Watch {
    let mut watch = watch_of(rt, alloc, variables, clauses);
    for code in decisions {
        decide(&mut watch, lit(*code));
    }
    watch
}

/// How many literals are true after propagation; None if a clause is false.
fn propagated(watch: &mut Watch) -> Option<usize> {
    match watch.propagate() {
        Some(_) => None,
        None => Some(watch.trail().len()),
    }
}

/// Variables, clauses, literals that are decided, and how many are true then.
type Row<'a> = (u64, &'a [&'a [i64]], &'a [i64], Option<usize>);

/// Clauses, decisions, and the clause that is false after them.
static FORMULAS: [Row; 7] = [
    (2, &[&[1, 2], &[-1, 2]], &[-2], None),
    (3, &[&[-1, 2], &[-2, 3], &[-1, -3]], &[1], None),
    (3, &[&[-1, 2], &[-2, 3], &[-1, -3], &[-1]], &[], Some(1)),
    (2, &[&[1], &[-1, 2]], &[], Some(2)),
    (2, &[&[1], &[-1, 2], &[]], &[], None),
    (4, &[&[-1, 2]], &[1, 3], Some(3)),
    (5, &[&[-1, -2, -3, 4], &[-4, 5]], &[2, 1, 3], Some(5)),
];

#[test]
fn propagation_ends_as_it_must(rt: HostRuntime) {
    for row in &FORMULAS {
        let (variables, clauses, decisions, want) = *row;
        let mut watch = decided(&rt, rt.alloc(), variables, clauses, decisions);
        assert_eq!(rt; propagated(&mut watch), want);
    }
}
