//! Tests of literals, clauses, formulas and sets.

use ba_items::TryClone;
use ba_lits::{Formula, Lit, LiteralSet, Marks, is_clause};
use std::panic::Expect;
use std::process::Abort;
use test_formulas::{formula_of, lit, lits};

/// Literals, and whether they form a clause over so many variables.
static CLAUSES: [(u64, &[i64], bool); 5] = [
    (2, &[1, -2], true),
    (2, &[], true),
    (2, &[1, 1], false),
    (2, &[-2, 1], false),
    (1, &[1, 2], false),
];

#[test]
fn literals_form_a_clause_where_their_variables_ascend(rt: HostRuntime) {
    for row in &CLAUSES {
        let (variables, codes, want) = *row;
        let lits = lits(rt.alloc(), codes).expect(&rt, "memory");
        assert!(rt; is_clause(variables, lits.as_slice()) == want);
    }
}

/// Whether a formula has two variables and two clauses, the first one of these literals.
fn has_pair(formula: &Formula, first: &[Lit]) -> bool {
    formula.variables() == 2 && formula.len() == 2 && formula.clause(1) == first
}

#[test]
fn a_formula_is_cloned(rt: HostRuntime) {
    let formula = formula_of(rt.alloc(), 2, &[&[1, -2], &[-1]]).expect(&rt, "memory");
    let clone = formula.try_clone(rt.alloc()).expect(&rt, "memory");
    assert!(rt; has_pair(&clone, &[lit(1), lit(-2)]));
}

/// Puts a literal into a set.
fn fill(rt: &impl Abort, set: &mut LiteralSet) {
    set.grow(4).expect(rt, "memory");
    set.insert(lit(-40)).expect(rt, "memory");
}

/// Whether that literal is in a set.
fn is_filled(set: &LiteralSet) -> bool {
    set.contains(lit(-40)) && set.contains_index(81) && set.value(lit(40)) == Some(true)
}

/// Puts a number into marks.
fn mark(rt: &impl Abort, marks: &mut Marks) {
    marks.insert(9).expect(rt, "memory");
}

/// Whether that number alone is marked.
fn is_marked(marks: &Marks) -> bool {
    marks.contains(9) && !marks.contains(8)
}

#[test]
fn sets_are_filled_and_emptied(rt: HostRuntime) {
    let mut set = LiteralSet::new(rt.alloc());
    fill(&rt, &mut set);
    assert!(rt; is_filled(&set));
    set.clear();
    assert!(rt; !is_filled(&set));
    let mut marks = Marks::new(rt.alloc());
    mark(&rt, &mut marks);
    assert!(rt; is_marked(&marks));
}
