//! Programs with failing runs, and the sets of statements that could repair these, as worked out by hand.

use crate::support::models::has_model;
use crate::support::programs::encoded_of;
use ba_encode::Encoded;
use ba_lits::Lit;
use ba_numbers::ids::StmtId;
use std::alloc::Global;
use std::panic::Expect;
use std::process::Abort;
use test_programs::examples::{
    CALL, DIVISION, DOWN, ELEMENT, FALLS, GLOBAL, LABELLED_ONE, STORE, SUM, TWO,
};

/// A parameter and an assert.
const ASSERT: &str = "int main(int a) {
    assert(a == 2);
}
";

/// A variable that gets the input, and an assert.
const FIVE_LINES: &str = "int main(int a) {
    int x;
    x = a;
    assert(x == 2);
}
";

/// The same with a `short`, which is compared with the input.
const SHORT: &str = "int main(int a) {
    short s;
    s = a;
    assert(s == a);
}
";

/// A greatest element that is sought up to the last but one, and asserted over all. The conditions of its
/// loops, the statements 3 and 10, are in the lines 9 and 23.
const GREATEST: &str = "#include <assert.h>
#include <stdio.h>

int largest(const int a[], int n);
int main(int a[4]) {
    int i, m;
    m = largest(a, 4);
    for (i = 0;
         i < 4;
         i++) {
        assert(m >= a[i]);
    }
    printf(\"%d\\n\", m);
    return 0;
}

/* the greatest of the first n elements */
int largest(const int a[], int n) {
    int i;
    int m = a[0];
    for (
        i = 1;
        i < n - 1;
        i++)
        if (a[i] > m)
            m = a[i];
    return m;
}
";

/// The groups of its formula, with the weights 10 and 20 for the two conditions of its loops.
static GREATEST_GROUPS: [(u32, u32); 13] = [
    (1, 1),
    (2, 1),
    (3, 10),
    (4, 1),
    (6, 1),
    (7, 1),
    (8, 1),
    (9, 1),
    (10, 20),
    (11, 1),
    (12, 1),
    (13, 1),
    (14, 1),
];

/// The smallest sets that could repair its run: a greater element is found, or asserts are left out. The
/// assignment in the branch repairs if the branch is taken too.
static GREATEST_REPAIRS: [&[u32]; 8] = [&[1], &[2], &[3], &[4], &[8], &[10], &[14], &[12, 13]];

/// The largest sets that couldn't.
static GREATEST_OTHERS: [&[u32]; 2] = [&[6, 7, 9, 11, 12], &[6, 7, 9, 11, 13]];

/// A program, an input, the bound on iterations, weights, the groups of the formula as statements with their
/// weights, and the repairs. A set of statements could repair the run exactly if it contains one of these.
#[derive(Clone, Copy)]
struct Row {
    program: &'static str,
    input: &'static str,
    turns: u32,
    weights: &'static str,
    groups: &'static [(u32, u32)],
    repairs: &'static [&'static [u32]],
}

/// Programs with failing runs.
static ROWS: [Row; 15] = [
    Row {
        program: ASSERT,
        input: "1",
        turns: 1,
        weights: "",
        groups: &[],
        repairs: &[],
    },
    Row {
        program: FIVE_LINES,
        input: "1",
        turns: 1,
        weights: "",
        groups: &[(1, 1)],
        repairs: &[&[1]],
    },
    // No `short` equals 40000.
    Row {
        program: SHORT,
        input: "40000",
        turns: 1,
        weights: "",
        groups: &[(1, 1)],
        repairs: &[],
    },
    // The assignment in the other branch doesn't take place, and the assert fails before the `return`.
    Row {
        program: ELEMENT,
        input: "1",
        turns: 1,
        weights: "7 3",
        groups: &[(1, 1), (2, 1), (3, 3), (4, 1), (6, 1)],
        repairs: &[&[1], &[3], &[4]],
    },
    Row {
        program: ELEMENT,
        input: "1",
        turns: 1,
        weights: "4 fixed\n8 fixed",
        groups: &[(2, 1), (3, 1), (6, 1)],
        repairs: &[&[3]],
    },
    Row {
        program: CALL,
        input: "4",
        turns: 1,
        weights: "",
        groups: &[(1, 1), (2, 1), (4, 1)],
        repairs: &[&[1], &[2]],
    },
    // Within three iterations steps alone come to 1 + 2 + 2, and with another start to 2 + 2 + 2.
    Row {
        program: SUM,
        input: "3",
        turns: 3,
        weights: "7 fixed",
        groups: &[(1, 1), (2, 1), (3, 1), (4, 1), (5, 1)],
        repairs: &[&[1], &[3], &[5], &[2, 4]],
    },
    // Within four iterations steps alone come to 1 + 2 + 2 + 1.
    Row {
        program: SUM,
        input: "3",
        turns: 4,
        weights: "7 fixed",
        groups: &[(1, 1), (2, 1), (3, 1), (4, 1), (5, 1)],
        repairs: &[&[1], &[3], &[4], &[5]],
    },
    Row {
        program: STORE,
        input: "2",
        turns: 1,
        weights: "",
        groups: &[(1, 1), (3, 1)],
        repairs: &[&[1]],
    },
    Row {
        program: DIVISION,
        input: "0",
        turns: 1,
        weights: "",
        groups: &[(1, 1), (3, 1)],
        repairs: &[&[1]],
    },
    // The function calls itself past the depth; its `return` without a call isn't reached.
    Row {
        program: DOWN,
        input: "15",
        turns: 1,
        weights: "",
        groups: &[(1, 1), (2, 1), (3, 1), (4, 1)],
        repairs: &[&[1], &[3], &[4]],
    },
    // Where another value is taken, the call that sets the global isn't made.
    Row {
        program: GLOBAL,
        input: "",
        turns: 1,
        weights: "",
        groups: &[(1, 1), (2, 1), (3, 1), (5, 1)],
        repairs: &[&[1], &[3]],
    },
    // The first assignment falls through to the second. Another value leads past it to the third, which is not 5 either.
    Row {
        program: FALLS,
        input: "1",
        turns: 1,
        weights: "",
        groups: &[(1, 1), (2, 1), (3, 1), (4, 1), (6, 1)],
        repairs: &[&[3], &[1, 4]],
    },
    // A value of the `switch` that divides by 0 leads to the `return`.
    Row {
        program: LABELLED_ONE,
        input: "0",
        turns: 1,
        weights: "",
        groups: &[(1, 1), (2, 1), (4, 1)],
        repairs: &[&[1]],
    },
    Row {
        program: TWO,
        input: "",
        turns: 1,
        weights: "7 1000",
        groups: &[(1, 1), (2, 1), (5, 1000)],
        repairs: &[&[1, 2]],
    },
];

/// The groups of a formula as statements with their weights. None if a group is not that of the statement of
/// its number.
fn groups_of(rt: &impl Abort, alloc: Global, encoded: &Encoded) -> Option<Vec<(u32, u32)>> {
    let mut groups = Vec::new(alloc);
    for group in 0..encoded.groups() {
        let number = encoded.number(group);
        if encoded.statement(group) != StmtId(number) {
            return None;
        }
        groups
            .push((number, encoded.weight(group)))
            .expect(rt, "memory");
    }
    Some(groups)
}

/// The statements of the groups whose bits are set in a number.
fn set_of(rt: &impl Abort, alloc: Global, groups: &[(u32, u32)], bits: u32) -> Vec<u32> {
    let mut set = Vec::new(alloc);
    let mut rest = bits;
    for (number, _) in groups {
        if rest % 2 == 1 {
            set.push(*number).expect(rt, "memory");
        }
        rest /= 2;
    }
    set
}

/// The literals that say that exactly the selectors of a set of groups are false.
fn exactly(rt: &impl Abort, alloc: Global, encoded: &Encoded, set: &[u32]) -> Vec<Lit> {
    let mut lits = Vec::new(alloc);
    for group in 0..encoded.groups() {
        let selector = encoded.selector(group);
        if set.contains(&encoded.number(group)) {
            lits.push(selector.negated()).expect(rt, "memory");
        } else {
            lits.push(selector).expect(rt, "memory");
        }
    }
    lits
}

/// Whether one of these repairs is among a set.
fn repairs(repairs: &[&[u32]], set: &[u32]) -> bool {
    repairs
        .iter()
        .any(|repair| repair.iter().all(|number| set.contains(number)))
}

/// Whether a formula has a model whose false selectors are exactly those of a set of groups.
pub(crate) fn has_repair(rt: &impl Abort, alloc: Global, encoded: &Encoded, set: &[u32]) -> bool {
    let lits = exactly(rt, alloc, encoded, set);
    has_model(rt, alloc, encoded.formula(), lits.as_slice())
}

/// Tries all sets of groups of a row's formula.
fn check(rt: &impl Abort, alloc: Global, row: &Row) {
    let encoded = encoded_of(rt, alloc, row.program, row.input, row.turns, row.weights);
    let groups = groups_of(rt, alloc, &encoded).expect(rt, "a group of another statement");
    assert!(rt;
        groups.as_slice() == row.groups,
        "the groups of {}",
        row.program
    );
    assert!(rt; groups.len() <= 5);
    for bits in 0..1u32 << groups.len() {
        let set = set_of(rt, alloc, groups.as_slice(), bits);
        let found = has_repair(rt, alloc, &encoded, set.as_slice());
        assert_eq!(rt;
            found,
            repairs(row.repairs, set.as_slice()),
            "set {bits} of {}",
            row.program
        );
    }
}

#[test]
fn exactly_the_sets_that_could_repair_have_models(rt: HostRuntime) {
    for row in &ROWS {
        check(&rt, rt.alloc(), row);
    }
}

#[test]
fn thirteen_groups_have_their_smallest_repairs(rt: HostRuntime) {
    let alloc = rt.alloc();
    let encoded = encoded_of(&rt, alloc, GREATEST, "3 1 2 9", 4, "9 10\n23 20");
    let groups = groups_of(&rt, alloc, &encoded).expect(&rt, "a group of another statement");
    assert!(rt; groups.as_slice() == GREATEST_GROUPS.as_slice());
    for set in &GREATEST_REPAIRS {
        assert!(rt; has_repair(&rt, alloc, &encoded, set), "set {set:?}");
    }
    for set in &GREATEST_OTHERS {
        assert!(rt; !has_repair(&rt, alloc, &encoded, set), "set {set:?}");
    }
}
