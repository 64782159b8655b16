//! Runs beside their outcomes, which were worked out by hand: with some statements or a place relaxed, and
//! with all statements relaxed.

use crate::support::programs::{FIVE_LINES, SHORT, TWICE, choices_of, input_of, program_of};
use ba_interp::run;
use ba_items::Items;
use ba_numbers::ids::StmtId;
use ba_tree::run::{Allowed, Bounds, Outcome};
use ba_tree::tree::{StmtInfo, StmtKind};
use std::alloc::Global;
use std::panic::Expect;
use std::process::Abort;
use test_programs::examples::{
    ARRAYS, BEHIND, DIVISION, EXAMPLES, Example, GLOBAL, JUMPS, OWN, STORE, SUM, VALUES,
};

/// The outcome of a run.
fn outcome(rt: &impl Abort, alloc: Global, example: &Example) -> Outcome {
    let (program, input, turns, frames, relaxed, choices, _) = *example;
    assert!(rt; 1 <= turns && turns <= 128 && 1 <= frames && frames <= 32);
    let program = program_of(rt, alloc, program);
    let input = input_of(rt, alloc, &program, input);
    let allowed = relaxed.allowed(alloc).expect(rt, "memory");
    let choices = choices_of(rt, alloc, choices);
    let bounds = Bounds { turns, frames };
    run(
        alloc,
        &program,
        &input,
        bounds,
        &allowed,
        choices.as_slice(),
    )
    .expect(rt, "memory")
}

/// Whether a run ends as it was worked out.
fn ends(rt: &impl Abort, alloc: Global, example: &Example) -> bool {
    let (_, _, _, _, _, _, expected) = *example;
    outcome(rt, alloc, example) == expected
}

/// The first example that ends otherwise, if there is one.
fn first_difference(rt: &impl Abort, alloc: Global, examples: &[Example]) -> Option<usize> {
    for i in 0..examples.len() {
        if !ends(rt, alloc, &examples[i]) {
            return Some(i);
        }
    }
    None
}

#[test]
fn examples_end_as_worked_out(rt: HostRuntime) {
    let difference = first_difference(&rt, rt.alloc(), EXAMPLES.as_slice());
    assert_eq!(rt; difference, None);
}

/// A function that returns from inside a branch.
const EARLY: &str = "int f(int x) {
    if (x)
        return 1;
    return 2;
}
int main(int x) {
    int y;
    y = f(x);
    assert(y == 1);
    return 0;
}
";

/// A store in a branch.
const BRANCH: &str = "int main(int x) {
    int a[2];
    if (x)
        a[0] = 1;
    assert(a[0] == 1);
}
";

/// A program, an input, the bound on iterations, the choices of a run in which every statement may be
/// relaxed, and whether it is good.
type Relaxed = (&'static str, &'static str, u32, &'static str, bool);

static RELAXED: [Relaxed; 55] = [
    (FIVE_LINES, "1", 1, "k", false),
    (FIVE_LINES, "2", 1, "k", true),
    (FIVE_LINES, "1", 1, "t 2", true),
    (FIVE_LINES, "1", 1, "", false),
    (FIVE_LINES, "2", 1, "k k", false),
    (SHORT, "40000", 1, "k", false),
    (SHORT, "40000", 1, "t 40000", false),
    (SHORT, "-5", 1, "t -5", true),
    (SUM, "3", 3, "k k k k k k k k k k", false),
    (SUM, "4", 3, "k k k k k k k k k k k k k", true),
    (SUM, "3", 3, "k k k k k k k k t 1 k k k k", true),
    (SUM, "5", 3, "k k k k k k k k k k k k k", false),
    (SUM, "5", 3, "k k k k k k k k k k k t 0 k", true),
    (TWICE, "1", 1, "k k", true),
    (TWICE, "0", 1, "k k", false),
    (TWICE, "0", 1, "t 1 t 1 5", true),
    (TWICE, "1", 1, "t 4 k", false),
    (STORE, "2", 1, "k k", false),
    (STORE, "2", 1, "t 0 1 k", true),
    (STORE, "2", 1, "t 1 1 k", false),
    (STORE, "2", 1, "t 2 1 k", false),
    (STORE, "0", 1, "k t 9", true),
    (STORE, "-1", 1, "k k", false),
    (DIVISION, "0", 1, "k k", false),
    (DIVISION, "0", 1, "t 2 k", true),
    (DIVISION, "3", 1, "k k", true),
    (GLOBAL, "", 1, "k k k k", false),
    (GLOBAL, "", 1, "k t 0 k k", true),
    (GLOBAL, "", 1, "t 7 k", true),
    (EARLY, "5", 1, "k k k k", true),
    (EARLY, "0", 1, "k k k k", false),
    (EARLY, "0", 1, "k t 1 k k", true),
    (EARLY, "0", 1, "k k t 1 k", true),
    (BRANCH, "1", 1, "k k", true),
    (BRANCH, "0", 1, "k", false),
    (BRANCH, "0", 1, "t 1 k", true),
    (BRANCH, "1", 1, "t 0", false),
    (BRANCH, "1", 1, "k t 1 1", false),
    (BRANCH, "0", 1, "k k", false),
    (OWN, "", 1, "k", true),
    (OWN, "", 1, "t 4 0", true),
    (OWN, "", 1, "t 4 1", false),
    (OWN, "", 1, "t 4", false),
    (JUMPS, "", 4, "k k k k k k k k k k k k", true),
    (JUMPS, "", 3, "k k k k k k k k k k k k", false),
    (JUMPS, "", 4, "k k k k k t 1", false),
    (BEHIND, "0", 1, "k k", true),
    (BEHIND, "1", 1, "k k", false),
    (BEHIND, "1", 1, "k t 0", true),
    (VALUES, "5", 1, "k k", true),
    (VALUES, "0", 1, "k k", false),
    (VALUES, "5", 1, "t 6 k", false),
    (VALUES, "5", 1, "t 40000 k", false),
    (ARRAYS, "", 1, "k k k k k k", true),
    (ARRAYS, "", 1, "t ", false),
];

/// All statements but the asserts.
fn all_relaxed(rt: &impl Abort, alloc: Global, statements: &[StmtInfo]) -> Allowed {
    let mut relaxed = Items::new(alloc);
    let mut number = 0u32;
    for statement in statements {
        number = number.saturating_add(1);
        if statement.kind != StmtKind::Assert {
            relaxed.push(StmtId(number)).expect(rt, "memory");
        }
    }
    Allowed::Statements(relaxed)
}

/// Whether a run is good in which every statement may be relaxed.
fn is_good(rt: &impl Abort, alloc: Global, run_of: &Relaxed) -> bool {
    let (program, input, turns, choices, _) = *run_of;
    assert!(rt; 1 <= turns && turns <= 128);
    let program = program_of(rt, alloc, program);
    let input = input_of(rt, alloc, &program, input);
    let allowed = all_relaxed(rt, alloc, program.statements.as_slice());
    let choices = choices_of(rt, alloc, choices);
    let bounds = Bounds { turns, frames: 4 };
    let outcome = run(
        alloc,
        &program,
        &input,
        bounds,
        &allowed,
        choices.as_slice(),
    )
    .expect(rt, "memory");
    outcome == Outcome::Done
}

#[test]
fn relaxed_runs_are_good_as_worked_out(rt: HostRuntime) {
    for row in &RELAXED {
        assert!(rt; is_good(&rt, rt.alloc(), row) == row.4, "{row:?}");
    }
}
