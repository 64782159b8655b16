//! Programs with their units within some bounds, which were counted by hand.

use crate::support::programs::program_of;
use ba_tree::run::Bounds;
use ba_units::units;
use std::alloc::Global;
use std::process::Abort;
use test_programs::examples::{
    ARGUMENTS, ARRAYS, BEHIND, CALL, DIVISION, DOWN, ELEMENT, ENDLESS, FALLS, GLOBAL, INITIALISER,
    JUMPS, LABELLED_ONE, NESTED, OWN, PATHS, STORE, SUM, TURNS, VALUES,
};

/// The units of a program.
fn counted(rt: &impl Abort, alloc: Global, program: &str, turns: u32, frames: u32) -> u32 {
    assert!(rt; 1 <= turns && turns <= 128 && 1 <= frames && frames <= 32);
    let program = program_of(rt, alloc, program);
    units(&program, Bounds { turns, frames })
}

/// Three loops in one another.
const LOOPS: &str = "int main(int n) {
    for (; n;)
        for (; n;)
            for (; n;) { }
    return 0;
}
";

/// A function that calls itself twice.
const TWICE: &str = "void f(int n) {
    f(n);
    f(n);
}
int main(void) {
    f(1);
}
";

/// An array of 256 elements, which a function passes on to another one that reads an element.
const PASSED: &str = "int first(int p[]) {
    return p[0];
}
int on(int p[]) {
    return first(p);
}
int main(void) {
    int a[256];
    return on(a);
}
";

/// A function that reads an element of its first array, and calls itself with its two arrays exchanged.
const EXCHANGED: &str = "void f(int p[], int q[]) {
    assert(p[0]);
    f(q, p);
}
int main(void) {
    int a[1], b[256];
    f(a, b);
}
";

/// Two loops in one another and a row of divisions: 20,000 units for 57 iterations.
const FULL: &str = "int main(int n) {
    while (n + (1 + 1))
        while (n + (1 + 1))
            n = n + (1 + 1);
    n = 1 / (1 / (1 / (1 / 1)));
}
";

/// The same and a `return`.
const ONE_OVER: &str = "int main(int n) {
    while (n + (1 + 1))
        while (n + (1 + 1))
            n = n + (1 + 1);
    n = 1 / (1 / (1 / (1 / 1)));
    return;
}
";

/// The same and two.
const TWO_OVER: &str = "int main(int n) {
    while (n + (1 + 1))
        while (n + (1 + 1))
            n = n + (1 + 1);
    n = 1 / (1 / (1 / (1 / 1)));
    return;
    return;
}
";

/// A program, the bounds on iterations and on frames, and the units.
type Row<'a> = (&'a str, u32, u32, u32);

/// The first row whose program has other units, if there is one.
fn first_difference(rt: &impl Abort, alloc: Global, rows: &[Row]) -> Option<usize> {
    for i in 0..rows.len() {
        let (program, turns, frames, expected) = rows[i];
        if counted(rt, alloc, program, turns, frames) != expected {
            return Some(i);
        }
    }
    None
}

static UNITS: [Row; 45] = [
    (ELEMENT, 1, 16, 17),
    (ELEMENT, 64, 32, 17),
    (CALL, 1, 16, 9),
    (CALL, 1, 1, 7),
    (SUM, 3, 16, 27),
    (SUM, 4, 16, 33),
    (DOWN, 1, 1, 3),
    (DOWN, 1, 16, 108),
    (DOWN, 1, 32, 220),
    (STORE, 1, 16, 10),
    (DIVISION, 1, 16, 45),
    (GLOBAL, 1, 16, 9),
    (ENDLESS, 5, 16, 7),
    (OWN, 1, 16, 8),
    (INITIALISER, 1, 16, 42),
    (ARGUMENTS, 1, 16, 51),
    (ARRAYS, 1, 1, 9),
    (ARRAYS, 1, 2, 23),
    (ARRAYS, 1, 16, 219),
    (TURNS, 128, 16, 516),
    (FALLS, 1, 16, 11),
    (PATHS, 1, 16, 24),
    (NESTED, 9, 16, 1924),
    (NESTED, 128, 16, 20_001),
    (LABELLED_ONE, 1, 16, 45),
    (JUMPS, 4, 16, 38),
    (BEHIND, 1, 16, 7),
    (BEHIND, 5, 16, 19),
    (VALUES, 1, 16, 134),
    (LOOPS, 1, 16, 7),
    (LOOPS, 26, 16, 18_982),
    (LOOPS, 27, 16, 20_001),
    (LOOPS, 64, 16, 20_001),
    (TWICE, 1, 12, 12_285),
    (TWICE, 1, 13, 20_001),
    (TWICE, 1, 32, 20_001),
    (PASSED, 1, 1, 131),
    (PASSED, 1, 2, 133),
    (PASSED, 1, 3, 221),
    (EXCHANGED, 1, 2, 138),
    (EXCHANGED, 1, 3, 228),
    (EXCHANGED, 1, 4, 233),
    (FULL, 57, 16, 20_000),
    (ONE_OVER, 57, 16, 20_001),
    (TWO_OVER, 57, 16, 20_001),
];

#[test]
fn units_are_as_counted(rt: HostRuntime) {
    let difference = first_difference(&rt, rt.alloc(), UNITS.as_slice());
    assert_eq!(rt; difference, None);
}
