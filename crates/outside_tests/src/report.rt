//! The texts of reports.

use crate::support::verdicts::{Found, located};
use ba_report::report;
use std::alloc::Global;
use std::panic::Expect;
use std::process::Abort;
use test_programs::examples::{ELEMENT, STORE, TWO};
use test_programs::program_of;

/// Compares the report on a program with a text.
fn compare(
    rt: &impl Abort,
    alloc: Global,
    source: &str,
    verdict: (u64, &[Found]),
    runs: bool,
    wanted: &str,
) {
    let program = program_of(alloc, source).expect(rt, "a program");
    let verdict = located(rt, alloc, verdict.0, verdict.1);
    let text = report(alloc, source.as_bytes(), &program, &verdict, runs).expect(rt, "memory");
    assert_eq!(rt; text.as_slice(), wanted.as_bytes());
}

#[test]
fn each_set_has_a_line_for_each_statement(rt: HostRuntime) {
    let sets: [Found; 3] = [(&[1], "t 0"), (&[3], "t 2"), (&[4], "t 0")];
    compare(
        &rt,
        rt.alloc(),
        ELEMENT,
        (1, &sets),
        false,
        "located: weight 1, sets 3\nset 1:\n  4:9 condition | if (index != 1)\nset 2:\n  7:9 assignment | index = index + 2;\nset 3:\n  8:5 assignment | i = index;\n",
    );
}

#[test]
fn a_run_is_shown_below_its_set(rt: HostRuntime) {
    let store: [Found; 1] = [(&[1], "t 0 1")];
    compare(
        &rt,
        rt.alloc(),
        STORE,
        (1, &store),
        true,
        "located: weight 1, sets 1\nset 1:\n  3:5 store | a[k] = 1;\n  run: t 0 1\n",
    );
}

#[test]
fn two_statements_of_a_set_stand_in_order(rt: HostRuntime) {
    let both: [Found; 1] = [(&[1, 2], "t 2 t 2")];
    compare(
        &rt,
        rt.alloc(),
        TWO,
        (2, &both),
        true,
        "located: weight 2, sets 1\nset 1:\n  3:5 assignment | x = 1;\n  4:5 assignment | y = 1;\n  run: t 2 t 2\n",
    );
}

// blanks of each kind at both ends of a line, two statements in one line, and a last line without a line feed
const BLANKS: &str =
    "void f(void) {\r\n}\r\nint main(void) { int a = 3;\r\n\t \u{b}\u{c}f(); f(); \t\u{b}\u{c}\r\n\r\n\r  return a; }";

#[test]
fn a_source_line_has_no_blanks_at_its_ends(rt: HostRuntime) {
    let sets: [Found; 2] = [
        (&[1, 3], "k t t -2147483648 0"),
        (&[2, 4], "t k t 4294967295"),
    ];
    compare(
        &rt,
        rt.alloc(),
        BLANKS,
        (12, &sets),
        true,
        "located: weight 12, sets 2\nset 1:\n  3:22 initialiser | int main(void) { int a = 3;\n  4:10 call | f(); f();\n  run: k t t -2147483648 0\nset 2:\n  4:5 call | f(); f();\n  6:4 return | return a; }\n  run: t k t 4294967295\n",
    );
}
