//! Each limit reached and passed by one (limits of the profile).

use crate::support::typing::{first_difference, is_answer};
use std::alloc::Global;
use std::panic::Expect;
use std::process::Abort;

/// The front, the part so many times, and the back.
fn add_repeated(
    rt: &impl Abort,
    text: &mut String,
    front: &str,
    part: &str,
    count: u32,
    back: &str,
) {
    text.push_str(front).expect(rt, "memory");
    for _ in 0..count {
        text.push_str(part).expect(rt, "memory");
    }
    text.push_str(back).expect(rt, "memory");
}

/// The front, the part, how often it stands, the back, and the answer.
type Row<'a> = (&'a str, &'a str, u32, &'a str, &'a str);

static LIMITS: [Row; 24] = [
    ("int main(int x) {", "x=1;", 4000, "}", "fits"),
    ("int main(int x) {", "x=1;", 4001, "}", "9 at 1:16018"),
    ("int main(int x) {", "{int y;}", 1999, "}", "fits"),
    ("int main(int x) {", "{int y;}", 2000, "}", "9 at 1:16015"),
    ("int main(int x) {", "{enum{A};}", 1999, "}", "fits"),
    ("int main(int x) {", "{enum{A};}", 2000, "}", "9 at 1:20014"),
    ("int main(int x) {", "{int y;enum{A};}", 999, "}", "fits"),
    (
        "int main(int x) {",
        "{int y;enum{A};}",
        1000,
        "}",
        "9 at 1:16014",
    ),
    ("int f(int", ",int", 31, ");int main(void){}", "fits"),
    ("int f(int", ",int", 32, ");int main(void){}", "9 at 1:135"),
    ("int main(int x) { x = 1", "+1", 99, ";}", "fits"),
    ("int main(int x) { x += 1", "+1", 98, ";}", "fits"),
    ("int main(int x) { x += 1", "+1", 99, ";}", "9 at 1:19"),
    ("int main(int a[2]) { a[0] *= ", "~", 98, "1;}", "fits"),
    ("int main(int a[2]) { a[0] *= ", "~", 99, "1;}", "9 at 1:22"),
    ("int main(int x) { x += ", "+ ", 98, "1;}", "fits"),
    ("int main(int x) { x += ", "+ ", 99, "1;}", "9 at 1:19"),
    (
        "int main(int x) { switch (x) { case 1*1*1*1*1*1*1*1*1*1*1",
        "+1",
        89,
        ": ; } }",
        "fits",
    ),
    (
        "int main(int x) { switch (x) { case 1*1*1*1*1*1*1*1*1*1*1",
        "+1",
        90,
        ": ; } }",
        "9 at 1:27",
    ),
    (
        "int main(int x) { switch (x*1*1*1*1*1*1*1*1*1*1",
        "+1",
        90,
        ") { case 1: ; } }",
        "9 at 1:27",
    ),
    (
        "enum { A = 1*1*1*1*1*1*1*1*1*1*1",
        "+1",
        89,
        "}; int main(void) { }",
        "fits",
    ),
    (
        "enum { A = 1*1*1*1*1*1*1*1*1*1*1",
        "+1",
        90,
        "}; int main(void) { }",
        "9 at 1:8",
    ),
    ("int x = 1", "+1", 99, "; int main(void) { }", "fits"),
    ("int x = 1", "+1", 100, "; int main(void) { }", "9 at 1:5"),
];

fn is_limit(rt: &impl Abort, alloc: Global, row: &Row) -> bool {
    let (front, part, count, back, expected) = *row;
    let mut text = String::new(alloc);
    add_repeated(rt, &mut text, front, part, count, back);
    is_answer(rt, alloc, text.as_str(), expected)
}

/// The first row whose text has another answer, if there is one.
fn first_other_limit(rt: &impl Abort, alloc: Global, rows: &[Row]) -> Option<usize> {
    for i in 0..rows.len() {
        if !is_limit(rt, alloc, &rows[i]) {
            return Some(i);
        }
    }
    None
}

#[test]
fn limits_are_reached_and_passed_by_one(rt: HostRuntime) {
    assert_eq!(rt; first_other_limit(&rt, rt.alloc(), LIMITS.as_slice()), None);
}

/// So many prototypes of different functions, and a main.
fn add_functions(rt: &impl Abort, text: &mut String, count: u32) {
    for i in 0..count {
        write!(text, "int f{i}(void);\n").expect(rt, "memory");
    }
    text.push_str("int main(void) { return 0; }")
        .expect(rt, "memory");
}

/// Whether the text of so many prototypes and a main has this answer.
fn are_functions(rt: &impl Abort, alloc: Global, count: u32, expected: &str) -> bool {
    let mut text = String::new(alloc);
    add_functions(rt, &mut text, count);
    is_answer(rt, alloc, text.as_str(), expected)
}

static ELEMENTS: [(&str, &str); 4] = [
    (
        "int a[256], b[256], c[256]; int main(int d[256]) { }",
        "fits",
    ),
    (
        "int a[256], b[256], c[256], e[1]; int main(int d[256]) { }",
        "9 at 1:48",
    ),
    (
        "int a[256], b[256], c[256], d[255]; int main(void) { int e[2]; }",
        "9 at 1:58",
    ),
    (
        "int a[256], b[256], c[256], d[256]; int f(int x[9]) { return 0; } int main(void) { }",
        "fits",
    ),
];

#[test]
fn functions_and_elements_are_limited(rt: HostRuntime) {
    let alloc = rt.alloc();
    assert!(rt; are_functions(&rt, alloc, 99, "fits"));
    assert!(rt; are_functions(&rt, alloc, 100, "9 at 101:5"));
    assert_eq!(rt; first_difference(&rt, alloc, ELEMENTS.as_slice()), None);
}
