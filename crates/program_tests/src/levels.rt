//! Texts with a hundred constructs around a token, and with one more.

use crate::parse::expect_answer;
use std::alloc::Global;
use std::panic::Expect;
use std::process::Abort;

/// A front, a repeated part, a middle, another part repeated as often, a back, how many times, and what the
/// parser says. A hundred levels are accepted: of parentheses, blocks, prefix operators, a chain, casts,
/// controlled statements, branches, `switch`es and lists of constants.
type Level = (
    &'static str,
    &'static str,
    &'static str,
    &'static str,
    &'static str,
    u32,
    &'static str,
);

static LEVELS: [Level; 31] = [
    (
        "int main(void) { return ",
        "(",
        "1",
        ")",
        " ; }",
        99,
        "parses",
    ),
    (
        "int main(void) { return ",
        "(",
        "1",
        ")",
        " ; }",
        100,
        "TooDeep 107",
    ),
    ("int main(void) ", "{", ";", "}", "", 100, "parses"),
    ("int main(void) ", "{", ";", "}", "", 101, "TooDeep 106"),
    (
        "int main(void) { return ",
        "- ",
        "1",
        "",
        " ; }",
        99,
        "parses",
    ),
    (
        "int main(void) { return ",
        "- ",
        "1",
        "",
        " ; }",
        100,
        "TooDeep 107",
    ),
    (
        "int main(void) { return 1",
        "+ 1",
        "",
        "",
        " ; }",
        99,
        "parses",
    ),
    (
        "int main(void) { return 1",
        "+ 1",
        "",
        "",
        " ; }",
        100,
        "TooDeep 207",
    ),
    (
        "int main(void) { return ",
        "(int) ",
        "1",
        "",
        " ; }",
        99,
        "parses",
    ),
    (
        "int main(void) { return ",
        "(int) ",
        "1",
        "",
        " ; }",
        100,
        "TooDeep 305",
    ),
    ("int main(void) { ", "if (1) ", ";", "", " }", 99, "parses"),
    (
        "int main(void) { ",
        "if (1) ",
        ";",
        "",
        " }",
        100,
        "TooDeep 404",
    ),
    (
        "int main(void) { return ",
        "1 ? 1 : ",
        "1",
        "",
        " ; }",
        99,
        "parses",
    ),
    (
        "int main(void) { return ",
        "1 ? 1 : ",
        "1",
        "",
        " ; }",
        100,
        "TooDeep 405",
    ),
    (
        "int main(void) { ",
        "switch (x) { case 1: ",
        ";",
        "}",
        " }",
        99,
        "parses",
    ),
    (
        "int main(void) { ",
        "switch (x) { case 1: ",
        ";",
        "}",
        " }",
        100,
        "TooDeep 800",
    ),
    (
        "int main(void) { ",
        "switch (x) { case 1: ",
        "{ }",
        "}",
        " }",
        99,
        "parses",
    ),
    (
        "int main(void) { ",
        "switch (x) { case 1: ",
        "{ ; }",
        "}",
        " }",
        99,
        "TooDeep 799",
    ),
    (
        "int main(void) { ",
        "switch (x) { case 1: ",
        "switch (x) { case (1): ; default: f(); }",
        "}",
        " }",
        97,
        "parses",
    ),
    (
        "int main(void) { ",
        "switch (x) { case 1: ",
        "switch (x) { case 1: case 2: f(); default: ; }",
        "}",
        " }",
        98,
        "parses",
    ),
    (
        "int main(void) { ",
        "switch (x) { case 1: ",
        "switch (x) { case (1): ; }",
        "}",
        " }",
        98,
        "TooDeep 797",
    ),
    (
        "int main(void) { ",
        "switch (x) { case 1: ",
        "switch (x) { case 1: default: f(1); }",
        "}",
        " }",
        98,
        "TooDeep 802",
    ),
    (
        "int main(void) ",
        "{",
        "enum e { A };",
        "}",
        "",
        99,
        "parses",
    ),
    (
        "int main(void) ",
        "{",
        "enum { A };",
        "}",
        "",
        100,
        "TooDeep 107",
    ),
    (
        "int main(void) ",
        "{",
        "enum { A = 1, B, } const x = A;",
        "}",
        "",
        99,
        "parses",
    ),
    (
        "int main(void) ",
        "{",
        "const enum e { A = (1) } x[(1)];",
        "}",
        "",
        98,
        "parses",
    ),
    (
        "int main(void) ",
        "{",
        "enum { A, B = (1) };",
        "}",
        "",
        99,
        "TooDeep 111",
    ),
    (
        "int main(void) ",
        "{",
        "enum { };",
        "}",
        "",
        100,
        "Syntax 107",
    ),
    ("int main(void) ", "{", "enum e x;", "}", "", 100, "parses"),
    ("enum e { A = ", "(", "1", ")", " };", 99, "parses"),
    ("enum e { A = ", "(", "1", ")", " };", 100, "TooDeep 105"),
];

/// Adds a piece so many times.
fn add_pieces(rt: &impl Abort, text: &mut String, piece: &str, count: u32) {
    for _ in 0..count {
        text.push_str(piece).expect(rt, "memory");
    }
}

/// The text of a row.
fn nested(rt: &impl Abort, alloc: Global, level: &Level) -> String {
    let (front, part, middle, other, back, count, _) = *level;
    let mut text = String::from_str(alloc, front).expect(rt, "memory");
    add_pieces(rt, &mut text, part, count);
    add_pieces(rt, &mut text, middle, 1);
    add_pieces(rt, &mut text, other, count);
    add_pieces(rt, &mut text, back, 1);
    text
}

fn expect_level(rt: &impl Abort, alloc: Global, level: &Level) {
    let text = nested(rt, alloc, level);
    expect_answer(rt, alloc, text.as_str(), level.6);
}

#[test]
fn a_hundred_levels_are_accepted(rt: HostRuntime) {
    for level in &LEVELS {
        expect_level(&rt, rt.alloc(), level);
    }
}
