//! The edits that are printed: each is made in the program's text, and what comes of it is run.

use crate::support::calls::{end, repair_world};
use crate::support::programs::BRANCHES;
use ba_answers::status::Status;
use ba_inputs::read_input;
use ba_interp::run;
use ba_items::Items;
use ba_steps::NoSink;
use ba_tree::run::{Allowed, Bounds, Outcome};
use std::alloc::Global;
use std::panic::Expect;
use std::process::Abort;
use std::str;
use test_programs::examples::SUM;
use test_programs::program_of;

/// The words of a call that prints edits.
const WORDS: &[&str] = &["repair", "p.c", "failing.txt", "passing.txt", "--bound=4"];

/// How far its runs go.
const BOUNDS: Bounds = Bounds {
    turns: 4,
    frames: 16,
};

/// An index that can be too large.
const INDEX: &str = "int main(int k) {
    int a[4] = {1, 2, 4, 7};
    int y;
    y = a[k + 1] + a[0];
    assert(k != 3 || y == 8);
    return 0;
}
";

/// Two comparisons of which both have to hold.
const INSIDE: &str = "int is_inside(int x, int low, int high) {
    return x >= low || x < high;
}
int main(int x, int expected) {
    int found;
    found = is_inside(x, 3, 9);
    assert(found == expected);
    return 0;
}
";

/// A constant above which there is none.
const GREATEST: &str = "unsigned most = 4294967295u;
int main(unsigned a) {
    unsigned x;
    x = most + a;
    assert(x == 2);
    return 0;
}
";

/// Programs, inputs on which they fail, inputs on which they pass, and how many edits let them pass on all. What
/// an edit changes stands once in its line.
static FAILING: [(&str, &str, &str, usize); 6] = [
    (BRANCHES, "1", "0\n", 4),
    (SUM, "3", "", 1),
    (INDEX, "3", "2\n", 1),
    (INSIDE, "1 0", "3 1\n8 1\n", 1),
    (GREATEST, "2", "", 1),
    (GREATEST, "2", "3\n", 0),
];

/// A line of a program in which this is changed to that.
fn changed(rt: &impl Abort, alloc: Global, line: &str, this: &str, that: &str) -> String {
    let (front, back) = line.split_once(this).expect(rt, "nothing to change");
    assert!(rt; back.split_once(this).is_none());
    format!(in alloc; "{front}{that}{back}\n").expect(rt, "memory")
}

/// The text of a program with an edit, as `  4:9 condition, node 2: 1 -> 0 | if (index != 1)`.
fn edited(rt: &impl Abort, alloc: Global, program: &str, edit: &str) -> String {
    let (head, _) = edit.split_once(" | ").expect(rt, "no source");
    let (statement, change) = head.split_once(": ").expect(rt, "no change");
    let (this, that) = change.split_once(" -> ").expect(rt, "no arrow");
    let (line, _) = statement.trim().split_once(':').expect(rt, "no line");
    let number: u32 = line.parse().ok().expect(rt, "no number");
    let mut text = String::new(alloc);
    let mut current: u32 = 0;
    for line in program.lines() {
        current = current.saturating_add(1);
        let line = if current == number {
            changed(rt, alloc, line, this, that)
        } else {
            format!(in alloc; "{line}\n").expect(rt, "memory")
        };
        text.push_str(line.as_str()).expect(rt, "memory");
    }
    text
}

/// How the run of a program as written ends on an input.
fn outcome_of(rt: &impl Abort, alloc: Global, program: &str, input: &str) -> Outcome {
    let program = program_of(alloc, program).expect(rt, "a program");
    assert!(rt; input.len() <= 65_536);
    let input = read_input(alloc, &program, input.as_bytes()).expect(rt, "an input");
    let none = Allowed::Statements(Items::new(alloc));
    run(alloc, &program, &input, BOUNDS, &none, &[]).expect(rt, "memory")
}

/// Asserts that an edit, which was printed, lets a program pass on all inputs.
fn assert_repairs(
    rt: &impl Abort,
    alloc: Global,
    program: &str,
    edit: &str,
    failing: &str,
    passing: &str,
) {
    let program = edited(rt, alloc, program, edit);
    let outcome = outcome_of(rt, alloc, program.as_str(), failing);
    assert_eq!(rt; outcome, Outcome::Done, "{edit}");
    for input in passing.lines() {
        let outcome = outcome_of(rt, alloc, program.as_str(), input);
        assert_eq!(rt; outcome, Outcome::Done, "{edit}");
    }
}

#[test]
fn programs_with_printed_edits_pass(rt: HostRuntime) {
    let alloc = rt.alloc();
    for (program, failing, passing, count) in &FAILING {
        let mut world = repair_world(&rt, alloc, program, failing, passing);
        assert_eq!(rt; end(alloc, WORDS, &mut world, &mut NoSink), Status::Ok);
        let report = str::from_utf8(world.printed()).expect(&rt, "no text");
        let lines: Vec<&str> = report.lines().collect(alloc).expect(&rt, "memory");
        let (_, edits) = lines.as_slice().split_first().expect(&rt, "no line");
        assert_eq!(rt; edits.len(), *count);
        for edit in edits {
            assert_repairs(&rt, alloc, program, edit, failing, passing);
        }
    }
}
