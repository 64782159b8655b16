//! Lines with the steps that they are, and lines that are no step's.

use ba_cert::{CertError, CertHead, head_text, read_line, read_settings, step_text};
use ba_choices::Choice;
use ba_lits::Lit;
use ba_steps::CertStep;
use ba_tree::run::Bounds;
use std::alloc::Global;
use std::panic::Expect;
use std::process::Abort;

/// A step without its types: its kind, and two lists of numbers. A literal is its variable with its sign. In
/// a run, 1000 is a choice that keeps the statement, and 2000 begins one that takes the values after it.
#[derive(Drop)]
struct Plain {
    kind: &'static str,
    first: Vec<i64>,
    second: Vec<i64>,
}

fn signed(lit: Lit) -> i64 {
    let variable = lit.variable() as i64;
    if lit.is_negated() {
        -variable
    } else {
        variable
    }
}

fn signed_all(rt: &impl Abort, alloc: Global, lits: &[Lit]) -> Vec<i64> {
    let mut numbers = Vec::new(alloc);
    for lit in lits {
        numbers.push(signed(*lit)).expect(rt, "memory");
    }
    numbers
}

fn numbers_of(rt: &impl Abort, alloc: Global, numbers: &[u64]) -> Vec<i64> {
    let mut all = Vec::new(alloc);
    for number in numbers {
        all.push(i64::try_from(*number).unwrap_or(-1))
            .expect(rt, "memory");
    }
    all
}

fn groups_of(rt: &impl Abort, alloc: Global, groups: &[u32]) -> Vec<i64> {
    let mut all = Vec::new(alloc);
    for group in groups {
        all.push(i64::from(*group)).expect(rt, "memory");
    }
    all
}

fn add_choice(rt: &impl Abort, choice: &Choice, all: &mut Vec<i64>) {
    match choice {
        Choice::Keep => all.push(1000).expect(rt, "memory"),
        Choice::Take(values) => {
            all.push(2000).expect(rt, "memory");
            all.extend_from_slice(values.as_slice())
                .expect(rt, "memory");
        }
    }
}

fn run_of(rt: &impl Abort, alloc: Global, run: &[Choice]) -> Vec<i64> {
    let mut all = Vec::new(alloc);
    for choice in run {
        add_choice(rt, choice, &mut all);
    }
    all
}

fn clause(
    rt: &impl Abort,
    alloc: Global,
    kind: &'static str,
    lits: &[Lit],
    hints: &[u64],
) -> Plain {
    Plain {
        kind,
        first: signed_all(rt, alloc, lits),
        second: numbers_of(rt, alloc, hints),
    }
}

fn list(rt: &impl Abort, alloc: Global, kind: &'static str, numbers: &[u64]) -> Plain {
    Plain {
        kind,
        first: numbers_of(rt, alloc, numbers),
        second: Vec::new(alloc),
    }
}

fn plain_of(rt: &impl Abort, alloc: Global, step: &CertStep) -> Plain {
    match step {
        CertStep::Learn { lits, hints } => {
            clause(rt, alloc, "learn", lits.as_slice(), hints.as_slice())
        }
        CertStep::Core { lits, hints } => clause(
            rt,
            alloc,
            "core",
            lits.as_slice(),
            hints.as_slice(),
        ),
        CertStep::Delete { clauses } => list(rt, alloc, "delete", clauses.as_slice()),
        CertStep::Block { groups, run } => Plain {
            kind: "block",
            first: groups_of(rt, alloc, groups.as_slice()),
            second: run_of(rt, alloc, run.as_slice()),
        },
        CertStep::EndLocated { lits, hints } => {
            clause(rt, alloc, "located", lits.as_slice(), hints.as_slice())
        }
        CertStep::EndNoRepair { hints } => list(rt, alloc, "no repair", hints.as_slice()),
        CertStep::EndTooMany => list(rt, alloc, "too many", &[]),
        CertStep::EndSpent => list(rt, alloc, "spent", &[]),
    }
}

static STEPS: [(&str, &str, &[i64], &[i64]); 16] = [
    ("l 1 0 0", "learn", &[1], &[]),
    ("l -1 2 -3 0 7 7 10 0", "learn", &[-1, 2, -3], &[7, 7, 10]),
    (
        "l -4611686018427387903 0 4611686018427387903 0",
        "learn",
        &[-4_611_686_018_427_387_903],
        &[4_611_686_018_427_387_903],
    ),
    ("c -1 -2 0 1 0", "core", &[-1, -2], &[1]),
    ("d 1 0", "delete", &[1], &[]),
    ("d 60 61 1000 0", "delete", &[60, 61, 1000], &[]),
    ("s 3 0 t 2", "block", &[3], &[2000, 2]),
    ("s 5 0 k", "block", &[5], &[1000]),
    ("s 3 4 0 t 2 t 2", "block", &[3, 4], &[2000, 2, 2000, 2]),
    (
        "s 1 4294967295 0 k t t 0 -1 4611686018427387903 k",
        "block",
        &[1, 4_294_967_295],
        &[1000, 2000, 2000, 0, -1, 4_611_686_018_427_387_903, 1000],
    ),
    ("s 3 0", "block", &[3], &[]),
    ("e l 0 0", "located", &[], &[]),
    ("e l -1 4 0 2 3 0", "located", &[-1, 4], &[2, 3]),
    ("e n 0", "no repair", &[], &[]),
    ("e m", "too many", &[], &[]),
    ("e b", "spent", &[], &[]),
];

/// Whether a step is of this kind and has these numbers.
fn is_plain(step: &Plain, kind: &str, first: &[i64], second: &[i64]) -> bool {
    step.kind == kind && step.first.as_slice() == first && step.second.as_slice() == second
}

/// Whether a text is this line with a line feed after it.
fn is_line(text: &[u8], line: &str) -> bool {
    match text.split_last() {
        Some((feed, front)) => *feed == b'\n' && front == line.as_bytes(),
        None => false,
    }
}

/// Whether a line is read as this step, and the step is written as the line.
fn is_read_and_written(
    rt: &impl Abort,
    alloc: Global,
    line: &str,
    kind: &str,
    first: &[i64],
    second: &[i64],
) -> bool {
    let step = read_line(alloc, line.as_bytes()).expect(rt, "a step");
    let read = plain_of(rt, alloc, &step);
    let text = step_text(alloc, &step).expect(rt, "memory");
    is_plain(&read, kind, first, second) && is_line(text.as_slice(), line)
}

#[test]
fn each_form_of_a_line_is_read_and_written(rt: HostRuntime) {
    for (line, kind, first, second) in STEPS.as_slice() {
        let is_so = is_read_and_written(&rt, rt.alloc(), line, kind, first, second);
        assert!(rt; is_so, "at {line}");
    }
}

/// Settings lines, and the numbers that each names: the loop bound, the depth, the conflicts and the sets.
static SETTINGS: [(&str, u32, u32, u64, u32); 5] = [
    ("b 5 16 200000 1000", 5, 16, 200_000, 1000),
    ("b 128 32 1000000 10000", 128, 32, 1_000_000, 10_000),
    ("b 0 0 0 0", 0, 0, 0, 0),
    (
        "b 4294967295 1 1 4294967295",
        4_294_967_295,
        1,
        1,
        4_294_967_295,
    ),
    (
        "b 1 4294967295 4611686018427387903 1",
        1,
        4_294_967_295,
        4_611_686_018_427_387_903,
        1,
    ),
];

/// Whether a line is read as these settings, and they are written as it, after the first line.
fn are_read_and_written(rt: &impl Abort, alloc: Global, line: &str, head: &CertHead) -> bool {
    let text = head_text(alloc, head).expect(rt, "memory");
    match text.as_slice().strip_prefix(b"bugassist 2\n".as_slice()) {
        Some(rest) => is_line(rest, line) && read_settings(line.as_bytes()) == Some(*head),
        None => false,
    }
}

#[test]
fn each_settings_line_is_read_and_written(rt: HostRuntime) {
    for (line, turns, frames, conflicts, sets) in SETTINGS.as_slice() {
        let head = CertHead {
            bounds: Bounds {
                turns: *turns,
                frames: *frames,
            },
            conflicts: *conflicts,
            sets: *sets,
        };
        let is_so = are_read_and_written(&rt, rt.alloc(), line, &head);
        assert!(rt; is_so, "at {line}");
    }
}

static NO_SETTINGS: [&str; 24] = [
    "",
    "b",
    "b ",
    "5 16 200000 1000",
    "b 5 16 200000",
    "b 5 16 200000 1000 1",
    "b 5 16 200000 1000 ",
    "b  5 16 200000 1000",
    "b 5 16  200000 1000",
    " b 5 16 200000 1000",
    "b 5 16 200000 1000\r",
    "b 01 16 200000 1000",
    "b 00 16 200000 1000",
    "b 5 016 200000 1000",
    "b -5 16 200000 1000",
    "b +5 16 200000 1000",
    "b 4294967296 16 200000 1000",
    "b 5 4294967296 200000 1000",
    "b 5 16 4611686018427387904 1000",
    "b 5 16 200000 4294967296",
    "B 5 16 200000 1000",
    "b\t5 16 200000 1000",
    "bb 5 16 200000 1000",
    "e b",
];

#[test]
fn a_line_of_no_settings_is_refused(rt: HostRuntime) {
    for line in &NO_SETTINGS {
        assert!(rt; read_settings(line.as_bytes()).is_none(), "at {line:?}");
    }
}

static BAD_LISTS: [&str; 36] = [
    "l 01 0 1 0",
    "l 1 0 01 0",
    "l 00 0 0",
    "l 1 00 0",
    "l 0 0",
    "l 2 1 0 0",
    "l 1 1 0 0",
    "l 1 -1 0 0",
    "l -0 0 0",
    "l -01 0 0",
    "l +1 0 0",
    "l --1 0 0",
    "l - 0 0",
    "l 1- 0 0",
    "l 4611686018427387904 0 0",
    "l -4611686018427387904 0 0",
    "l 18446744073709551617 0 0",
    "l 1 0 4611686018427387904 0",
    "l 1 0 -1 0",
    "l 1 0",
    "l 1",
    "l",
    "l 1 0 1",
    "l 1 0 0 0",
    "l 1 0 0 1",
    "c 0 0",
    "c -2 -1 0 0",
    "c -1 0",
    "d 0",
    "d 2 1 0",
    "d 1 1 0",
    "d -1 0",
    "d 1",
    "d 1 0 0",
    "e l 1 0 0 0",
    "e l 2 1 0 0",
];

static BAD_RUNS: [&str; 22] = [
    "s 0 k",
    "s 3 t 2",
    "s 3",
    "s 2 1 0 k",
    "s 3 3 0 k",
    "s 4294967296 0 k",
    "s -1 0 k",
    "s 03 0 k",
    "s 3 0 2",
    "s 3 0 k 2",
    "s 3 0 kk",
    "s 3 0 k0",
    "s 3 0 K",
    "s 3 0 t2",
    "s 3 0 t 02",
    "s 3 0 t 00",
    "s 3 0 t -0",
    "s 3 0 t -02",
    "s 3 0 t +2",
    "s 3 0 t 4611686018427387904",
    "s 3 0 t -4611686018427387904",
    "s 3 0 t 2 0x1",
];

static BAD_FORMS: [&str; 28] = [
    "",
    " ",
    "  ",
    "l 1 0 0 ",
    " l 1 0 0",
    "l  1 0 0",
    "l 1 0  0",
    "l 1\t0 0",
    "l 1 0 0\n",
    "l 1 0 0\r",
    "\nl 1 0 0",
    "e b\r",
    "e b ",
    "e  b",
    " e b",
    "e",
    "e e",
    "e l",
    "e l 0",
    "e n",
    "e n 0 0",
    "e m 0",
    "e b 0",
    "E b",
    "ll 1 0 0",
    "x",
    "bugassist 1",
    "# e b",
];

fn refuses(rt: &impl Abort, alloc: Global, lines: &[&str]) {
    for line in lines {
        let answer = read_line(alloc, line.as_bytes());
        assert_eq!(rt; answer.err(), Some(CertError::BadLine), "at {line:?}");
    }
}

#[test]
fn a_line_of_no_step_is_refused(rt: HostRuntime) {
    refuses(&rt, rt.alloc(), BAD_LISTS.as_slice());
    refuses(&rt, rt.alloc(), BAD_RUNS.as_slice());
    refuses(&rt, rt.alloc(), BAD_FORMS.as_slice());
}
