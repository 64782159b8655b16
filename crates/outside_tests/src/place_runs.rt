//! The runs that are printed for sets of single executions: read back from the report, and run.

use crate::support::calls::{end, world_of};
use crate::support::programs::TWICE;
use ba_answers::status::Status;
use ba_inputs::read_input;
use ba_interp::run;
use ba_items::Items;
use ba_numbers::ids::{At, CallId, StmtId};
use ba_steps::NoSink;
use ba_tree::run::{Allowed, Bounds, Input, Outcome, Place, Step};
use ba_tree::tree::Program;
use std::alloc::Global;
use std::panic::Expect;
use std::process::Abort;
use std::str;
use test_programs::examples::{NESTED, PATHS, SUM};
use test_programs::{choices_of, program_of};

/// The words of a call that prints sets of single executions with their runs.
const WORDS: &[&str] = &[
    "localise",
    "p.c",
    "in.txt",
    "--bound=3",
    "--places",
    "--runs",
];

/// How far its runs go.
const BOUNDS: Bounds = Bounds {
    turns: 3,
    frames: 16,
};

/// Two wrong executions. The one that comes first, a store, is below the other in the text.
const STORED: &str = "int up(int x) {
    return x + 1;
}
int main(int n) {
    int a[2], y;
    a[0] = n + 1;
    y = up(n);
    assert(a[0] == n);
    assert(y == n + 2);
    return 0;
}
";

/// A `while` in a `do`, with calls in its condition.
const AROUND: &str = "int is_below(int a, int b) {
    return a < b;
}
int main(int n) {
    int i, j, s;
    i = 0;
    s = 0;
    do {
        j = 0;
        while (is_below(j, n)) {
            s = s + 1;
            j = j + 1;
        }
        i = i + 1;
    } while (i < n);
    assert(s == 3);
    return 0;
}
";

/// Programs, inputs on which they fail, how many executions each least set has, and how many sets there are.
static FAILING: [(&str, &str, u8, usize); 6] = [
    (SUM, "3", 1, 4),
    (TWICE, "1", 1, 3),
    (STORED, "4", 2, 2),
    (AROUND, "2", 1, 13),
    (PATHS, "0 10", 1, 6),
    (NESTED, "3 5", 2, 8),
];

/// A program, and an input on which it fails.
#[derive(Drop)]
struct Failing {
    program: Program,
    input: Input,
}

/// The statement that begins at a position, as `4:17`.
fn statement_at(program: &Program, position: &str) -> Option<StmtId> {
    let (line, column) = position.split_once(':')?;
    let at = At {
        line: line.parse().ok()?,
        column: column.parse().ok()?,
    };
    let statements = program.statements.as_slice();
    let before = statements.iter().position(|info| info.at == at)?;
    let number = u32::try_from(before).ok()?.checked_add(1)?;
    Some(StmtId(number))
}

/// The step of a path that these words spell: `call 2`, or `4:17#1`.
fn step_of(program: &Program, words: &str) -> Option<Step> {
    if let Some(number) = words.strip_prefix("call ") {
        return Some(Step::Call(CallId(number.parse().ok()?)));
    }
    let (position, turn) = words.split_once('#')?;
    Some(Step::Turn(statement_at(program, position)?, turn.parse().ok()?))
}

/// The place of a line, as `  5:9 assignment at main/4:17#1 | s = s + i;`.
fn place_of(rt: &impl Abort, alloc: Global, program: &Program, line: &str) -> Place {
    let (head, _) = line.split_once(" | ").expect(rt, "no source");
    let (statement, path) = head.split_once(" at main").expect(rt, "no path");
    let (position, _) = statement.trim().split_once(' ').expect(rt, "no kind");
    let mut steps = Items::new(alloc);
    for words in path.split('/').skip(1) {
        let step = step_of(program, words).expect(rt, "no step");
        steps.push(step).expect(rt, "memory");
    }
    Place {
        path: steps,
        stmt: statement_at(program, position).expect(rt, "no statement"),
    }
}

/// How the run of a set ends with the places and the choices that its lines show.
fn outcome_of(rt: &impl Abort, alloc: Global, failing: &Failing, set: &[&str]) -> Outcome {
    let [_, lines @ .., last] = set else {
        panic!(rt; "not a set")
    };
    let mut places = Items::new(alloc);
    for line in lines {
        let place = place_of(rt, alloc, &failing.program, line);
        places.push(place).expect(rt, "memory");
    }
    let words = last.strip_prefix("  run: ").expect(rt, "no run");
    let choices = choices_of(alloc, words).expect(rt, "choices");
    assert_eq!(rt; choices.len(), places.len());
    run(
        alloc,
        &failing.program,
        &failing.input,
        BOUNDS,
        &Allowed::Places(places),
        choices.as_slice(),
    )
    .expect(rt, "memory")
}

/// What the call prints on a program and an input.
fn report_of(rt: &impl Abort, alloc: Global, program: &str, input: &str) -> String {
    let mut world = world_of(rt, alloc, program, input, &[], 4096);
    assert_eq!(rt; end(alloc, WORDS, &mut world, &mut NoSink), Status::Ok);
    let report = str::from_utf8(world.printed()).expect(rt, "no text");
    String::from_str(alloc, report).expect(rt, "memory")
}

#[test]
fn printed_runs_of_places_are_good(rt: HostRuntime) {
    let alloc = rt.alloc();
    for (text, words, members, sets) in &FAILING {
        let program = program_of(alloc, text).expect(&rt, "a program");
        assert!(rt; words.len() <= 65_536);
        let input = read_input(alloc, &program, words.as_bytes()).expect(&rt, "an input");
        let failing = Failing { program, input };
        let report = report_of(&rt, alloc, text, words);
        let lines: Vec<&str> = report.as_str().lines().collect(alloc).expect(&rt, "memory");
        let (_, lines) = lines.as_slice().split_first().expect(&rt, "no line");
        // A set has a heading, its places, and the run.
        let found = lines.chunks(usize::from(*members) + 2);
        assert_eq!(rt; found.len(), *sets);
        for set in found {
            assert_eq!(rt; outcome_of(&rt, alloc, &failing, set), Outcome::Done);
        }
    }
}
