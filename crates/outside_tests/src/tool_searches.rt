//! Searches: what is handed to a sink, and certificates.

use crate::support::calls::{counted_world, end, world_of};
use crate::support::programs::{
    BRANCHES, BRANCHES_EDITS, BRANCHES_REPORT, ONE_ASSIGNMENT, TWICE, TWICE_REPORT,
};
use ba_answers::status::Status;
use ba_cert::{read_line, step_text};
use ba_steps::{Basis, CertStep, ListSink, NoSink};
use std::alloc::Global;
use std::panic::Expect;
use std::process::Abort;

/// The words of a call that writes a certificate.
const CERTIFIED: &[&str] = &["localise", "p.c", "in.txt", "--bound=1", "--cert=c"];

fn is_conflict(step: &CertStep) -> bool {
    matches!(step, CertStep::Learn { .. } | CertStep::Core { .. })
}

fn is_spent(step: &CertStep) -> bool {
    matches!(step, CertStep::EndSpent)
}

#[test]
fn hands_on_the_steps_that_spend_the_conflicts(rt: HostRuntime) {
    let alloc = rt.alloc();
    let mut world = world_of(&rt, alloc, BRANCHES, "1", &[], 4096);
    let mut steps = ListSink::new(alloc);
    let words = ["localise", "p.c", "in.txt", "--bound=1", "--conflicts=1"];
    let ended = end(alloc, &words, &mut world, &mut steps);
    assert_eq!(rt; ended, Status::BudgetSpent);
    assert_eq!(rt; steps.over().len(), 1);
    let conflicts = steps
        .steps()
        .iter()
        .filter(|step| is_conflict(step))
        .count();
    let ends = steps.steps().iter().filter(|step| is_spent(step)).count();
    assert_eq!(rt; conflicts, 1);
    assert_eq!(rt; ends, 1);
}

#[test]
fn hands_on_a_derivation_over_the_numbers_of_places(rt: HostRuntime) {
    let alloc = rt.alloc();
    let mut world = world_of(&rt, alloc, TWICE, "1", &[], 4096);
    let mut steps = ListSink::new(alloc);
    let words = ["localise", "p.c", "in.txt", "--bound=1", "--places"];
    assert_eq!(rt; end(alloc, &words, &mut world, &mut steps), Status::Ok);
    assert_eq!(rt; world.printed(), TWICE_REPORT.as_bytes());
    // The places of the function's statement, of the assignment and of the last `return`.
    match steps.over() {
        [basis] => assert_eq!(rt; basis.softs.len(), 4),
        _ => panic!(rt; "not one formula"),
    }
    let ends = steps
        .steps()
        .iter()
        .filter(|step| matches!(step, CertStep::EndLocated { .. }))
        .count();
    assert_eq!(rt; ends, 1);
}

#[test]
fn hands_on_a_derivation_for_each_input(rt: HostRuntime) {
    let alloc = rt.alloc();
    let mut world = world_of(
        &rt,
        alloc,
        BRANCHES,
        "1\n# the same once more\n1\n",
        &[],
        4096,
    );
    let mut steps = ListSink::new(alloc);
    let words = ["rank", "p.c", "in.txt", "--bound=1"];
    assert_eq!(rt; end(alloc, &words, &mut world, &mut steps), Status::Ok);
    let ends = steps
        .steps()
        .iter()
        .filter(|step| matches!(step, CertStep::EndLocated { .. }))
        .count();
    assert_eq!(rt; ends, 2);
    match steps.over() {
        [one, other] => assert!(rt; are_same(one, other)),
        _ => panic!(rt; "not two formulas"),
    }
    // The inputs are one, and so are the rules of both searches: they take the same steps.
    let (first, second) = steps.steps().split_at(steps.steps().len() / 2);
    assert_eq!(rt; first.len(), second.len());
    for (one, other) in first.iter().zip(second) {
        assert_eq!(rt;
            line_of(&rt, alloc, one).as_slice(),
            line_of(&rt, alloc, other).as_slice()
        );
    }
}

/// Asserts that one derivation was handed on, which lists the least sets.
fn assert_one_derivation(rt: &impl Abort, steps: &ListSink) {
    assert_eq!(rt; steps.over().len(), 1);
    let ends = steps
        .steps()
        .iter()
        .filter(|step| matches!(step, CertStep::EndLocated { .. }))
        .count();
    assert_eq!(rt; ends, 1);
}

#[test]
fn hands_on_one_derivation_for_a_repair(rt: HostRuntime) {
    let alloc = rt.alloc();
    let mut world = counted_world(&rt, alloc, b"", &[]);
    let mut steps = ListSink::new(alloc);
    let words = ["repair", "p.c", "failing.txt", "passing.txt", "--bound=1"];
    assert_eq!(rt; end(alloc, &words, &mut world, &mut steps), Status::Ok);
    assert_eq!(rt; world.inside.printed(), BRANCHES_EDITS.as_bytes());
    assert_one_derivation(&rt, &steps);
}

#[test]
fn hands_on_one_derivation_for_all_inputs(rt: HostRuntime) {
    let alloc = rt.alloc();
    let mut world = world_of(&rt, alloc, BRANCHES, "1\n1\n", &[], 4096);
    let mut steps = ListSink::new(alloc);
    let words = ["localise", "p.c", "in.txt", "--bound=1", "--all"];
    assert_eq!(rt; end(alloc, &words, &mut world, &mut steps), Status::Ok);
    assert_one_derivation(&rt, &steps);
}

/// A report without its first line.
fn lines_behind_the_first(report: &[u8]) -> &[u8] {
    match report.iter().position(|byte| *byte == b'\n') {
        Some(place) => report.get(place..).unwrap_or(report),
        None => report,
    }
}

#[test]
fn one_input_has_the_sets_that_it_has_alone(rt: HostRuntime) {
    let alloc = rt.alloc();
    let mut alone = world_of(&rt, alloc, BRANCHES, "1", &[], 4096);
    let words = ["localise", "p.c", "in.txt", "--bound=1"];
    assert_eq!(rt; end(alloc, &words, &mut alone, &mut NoSink), Status::Ok);
    let mut all = world_of(&rt, alloc, BRANCHES, "1\n", &[], 4096);
    let words = ["localise", "p.c", "in.txt", "--bound=1", "--all"];
    assert_eq!(rt; end(alloc, &words, &mut all, &mut NoSink), Status::Ok);
    assert!(rt;
        all.printed()
            .starts_with(b"located: inputs 1, weight 1, sets 3\n")
    );
    assert_eq!(rt;
        lines_behind_the_first(all.printed()),
        lines_behind_the_first(alone.printed())
    );
}

/// The line of a step in a certificate.
fn line_of(rt: &impl Abort, alloc: Global, step: &CertStep) -> Vec<u8> {
    step_text(alloc, step).expect(rt, "memory")
}

/// Whether formulas and soft literals are the same.
fn are_same(one: &Basis, other: &Basis) -> bool {
    let clauses = one.formula.len();
    if one.softs.as_slice() != other.softs.as_slice()
        || one.formula.variables() != other.formula.variables()
        || clauses != other.formula.len()
    {
        return false;
    }
    for place in 0..clauses {
        if one.formula.clause(place + 1) != other.formula.clause(place + 1) {
            return false;
        }
    }
    true
}

#[test]
fn hands_on_the_formula_of_the_search(rt: HostRuntime) {
    let alloc = rt.alloc();
    let mut world = world_of(&rt, alloc, BRANCHES, "1", &[], 4096);
    let words = ["localise", "p.c", "in.txt", "--bound=1", "--cert=c"];
    let mut searched = ListSink::new(alloc);
    assert_eq!(rt; end(alloc, &words, &mut world, &mut searched), Status::Ok);
    let words = ["check", "p.c", "in.txt", "c", "--bound=1"];
    let mut checked = ListSink::new(alloc);
    assert_eq!(rt; end(alloc, &words, &mut world, &mut checked), Status::Ok);
    assert!(rt; checked.steps().is_empty());
    match (searched.over(), checked.over()) {
        ([one], [other]) => assert!(rt; are_same(one, other)),
        _ => panic!(rt; "not one formula each"),
    }
}

#[test]
fn writes_the_certificate_before_the_report(rt: HostRuntime) {
    let alloc = rt.alloc();
    let mut world = world_of(&rt, alloc, BRANCHES, "1", &[], 4096);
    let mut steps = ListSink::new(alloc);
    let ended = end(alloc, CERTIFIED, &mut world, &mut steps);
    assert_eq!(rt; ended, Status::Ok);
    assert_eq!(rt; world.printed(), BRANCHES_REPORT.as_bytes());
    let mut lines = world
        .file("c")
        .expect(&rt, "no certificate")
        .split(|byte| *byte == b'\n');
    assert_eq!(rt;
        lines.next().expect(&rt, "no line"),
        b"bugassist 2".as_slice()
    );
    assert_eq!(rt;
        lines.next().expect(&rt, "no settings"),
        b"b 1 16 200000 1000".as_slice()
    );
    // Each step that was handed on has a line, which is read as it is written, and nothing is after the last.
    for _ in steps.steps() {
        let line = lines.next().expect(&rt, "a line lacks");
        let step = read_line(alloc, line).expect(&rt, "memory");
        assert!(rt;
            step_text(alloc, &step)
                .expect(&rt, "memory")
                .as_slice()
                .starts_with(line)
        );
    }
    assert_eq!(rt; lines.next().expect(&rt, "no end"), b"".as_slice());
    assert!(rt; lines.next().is_none());
}

/// Asserts that a call that ends before its search begins no certificate.
fn assert_not_begun(rt: &impl Abort, alloc: Global, program: &str, input: &str, status: Status) {
    let mut world = world_of(rt, alloc, program, input, &[], 4096);
    let ended = end(alloc, CERTIFIED, &mut world, &mut NoSink);
    assert_eq!(rt; ended, status);
    assert!(rt; world.file("c").is_none());
}

#[test]
fn begins_no_certificate_without_a_search(rt: HostRuntime) {
    let alloc = rt.alloc();
    assert_not_begun(&rt, alloc, BRANCHES, "0", Status::NotFailing);
    assert_not_begun(&rt, alloc, BRANCHES, "x", Status::BadInput);
    assert_not_begun(&rt, alloc, "int", "1", Status::BadProgram);
}
