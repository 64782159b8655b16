//! Tests of sinks, of a checker with a sink, and of the judge that holds a list.

ghost use Rattle.std.specs.Prelude.{◌≡◌, [], None};
ghost use Rattle.ba_checker.specs.States.{first_state};
ghost use Rattle.ba_steps.specs.Sinks.{untold};

use ba_checker::{Checked, Checker};
use ba_choices::{Choice, Values};
use ba_items::Items;
use ba_lits::{Formula, Lit};
use ba_steps::{
    Both, CertStep, GoodRun, ListJudge, ListSink, NoSink, RunJudge, SinkError, StepSink,
};
use std::alloc::Global;
use std::panic::Expect;
use std::process::Abort;
use test_formulas::{NoRuns, without_clauses};

/// A sink that takes so many steps and then fails.
#[derive(Drop)]
struct Failing {
    begun: u64,
    left: u64,
    failed: u64,
}

impl StepSink for Failing {
    ghost told = { λ s. record untold { faults = s.failed } };

    fn begin(&mut self, _formula: &Formula, _softs: &[(Lit, u32)]) -> Result<(), SinkError> {
        self.begun = self.begun.saturating_add(1);
        Ok(())
    }

    fn take(&mut self, _step: &CertStep) -> Result<(), SinkError> {
        if self.left == 0 {
            self.failed = self.failed.saturating_add(1);
            return Err(SinkError::Failed);
        }
        self.left -= 1;
        Ok(())
    }
}

/// A sink that takes so many steps.
fn fails_after(left: u64) -> Failing {
    Failing {
        begun: 0,
        left,
        failed: 0,
    }
}

/// Checks how many formulas and steps a sink has.
fn has(rt: &impl Abort, sink: &ListSink, formulas: usize, steps: usize) {
    assert_eq!(rt; sink.over().len(), formulas);
    assert_eq!(rt; sink.steps().len(), steps);
    for step in sink.steps() {
        assert!(rt; matches!(step, CertStep::EndSpent));
    }
}

/// Hands a formula and a step to a sink.
fn feed<S: StepSink>(sink: &mut S, formula: &Formula) -> Result<(), SinkError> {
    sink.begin(formula, &[])?;
    sink.take(&CertStep::EndSpent)
}

#[test]
fn both_sinks_take_what_the_first_takes(rt: HostRuntime) {
    let formula = without_clauses(rt.alloc(), 1).expect(&rt, "memory");
    let mut second = ListSink::new(rt.alloc());
    let mut both = Both {
        first: fails_after(1),
        second: &mut second,
    };
    assert_eq!(rt; feed(&mut both, &formula), Ok(()));
    assert_eq!(rt; feed(&mut both, &formula), Err(SinkError::Failed));
    assert_eq!(rt; (both.first.begun, both.first.failed), (2, 1));
    has(&rt, &second, 2, 1);
    assert_eq!(rt; feed(&mut NoSink, &formula), Ok(()));
}

/// A checker over no variables whose conflicts are spent.
fn spent(rt: &impl Abort, alloc: Global) -> Checker
    ensures { result ≡ first_state (record { variables = 0; clauses = [] }) [] 0 1 }
{
    Checker::new(alloc, &Formula::new(alloc), &[], 0, 1).expect(rt, "memory")
}

#[test]
fn an_allowed_step_is_handed_on(rt: HostRuntime) {
    let mut checked = Checked::new(spent(&rt, rt.alloc()), NoRuns, ListSink::new(rt.alloc()));
    checked.put(&CertStep::EndSpent).expect(&rt, "memory");
    let (_, sink) = checked.finish();
    has(&rt, &sink, 0, 1);
}

#[test]
fn a_refusal_is_answered(rt: HostRuntime) {
    let mut checked = Checked::new(spent(&rt, rt.alloc()), NoRuns, fails_after(0));
    assert_eq!(rt; checked.put(&CertStep::EndSpent), Err(SinkError::Failed));
}

/// A run of values: 100 stands for a choice that keeps the statement.
fn run_of(rt: &impl Abort, alloc: Global, values: &[i64]) -> Items<Choice> {
    let mut run = Items::new(alloc);
    for value in values {
        if *value == 100 {
            run.push(Choice::Keep).expect(rt, "memory");
        } else {
            let mut taken = Values::new(alloc);
            taken.push(*value).expect(rt, "memory");
            run.push(Choice::Take(taken)).expect(rt, "memory");
        }
    }
    run
}

/// Groups with runs, and whether these are good.
static RUNS: [(&[u32], &[i64], bool); 8] = [
    (&[2, 3], &[100, -7], true),
    (&[], &[], true),
    (&[2], &[100, -7], false),
    (&[2, 4], &[100, -7], false),
    (&[2, 3], &[100, 7], false),
    (&[2, 3], &[100], false),
    (&[2, 3], &[100, -7, 100], false),
    (&[2, 3], &[0, -7], false),
];

#[test]
fn exactly_the_listed_runs_are_good(rt: HostRuntime) {
    let alloc = rt.alloc();
    let mut judge = ListJudge::new(alloc);
    judge
        .add(GoodRun {
            groups: Items::from_slice(alloc, &[2, 3]).expect(&rt, "memory"),
            run: run_of(&rt, alloc, &[100, -7]),
        })
        .expect(&rt, "memory");
    judge
        .add(GoodRun {
            groups: Items::new(alloc),
            run: run_of(&rt, alloc, &[]),
        })
        .expect(&rt, "memory");
    for row in &RUNS {
        let (groups, run, good) = *row;
        assert_eq!(rt;
            judge
                .good(groups, run_of(&rt, alloc, run).as_slice())
                .expect(&rt, "memory"),
            good
        );
    }
}
