//! Which runs of a program are good if some of its statements are relaxed, worked out by hand.

use crate::support::problems::{array_example, settings};
use ba_judge::ProgramJudge;
use ba_steps::RunJudge;
use std::panic::Expect;
use test_programs::choices_of;

/// Runs of the array example on the input 1: the relaxed statements, the choices at their executions, and
/// whether the run is good.
static RUNS: [(&[u32], &str, bool); 6] = [
    (&[1], "t 1", true),
    (&[1], "t 0", false),
    (&[3], "t 2", true),
    (&[3], "t 3", false),
    (&[2], "", false),
    (&[1, 3], "t 1 t 2", false),
];

#[test]
fn a_run_is_good_where_the_program_is_done(rt: HostRuntime) {
    let alloc = rt.alloc();
    let problem = array_example(&rt, alloc, &[]);
    let bounds = settings(1, 1).bounds;
    let judge = ProgramJudge::new(alloc, &problem.program, &problem.input, bounds);
    for (groups, words, good) in &RUNS {
        let choices = choices_of(alloc, words).expect(&rt, "choices");
        assert_eq!(rt;
            judge.good(groups, choices.as_slice()).expect(&rt, "memory"),
            *good
        );
    }
}
