//! Which choices make good runs on several inputs if some statements are relaxed, worked out by hand.

use crate::support::problems::{array_example, input_of, settings};
use ba_all::JudgeOfAll;
use ba_steps::RunJudge;
use std::panic::Expect;
use test_programs::choices_of;

/// Choices of the array example: the inputs, the relaxed statements, the choices, and whether they are good.
/// On 1 the condition has to be 0 in place of 1, and on 0 any of its values will do.
static CHOICES: [(&[i64], &[u32], &str, bool); 9] = [
    // The runs in the order of the inputs, and in the other one.
    (&[1, 0], &[1], "t 1 t 0", true),
    (&[1, 0], &[1], "t 0 t 1", false),
    // A run is left out, or there is a choice more.
    (&[1, 0], &[1], "t 1", false),
    (&[1, 0], &[1], "", false),
    (&[1, 0], &[1], "t 1 t 0 t 0", false),
    // Each run begins with choices of its own.
    (&[1, 1], &[1], "t 1 t 1", true),
    (&[1, 1], &[1], "t 1", false),
    // Runs that pass have an empty part, before the other one and behind it.
    (&[0, 1, 0], &[3], "t 2", true),
    (&[0, 1, 0], &[3], "t 3", false),
];

#[test]
fn choices_are_good_where_each_run_is_done_with_its_part(rt: HostRuntime) {
    let alloc = rt.alloc();
    let problem = array_example(&rt, alloc, &[]);
    let bounds = settings(1, 1).bounds;
    for (numbers, groups, words, good) in &CHOICES {
        let mut inputs = Vec::new(alloc);
        for number in *numbers {
            inputs
                .push(input_of(&rt, alloc, *number))
                .expect(&rt, "memory");
        }
        let judge = JudgeOfAll::new(alloc, &problem.program, inputs.as_slice(), bounds);
        let choices = choices_of(alloc, words).expect(&rt, "choices");
        assert_eq!(rt;
            judge.good(groups, choices.as_slice()).expect(&rt, "memory"),
            *good
        );
    }
}
