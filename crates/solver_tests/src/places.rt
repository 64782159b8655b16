//! The formula of a program where single executions are relaxed, and which runs are good then, worked out by
//! hand.

use crate::formula::has_repair;
use ba_formula::{PlaceFormula, place_formula_of};
use ba_inputs::{read_input, read_weights};
use ba_numbers::ids::StmtId;
use ba_places::{PlaceJudge, place_at};
use ba_steps::RunJudge;
use ba_tree::run::{Bounds, Input, Place, Step};
use ba_tree::tree::Program;
use std::alloc::Global;
use std::panic::Expect;
use std::process::Abort;
use test_programs::examples::SUM;
use test_programs::{choices_of, program_of};

const BOUNDS: Bounds = Bounds {
    turns: 3,
    frames: 16,
};

/// Everything but the body of its loop.
const FIXED: &str = "3 fixed\n4 fixed\n7 fixed";

/// The condition of its loop, and the assignment in its body.
const CONDITION: StmtId = StmtId(3);

const BODY: StmtId = StmtId(5);

/// A program, a failing input, and its formula by places.
#[derive(Drop)]
struct Failing {
    program: Program,
    input: Input,
    formula: PlaceFormula,
}

/// The sum of the numbers up to 2, which should be 6: the loop's body is executed twice, and may be three
/// times.
fn sum(rt: &impl Abort, alloc: Global) -> Failing {
    let program = program_of(alloc, SUM).expect(rt, "a program");
    let input = read_input(alloc, &program, b"3").expect(rt, "an input");
    let weights = read_weights(alloc, &program, FIXED.as_bytes()).expect(rt, "weights");
    let formula = place_formula_of(alloc, &program, &input, BOUNDS, &weights).expect(rt, "memory");
    Failing {
        program,
        input,
        formula,
    }
}

/// Whether a place is an execution of the loop's body in this iteration.
fn is_body_in(place: &Place, iteration: u32) -> bool {
    place.stmt == BODY && place.path.as_slice() == [Step::Turn(CONDITION, iteration)].as_slice()
}

#[test]
fn each_iteration_is_a_place(rt: HostRuntime) {
    let failing = sum(&rt, rt.alloc());
    let places = failing.formula.places.as_slice();
    assert_eq!(rt; places.len(), 3);
    for number in 1..4 {
        let place = place_at(places, number).expect(&rt, "a place");
        assert!(rt; is_body_in(place, number), "place {number}");
    }
    assert!(rt; place_at(places, 0).is_none() && place_at(places, 4).is_none());
}

/// The sets of numbers of places, and whether they could repair the run. The third iteration isn't come to.
static SETS: [(&[u32], bool); 6] = [
    (&[], false),
    (&[1], true),
    (&[2], true),
    (&[3], false),
    (&[1, 2], true),
    (&[2, 3], true),
];

#[test]
fn exactly_the_sets_of_places_that_could_repair_have_models(rt: HostRuntime) {
    let alloc = rt.alloc();
    let failing = sum(&rt, alloc);
    for (set, repairs) in &SETS {
        let found = has_repair(&rt, alloc, &failing.formula.encoded, set);
        assert_eq!(rt; found, *repairs, "set {set:?}");
    }
}

/// Numbers of places that are relaxed, the choices at them, and whether the run is good. There is no place 4.
static RUNS: [(&[u32], &str, bool); 9] = [
    (&[1], "t 4", true),
    (&[1], "t 3", false),
    (&[2], "t 6", true),
    (&[3], "", false),
    (&[3], "t 6", false),
    (&[4], "", false),
    (&[2, 4], "t 6", true),
    (&[1, 2], "t 0 t 6", true),
    (&[1, 2], "t 6 t 0", false),
];

#[test]
fn a_run_is_good_where_these_executions_repair_it(rt: HostRuntime) {
    let alloc = rt.alloc();
    let failing = sum(&rt, alloc);
    let places = failing.formula.places.as_slice();
    let judge = PlaceJudge::new(alloc, &failing.program, &failing.input, BOUNDS, places);
    for (numbers, words, good) in &RUNS {
        let choices = choices_of(alloc, words).expect(&rt, "choices");
        let judged = judge
            .good(numbers, choices.as_slice())
            .expect(&rt, "memory");
        assert_eq!(rt; judged, *good, "places {numbers:?}");
    }
}
