//! That the laws of answers can be called.

use ba_cases::laws::{one_answer_of_inputs, one_case_answer, undecided_runs_fail};
use ba_places::laws::{least_by_number, least_places_are_unique};
use mode_all::laws::one_answer_of_all;
use mode_localise::laws::{answer_of_sample, one_answer};
use mode_places::laws::one_place_answer;
use mode_rank::laws::one_ranking;
use mode_repair::laws::one_repair_answer;
use mode_run::laws::one_run_answer;

#[test]
fn laws_return(_rt: HostRuntime) {
    one_case_answer();
    one_answer_of_inputs();
    undecided_runs_fail();
    one_run_answer();
    one_answer();
    answer_of_sample();
    least_places_are_unique();
    least_by_number();
    one_place_answer();
    one_answer_of_all();
    one_ranking();
    one_repair_answer();
}
