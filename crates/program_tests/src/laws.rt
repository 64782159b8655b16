//! That the laws can be called.

use ba_all::laws::{
    cuts_are_one, feasible_for_all_is_for_each, good_choices_are_cut, one_input_has_its_own_sets,
    one_input_is_judged_alone, runs_leave_what_is_behind,
};
use ba_code_laws::places_change_no_run;
use ba_code_visits::keep_choices_can_be_left_out_of_code;
use ba_laws::{
    keep_choices_can_be_left_out, more_statements_stay_feasible, outcomes_name_statements,
    plain_runs_make_no_choices,
};
use ba_parse::laws::{one_tree, one_verdict};
use ba_rank::laws::ranking_is_unique;
use ba_repair::laws::{
    edits_change_no_units, edits_have_one_program, good_edits_are_unique, listed_edits_are_own,
};
use ba_samples::{sample_is_repaired_by_one_statement, sample_text_is_read};
use ba_tree::laws::least_list_is_unique;
use ba_tree_laws::{one_meaning, same_meaning};
use ba_typing_facts::typed_programs_are_sound;
use ba_wordlist::laws::{assignments_are_joined, joined_lists_mean_both};

#[test]
fn laws_return(_rt: HostRuntime) {
    one_tree();
    one_verdict();
    typed_programs_are_sound();
    least_list_is_unique();
    same_meaning();
    one_meaning();
    more_statements_stay_feasible();
    keep_choices_can_be_left_out();
    plain_runs_make_no_choices();
    outcomes_name_statements();
    places_change_no_run();
    keep_choices_can_be_left_out_of_code();
    joined_lists_mean_both();
    assignments_are_joined();
    runs_leave_what_is_behind();
    good_choices_are_cut();
    cuts_are_one();
    one_input_is_judged_alone();
    one_input_has_its_own_sets();
    feasible_for_all_is_for_each();
    ranking_is_unique();
    edits_have_one_program();
    good_edits_are_unique();
    edits_change_no_units();
    listed_edits_are_own();
    sample_text_is_read();
    sample_is_repaired_by_one_statement();
}
