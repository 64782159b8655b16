//! A law of code, with loops and without: choices of `Keep` can be left out, as in runs of programs.
#![tactic(auto)]

ghost use Rattle.std.specs.Prelude.{◌≢◌, ℕ, List};
ghost use Rattle.ba_choices.specs.declared.Choice.{Choice};
ghost use Rattle.ba_code.specs.Run.{outcome_of_code};
ghost use Rattle.ba_code.specs.declared.trees.Code.{Code};
ghost use Rattle.ba_code_laws.specs.Tracing.{Relaxes};
ghost use Rattle.ba_code_visits.specs.Visits.{HasVisits};
ghost use Rattle.ba_tree.specs.declared.run.Input.{Input};
ghost use Rattle.ba_tree.specs.declared.run.Outcome.TheVariants.{WrongChoices};

/// Law: choices of `Keep` can be left out and put in, in code with loops and without.
///
/// A run whose choices aren't wrong comes to places, each with a choice. Other executions may be relaxed,
/// with the same outcome, as long as `Keep` is the choice at all other places. In loop-free code an
/// instrumented run notes these places.
pub fn keep_choices_can_be_left_out_of_code()
    ensures { (code : Code) (i : Input) (bound : ℕ) (relaxes : Relaxes) (choices : List Choice)
        → outcome_of_code code i bound relaxes choices ≢ WrongChoices
        → HasVisits code i bound relaxes choices }
{}
