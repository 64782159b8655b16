//! Laws of the semantics, each the clause of a function that does nothing. They tell a reader that the
//! definitions of runs and of sets of statements mean what they should.
#![tactic(auto)]

ghost use Rattle.std.specs.Prelude.{◌≢◌, ℕ, List, Contains};
ghost use Rattle.ba_choices.specs.declared.Choice.{Choice};
ghost use Rattle.ba_laws.specs.Names.{NamesStatement};
ghost use Rattle.ba_laws.specs.Visits.{HasVisits};
ghost use Rattle.ba_tree.specs.Least.{IsFeasible, judge_of};
ghost use Rattle.ba_tree.specs.Run.{plain_run, run_of};
ghost use Rattle.ba_tree.specs.declared.run.Allowed.{Allowed};
ghost use Rattle.ba_tree.specs.declared.run.Bounds.{Bounds};
ghost use Rattle.ba_tree.specs.declared.run.Input.{Input};
ghost use Rattle.ba_tree.specs.declared.run.Outcome.TheVariants.{WrongChoices};
ghost use Rattle.ba_tree.specs.declared.tree.Program.{Program};

/// Law: statements that could repair a run still could with more statements beside them. A statement that
/// needs no change may run as written.
pub fn more_statements_stay_feasible()
    ensures { (p : Program) (i : Input) (b : Bounds) (set other : List ℕ)
        → ((n : ℕ) → Contains set n → Contains other n)
        → IsFeasible (judge_of p i b) set → IsFeasible (judge_of p i b) other }
{}

/// Law: choices of `Keep` can be left out and put in. A run whose choices aren't wrong comes to executions of
/// statements, each with a choice. Other statements may be relaxed, with the same outcome, as long as `Keep`
/// is the choice at all other executions.
pub fn keep_choices_can_be_left_out()
    ensures { (p : Program) (i : Input) (b : Bounds) (allowed : Allowed) (choices : List Choice)
        → run_of p i b allowed choices ≢ WrongChoices → HasVisits p i b allowed choices }
{}

/// Law: a run as written makes no choices, so it never ends by wrong ones.
pub fn plain_runs_make_no_choices()
    ensures { (p : Program) (i : Input) (b : Bounds) → plain_run p i b ≢ WrongChoices }
{}

/// Law: the statement that an outcome names is one of the program, whatever may be relaxed and whatever the
/// choices are.
pub fn outcomes_name_statements()
    ensures { (p : Program) (i : Input) (b : Bounds) (allowed : Allowed) (choices : List Choice)
        → NamesStatement p (run_of p i b allowed choices) }
{}
