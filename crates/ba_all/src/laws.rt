//! Laws of runs on several inputs. Each is a function whose clause is the law, and which does nothing.

ghost use Rattle.std.specs.Prelude.{◌≡◌, ◌≢◌, ◌↔◌, ◌++◌, ℕ, true, List, [], ◌∷◌, Contains};
ghost use Rattle.ba_all.specs.AllRuns.{judge_of_all, tests_of};
ghost use Rattle.ba_all.specs.Cuts.{IsCut, RunTest, all_good};
ghost use Rattle.ba_choices.specs.declared.Choice.{Choice};
ghost use Rattle.ba_interp.specs.Prefixes.{choices_left, prefix_outcome};
ghost use Rattle.ba_tree.specs.Least.{AreLeast, IsFeasible, WeightList, judge_of};
ghost use Rattle.ba_tree.specs.Run.{run_of};
ghost use Rattle.ba_tree.specs.declared.run.Allowed.{Allowed};
ghost use Rattle.ba_tree.specs.declared.run.Bounds.{Bounds};
ghost use Rattle.ba_tree.specs.declared.run.Input.{Input};
ghost use Rattle.ba_tree.specs.declared.run.Outcome.TheVariants.{WrongChoices};
ghost use Rattle.ba_tree.specs.declared.tree.Program.{Program};

/// Law: a run that doesn't end by wrong choices uses up the first of its choices. With these alone it has the
/// same outcome. With others behind them it has the same outcome too, and leaves the others.
pub fn runs_leave_what_is_behind()
    ensures alone { (p : Program) (i : Input) (b : Bounds) (allowed : Allowed) (choices : List Choice)
        → prefix_outcome p i b allowed choices ≢ WrongChoices
        → (used : List Choice) × (choices ≡ used ++ choices_left p i b allowed choices)
        × (run_of p i b allowed used ≡ prefix_outcome p i b allowed choices) }
    ensures outcome { (p : Program) (i : Input) (b : Bounds) (allowed : Allowed)
        (choices others : List Choice) → run_of p i b allowed choices ≢ WrongChoices
        → prefix_outcome p i b allowed (choices ++ others) ≡ run_of p i b allowed choices }
    ensures left { (p : Program) (i : Input) (b : Bounds) (allowed : Allowed)
        (choices others : List Choice) → run_of p i b allowed choices ≢ WrongChoices
        → choices_left p i b allowed (choices ++ others) ≡ others }
{}

/// Law: choices are good for all runs exactly if they can be cut into one part for each, in order, that is
/// good for it.
pub fn good_choices_are_cut()
    ensures { (tests : List RunTest) (choices : List Choice)
        → (all_good tests choices ≡ true) ↔ ((runs : List (List Choice)) × IsCut tests choices runs) }
{}

/// Law: the choices of the runs of a program can be cut so in one way at most.
pub fn cuts_are_one()
    ensures { (p : Program) (inputs : List Input) (b : Bounds) (set : List ℕ) (choices : List Choice)
        (runs others : List (List Choice)) → IsCut (tests_of p inputs b set) choices runs
        → IsCut (tests_of p inputs b set) choices others → runs ≡ others }
{}

/// Law: on one input the judge is that of this input.
pub fn one_input_is_judged_alone()
    ensures { (p : Program) (input : Input) (b : Bounds)
        → judge_of_all p (input ∷ []) b ≡ judge_of p input b }
{}

/// Law: with one input the least sets for all inputs are those of this input.
pub fn one_input_has_its_own_sets()
    ensures { (weights : WeightList) (p : Program) (input : Input) (b : Bounds)
        (sets others : List (List ℕ)) → AreLeast weights (judge_of_all p (input ∷ []) b) sets
        → AreLeast weights (judge_of p input b) others → sets ≡ others }
{}

/// Law: a set could repair all runs exactly if it could repair each of them. So with more statements it still
/// could.
pub fn feasible_for_all_is_for_each()
    ensures each { (p : Program) (inputs : List Input) (b : Bounds) (set : List ℕ)
        → IsFeasible (judge_of_all p inputs b) set
        ↔ ((input : Input) → Contains inputs input → IsFeasible (judge_of p input b) set) }
    ensures more { (p : Program) (inputs : List Input) (b : Bounds) (set other : List ℕ)
        → ((n : ℕ) → Contains set n → Contains other n)
        → IsFeasible (judge_of_all p inputs b) set → IsFeasible (judge_of_all p inputs b) other }
{}
