//! A law of the steps that a search puts, the clause of a function that does nothing.

ghost use Rattle.std.specs.Prelude.{ℕ, ◌≤◌, List, ◌∷◌, ◌++◌, length};
ghost use Rattle.ba_lits.specs.Literals.{Literal};
ghost use Rattle.ba_steps.specs.declared.step.CertStep.{CertStep};
ghost use Rattle.ba_steps.specs.declared.step.CertStep.TheVariants.{Learn};
ghost use Rattle.ba_checker.specs.States.{State};
ghost use Rattle.ba_choices.specs.Judges.{Judge};
ghost use Rattle.ba_search.specs.Searching.{Searches};

use crate::rules::SearchRules;

/// Law: no clause of at most two literals is learnt twice, whatever the keep rule.
pub fn learnt_once_law<R: SearchRules>(rules: &R)
    ensures { (good : Judge) (s t : State) (learnt all : List ℕ)
        (before between after : List CertStep)
        → (lits : List Literal) (first second : List ℕ) → length lits ≤ 2
        → Searches good (R.keeping rules.now) s learnt
        (before ++ Learn lits first ∷ (between ++ Learn lits second ∷ after)) t all → ⊥ }
{
    let _ = rules;
}
