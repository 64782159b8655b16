//! Laws of the definitions, each the clause of a function that does nothing.

ghost use Rattle.std.specs.Prelude.{◌≡◌, ℕ, ◌+◌, ◌<◌, ◌≤◌, ◌∷◌, ◌++◌, Option, None, Some, List, true, All, length};
ghost use Rattle.ba_lits.specs.Literals.{Literal};
ghost use Rattle.ba_lits.specs.Satisfaction.{Assignment, any_true, Soft};
ghost use Rattle.ba_lits.specs.Formulas.{Cnf};
ghost use Rattle.ba_lits.specs.Hints.{FollowsByHints};
ghost use Rattle.ba_steps.specs.Steps.{IsFormed};
ghost use Rattle.ba_steps.specs.declared.step.CertStep.{CertStep};
ghost use Rattle.ba_steps.specs.declared.step.CertStep.TheVariants.{Learn, Core};
ghost use Rattle.ba_checker.specs.States.{State, first_state};
ghost use Rattle.ba_choices.specs.Judges.{Judge};
ghost use Rattle.ba_checker.specs.StepRules.{error_of, after, after_all};
ghost use Rattle.ba_checker.specs.Facts.{IsStart, splits_of, Holds};

/// Law: a clause that follows by hints holds wherever the live clauses do.
pub fn implied_law()
    ensures { (live : ℕ → Option (List Literal)) (v : Assignment)
        → ((number : ℕ) (c : List Literal) → live number ≡ Some c → any_true v c ≡ true)
        → (clause : List Literal) (hints : List ℕ) → FollowsByHints live clause hints
        → any_true v clause ≡ true }
{}

/// Law: the facts hold of every state that allowed steps lead to, whatever the judge says.
pub fn facts_law()
    ensures { (good : Judge) (formula : Cnf) (softs : List Soft) (conflicts sets : ℕ)
        → IsStart formula softs → (steps : List CertStep) → All IsFormed steps → (s : State)
        → after_all good (first_state formula softs conflicts sets) steps ≡ Some s
        → Holds good formula softs (splits_of (first_state formula softs conflicts sets) steps) s }
{}

/// Law: no clause of at most two literals is learnt twice, whatever allowed steps come between.
pub fn learnt_once_law()
    ensures { (good : Judge) (s t : State) (before between rest : List CertStep)
        → (lits : List Literal) (first second : List ℕ) → length lits ≤ 2
        → after_all good s (before ++ Learn lits first ∷ (between ++ Learn lits second ∷ rest))
        ≡ Some t → ⊥ }
{}

/// Law: an allowed Core step raises the lower bound of the cost by at least 1.
///
/// The soft literals need weights of at least 1, as they have after allowed steps from a start. A core
/// without literals is excluded: it only shows that no assignment satisfies the clauses, and the bound stays.
pub fn core_bound_law()
    ensures step { (good : Judge) (s : State) (lits : List Literal) (hints : List ℕ)
        → 0 < length lits → All (λ (soft : Soft). 1 ≤ soft.1) s.softs
        → error_of good s (Core lits hints) ≡ None
        → s.bound + 1 ≤ (after s (Core lits hints)).bound }
    ensures run { (good : Judge) (formula : Cnf) (softs : List Soft) (conflicts sets : ℕ)
        → IsStart formula softs → (steps : List CertStep) → All IsFormed steps → (s : State)
        → after_all good (first_state formula softs conflicts sets) steps ≡ Some s
        → (lits : List Literal) (hints : List ℕ) → 0 < length lits
        → error_of good s (Core lits hints) ≡ None
        → s.bound + 1 ≤ (after s (Core lits hints)).bound }
{}
