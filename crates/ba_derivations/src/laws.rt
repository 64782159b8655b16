//! Laws of derivations, each the clause of a function that does nothing.

ghost use Rattle.std.specs.Prelude.{◌≡◌, ℕ, List, [], All, Contains, ◌↔◌};
ghost use Rattle.ba_derivations.specs.Derivations.{AreAllLeast, AreTooMany, Derives, DerivesOver};
ghost use Rattle.ba_derivations.specs.Derivations.{AreTooManyModelSets, IsLeastModelSet};
ghost use Rattle.ba_derivations.specs.Derivations.{HaveSameSets, IsGood, Problem, Verdict};
ghost use Rattle.ba_derivations.specs.Derivations.{Located, NoRepair, Spent, TooMany};
ghost use Rattle.ba_derivations.specs.Derivations.{blocked_by, conflicts_in, sets_of};
ghost use Rattle.ba_derivations.specs.Encodings.{HasModelFor};
ghost use Rattle.ba_steps.specs.declared.step.CertStep.{CertStep};
ghost use Rattle.ba_checker.specs.Facts.{IsStart};
ghost use Rattle.ba_tree.specs.Least.{AreInOrder, AreLeast, WeightList};
ghost use Rattle.ba_choices.specs.Judges.{Judge};

/// Law: over a faithful encoding, the sets of a derived verdict `Located` are exactly the least sets, all of
/// the verdict's weight.
pub fn located_law()
    ensures { (weights : WeightList) (p : Problem) (steps : List CertStep)
        (weight : ℕ) (found : List (List ℕ))
        → DerivesOver weights p steps (Located weight found)
        → AreAllLeast weights p.good weight found }
{}

/// Law: all least sets, put in order, are the list of them.
pub fn order_law()
    ensures { (weights : WeightList) (good : Judge) (weight : ℕ) (found sets : List (List ℕ))
        → AreAllLeast weights good weight found → HaveSameSets sets found → AreInOrder sets
        → AreLeast weights good sets }
{}

/// Law: if `NoRepair` is derived over a faithful encoding, no set is feasible, and so none is least.
pub fn no_repair_law()
    ensures { (weights : WeightList) (p : Problem) (steps : List CertStep)
        → DerivesOver weights p steps NoRepair → AreLeast weights p.good [] }
{}

/// Law: over a faithful encoding, the sets of a derived verdict `TooMany` are least sets that differ, one
/// more than may be listed.
pub fn too_many_law()
    ensures { (weights : WeightList) (p : Problem) (steps : List CertStep)
        (weight : ℕ) (found : List (List ℕ))
        → DerivesOver weights p steps (TooMany weight found)
        → AreTooMany weights p.good weight p.most_sets found }
{}

/// Law, without any premise on the judge, if each set that is found is that of a model. The sets of `Located`
/// are exactly those of models of least weight. Those of `TooMany` are such, differ, and are one more than
/// may be listed.
pub fn models_law()
    ensures located { (p : Problem) (steps : List CertStep) (weight : ℕ) (found : List (List ℕ))
        → IsStart p.formula p.softs → All (HasModelFor p.formula p.softs) found
        → Derives p steps (Located weight found)
        → (set : List ℕ) → Contains found set ↔ IsLeastModelSet p.formula p.softs weight set }
    ensures too_many { (p : Problem) (steps : List CertStep) (weight : ℕ) (found : List (List ℕ))
        → IsStart p.formula p.softs → All (HasModelFor p.formula p.softs) found
        → Derives p steps (TooMany weight found)
        → AreTooManyModelSets p.formula p.softs weight p.most_sets found }
{}

/// Law: the sets of a verdict are those that the steps block, in their order.
pub fn blocked_law()
    ensures located { (p : Problem) (steps : List CertStep) (weight : ℕ) (found : List (List ℕ))
        → Derives p steps (Located weight found) → found ≡ sets_of (blocked_by steps) }
    ensures too_many { (p : Problem) (steps : List CertStep) (weight : ℕ) (found : List (List ℕ))
        → Derives p steps (TooMany weight found) → found ≡ sets_of (blocked_by steps) }
{}

/// Law: each set is blocked with a run that is good for it.
pub fn good_runs_law()
    ensures { (p : Problem) (steps : List CertStep) (verdict : Verdict)
        → Derives p steps verdict → All (IsGood p.good) (blocked_by steps) }
{}

/// Law: if `Spent` is derived, the steps hold exactly the stated number of conflicts.
pub fn spent_law()
    ensures { (p : Problem) (steps : List CertStep)
        → Derives p steps Spent → conflicts_in steps ≡ p.conflicts }
{}
