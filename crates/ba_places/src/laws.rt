//! Laws of sets of places. Each is a function whose clause is the law, and which does nothing.

ghost use Rattle.std.specs.Prelude.{◌≡◌, ℕ, List, map};
ghost use Rattle.ba_derivations.specs.Derivations.{AreTooMany};
ghost use Rattle.ba_places.specs.Least.{AreLeastPlaces, AreTooManyPlaces, JudgeOfPlaces};
ghost use Rattle.ba_places.specs.Numbers.{AreSuspects, judge_by, places_at, unit_weights_of};
ghost use Rattle.ba_tree.specs.Least.{AreLeast, WeightList};
ghost use Rattle.ba_tree.specs.declared.run.Place.{Place};

/// The list of the least sets of places is one: no other list has the same sets, each once and in their
/// order.
pub fn least_places_are_unique()
    ensures { (weights : WeightList) (good : JudgeOfPlaces) (sets others : List (List Place))
        → AreLeastPlaces weights good sets → AreLeastPlaces weights good others → sets ≡ others }
{}

/// If a list of places is enough, the least sets of their numbers are the least sets of places, in order. The
/// same holds of more least sets than may be listed. For a least set lies within the list.
pub fn least_by_number()
    ensures all { (weights : WeightList) (good : JudgeOfPlaces) (places : List Place)
        (sets : List (List ℕ)) → AreSuspects weights good places
        → AreLeast (unit_weights_of places) (judge_by good places) sets
        → AreLeastPlaces weights good (map (places_at places) sets) }
    ensures too_many { (weights : WeightList) (good : JudgeOfPlaces) (places : List Place)
        (members most : ℕ) (sets : List (List ℕ)) → AreSuspects weights good places
        → AreTooMany (unit_weights_of places) (judge_by good places) members most sets
        → AreTooManyPlaces weights good members most (map (places_at places) sets) }
{}
