//! Laws of the definitions. Each is a function whose clause is the law, and which does nothing.

ghost use Rattle.std.specs.Prelude.{◌≡◌, ℕ, List};
ghost use Rattle.ba_tree.specs.Least.{AreLeast, WeightList};
ghost use Rattle.ba_choices.specs.Judges.{Judge};

/// Law: the list of the least sets is unique. No other list holds the same sets, each once and in order.
pub fn least_list_is_unique()
    ensures { (weights : WeightList) (good : Judge) (sets others : List (List ℕ)) →
        AreLeast weights good sets → AreLeast weights good others → sets ≡ others }
{}
