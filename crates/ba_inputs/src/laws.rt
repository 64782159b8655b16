//! Laws of weights. Each is a function whose clause is the law, and which does nothing.

ghost use Rattle.std.specs.Prelude.{◌≡◌, []};
ghost use Rattle.ba_inputs.specs.Weights.{weights_in};
ghost use Rattle.ba_tree.specs.Least.{unit_weights};
ghost use Rattle.ba_tree.specs.declared.tree.Program.{Program};

/// Law: an empty text gives each statement the weight 1, except the asserts.
pub fn no_text_gives_unit_weights()
    ensures { (p : Program) → weights_in p [] ≡ unit_weights p }
{}
