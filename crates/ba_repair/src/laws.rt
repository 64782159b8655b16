//! Laws of edits. Each is a function that does nothing; its clause is the law.

ghost use Rattle.std.specs.Prelude.{◌≡◌, ℕ, List, Contains};
ghost use Rattle.ba_repair.specs.Edits.{IsEditOf, edits_of};
ghost use Rattle.ba_repair.specs.Good.{AreGood, IsEdited, IsGood, Passes};
ghost use Rattle.ba_repair.specs.declared.listing.Edit.{Edit};
ghost use Rattle.ba_tree.specs.Trees.{tree_of};
ghost use Rattle.ba_tree.specs.Units.{units_of};
ghost use Rattle.ba_tree.specs.declared.run.Bounds.{Bounds};
ghost use Rattle.ba_tree.specs.declared.run.Input.{Input};
ghost use Rattle.ba_tree.specs.declared.tree.Program.{Program};

/// All programs with the edited tree pass if one does: they are the same, but for the room of their lists.
pub fn edits_have_one_program()
    ensures { (p edited : Program) (bounds : Bounds) (inputs : List Input) (edit : Edit)
        → IsEdited p edit edited → IsGood p bounds inputs edit → Passes bounds inputs edited }
{}

/// Given edits have one list of good ones.
pub fn good_edits_are_unique()
    ensures { (p : Program) (bounds : Bounds) (inputs : List Input) (edits found others : List Edit)
        → AreGood p bounds inputs edits found → AreGood p bounds inputs edits others
        → found ≡ others }
{}

/// An edit changes no units, so an edited program is no larger.
pub fn edits_change_no_units()
    ensures { (p edited : Program) (edit : Edit) (bounds : Bounds) → IsEditOf p edit
        → IsEdited p edit edited → units_of edited bounds ≡ units_of p bounds }
{}

/// The edits that are listed for some statements are edits of the program.
pub fn listed_edits_are_own()
    ensures { (p : Program) (stmts : List ℕ) (edit : Edit)
        → Contains (edits_of (tree_of p) stmts) edit → IsEditOf p edit }
{}
