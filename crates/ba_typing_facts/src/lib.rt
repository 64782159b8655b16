//! Soundness of the type system: the typed program of a tree without faults has every fact of programs.
#![tactic(auto)]

ghost use Rattle.std.specs.Prelude.{◌≡◌, [], Some, IsTrue};
ghost use Rattle.ba_tree.specs.Facts.{is_program};
ghost use Rattle.ba_tree.specs.Trees.{tree_of_parts};
ghost use Rattle.ba_tree.specs.declared.tree.Parts.{Parts};
ghost use Rattle.ba_trees.specs.declared.tree.statements.RawProgram.{RawProgram};
ghost use Rattle.ba_typing.specs.Files.{faults_of, typed_of};

/// Law: the typed program of a tree without faults has every fact of programs.
pub fn typed_programs_are_sound()
    ensures { (tree : RawProgram) (parts : Parts) → faults_of tree.externals.items ≡ []
        → typed_of tree.externals.items ≡ Some (tree_of_parts parts) → IsTrue (is_program parts) }
{}
