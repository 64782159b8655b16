//! Unambiguity of the front end, as laws: a text spells one program or none, and a program's meaning depends
//! on its tree alone. The capacity of its lists does not matter.
//!
//! Each law is the clause of a function that does nothing.
#![tactic(auto)]

pub mod laws;

ghost use Rattle.std.specs.Prelude.{◌≡◌, ℕ, List};
ghost use Rattle.ba_tree.specs.declared.tree.Program.{Program};
ghost use Rattle.ba_tree_laws.specs.Spelling.{Spells};
ghost use Rattle.ba_tree.specs.Trees.{tree_of};
ghost use Rattle.ba_tree_laws.specs.Equivalent.{AreEquivalent};

/// Law: programs with the same tree are equivalent.
pub fn same_meaning()
    ensures { (p q : Program) → tree_of p ≡ tree_of q → AreEquivalent p q }
{}

/// Law: a text has one meaning. All programs that it spells are equivalent.
pub fn one_meaning()
    ensures { (text : List ℕ) (p q : Program) → Spells text p → Spells text q → AreEquivalent p q }
{}
