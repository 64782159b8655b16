//! Sample programs of any size, and laws of them: which program the text spells, and which sets of its
//! statements could repair it.
//!
//! Each law is the clause of a function that does nothing.
#![tactic(auto)]

ghost use Rattle.std.specs.Prelude.{◌≡◌, ℕ, ◌+◌, ◌*◌, ◌≤◌, List, Contains};
ghost use Rattle.ba_samples.specs.Text.{sample_text};
ghost use Rattle.ba_tree.specs.Least.{AreLeast, judge_of, stmt_of, unit_weights, weight_of};
ghost use Rattle.ba_tree.specs.Run.{plain_run};
ghost use Rattle.ba_tree.specs.Trees.{tree_of};
ghost use Rattle.ba_tree.specs.Units.{units_of};
ghost use Rattle.ba_tree.specs.declared.run.Bounds.{Bounds};
ghost use Rattle.ba_tree.specs.declared.run.Input.{Input};
ghost use Rattle.ba_tree.specs.declared.run.Outcome.TheVariants.{AssertFails};
ghost use Rattle.ba_tree.specs.declared.tree.Program.{Program};
ghost use Rattle.ba_tree_laws.specs.Spelling.{Spells};
ghost use Rattle.ba_samples.specs.Reading.{IsReadAs};
ghost use Rattle.ba_samples.specs.Sample.{most_additions, sample_sets, sample_tree};

mod text;

pub use text::sample_text;

/// Law: the text of a sample is read without a fault, and spells the sample's program and no other.
pub fn sample_text_is_read()
    ensures reads { (n : ℕ) → n ≤ most_additions → IsReadAs (sample_text n) (sample_tree n) }
    ensures spells { (n : ℕ) (p : Program) → n ≤ most_additions → Spells (sample_text n) p
        → tree_of p ≡ sample_tree n }
{}

/// Law: the program of a sample is small, and its assertion fails, whatever the input and the bounds. With
/// equal weights its least sets are sets of one statement of weight 1: the initialiser, and each addition.
pub fn sample_is_repaired_by_one_statement()
    ensures units { (n : ℕ) (p : Program) → tree_of p ≡ sample_tree n
        → (b : Bounds) → units_of p b ≡ 2 * n + 4 }
    ensures fails { (n : ℕ) (p : Program) → n ≤ most_additions → tree_of p ≡ sample_tree n
        → (i : Input) (b : Bounds) → plain_run p i b ≡ AssertFails (stmt_of (n + 2)) }
    ensures weight { (n : ℕ) (p : Program) → tree_of p ≡ sample_tree n
        → (set : List ℕ) → Contains (sample_sets n) set → weight_of (unit_weights p) set ≡ 1 }
    ensures sets { (n : ℕ) (p : Program) → n ≤ most_additions → tree_of p ≡ sample_tree n
        → (i : Input) (b : Bounds) → AreLeast (unit_weights p) (judge_of p i b) (sample_sets n) }
{}
