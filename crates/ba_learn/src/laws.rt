//! Laws of the definitions, each the clause of a function that does nothing.

ghost use Rattle.std.specs.Prelude.{◌≡◌, ℕ, ◌≤◌, Option, Some, List};
ghost use Rattle.ba_lits.specs.Literals.{Literal, lit_at};
ghost use Rattle.ba_watch.specs.Threads.{Clause, AreApart};
ghost use Rattle.ba_watch.specs.Trails.{decided};
ghost use Rattle.ba_watch.specs.Propagation.{State, lits_in, IsReason, IsAsserting, AddsClause, KeepsFacts};
ghost use Rattle.ba_learn.specs.Live.{AreLive, IsNew, IsPartOf, HaveDistinctNumbers, by_number};
ghost use Rattle.ba_learn.specs.Levels.{IsBacked};
ghost use Rattle.ba_learn.specs.Backjumps.{after_backtrack, IsUnitAt};

/// Law: a new clause contains no live clause without repeated literals.
pub fn new_law()
    ensures { (live : ℕ → Option (List Literal)) (lits : List Literal) → IsNew live lits
        → (number : ℕ) (c : List Literal) → live number ≡ Some c → AreApart c → IsPartOf c lits
        → ⊥ }
{}

/// Law: after a backjump to the level of a learnt clause, its literal of the level left has no value, and its
/// others are false. The level is the one gone back to.
pub fn unit_law()
    ensures unit { (s : State) (lits : List Literal) (back : ℕ) → KeepsFacts s
        → (b : IsBacked s lits back) → IsUnitAt (after_backtrack back s).trail lits b.present }
    ensures level { (s : State) (lits : List Literal) (back : ℕ) → IsBacked s lits back
        → decided (after_backtrack back s).reasons ≡ back }
{}

/// Law: a learnt clause whose level isn't 0 may be added after a backjump to that level.
pub fn asserting_law()
    ensures { (s : State) (lits : List Literal) (back : ℕ) → KeepsFacts s → IsBacked s lits back
        → 1 ≤ back → IsAsserting (after_backtrack back s) lits }
{}

/// Law: a clause that was added when all but one of its literals are false is a reason for that one.
pub fn reason_law()
    ensures { (old new : State) (clause number free : ℕ) (lits : List Literal)
        → AddsClause old new clause lits number → IsUnitAt old.trail lits free
        → IsReason (lits_in new.clauses clause) new.trail (lit_at lits free) }
{}

/// Law: if no two clauses have the same number, a function has them by number.
pub fn number_law()
    ensures { (clauses : List (Option Clause)) → HaveDistinctNumbers clauses
        → AreLive clauses (by_number clauses) }
{}
