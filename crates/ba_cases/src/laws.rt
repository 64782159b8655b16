//! Laws of the answers before any search: each a function whose clause is the law, and which does nothing.

ghost use Rattle.std.specs.Prelude.{◌≡◌, ℕ, Option, None, true};
ghost use Rattle.ba_answers.specs.declared.answers.Answer.{Answer};
ghost use Rattle.ba_cases.specs.AllCases.{all_answer};
ghost use Rattle.ba_cases.specs.AtOnce.{IsAtOnce, case_answer, is_failure, unfailing};
ghost use Rattle.ba_cases.specs.declared.texts.Texts.{Texts};
ghost use Rattle.ba_tree.specs.Run.{plain_run};
ghost use Rattle.ba_tree.specs.declared.run.Bounds.{Bounds};
ghost use Rattle.ba_tree.specs.declared.run.Input.{Input};
ghost use Rattle.ba_tree.specs.declared.tree.Program.{Program};

/// Law: texts with one input have at most one answer before a search.
pub fn one_case_answer()
    ensures { (bounds : Bounds) (x : Texts) (a b : Answer)
        → IsAtOnce x.program (case_answer bounds x) a
        → IsAtOnce x.program (case_answer bounds x) b → a ≡ b }
{}

/// Law: texts with several inputs taken together have at most one answer before a search.
pub fn one_answer_of_inputs()
    ensures { (bounds : Bounds) (x : Texts) (a b : Answer)
        → IsAtOnce x.program (all_answer bounds x) a
        → IsAtOnce x.program (all_answer bounds x) b → a ≡ b }
{}

/// Law: a run as written without an answer before a search fails. An assertion fails, or there is a trap.
pub fn undecided_runs_fail()
    ensures { (p : Program) (i : Input) (bounds : Bounds) (line : Option ℕ)
        → unfailing p line (plain_run p i bounds) ≡ None
        → is_failure (plain_run p i bounds) ≡ true }
{}
