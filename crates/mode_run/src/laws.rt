//! Laws of the answers: each a function whose clause is the law, and which does nothing.

ghost use Rattle.std.specs.Prelude.{◌≡◌};
ghost use Rattle.ba_answers.specs.declared.answers.Answer.{Answer};
ghost use Rattle.ba_cases.specs.AtOnce.{IsAtOnce};
ghost use Rattle.ba_cases.specs.declared.texts.Texts.{Texts};
ghost use Rattle.ba_tree.specs.declared.run.Bounds.{Bounds};
ghost use Rattle.mode_run.specs.Runs.{run_answer};

/// Law: the texts of a run have at most one answer.
pub fn one_run_answer()
    ensures { (bounds : Bounds) (x : Texts) (a b : Answer)
        → IsAtOnce x.program (run_answer bounds x) a
        → IsAtOnce x.program (run_answer bounds x) b → a ≡ b }
{}
