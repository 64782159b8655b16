//! Laws of the answers: each a function whose clause is the law, and which does nothing.

ghost use Rattle.std.specs.Prelude.{List};
ghost use Rattle.ba_answers.specs.declared.answers.Answer.{Answer};
ghost use Rattle.ba_cases.specs.Searching.{Agree};
ghost use Rattle.ba_cases.specs.declared.texts.Texts.{Texts};
ghost use Rattle.ba_derivations.specs.Handing.{Derivation};
ghost use Rattle.mode_all.specs.Answers.{IsAnswer};
ghost use Rattle.mode_all.specs.declared.jobs.AllJob.{AllJob};

/// Law: texts have one answer, with two exceptions. A search may say that its conflicts are spent, and any
/// two reports agree that show runs. Their sets are one, since both are all least sets.
pub fn one_answer_of_all()
    ensures { (j : AllJob) (x : Texts) (handed others : List Derivation) (a b : Answer)
        → IsAnswer j x handed a → IsAnswer j x others b → Agree j.runs a b }
{}
