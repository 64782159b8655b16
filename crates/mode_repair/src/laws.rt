//! Laws of the answers. Each is a function that does nothing; its clause is the law.

ghost use Rattle.std.specs.Prelude.{List, false};
ghost use Rattle.ba_answers.specs.declared.answers.Answer.{Answer};
ghost use Rattle.ba_cases.specs.Searching.{Agree};
ghost use Rattle.ba_derivations.specs.Handing.{Derivation};
ghost use Rattle.mode_repair.specs.Answers.{IsAnswer};
ghost use Rattle.mode_repair.specs.declared.jobs.RepairJob.{RepairJob};
ghost use Rattle.mode_repair.specs.declared.texts.RepairTexts.{RepairTexts};

/// Texts have one answer, with one exception: the conflicts of the search may be spent instead.
pub fn one_repair_answer()
    ensures { (j : RepairJob) (x : RepairTexts) (handed others : List Derivation) (a b : Answer)
        → IsAnswer j x handed a → IsAnswer j x others b → Agree false a b }
{}
