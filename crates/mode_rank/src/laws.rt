//! Laws of the answers: each a function whose clause is the law, and which does nothing.

ghost use Rattle.std.specs.Prelude.{List, false};
ghost use Rattle.ba_answers.specs.declared.answers.Answer.{Answer};
ghost use Rattle.ba_cases.specs.Searching.{Agree};
ghost use Rattle.ba_cases.specs.declared.texts.Texts.{Texts};
ghost use Rattle.ba_derivations.specs.Handing.{Derivation};
ghost use Rattle.mode_rank.specs.Answers.{IsAnswer};
ghost use Rattle.mode_rank.specs.declared.jobs.RankJob.{RankJob};

/// Law: texts have one answer, with one exception. In place of a ranking or of too many sets, the conflicts
/// of a search may be spent.
pub fn one_ranking()
    ensures { (j : RankJob) (x : Texts) (handed others : List Derivation) (a b : Answer)
        → IsAnswer j x handed a → IsAnswer j x others b → Agree false a b }
{}
