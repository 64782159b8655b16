//! Laws of the answers: each a function whose clause is the law, and which does nothing.

ghost use Rattle.std.specs.Prelude.{ℕ, ◌≤◌, List};
ghost use Rattle.ba_answers.specs.declared.answers.Answer.{Answer};
ghost use Rattle.ba_cases.specs.Searching.{Agree};
ghost use Rattle.ba_cases.specs.declared.texts.Texts.{Texts};
ghost use Rattle.ba_derivations.specs.Handing.{Derivation};
ghost use Rattle.mode_localise.specs.Answers.{IsAnswer, IsAnswerOfSample, shows_runs};
ghost use Rattle.mode_localise.specs.Jobs.{sample_job, sample_texts};
ghost use Rattle.mode_localise.specs.declared.jobs.LocaliseJob.{LocaliseJob};

/// Law: texts have one answer, with two exceptions. A search may say that its conflicts are spent, and
/// reports that show runs may show other runs of the same sets.
pub fn one_answer()
    ensures { (j : LocaliseJob) (x : Texts) (handed others : List Derivation) (a b : Answer)
        → IsAnswer j x handed a → IsAnswer j x others b → Agree (shows_runs j.telling) a b }
{}

/// Law: a sample has one set more than additions, each of weight 1; or its conflicts are spent.
pub fn answer_of_sample()
    ensures { (n : ℕ) → n ≤ 500 → (handed : List Derivation) (a : Answer)
        → IsAnswer (sample_job n) (sample_texts n) handed a → IsAnswerOfSample n a }
{}
