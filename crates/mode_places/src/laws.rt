//! Laws of the answers: each a function whose clause is the law, and which does nothing.

ghost use Rattle.std.specs.Prelude.{List};
ghost use Rattle.ba_answers.specs.declared.answers.Answer.{Answer};
ghost use Rattle.ba_cases.specs.Searching.{Agree};
ghost use Rattle.ba_cases.specs.declared.texts.Texts.{Texts};
ghost use Rattle.ba_derivations.specs.Handing.{Derivation};
ghost use Rattle.mode_places.specs.Answers.{IsAnswer};
ghost use Rattle.mode_places.specs.declared.jobs.PlacesJob.{PlacesJob};

/// Texts come to one answer. Two exceptions: a search may say that its conflicts are spent, and reports that
/// show runs may show other runs.
pub fn one_place_answer()
    ensures { (j : PlacesJob) (x : Texts) (handed others : List Derivation) (a b : Answer)
        → IsAnswer j x handed a → IsAnswer j x others b → Agree j.runs a b }
{}
