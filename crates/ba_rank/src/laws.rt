//! Laws of rankings. Each is a function whose clause is the law, and which does nothing.

ghost use Rattle.std.specs.Prelude.{◌≡◌, ℕ, List};
ghost use Rattle.ba_rank.specs.Ranking.{IsRanking};
ghost use Rattle.ba_rank.specs.declared.ranking.Ranked.{Ranked};

/// Law: the ranking is unique. No other list has the same entries, each once and in order.
pub fn ranking_is_unique()
    ensures { (lists : List (List (List ℕ))) (entries others : List Ranked) →
        IsRanking lists entries → IsRanking lists others → entries ≡ others }
{}
