//! The rules that the caller of a search chooses.

ghost use Rattle.std.specs.Prelude.{◌≡◌, ℕ, ◌≤◌, Bool, true};
ghost use Rattle.ba_search.specs.Rules.{IsKeepRule, IsRestartRule};

/// The restart rule and the keep rule of a search, which its caller chooses.
pub trait SearchRules {
    // The rules may be asked, and answer as they should.
    ghost are_rules: { Self → Type 0 };

    // What the keep rule may answer, by the width and the age of a clause.
    ghost keeping: { Self → ℕ → ℕ → Bool → Type 0 };

    /// How many conflicts come before the next restart, by the number of restarts so far.
    fn restart(&self, restarts: u64) -> u64
        requires { are_rules self.now }
        ensures positive { 1 ≤ result };

    /// Whether a learnt clause is kept. Its width is how many literals it has, its age how many clauses were
    /// learnt after it. Clauses of at most two literals are kept.
    fn keeps(&self, width: u64, age: u64) -> bool
        requires { are_rules self.now }
        ensures rule { keeping self.now width age result }
        ensures narrow { width ≤ 2 → result ≡ true };
}

/// Rules by two functions, which are `restart` and `keeps` of [`SearchRules`].
#[derive(Drop)]
pub struct RulesBy<R, K> {
    pub restart: R,
    pub keep: K,
}

impl<R: Fn(u64) -> u64, K: Fn(u64, u64) -> bool> SearchRules for RulesBy<R, K> {
    ghost are_rules = { λ rules. IsRestartRule (R.pre rules.restart) (R.post rules.restart)
        × IsKeepRule (K.pre rules.keep) (K.post rules.keep) };

    ghost keeping = { λ rules. K.post rules.keep };

    fn restart(&self, restarts: u64) -> u64
        requires { IsRestartRule (R.pre self.now.restart) (R.post self.now.restart)
            × IsKeepRule (K.pre self.now.keep) (K.post self.now.keep) }
        ensures rule { R.post self.now.restart restarts result }
        ensures positive { 1 ≤ result }
    {
        (self.restart)(restarts)
    }

    fn keeps(&self, width: u64, age: u64) -> bool
        requires { IsRestartRule (R.pre self.now.restart) (R.post self.now.restart)
            × IsKeepRule (K.pre self.now.keep) (K.post self.now.keep) }
        ensures rule { K.post self.now.keep width age result }
        ensures narrow { width ≤ 2 → result ≡ true }
    {
        (self.keep)(width, age)
    }
}
