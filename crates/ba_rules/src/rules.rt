//! Rules of a search: the type for those that a caller chooses, and the program's own.

ghost use Rattle.std.specs.Prelude.{◌≡◌, true, false, ◌↔◌, ◌⊎◌, ℕ, ◌+◌, ◌*◌, ◌≤◌, ◌<◌, ◌^◌, IsTrue};
ghost use Rattle.ba_search.specs.Rules.{IsKeepRule, IsRestartRule};
ghost use Rattle.ba_rules.specs.Luby.{IsLubyTerm};
ghost use Rattle.ba_rules.specs.Rules.{AreJobRules};

use ba_search::SearchRules;

/// The restart rules and the keep rule of a search. What the program promises holds for all such rules; how
/// soon a search ends depends on them.
#[derive(Drop)]
pub struct Rules<L, G, K> {
    /// How many conflicts come before the next restart, by the number of restarts so far, if restarts follow
    /// Luby's sequence.
    pub luby: L,
    /// The same, if restarts come at a steady pace.
    pub steady: G,
    /// Whether a learnt clause is kept, by its width and its age. The age is how many clauses were learnt
    /// after it.
    pub keep: K,
}

impl<L: Fn(u64) -> u64, G: Fn(u64) -> u64, K: Fn(u64, u64) -> bool> Rules<L, G, K> {
    /// The rules of these functions. Each restart rule may be asked for every number of restarts, and answers
    /// at least 1. The keep rule keeps clauses of at most two literals.
    pub fn new(luby: L, steady: G, keep: K) -> Rules<L, G, K>
        requires luby { IsRestartRule (L.pre luby) (L.post luby) }
        requires steady { IsRestartRule (G.pre steady) (G.post steady) }
        requires keep { IsKeepRule (K.pre keep) (K.post keep) }
        ensures luby { result.luby ≡ luby }
        ensures steady { result.steady ≡ steady }
        ensures keep { result.keep ≡ keep }
    {
        Rules { luby, steady, keep }
    }
}

/// The rules of a call: those of its caller, and the choice of the restart rule.
#[derive(Drop)]
pub struct CallRules<L, G, K> {
    pub rules: Rules<L, G, K>,
    /// Whether restarts are steady, and not by Luby's sequence.
    pub is_steady: bool,
}

impl<L: Fn(u64) -> u64, G: Fn(u64) -> u64, K: Fn(u64, u64) -> bool> SearchRules
    for CallRules<L, G, K> {
    ghost are_rules = { λ call. AreJobRules call.is_steady
        (L.pre call.rules.luby) (L.post call.rules.luby)
        (G.pre call.rules.steady) (G.post call.rules.steady)
        (K.pre call.rules.keep) (K.post call.rules.keep) };

    ghost keeping = { λ call. K.post call.rules.keep };

    fn restart(&self, restarts: u64) -> u64
        requires { AreJobRules self.now.is_steady
            (L.pre self.now.rules.luby) (L.post self.now.rules.luby)
            (G.pre self.now.rules.steady) (G.post self.now.rules.steady)
            (K.pre self.now.rules.keep) (K.post self.now.rules.keep) }
        ensures luby { self.now.is_steady ≡ false
            → L.post self.now.rules.luby restarts result }
        ensures steady { self.now.is_steady ≡ true
            → G.post self.now.rules.steady restarts result }
        ensures positive { 1 ≤ result }
    {
        if self.is_steady {
            (self.rules.steady)(restarts)
        } else {
            (self.rules.luby)(restarts)
        }
    }

    fn keeps(&self, width: u64, age: u64) -> bool
        requires { AreJobRules self.now.is_steady
            (L.pre self.now.rules.luby) (L.post self.now.rules.luby)
            (G.pre self.now.rules.steady) (G.post self.now.rules.steady)
            (K.pre self.now.rules.keep) (K.post self.now.rules.keep) }
        ensures rule { K.post self.now.rules.keep width age result }
        ensures narrow { width ≤ 2 → result ≡ true }
    {
        (self.rules.keep)(width, age)
    }
}

/// A term of Luby's sequence 1, 1, 2, 1, 1, 2, 4, .., counted from 1 (Luby, Sinclair and Zuckerman,
/// "Optimal speedup of Las Vegas algorithms").
fn luby_term(number: u64) -> u64
    requires from { 1 ≤ number }
    requires to { number < 2 ^ 32 }
    ensures term { IsLubyTerm number result }
    ensures positive { 1 ≤ result }
    ensures small { result ≤ number }
{
    let mut half = 1;
    while 2 * half <= number {
        half *= 2;
    }
    if number + 1 == 2 * half {
        half
    } else {
        luby_term(number - half + 1)
    }
}

/// Restarts by Luby's sequence, in hundreds of conflicts. After a million restarts each comes after a hundred
/// conflicts.
pub fn luby(restarts: u64) -> u64
    ensures early { restarts < 1000000 → (term : ℕ) × IsLubyTerm (restarts + 1) term
        × (result ≡ 100 * term) }
    ensures late { 1000000 ≤ restarts → result ≡ 100 }
    ensures positive { 1 ≤ result }
{
    if restarts < 1_000_000 {
        100 * luby_term(restarts + 1)
    } else {
        100
    }
}

/// A restart after each thousand conflicts.
pub fn steady(_restarts: u64) -> u64
    ensures { result ≡ 1000 }
{
    1000
}

/// Keeps narrow clauses, and young ones.
pub fn keep(width: u64, age: u64) -> bool
    ensures { IsTrue result ↔ ((width ≤ 6) ⊎ (age < 4000)) }
{
    width <= 6 || age < 4000
}
