//! The clauses of a derivation by number.

ghost use Rattle.std.specs.Prelude.{◌≡◌, ℕ, Bool, List, ◌<◌, ◌++◌, ◌∷◌, ◌&&◌, ◌||◌, eqb, [], true, ltb, OnOk, OnErr, length, option_copied};
ghost use Rattle.std.specs.List.{list_all};
ghost use Rattle.ba_checker.specs.States.{kept, clause_at, is_learnt_at, width_at, without_all};
ghost use Rattle.ba_checker.specs.Parts.{holds_clause, is_part};
ghost use Rattle.ba_checker.specs.Listed.{AreListed, is_key, are_keys, firsts, is_part_at, any_listed, under_any};
ghost use Rattle.ba_lits.specs.Literals.{Literal};
ghost use Rattle.ba_lits.specs.Members.{has_index};

use crate::index::{Index, Keys};
use crate::store::{Origin, Store};
use ba_lits::{Lit, LiteralSet};
use std::alloc::{AllocError, Global};
use std::marker::Model;

/// The clauses in the order of their numbers, which begin at 1. Each is listed under its literal with the
/// fewest clauses so far. So a clause contained in a given one is found in the time of a few short lists.
/// Deleted clauses keep their indices; the lists are made anew after each deletion.
pub struct Clauses {
    store: Store,
    index: Index,
}

impl Drop for Clauses {
    fn drop(self) {
        let Clauses { store: _, index: _ } = self;
    }
}

impl Model for Clauses {
    ghost use Rattle.std.specs.Prelude.{List};
    ghost use Rattle.ba_checker.specs.States.{Kept};
    ghost use Rattle.ba_checker.specs.Listed.{AreListed};

    ghost Value = { List Kept };

    ghost view = { λ c. c.store };

    ghost invariant = { λ c. AreListed c.index c.store };
}

impl Clauses {
    /// No clauses. It takes no memory.
    pub fn new(alloc: Global) -> Clauses
        ensures { result ≡ [] }
    {
        Clauses {
            store: Store::new(alloc),
            index: Index::new(alloc),
        }
    }

    /// Makes room for the lists of literals with indices below a number.
    pub fn grow(&mut self, indices: usize) -> Result<(), AllocError>
        ensures { self.new ≡ self.old }
    {
        self.index.grow(indices)
    }

    /// The greatest number given, or 0.
    pub fn last(&self) -> u64
        ensures { result ≡ length self.now }
    {
        self.store.last()
    }

    /// Adds a clause, whose number is one more than the last.
    pub fn add(&mut self, lits: &[Lit], origin: Origin) -> Result<(), AllocError>
        ensures ok { OnOk result (self.new ≡ self.old ++ kept origin lits.now ∷ []) }
        ensures err { OnErr result (self.new ≡ self.old) }
    {
        self.index.push(choose_keys(&self.index, lits))?;
        if self.store.add(lits, origin).is_err() {
            self.index.pop();
            return Err(AllocError);
        }
        Ok(())
    }

    /// The live clause of a number; `None` exactly if there is none.
    pub fn clause(&self, number: u64) -> Option<&[Lit]>
        ensures { option_copied result ≡ clause_at self.now number }
    {
        self.store.clause(number)
    }

    /// Whether a live clause that a Learn step made has the number.
    pub fn is_learnt(&self, number: u64) -> bool
        ensures { result ≡ is_learnt_at self.now number }
    {
        self.store.is_learnt(number)
    }

    /// Whether each of these numbers is that of a live clause of at least three literals that a Learn step
    /// made.
    pub fn may_all_go(&self, numbers: &[u64]) -> bool
        ensures { result ≡ list_all (λ (n : ℕ). is_learnt_at self.now n
            && ltb 2 (width_at self.now n)) numbers.now }
    {
        numbers.iter().all(|number| self.may_go(*number))
    }

    /// Whether the number is that of a live clause of at least three literals that a Learn step made.
    fn may_go(&self, number: u64) -> bool
        ensures { result ≡ (is_learnt_at self.now number && ltb 2 (width_at self.now number)) }
    {
        self.store.is_learnt(number) && self.store.width(number) > 2
    }

    /// Deletes the clauses of these numbers. It takes no memory.
    pub fn delete(&mut self, numbers: &[u64])
        ensures { self.new ≡ without_all self.old numbers.now }
    {
        self.store.delete_all(numbers);
        self.index.relist(&self.store);
    }

    /// Whether some live clause has all its literals in these, which are the members of the set.
    pub fn holds_part(&self, lits: &[Lit], set: &LiteralSet) -> bool
        requires { set.now ≡ lits.now }
        ensures { result ≡ holds_clause self.now lits.now }
    {
        lists_part(&self.store, &self.index, 0, set)
            || lists_any(&self.store, &self.index, lits, set)
    }
}

/// Whether some live clause that is listed under one of these literals has only members of the set.
fn lists_any(store: &Store, index: &Index, lits: &[Lit], set: &LiteralSet) -> bool
    requires { AreListed index.now store.now }
    ensures { result ≡ under_any store.now (firsts index.now) set.now (length index.now) lits.now }
{
    for lit in lits {
        if lists_part(store, index, lit.index(), set) {
            return true;
        }
    }
    false
}

/// The keys of a clause: the literal under which the fewest clauses are listed, and two further ones.
fn choose_keys(index: &Index, lits: &[Lit]) -> Keys
    ensures { are_keys result lits.now ≡ true }
{
    let key = rarest(index, lits);
    let mut all = Keys {
        key,
        second: key,
        third: key,
    };
    for lit in lits {
        all = with_further(all, lit.index());
    }
    all
}

/// The keys, with a new one in place of the second last.
fn with_further(keys: Keys, further: usize) -> Keys
    ensures { (lits : List Literal) → are_keys keys lits ≡ true → is_key further lits ≡ true
        → are_keys result lits ≡ true }
{
    if further == keys.key {
        return keys;
    }
    Keys {
        key: keys.key,
        second: further,
        third: keys.second,
    }
}

/// The key of a clause: the literal under which the fewest clauses are listed.
fn rarest(index: &Index, lits: &[Lit]) -> usize
    ensures { is_key result lits.now ≡ true }
{
    if lits.is_empty() {
        return 0;
    }
    let mut best = lits[0].index();
    for lit in lits {
        best = rarer(index, best, lit.index());
    }
    best
}

/// The one of two keys under which fewer clauses are listed.
fn rarer(index: &Index, a: usize, b: usize) -> usize
    ensures { (P : ℕ → Bool) → P a ≡ true → P b ≡ true → P result ≡ true }
{
    if index.count(b) < index.count(a) {
        b
    } else {
        a
    }
}

/// Whether some live clause that is listed under a key has only members of the set.
fn lists_part(store: &Store, index: &Index, key: usize, set: &LiteralSet) -> bool
    requires { AreListed index.now store.now }
    ensures { result ≡ any_listed store.now (firsts index.now) key set.now (length index.now) }
{
    let mut next = index.latest(key);
    while next > 0 {
        let place = next as usize - 1;
        if is_listed_part(store, index, place, set) {
            return true;
        }
        next = index.before(place);
    }
    false
}

/// Whether the clause at an index is live and has only members of the set. A further key tells for most
/// clauses that it is not so, without a look at their literals.
fn is_listed_part(store: &Store, index: &Index, place: usize, set: &LiteralSet) -> bool
    requires listed { AreListed index.now store.now }
    requires within { place < length store.now }
    ensures { result ≡ is_part_at store.now place set.now }
{
    let keys = index.keys(place);
    if !may_hold(keys.key, keys.second, set) {
        return false;
    }
    if !may_hold(keys.key, keys.third, set) {
        return false;
    }
    is_live_part(store, place, set)
}

/// Whether a further key is none, or is that of a member of the set.
fn may_hold(key: usize, further: usize, set: &LiteralSet) -> bool
    ensures { result ≡ (eqb key further || has_index further set.now) }
{
    key == further || set.contains_index(further)
}

/// Whether the clause at an index is live and has only members of the set.
fn is_live_part(store: &Store, place: usize, set: &LiteralSet) -> bool
    requires { place < length store.now }
    ensures { result ≡ is_part_at store.now place set.now }
{
    is_part(store.at(place), set) && store.is_live(place)
}

/// Whether all literals of a clause are members of the set.
fn is_part(part: &[Lit], set: &LiteralSet) -> bool
    ensures { result ≡ is_part part.now set.now }
{
    part.iter().all(|lit| set.contains(*lit))
}
