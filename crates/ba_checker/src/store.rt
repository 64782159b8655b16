//! The literals of the clauses of a derivation.

ghost use Rattle.std.specs.Prelude.{◌≡◌, ◌<◌, ◌≤◌, ◌++◌, ◌∷◌, [], None, Some, OnOk, OnErr, length, slice_range, slice_index, option_copied};
ghost use Rattle.ba_checker.specs.States.{kept, clause_at, is_learnt_at, is_learnt_origin, is_live_origin, is_live_at, lits_at, width_at, without, without_all};
ghost use Rattle.ba_checker.specs.Cuts.{IsCut, start_of};

use ba_lits::Lit;
use std::alloc::{AllocError, Global};
use std::marker::Model;

/// Where a clause comes from.
#[derive(Clone, Copy)]
pub enum Origin {
    /// The formula.
    Given,
    /// A Learn step.
    Learnt,
    /// A Core step.
    Core,
    /// The split of a core.
    Split,
    /// A blocked set.
    Blocked,
    /// A Learn step; a Delete step has deleted it.
    Deleted,
}

/// The clauses in the order of their numbers, which begin at 1: one vector of literals, and the end of each
/// clause in it.
pub struct Store {
    lits: Vec<Lit>,
    ends: Vec<usize>,
    origins: Vec<Origin>,
}

impl Drop for Store {
    fn drop(self) {
        let Store {
            lits: _,
            ends: _,
            origins: _,
        } = self;
    }
}

impl Model for Store {
    ghost use Rattle.std.specs.Prelude.{◌≡◌, List, length};
    ghost use Rattle.ba_checker.specs.States.{Kept};
    ghost use Rattle.ba_checker.specs.Cuts.{IsCut, entries};

    ghost Value = { List Kept };

    ghost view = { λ c. entries c.lits.items 0 c.ends.items c.origins.items };

    ghost invariant = { λ c. IsCut (length c.lits.items) 0 c.ends.items
        × (length c.origins.items ≡ length c.ends.items) };
}

impl Store {
    /// No clauses. It takes no memory.
    pub fn new(alloc: Global) -> Store
        ensures { result ≡ [] }
    {
        Store {
            lits: Vec::new(alloc),
            ends: Vec::new(alloc),
            origins: Vec::new(alloc),
        }
    }

    /// The greatest number given, or 0.
    pub fn last(&self) -> u64
        ensures { result ≡ length self.now }
    {
        self.ends.len() as u64
    }

    /// Adds a clause, whose number is one more than the last.
    pub fn add(&mut self, lits: &[Lit], origin: Origin) -> Result<(), AllocError>
        ensures ok { OnOk result (self.new ≡ self.old ++ kept origin lits.now ∷ []) }
        ensures err { OnErr result (self.new ≡ self.old) }
    {
        self.ends.reserve(1)?;
        self.origins.reserve(1)?;
        self.lits.extend_from_slice(lits)?;
        self.ends.push(self.lits.len())?;
        self.origins.push(origin)?;
        Ok(())
    }

    /// The live clause of a number; `None` exactly if there is none.
    pub fn clause(&self, number: u64) -> Option<&[Lit]>
        ensures { option_copied result ≡ clause_at self.now number }
    {
        if number == 0 || number > self.last() {
            return None;
        }
        if !is_live(self.origins[number as usize - 1]) {
            return None;
        }
        Some(part(
            self.lits.as_slice(),
            self.ends.as_slice(),
            number as usize - 1,
        ))
    }

    /// How many literals the clause of a number has, live or deleted; 0 if there is none.
    pub fn width(&self, number: u64) -> usize
        ensures { result ≡ width_at self.now number }
    {
        if number == 0 || number > self.last() {
            return 0;
        }
        self.at(number as usize - 1).len()
    }

    /// Deletes the clauses of these numbers; numbers of no clause are skipped.
    pub fn delete_all(&mut self, numbers: &[u64])
        ensures { self.new ≡ without_all self.old numbers.now }
    {
        for number in numbers {
            self.delete(*number);
        }
    }

    /// Deletes the clause of a number, if there is one.
    fn delete(&mut self, number: u64)
        ensures { self.new ≡ without self.old number }
    {
        if number == 0 || number > self.last() {
            return;
        }
        self.origins[number as usize - 1] = Origin::Deleted;
    }

    /// Whether the clause at an index is live.
    pub fn is_live(&self, place: usize) -> bool
        requires { place < length self.now }
        ensures { result ≡ is_live_at self.now place }
    {
        is_live(self.origins[place])
    }

    /// The clause at an index, from 0 on, live or deleted.
    pub fn at(&self, place: usize) -> &[Lit]
        requires { place < length self.now }
        ensures { result.now ≡ lits_at self.now place }
    {
        part(self.lits.as_slice(), self.ends.as_slice(), place)
    }

    /// Whether a live clause that a Learn step made has the number.
    pub fn is_learnt(&self, number: u64) -> bool
        ensures { result ≡ is_learnt_at self.now number }
    {
        if number == 0 || number > self.last() {
            return false;
        }
        is_learnt(self.origins[number as usize - 1])
    }
}

/// Whether a clause was made by a Learn step and isn't deleted.
fn is_learnt(origin: Origin) -> bool
    ensures { result ≡ is_learnt_origin origin }
{
    match origin {
        Origin::Learnt => true,
        Origin::Given => false,
        Origin::Core => false,
        Origin::Split => false,
        Origin::Blocked => false,
        Origin::Deleted => false,
    }
}

/// Whether a clause is live.
fn is_live(origin: Origin) -> bool
    ensures { result ≡ is_live_origin origin }
{
    match origin {
        Origin::Given => true,
        Origin::Learnt => true,
        Origin::Core => true,
        Origin::Split => true,
        Origin::Blocked => true,
        Origin::Deleted => false,
    }
}

/// The clause at an index.
fn part<'a>(lits: &'a [Lit], ends: &[usize], place: usize) -> &'a [Lit]
    requires cut { IsCut (length lits.now) 0 ends.now }
    requires within { place < length ends.now }
    ensures { result.now ≡ slice_range lits.now (start_of 0 ends.now place)
        (slice_index ends.now place) }
{
    between(lits, start(ends, place), ends[place])
}

/// The literals from one index to another.
fn between(lits: &[Lit], start: usize, end: usize) -> &[Lit]
    requires ascends { start ≤ end }
    requires within { end ≤ length lits.now }
    ensures { result.now ≡ slice_range lits.now start end }
{
    &lits[start..end]
}

/// Where the clause at an index begins.
fn start(ends: &[usize], place: usize) -> usize
    requires { place < length ends.now }
    ensures { result ≡ start_of 0 ends.now place }
{
    if place == 0 { 0 } else { ends[place - 1] }
}
