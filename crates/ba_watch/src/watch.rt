//! The watch: clauses with their lists, and the trail.

ghost use Rattle.std.specs.Prelude.{◌≡◌, ◌≢◌, ℕ, ◌+◌, ◌^◌, ◌<◌, ◌≤◌, ◌∷◌, ◌++◌, ◌⊎◌, [], None, Some, true, false, IfOk, OnErr, OnOk, IfSome, IfNone, IsSome, length, take, map, max, ltb, if◌then◌else◌};
ghost use Rattle.ba_lits.specs.Literals.{lit_at, IsClause};
ghost use Rattle.ba_watch.specs.Threads.{plain};
ghost use Rattle.ba_watch.specs.Trails.{value_of, trail_index_if, decided, level_of, reason_of, kept};
ghost use Rattle.ba_watch.specs.Propagation.{clause_in, lits_in, is_false, IsReason, IsComplete, IsAsserting, Extends, AddsClause, KeepsFacts};
ghost use Rattle.ba_watch.specs.Deletion.{Deletes, MayDelete};

use crate::choice::{latest, rank};
use crate::deletion::{delete_all, make_room};
use crate::lists::Lists;
use crate::propagation::propagate_all;
use crate::trail::Trail;
use crate::units::assign_units;
use ba_arena::{Arena, ClauseRef};
use ba_lits::Lit;
use std::alloc::{AllocError, Global};
use std::marker::Model;

/// Clauses, a trail of assigned literals with their reasons, and unit propagation.
///
/// In a *settled* watch no live clause is false or unit. A watch is settled after [`new`](Watch::new), after
/// a [`propagate`](Watch::propagate) that answers `None`, and after a [`back_to`](Watch::back_to) of a level
/// below the present one. It is not after `decide`, `assign`, `add_clause` or a `propagate` that gives a
/// clause.
#[derive(Drop)]
pub struct Watch {
    lists: Lists,
    trail: Trail,
    head: usize,
    waiting: Vec<ClauseRef>,
    references: Vec<Option<ClauseRef>>,
    settled: bool,
}

impl Model for Watch {
    ghost use Rattle.std.specs.Prelude.{map, length};
    ghost use Rattle.ba_watch.specs.Threads.{plain};
    ghost use Rattle.ba_watch.specs.Propagation.{State, IsSound};
    ghost use Rattle.ba_watch.specs.Deletion.{AreReferenced};

    ghost Value = { State };

    ghost view = { λ w. record {
      variables = w.trail.variables;
      clauses = map plain w.lists.arena;
      trail = w.trail.lits;
      reasons = w.trail.reasons;
      settled = w.settled;
    } };

    ghost invariant = { λ w. IsSound w.lists.arena (length w.lists.heads.items) w.lists.pending
        w.trail.variables w.trail.lits w.trail.reasons w.head w.waiting.items w.settled
        × AreReferenced w.lists.arena w.references.items };
}

impl Watch {
    /// No variables, no clauses and an empty trail, settled. It takes no memory.
    pub fn new(alloc: Global) -> Watch
        ensures { result ≡ record {
          variables = 0;
          clauses = [];
          trail = [];
          reasons = [];
          settled =
              true;
        } }
    {
        Watch {
            lists: Lists::new(alloc),
            trail: Trail::new(alloc),
            head: 0,
            waiting: Vec::new(alloc),
            references: Vec::new(alloc),
            settled: true,
        }
    }

    /// Makes room for the variables up to a number, and for all later assignments of them.
    ///
    /// The only error is out of memory, also for 2^32 variables or more. It leaves the watch as it was.
    pub fn grow(&mut self, variables: u64) -> Result<(), AllocError>
        ensures ok { OnOk result (self.new
            ≡ record self.old { variables = max self.old.variables variables }) }
        ensures err { OnErr result (self.new ≡ self.old) }
    {
        if variables > u32::MAX as u64 {
            return Err(AllocError);
        }
        self.lists.grow(2 * variables as usize + 2)?;
        self.trail.grow(variables)
    }

    /// How many variables there are.
    pub fn variables(&self) -> u64
        ensures variables { result ≡ self.now.variables }
        ensures below { result < 2 ^ 62 }
    {
        self.trail.variables()
    }

    /// The value of a literal: `None` exactly if its variable has none.
    pub fn value(&self, lit: Lit) -> Option<bool>
        requires { lit.variable ≤ self.now.variables }
        ensures { result ≡ value_of self.now.trail lit }
    {
        self.trail.value(lit)
    }

    /// The present level: how many literals of the trail were decided.
    pub fn level(&self) -> usize
        ensures { result ≡ decided self.now.reasons }
    {
        self.trail.level()
    }

    /// The true literals, in the order of their assignment.
    pub fn trail(&self) -> &[Lit]
        ensures { result.now ≡ self.now.trail }
    {
        self.trail.lits()
    }

    /// The reason of each literal of the trail: the clause because of which it is true, `None` if it was
    /// decided.
    pub fn reasons(&self) -> &[Option<ClauseRef>]
        ensures { result.now ≡ self.now.reasons }
    {
        self.trail.reasons()
    }

    /// The trail index of a variable's assignment: `None` exactly if it has no value.
    pub fn trail_index(&self, variable: u64) -> Option<usize>
        requires counted { 1 ≤ variable }
        requires within { variable ≤ self.now.variables }
        ensures { result ≡ trail_index_if self.now.trail variable }
    {
        self.trail.trail_index(variable)
    }

    /// The clauses.
    pub fn arena(&self) -> &Arena
        ensures { map plain result.now ≡ self.now.clauses }
    {
        &self.lists.arena
    }

    /// The level at which a variable was assigned: `None` exactly if it has no value.
    pub fn level_of(&self, variable: u64) -> Option<usize>
        requires counted { 1 ≤ variable }
        requires within { variable ≤ self.now.variables }
        ensures { result ≡ level_of self.now.trail self.now.reasons variable }
    {
        self.trail.level_of(variable)
    }

    /// The reason of a variable: `None` exactly if it has no value or was decided.
    pub fn reason(&self, variable: u64) -> Option<ClauseRef>
        requires counted { 1 ≤ variable }
        requires within { variable ≤ self.now.variables }
        ensures { result ≡ reason_of self.now.trail self.now.reasons variable }
    {
        self.trail.reason(variable)
    }

    /// Law: what holds of every watch. It does nothing.
    pub fn keeps_facts(&self)
        ensures { KeepsFacts self.now }
    {
        self.lists.keep_apart();
    }

    /// Begins a level with a literal.
    pub fn decide(&mut self, lit: Lit)
        requires settled { self.old.settled ≡ true }
        requires within { lit.variable ≤ self.old.variables }
        requires free { value_of self.old.trail lit ≡ None }
        ensures { self.new ≡ record self.old {
          trail = self.old.trail ++ lit
              ∷ [];
          reasons = self.old.reasons ++ None ∷ [];
          settled = false;
        } }
    {
        self.trail.push(lit, None);
        self.settled = false;
    }

    /// Adds a literal at the present level, whose reason is a clause that has it and whose other literals are
    /// false.
    pub fn assign(&mut self, lit: Lit, reason: ClauseRef)
        requires within { lit.variable ≤ self.old.variables }
        requires free { value_of self.old.trail lit ≡ None }
        requires reason { IsReason (lits_in self.old.clauses reason) self.old.trail lit }
        ensures { self.new ≡ record self.old {
          trail = self.old.trail ++ lit
              ∷ [];
          reasons = self.old.reasons ++ Some reason ∷ [];
          settled = false;
        } }
    {
        self.trail.push(lit, Some(reason));
        self.settled = false;
    }

    /// Assigns the literals of unit clauses until no clause is unit, and gives a clause that is false. It
    /// gives `None` exactly if no live clause is false or unit at its end. It takes no memory.
    pub fn propagate(&mut self) -> Option<ClauseRef>
        ensures extends { Extends self.old self.new }
        ensures none { IfNone result ((self.new.settled ≡ true)
            × IsComplete self.new.clauses self.new.trail) }
        ensures some { IfSome result (λ clause. (self.new.settled ≡ false)
            × IsSome (clause_in self.new.clauses clause)
            × (is_false (value_of self.new.trail) (lits_in self.new.clauses clause) ≡ true)) }
    {
        self.settled = false;
        let lists = &self.lists;
        let conflict = assign_units(&lists.arena, &mut self.trail, &mut self.waiting);
        if conflict.is_some() {
            return conflict;
        }
        let conflict = propagate_all(&mut self.lists, &mut self.trail, &mut self.head);
        if conflict.is_none() {
            self.settled = true;
        }
        conflict
    }

    /// Removes the literals of the levels above one from the trail.
    pub fn back_to(&mut self, level: usize)
        requires { level ≤ decided self.old.reasons }
        ensures { self.new ≡ record self.old {
          trail = take (kept level self.old.reasons) self.old.trail;
          reasons = take
              (kept level self.old.reasons) self.old.reasons;
          settled = if ltb level
              (decided self.old.reasons) then true else self.old.settled;
        } }
    {
        if level < self.trail.level() {
            self.trail.back_to(level);
            self.head = self.trail.len();
            self.settled = true;
        }
    }

    /// Adds a clause. The level is 0, or exactly one literal has no value and all others are false, one of
    /// them from the present level on.
    ///
    /// The only error is out of memory, also if the number is 2^32 - 1 or more, or the arena is full. It
    /// leaves the watch as it was.
    pub fn add_clause(&mut self, lits: &[Lit], number: u64) -> Result<ClauseRef, AllocError>
        requires clause { IsClause self.old.variables lits.now }
        requires level { (decided self.old.reasons ≡ 0) ⊎ IsAsserting self.old lits.now }
        ensures ok { IfOk result (λ clause. AddsClause self.old self.new clause lits.now number) }
        ensures err { OnErr result (self.new ≡ self.old) }
    {
        if lits.len() < 2 {
            self.add_short(lits, number)
        } else {
            self.add_long(lits, number)
        }
    }

    /// Deletes the clauses of the numbers. The others move in place, and the reasons follow them. It takes no
    /// memory.
    pub fn delete(&mut self, numbers: &[u64])
        requires { MayDelete self.old numbers.now }
        ensures { Deletes self.old self.new numbers.now }
    {
        delete_all(
            &mut self.lists,
            &mut self.trail,
            &mut self.waiting,
            &mut self.references,
            numbers,
        );
    }

    /// Adds a clause of fewer than two literals, which waits for its visit.
    fn add_short(&mut self, lits: &[Lit], number: u64) -> Result<ClauseRef, AllocError>
        requires clause { IsClause self.old.variables lits.now }
        requires short { length lits.now < 2 }
        requires level { decided self.old.reasons ≡ 0 }
        ensures ok { IfOk result (λ clause. AddsClause self.old self.new clause lits.now number) }
        ensures err { OnErr result (self.new ≡ self.old) }
    {
        make_room(&mut self.references, number)?;
        self.waiting.reserve(1)?;
        let clause = self.lists.add_short(lits, number)?;
        self.waiting.push(clause)?;
        self.references[number as usize] = Some(clause);
        self.settled = false;
        Ok(clause)
    }

    /// Adds a clause of two or more literals. It watches the two that became false last, or aren't false.
    fn add_long(&mut self, lits: &[Lit], number: u64) -> Result<ClauseRef, AllocError>
        requires clause { IsClause self.old.variables lits.now }
        requires long { 2 ≤ length lits.now }
        requires level { (decided self.old.reasons ≡ 0) ⊎ IsAsserting self.old lits.now }
        ensures ok { IfOk result (λ clause. AddsClause self.old self.new clause lits.now number) }
        ensures err { OnErr result (self.new ≡ self.old) }
    {
        make_room(&mut self.references, number)?;
        let first = latest(&self.trail, lits, lits.len());
        let second = latest(&self.trail, lits, first);
        let clause = self
            .lists
            .add_long(lits, number, first.min(second), first.max(second))?;
        self.references[number as usize] = Some(clause);
        self.head = self.head.min(rank(&self.trail, lits[second]));
        self.settled = false;
        Ok(clause)
    }
}
