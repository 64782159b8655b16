//! The engine of a search: the clauses with their trail, and the heuristics.

ghost use Rattle.std.specs.Prelude.{◌≡◌, ◌≢◌, ℕ, ◌≤◌, ◌⊎◌, [], Some, true, false, max, length, get_or, OnOk, Err, List};
ghost use Rattle.ba_lits.specs.Literals.{Literal, IsClause};
ghost use Rattle.ba_watch.specs.Trails.{decided};
ghost use Rattle.ba_watch.specs.Propagation.{IsAsserting};
ghost use Rattle.ba_watch.specs.Deletion.{Deletes, MayDelete};
ghost use Rattle.ba_learn.specs.Backjumps.{after_backtrack};
ghost use Rattle.ba_checker.specs.States.{clause_at};
ghost use Rattle.ba_search.specs.Iterations.{AreTaken, AddsOne, HasNumber, MarksLive, Forgets};
ghost use Rattle.ba_search.specs.Engines.{LearnsNothing};
ghost use Rattle.ba_learn.specs.Live.{AreLive};
ghost use Rattle.ba_search.specs.declared.search.SearchError.{SearchError};

use crate::candidates::Candidates;
use crate::clause_numbers::ClauseNumbers;
use crate::order::Order;
use crate::reduction::Reduction;
use crate::search::SearchError;
use crate::sweep::Sweep;
use ba_checker::Checker;
use ba_learn::Analyser;
use ba_lits::{Lit, is_clause};
use ba_watch::Watch;
use std::alloc::{AllocError, Global};

/// The clauses with their trail, and the heuristics of a search.
pub struct Engine {
    pub alloc: Global,
    pub watch: Watch,
    pub numbers: ClauseNumbers,
    pub analyser: Analyser,
    pub order: Order,
    pub candidates: Candidates,
    pub reduction: Reduction,
    pub sweep: Sweep,
    pub restarts: u64,
    /// How many clauses were learnt since the last restart.
    pub since: u64,
    /// How many times decisions may be taken back before the next clause is learnt.
    pub backtracks_left: u64,
    /// A trail index at which the first literal that is no assumption may have been decided.
    pub first_branch: usize,
    /// The level of the assumptions when that index was noted.
    pub assumption_level: usize,
    /// How many literals were assigned by propagation.
    pub propagated: u64,
}

impl Drop for Engine {
    fn drop(self) {
        let Engine {
            alloc: _,
            watch: _,
            numbers: _,
            analyser: _,
            order: _,
            candidates: _,
            reduction: _,
            sweep: _,
            restarts: _,
            since: _,
            backtracks_left: _,
            first_branch: _,
            assumption_level: _,
            propagated: _,
        } = self;
    }
}

impl Engine {
    /// No variables and no clauses. It takes no memory.
    pub fn new(alloc: Global) -> Engine
        ensures watch { result.watch ≡ record
            { variables = 0; clauses = []; trail = []; reasons = []; settled = true } }
        ensures taken { (number : ℕ) → get_or result.numbers.taken number false ≡ false }
        ensures learnt { result.numbers.learnt ≡ [] }
        ensures propagated { result.propagated ≡ 0 }
    {
        Engine {
            alloc,
            watch: Watch::new(alloc),
            numbers: ClauseNumbers::new(alloc),
            analyser: Analyser::new(alloc),
            order: Order::new(alloc),
            candidates: Candidates::new(alloc),
            reduction: Reduction::new(alloc),
            sweep: Sweep::new(alloc),
            restarts: 0,
            since: 0,
            backtracks_left: 0,
            first_branch: 0,
            assumption_level: 0,
            propagated: 0,
        }
    }

    /// Makes room for the variables up to a number.
    ///
    /// The only error is out of memory.
    pub fn grow(&mut self, variables: u64) -> Result<(), AllocError>
        ensures ok { OnOk result (self.new.watch
            ≡ record self.old.watch { variables = max self.old.watch.variables variables }) }
        ensures numbers { self.new.numbers ≡ self.old.numbers }
        ensures propagated { self.new.propagated ≡ self.old.propagated }
    {
        self.order.grow(variables)?;
        self.watch.grow(variables)
    }

    /// Removes the literals of the levels above one from the trail.
    pub fn backtrack(&mut self, level: usize)
        requires { level ≤ decided self.old.watch.reasons }
        ensures watch { self.new.watch ≡ after_backtrack level self.old.watch }
        ensures numbers { self.new.numbers ≡ self.old.numbers }
        ensures learns_nothing { LearnsNothing self.old self.new }
    {
        self.candidates.note_backtrack();
        self.order.release(&self.watch, level);
        self.watch.back_to(level);
    }

    /// Adds a clause under a number.
    ///
    /// The only error is out of memory, also if the numbers run out.
    pub fn add(&mut self, lits: &[Lit], number: u64) -> Result<(), AllocError>
        requires clause { IsClause self.old.watch.variables lits.now }
        requires level { (decided self.old.watch.reasons ≡ 0)
            ⊎ IsAsserting self.old.watch lits.now }
        requires fresh { get_or self.old.numbers.taken number false ≡ false }
        ensures adds { OnOk result (AddsOne self.old.watch self.new.watch self.old.numbers
            self.new.numbers number lits.now) }
        ensures variables { self.new.watch.variables ≡ self.old.watch.variables }
        ensures learns_nothing { LearnsNothing self.old self.new }
    {
        if number >= 1 << 62 {
            return Err(AllocError);
        }
        self.watch.add_clause(lits, number)?;
        self.reduction.make_room_for_mark(number)?;
        self.numbers.take(number)
    }

    /// Adds the clauses that a checker has and the watch hasn't.
    ///
    /// The only error is out of memory, also if the numbers run out.
    pub fn take_new(&mut self, checker: &Checker) -> Result<(), SearchError>
        requires taken { AreTaken self.old.watch.clauses self.old.numbers.taken
            (clause_at checker.now.clauses) }
        ensures numbered { OnOk result (MarksLive self.new.watch.clauses self.new.numbers.taken) }
        ensures live { OnOk result (AreLive self.new.watch.clauses
            (clause_at checker.now.clauses)) }
        ensures cause { result ≢ Err SearchError.SinkFailed }
        ensures learnt { self.new.numbers.learnt ≡ self.old.numbers.learnt }
        ensures propagated { self.new.propagated ≡ self.old.propagated }
    {
        self.grow(checker.variables())?;
        self.backtrack(0);
        Ok(self.take_all(checker)?)
    }

    /// Adds the clauses that a checker has and the watch hasn't.
    ///
    /// The only error is out of memory, also if the numbers run out.
    fn take_all(&mut self, checker: &Checker) -> Result<(), AllocError>
        requires level { decided self.old.watch.reasons ≡ 0 }
        requires taken { AreTaken self.old.watch.clauses self.old.numbers.taken
            (clause_at checker.now.clauses) }
        ensures numbered { OnOk result (MarksLive self.new.watch.clauses self.new.numbers.taken) }
        ensures live { OnOk result (AreLive self.new.watch.clauses
            (clause_at checker.now.clauses)) }
        ensures level { OnOk result (decided self.new.watch.reasons ≡ 0) }
        ensures variables { self.new.watch.variables ≡ self.old.watch.variables }
        ensures learns_nothing { LearnsNothing self.old self.new }
    {
        for place in 0..checker.last() {
            self.take_next(checker, place + 1)?;
        }
        Ok(())
    }

    /// Adds the clause of a number that a checker has, unless the watch has it or the checker has none.
    ///
    /// The only error is out of memory, also if the numbers run out.
    fn take_next(&mut self, checker: &Checker, number: u64) -> Result<(), AllocError>
        requires level { decided self.old.watch.reasons ≡ 0 }
        requires taken { AreTaken self.old.watch.clauses self.old.numbers.taken
            (clause_at checker.now.clauses) }
        ensures level { OnOk result (decided self.new.watch.reasons ≡ 0) }
        ensures taken { OnOk result (AreTaken self.new.watch.clauses self.new.numbers.taken
            (clause_at checker.now.clauses)) }
        ensures stays { (k : ℕ) → HasNumber self.old.watch.clauses k
            → OnOk result (HasNumber self.new.watch.clauses k) }
        ensures there { (given : List Literal) → clause_at checker.now.clauses number ≡ Some given
            → OnOk result (HasNumber self.new.watch.clauses number) }
        ensures variables { self.new.watch.variables ≡ self.old.watch.variables }
        ensures learns_nothing { LearnsNothing self.old self.new }
    {
        if self.numbers.is_taken(number) {
            return Ok(());
        }
        let Some(lits) = checker.clause(number) else {
            return Ok(());
        };
        if !is_clause(self.watch.variables(), lits) {
            return Err(AllocError);
        }
        self.add(lits, number)
    }

    /// Deletes the clauses of the numbers. It takes no memory.
    pub fn delete(&mut self, numbers: &[u64])
        requires { MayDelete self.old.watch numbers.now }
        ensures deletes { Deletes self.old.watch self.new.watch numbers.now }
        ensures forgets { Forgets numbers.now self.old.numbers.taken self.new.numbers.taken }
        ensures learns_nothing { LearnsNothing self.old self.new }
    {
        self.watch.delete(numbers);
        self.numbers.forget(numbers);
    }
}
