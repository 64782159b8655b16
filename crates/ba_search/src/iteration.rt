//! The loop of a search: propagate, then learn, restart or decide.

ghost use Rattle.std.specs.Prelude.{◌≡◌, ◌<◌, ◌≤◌, None, true, false, IfOk, IfSome, IfNone, IsSome, OnOk, Err, List};
ghost use Rattle.ba_lits.specs.Literals.{Literal};
ghost use Rattle.ba_watch.specs.Trails.{value_of, decided};
ghost use Rattle.ba_watch.specs.Propagation.{clause_in, lits_in, is_false, IsComplete};
ghost use Rattle.ba_checker.specs.States.{State, clause_at};
ghost use Rattle.ba_search.specs.Answers.{AreAssumptions, IsAnswer};
ghost use Rattle.ba_search.specs.Engines.{ComesTo, GoesOn, IsAtWork, IsConflict, LearnsNothing, MaySearch, left_in};
ghost use Rattle.ba_search.specs.Searching.{Leaves, Puts, Ran};
ghost use Rattle.ba_search.specs.Iterations.{IsUnderway, iterations_left};
ghost use Rattle.ba_learn.specs.Live.{AreLive};

use crate::engine::Engine;
use crate::rules::SearchRules;
use crate::search::{Answer, SearchError};
use ba_arena::ClauseRef;
use ba_checker::{Checker, ProofLog};
use ba_items::Items;
use ba_learn::Learnt;
use ba_lits::Lit;
use std::alloc::AllocError;

impl Engine {
    /// Searches for a model of the live clauses under the assumptions.
    ///
    /// `SinkFailed` comes only if the sink's faults rose, `Memory` if memory runs out.
    pub fn search<L: ProofLog, R: SearchRules>(
        &mut self,
        assumptions: &[Lit],
        log: &mut L,
        rules: &R,
    ) -> Result<Answer, SearchError>
        requires rules { R.are_rules rules.now }
        requires ready { MaySearch assumptions.now self.old (L.log log.old) }
        ensures answer { IfOk result (IsAnswer (L.log log.new).checker assumptions.now) }
        ensures underway { OnOk result (IsAtWork assumptions.now self.new (L.log log.new)) }
        ensures puts { OnOk result (Puts (R.keeping rules.now) self.old.numbers.learnt
            self.new.numbers.learnt (L.log log.old) (L.log log.new)) }
        ensures ran { Ran result (L.log log.old) (L.log log.new) }
        ensures propagated { self.old.propagated ≤ self.new.propagated }
        ensures leaves { Leaves (R.keeping rules.now) self.old.numbers.learnt
            (L.log log.old) (L.log log.new) }
    {
        if log.checker().last() >= 1 << 62 {
            return Err(SearchError::Memory);
        }
        self.grow(log.checker().variables())?;
        self.backtrack(0);
        self.order.begin(self.alloc, log.checker(), assumptions);
        self.sweep.reset();
        self.candidates.reset();
        self.watch.keeps_facts();
        'iterations: loop {
            if let Some(answer) = self.iterate(assumptions, log, rules)? {
                return Ok(answer);
            }
        }
    }

    /// Propagates, and learns from a false clause or decides if there is none. `None` if the search isn't
    /// over.
    fn iterate<L: ProofLog, R: SearchRules>(
        &mut self,
        assumptions: &[Lit],
        log: &mut L,
        rules: &R,
    ) -> Result<Option<Answer>, SearchError>
        requires rules { R.are_rules rules.now }
        requires underway { IsAtWork assumptions.now self.old (L.log log.old) }
        requires fresh { (L.log log.old).refusal ≡ None }
        requires assumptions { AreAssumptions (L.log log.old).checker.variables assumptions.now }
        ensures comes { IfOk result (ComesTo assumptions.now
            (L.log log.old) self.old (L.log log.new) self.new) }
        ensures goes_on { OnOk result (GoesOn (R.keeping rules.now) assumptions.now
            (L.log log.old) (L.log log.new) self.old self.new) }
        ensures ran { Ran result (L.log log.old) (L.log log.new) }
        ensures propagated { self.old.propagated ≤ self.new.propagated }
        ensures leaves { Leaves (R.keeping rules.now) self.old.numbers.learnt
            (L.log log.old) (L.log log.new) }
    {
        let Some(conflict) = self.propagate() else {
            if self.backtracks_left > 0 && is_due(rules, self.restarts, self.since) {
                self.restart(assumptions, log, rules)?;
                return Ok(None);
            }
            return Ok(self.decide(assumptions, log.checker())?);
        };
        if let Some(answer) = self.conclude(assumptions, log.checker(), conflict)? {
            return Ok(Some(answer));
        }
        self.learn(assumptions, log, conflict)?;
        Ok(None)
    }

    /// Propagates, counts the literals, and gives a false clause if there is one.
    fn propagate(&mut self) -> Option<ClauseRef>
        ensures underway { (assumptions : List Literal) (checker : State)
            → IsUnderway assumptions self.old.watch self.old.numbers checker
            → IsUnderway assumptions self.new.watch self.new.numbers checker }
        ensures less { (checker : State)
            → iterations_left checker self.new.backtracks_left self.new.watch
            ≤ iterations_left checker self.old.backtracks_left self.old.watch }
        ensures none { IfNone result ((self.new.watch.settled ≡ true)
            × IsComplete self.new.watch.clauses self.new.watch.trail) }
        ensures some { IfSome result (IsConflict self.new.watch) }
        ensures numbers { self.new.numbers ≡ self.old.numbers }
        ensures propagated { self.old.propagated ≤ self.new.propagated }
    {
        self.watch.keeps_facts();
        let before = self.watch.trail().len();
        let conflict = self.watch.propagate();
        self.watch.keeps_facts();
        let assigned = self.watch.trail().len().saturating_sub(before);
        self.propagated = self.propagated.saturating_add(assigned as u64);
        conflict
    }

    /// The answer after a false clause if no conflict may follow, or nothing was decided. `None` if there is
    /// a clause to learn.
    ///
    /// The only error is out of memory.
    fn conclude(
        &mut self,
        assumptions: &[Lit],
        checker: &Checker,
        conflict: ClauseRef,
    ) -> Result<Option<Answer>, AllocError>
        requires underway { IsUnderway assumptions.now self.old.watch self.old.numbers checker.now }
        requires conflict { IsConflict self.old.watch conflict }
        ensures answer { IfOk result (λ found.
            IfSome found (IsAnswer checker.now assumptions.now)) }
        ensures left { IfOk result (λ found.
            IfNone found (checker.now.conflicts < checker.now.budget)) }
        ensures level { IfOk result (λ found. IfNone found (1 ≤ decided self.old.watch.reasons)) }
        ensures watch { self.new.watch ≡ self.old.watch }
        ensures numbers { self.new.numbers ≡ self.old.numbers }
        ensures learns_nothing { LearnsNothing self.old self.new }
    {
        if is_spent(checker) {
            return Ok(Some(Answer::Spent));
        }
        if self.watch.level() > 0 {
            return Ok(None);
        }
        let hints = self.analyser.refutation(&self.watch, conflict)?;
        Ok(Some(Answer::Core(Learnt {
            lits: Items::new(self.alloc),
            hints: Items::from_vec(hints),
            back: 0,
        })))
    }
}

/// Whether no conflict may follow.
pub fn is_spent(checker: &Checker) -> bool
    ensures spent { result ≡ true → checker.now.conflicts ≡ checker.now.budget }
    ensures left { result ≡ false → checker.now.conflicts < checker.now.budget }
{
    checker.conflicts() == checker.budget()
}

/// Whether a restart is due.
fn is_due<R: SearchRules>(rules: &R, restarts: u64, since: u64) -> bool
    requires rules { R.are_rules rules.now }
{
    since >= rules.restart(restarts)
}
