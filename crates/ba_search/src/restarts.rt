//! Restarts, which take all decisions back so that activities learnt since count, and the reduction at a
//! restart. Restarts are counted over all calls.

ghost use Rattle.std.specs.Prelude.{◌≡◌, ◌<◌, ◌≤◌, None, OnOk, Err};
ghost use Rattle.ba_checker.specs.StepRules.{apart_by};
ghost use Rattle.ba_search.specs.Engines.{CountsNone, GoesOn, IsAtWork, LearnsNothing, left_in};
ghost use Rattle.ba_search.specs.Searching.{Leaves, Ran};

use crate::engine::Engine;
use crate::reduction::{may_reduce, take_numbers};
use crate::rules::SearchRules;
use crate::search::SearchError;
use ba_checker::ProofLog;
use ba_items::Items;
use ba_lits::Lit;
use ba_steps::CertStep;

impl Engine {
    /// Takes all decisions back. Once enough clauses were learnt since the last deletion, it deletes those
    /// that the keep rule discards.
    pub fn restart<L: ProofLog, R: SearchRules>(
        &mut self,
        assumptions: &[Lit],
        log: &mut L,
        rules: &R,
    ) -> Result<(), SearchError>
        requires rules { R.are_rules rules.now }
        requires left { 1 ≤ self.old.backtracks_left }
        requires underway { IsAtWork assumptions.now self.old (L.log log.old) }
        requires fresh { (L.log log.old).refusal ≡ None }
        ensures less { OnOk result
            (left_in self.new (L.log log.new) < left_in self.old (L.log log.old)) }
        ensures goes_on { OnOk result (GoesOn (R.keeping rules.now) assumptions.now
            (L.log log.old) (L.log log.new) self.old self.new) }
        ensures ran { Ran result (L.log log.old) (L.log log.new) }
        ensures propagated { self.new.propagated ≡ self.old.propagated }
        ensures leaves { Leaves (R.keeping rules.now) self.old.numbers.learnt
            (L.log log.old) (L.log log.new) }
    {
        self.backtrack(0);
        self.note_restart();
        self.backtracks_left -= 1;
        if may_reduce(self.numbers.learnt(), log.checker()) {
            self.reduce(assumptions, log, rules)?;
        }
        Ok(())
    }

    /// Counts a restart.
    fn note_restart(&mut self)
        ensures watch { self.new.watch ≡ self.old.watch }
        ensures numbers { self.new.numbers ≡ self.old.numbers }
        ensures learns_nothing { LearnsNothing self.old self.new }
    {
        self.restarts = self.restarts.saturating_add(1);
        self.since = 0;
        self.sweep.note_restart();
    }

    /// Deletes the clauses that the keep rule discards.
    fn reduce<L: ProofLog, R: SearchRules>(
        &mut self,
        assumptions: &[Lit],
        log: &mut L,
        rules: &R,
    ) -> Result<(), SearchError>
        requires rules { R.are_rules rules.now }
        requires underway { IsAtWork assumptions.now self.old (L.log log.old) }
        requires learnt { apart_by ≤ (L.log log.old).checker.learnt }
        requires fresh { (L.log log.old).refusal ≡ None }
        ensures goes_on { OnOk result (GoesOn (R.keeping rules.now) assumptions.now
            (L.log log.old) (L.log log.new) self.old self.new) }
        ensures counts { OnOk result
            (CountsNone (L.log log.old) (L.log log.new) self.old self.new) }
        ensures ran { Ran result (L.log log.old) (L.log log.new) }
        ensures propagated { self.new.propagated ≡ self.old.propagated }
        ensures leaves { Leaves (R.keeping rules.now) self.old.numbers.learnt
            (L.log log.old) (L.log log.new) }
    {
        let numbers = self.reduction.discarded(
            self.alloc,
            &self.watch,
            self.numbers.learnt(),
            log.checker(),
            rules,
        );
        if numbers.is_empty() {
            self.reduction.reuse(numbers);
            return Ok(());
        }
        self.delete(numbers.as_slice());
        let mut deletion = CertStep::Delete {
            clauses: Items::from_vec(numbers),
        };
        log.put(&deletion)?;
        self.reduction
            .reuse(take_numbers(self.alloc, &mut deletion));
        Ok(())
    }
}
