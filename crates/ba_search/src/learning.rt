//! Learning from a conflict, and the backjump.

ghost use Rattle.std.specs.Prelude.{◌≡◌, ◌<◌, ◌≤◌, None, false, get_or, IfOk, OnOk, Err};
ghost use Rattle.ba_lits.specs.Literals.{IsClause};
ghost use Rattle.ba_watch.specs.Trails.{decided};
ghost use Rattle.ba_learn.specs.Levels.{IsBacked};
ghost use Rattle.ba_learn.specs.Backjumps.{after_backtrack};
ghost use Rattle.ba_steps.specs.declared.step.CertStep.TheVariants.{Learn};
ghost use Rattle.ba_search.specs.Engines.{GoesOn, IsAtWork, IsConflict, LearnsNothing, left_in};
ghost use Rattle.ba_search.specs.Searching.{Leaves, Ran, nothing};
ghost use Rattle.ba_search.specs.Iterations.{LearnsOne};

use crate::engine::Engine;
use crate::search::SearchError;
use ba_arena::ClauseRef;
use ba_checker::ProofLog;
use ba_items::Items;
use ba_learn::Learnt;
use ba_lits::Lit;
use ba_steps::CertStep;
use std::alloc::{AllocError, Global};

/// How many times decisions may be taken back from one learnt clause to the next.
const MOST_BACKTRACKS: u64 = 1000;

impl Engine {
    /// Learns a clause from a false one, puts it as a step, and goes back to the level at which it is unit.
    pub fn learn<L: ProofLog>(
        &mut self,
        assumptions: &[Lit],
        log: &mut L,
        conflict: ClauseRef,
    ) -> Result<(), SearchError>
        requires underway { IsAtWork assumptions.now self.old (L.log log.old) }
        requires fresh { (L.log log.old).refusal ≡ None }
        requires conflict { IsConflict self.old.watch conflict }
        requires level { 1 ≤ decided self.old.watch.reasons }
        requires left { (L.log log.old).checker.conflicts < (L.log log.old).checker.budget }
        ensures less { OnOk result
            (left_in self.new (L.log log.new) < left_in self.old (L.log log.old)) }
        ensures goes_on { OnOk result (GoesOn nothing assumptions.now
            (L.log log.old) (L.log log.new) self.old self.new) }
        ensures ran { Ran result (L.log log.old) (L.log log.new) }
        ensures propagated { self.new.propagated ≡ self.old.propagated }
        ensures leaves { Leaves nothing self.old.numbers.learnt (L.log log.old) (L.log log.new) }
    {
        self.watch.keeps_facts();
        log.checker().keeps_facts();
        let learnt = self.analyser.analyse(&self.watch, conflict)?;
        self.bump(learnt.lits.as_slice());
        let step = step_of(self.alloc, &learnt)?;
        log.put(&step)?;
        self.backjump(&learnt, log.checker().last())?;
        self.since = self.since.saturating_add(1);
        self.backtracks_left = MOST_BACKTRACKS;
        self.sweep.note_conflict();
        self.candidates.note_conflict();
        Ok(())
    }

    /// Goes back to the level at which a learnt clause is unit, and adds the clause under its number.
    ///
    /// The only error is out of memory, also if the numbers run out.
    fn backjump(&mut self, learnt: &Learnt, number: u64) -> Result<(), AllocError>
        requires clause { IsClause self.old.watch.variables learnt.now.lits }
        requires backed { IsBacked self.old.watch learnt.now.lits learnt.now.back }
        requires fresh { get_or self.old.numbers.taken number false ≡ false }
        ensures learns { OnOk result (LearnsOne (after_backtrack learnt.now.back self.old.watch)
            self.new.watch self.old.numbers self.new.numbers number learnt.now.lits) }
        ensures propagated { self.new.propagated ≡ self.old.propagated }
    {
        self.watch.keeps_facts();
        self.backtrack(learnt.back);
        self.add(learnt.lits.as_slice(), number)?;
        self.numbers.learn(number)?;
        self.reduction
            .make_room_for_numbers(self.numbers.learnt().len())
    }

    /// Bumps the activities of the variables of a learnt clause, and of those above level 0 that were
    /// resolved for it.
    fn bump(&mut self, lits: &[Lit])
        ensures watch { self.new.watch ≡ self.old.watch }
        ensures numbers { self.new.numbers ≡ self.old.numbers }
        ensures learns_nothing { LearnsNothing self.old self.new }
    {
        self.order.bump(lits);
        self.order
            .bump_at(self.watch.trail(), self.analyser.resolved());
        self.order.decay();
    }
}

/// The step that learns a clause.
///
/// The only error is out of memory.
fn step_of(alloc: Global, learnt: &Learnt) -> Result<CertStep, AllocError>
    ensures { IfOk result (λ step. step ≡ Learn learnt.now.lits learnt.now.hints) }
{
    Ok(CertStep::Learn {
        lits: Items::from_slice(alloc, learnt.lits.as_slice())?,
        hints: Items::from_slice(alloc, learnt.hints.as_slice())?,
    })
}
