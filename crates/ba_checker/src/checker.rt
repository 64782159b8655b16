//! The checker of derivations: reverse unit propagation with hints, core steps and blocked sets.

ghost use Rattle.std.specs.Prelude.{◌≡◌, ◌+◌, ◌<◌, ◌++◌, ◌==◌, ◌^◌, [], ◌∷◌, map, not, true, ltb, ◌≤◌, false, All, IfSome, IfOk, OnOk, length, option_copied};
ghost use Rattle.std.specs.List.{list_any};
ghost use Rattle.ba_lits.specs.Literals.{Literal, negate, IsClause};
ghost use Rattle.ba_lits.specs.Hints.{has_literal};
ghost use Rattle.ba_lits.specs.Satisfaction.{Soft};
ghost use Rattle.ba_steps.specs.Steps.{IsFormed, AreFormedLits, AreAbove};
ghost use Rattle.ba_checker.specs.States.{first_state, present, clause_at, is_learnt_at, kept};
ghost use Rattle.ba_checker.specs.Facts.{AreSelectors, AreAmong, AreDifferent, IsState};
ghost use Rattle.ba_checker.specs.StepRules.{Answers, Finds, Does, KeepsMemory, is_memory, is_spent, are_too_many, lacks_variable, lacks_soft, error_of, error_before_end, after, MayBeLearnt};
ghost use Rattle.ba_checker.specs.StepRules.{learn_error, core_error, delete_error, block_error, located_error, no_repair_error, too_many_error, spent_error};
ghost use Rattle.ba_checker.specs.StepRules.{after_learn, after_core, after_delete, after_block};
ghost use Rattle.ba_checker.specs.Blocks.{lacks_group};
ghost use Rattle.ba_checker.specs.declared.store.Origin.TheVariants as origins;

use crate::block::{block_clause, is_among, lacks_group, set_weight};
use crate::clauses::Clauses;
use crate::replay::{refill, replay};
use crate::split::{add_late_softs, add_split, fresh_count, lightest, lowered};
use crate::store::Origin;
use ba_choices::Choice;
use ba_items::Items;
use ba_lits::{Formula, Lit, LiteralSet};
use ba_steps::{CertStep, RunJudge, StepError};
use std::alloc::{AllocError, Global};
use std::marker::Model;

/// How many clauses are learnt before a deletion, and between two.
pub const APART_BY: u64 = 1000;

/// The state of a derivation, which steps change one after the other.
pub struct Checker {
    alloc: Global,
    variables: u64,
    clauses: Clauses,
    groups: Vec<(Lit, u32)>,
    softs: Vec<(Lit, u32)>,
    bound: u64,
    sets: Vec<Items<u32>>,
    conflicts: u64,
    budget: u64,
    learnt: u64,
    most_sets: u32,
    ended: bool,
    refused: bool,
    falses: LiteralSet,
}

impl Drop for Checker {
    fn drop(self) {
        let Checker {
            alloc: _,
            variables: _,
            clauses: _,
            groups: _,
            softs: _,
            bound: _,
            sets: _,
            conflicts: _,
            budget: _,
            learnt: _,
            most_sets: _,
            ended: _,
            refused: _,
            falses: _,
        } = self;
    }
}

impl Model for Checker {
    ghost use Rattle.ba_checker.specs.States.{State};
    ghost use Rattle.ba_checker.specs.Facts.{IsState};

    ghost Value = { State };

    ghost view = { λ c. record {
      variables = c.variables;
      clauses = c.clauses;
      groups = c.groups.items;
      softs = c.softs.items;
      bound = c.bound;
      sets = c.sets.items;
      conflicts = c.conflicts;
      budget = c.budget;
      learnt = c.learnt;
      most_sets = c.most_sets;
      ended = c.ended;
      refused = c.refused;
    } };

    ghost invariant = { λ c. IsState c.variables c.clauses c.groups.items c.softs.items
        c.conflicts c.budget c.learnt c.refused };
}

impl Checker {
    /// The state before the first step: the clauses of the formula, with numbers from 1 on, and the soft
    /// literals of a weight above 0. These are positive and of different variables of the formula.
    /// `conflicts` is the limit on Learn and Core steps, `sets` the limit on least sets.
    ///
    /// The only error is out of memory.
    pub fn new(
        alloc: Global,
        formula: &Formula,
        softs: &[(Lit, u32)],
        conflicts: u64,
        sets: u32,
    ) -> Result<Checker, AllocError>
        requires selectors { AreSelectors formula.now.variables softs.now }
        ensures { IfOk result (λ checker. checker
            ≡ first_state formula.now softs.now conflicts sets) }
    {
        let variables = formula.variables();
        let mut falses = LiteralSet::new(alloc);
        falses.grow(2 * variables as usize + 2)?;
        Ok(Checker {
            alloc,
            variables,
            clauses: given_clauses(alloc, formula, variables)?,
            groups: Vec::from_slice(alloc, softs)?,
            softs: present_softs(alloc, softs)?,
            bound: 0,
            sets: Vec::new(alloc),
            conflicts: 0,
            budget: conflicts,
            learnt: 0,
            most_sets: sets,
            ended: false,
            refused: false,
            falses,
        })
    }

    /// Takes a step. The answer is `Ok` exactly if the step is allowed, and the state is then the one after
    /// it. Else it is the first error, and the state is as before. The judge is asked only for the run of a
    /// Block step, after all other tests.
    ///
    /// `Memory` may be answered instead, if the judge or the checker runs out of memory. It is then the
    /// answer to every further step. A Delete step takes no memory.
    pub fn step<J: RunJudge>(&mut self, step: &CertStep, judge: &J) -> Result<(), StepError>
        requires formed { IsFormed step.now }
        ensures exactly { Answers (J.accepts judge.now) self.old step.now self.new result }
        ensures deletes { self.old.refused ≡ false → KeepsMemory step.now result }
    {
        if self.refused {
            return Err(StepError::Memory);
        }
        if self.ended {
            return Err(StepError::AfterEnd);
        }
        let result = self.attempt(step, judge);
        self.refused = is_memory(&result);
        result
    }

    /// Takes a step that is known to be allowed, as `step` does. The clause of a Learn step is not tested
    /// again: that it is new, and that it follows by its hints.
    ///
    /// The only error is `Memory`, which is the answer to every step from then on. A Delete step takes no
    /// memory.
    pub fn accept<J: RunJudge>(&mut self, step: &CertStep, judge: &J) -> Result<(), StepError>
        requires formed { IsFormed step.now }
        requires allowed { self.old.refused ≡ false
            → error_of (J.accepts judge.now) self.old step.now ≡ None }
        ensures exactly { Answers (J.accepts judge.now) self.old step.now self.new result }
        ensures deletes { self.old.refused ≡ false → KeepsMemory step.now result }
    {
        if self.refused {
            return Err(StepError::Memory);
        }
        let result = self.attempt_allowed(step, judge);
        self.refused = is_memory(&result);
        result
    }

    /// The present soft literals, of different variables, with their weights, all at least 1.
    pub fn softs(&self) -> &[(Lit, u32)]
        ensures softs { result.now ≡ self.now.softs }
        ensures among { AreAmong self.now.variables result.now }
        ensures differ { AreDifferent result.now }
        ensures weighty { All (λ (s : Soft). 1 ≤ s.1) result.now }
    {
        self.softs.as_slice()
    }

    /// The lower bound of every cost that the cores so far have shown.
    pub fn bound(&self) -> u64
        ensures { result ≡ self.now.bound }
    {
        self.bound
    }

    /// How many Learn and Core steps were allowed so far.
    pub fn conflicts(&self) -> u64
        ensures conflicts { result ≡ self.now.conflicts }
        ensures within { result ≤ self.now.budget }
    {
        self.conflicts
    }

    /// How many variables there are, the fresh ones of cores included.
    pub fn variables(&self) -> u64
        ensures variables { result ≡ self.now.variables }
        ensures below { result < 2 ^ 62 }
    {
        self.variables
    }

    /// The blocked sets, in the order in which they were blocked.
    pub fn sets(&self) -> &[Items<u32>]
        ensures { result.now ≡ self.now.sets }
    {
        self.sets.as_slice()
    }

    /// The limit on Learn and Core steps: the number that [`new`](Checker::new) was given.
    pub fn budget(&self) -> u64
        ensures { result ≡ self.now.budget }
    {
        self.budget
    }

    /// The greatest number of a clause given so far, or 0.
    pub fn last(&self) -> u64
        ensures { result ≡ length self.now.clauses }
    {
        self.clauses.last()
    }

    /// How many Learn steps were allowed since the last deletion or the start.
    pub fn learnt(&self) -> u64
        ensures learnt { result ≡ self.now.learnt }
        ensures within { result ≤ self.now.conflicts }
    {
        self.learnt
    }

    /// The live clause of a number; `None` exactly if there is none.
    pub fn clause(&self, number: u64) -> Option<&[Lit]>
        ensures clause { option_copied result ≡ clause_at self.now.clauses number }
        ensures formed { self.now.refused ≡ false
            → IfSome result (λ lits. IsClause self.now.variables lits.now) }
    {
        self.clauses.clause(number)
    }

    /// Whether a live clause that a Learn step made has the number.
    pub fn is_learnt(&self, number: u64) -> bool
        ensures { result ≡ is_learnt_at self.now.clauses number }
    {
        self.clauses.is_learnt(number)
    }

    /// Law: what holds of every checker. It does nothing.
    pub fn keeps_facts(&self)
        ensures { IsState self.now.variables self.now.clauses self.now.groups self.now.softs
            self.now.conflicts self.now.budget self.now.learnt self.now.refused }
    {
        let _ = &self.ended;
    }

    /// Whether the conflicts are spent.
    fn is_spent(&self) -> bool
        ensures { result ≡ is_spent self.now }
    {
        self.conflicts == self.budget
    }

    /// Takes a step while the derivation has not ended.
    fn attempt<J: RunJudge>(&mut self, step: &CertStep, judge: &J) -> Result<(), StepError>
        requires formed { IsFormed step.now }
        requires awake { self.old.refused ≡ false }
        ensures does { Does self.old self.new
            (error_before_end (J.accepts judge.now) self.old step.now) (after self.old step.now)
            result }
        ensures deletes { KeepsMemory step.now result }
    {
        match step {
            CertStep::Learn { lits, hints } => self.learn(lits.as_slice(), hints.as_slice()),
            CertStep::Core { lits, hints } => self.core(lits.as_slice(), hints.as_slice()),
            CertStep::Delete { clauses } => self.delete(clauses.as_slice()),
            CertStep::Block { groups, run } => self.block(groups.as_slice(), run.as_slice(), judge),
            CertStep::EndLocated { lits, hints } => self.end_located(
                lits.as_slice(),
                hints.as_slice(),
            ),
            CertStep::EndNoRepair { hints } => self.end_no_repair(hints.as_slice()),
            CertStep::EndTooMany => self.end_too_many(),
            CertStep::EndSpent => self.end_spent(),
        }
    }

    /// Takes an allowed step while the derivation has not ended.
    fn attempt_allowed<J: RunJudge>(&mut self, step: &CertStep, judge: &J) -> Result<(), StepError>
        requires formed { IsFormed step.now }
        requires awake { self.old.refused ≡ false }
        requires allowed { error_of (J.accepts judge.now) self.old step.now ≡ None }
        ensures does { Does self.old self.new None (after self.old step.now) result }
        ensures deletes { KeepsMemory step.now result }
    {
        match step {
            CertStep::Learn { lits, hints: _ } => self.add_learnt(lits.as_slice()),
            _ => self.attempt(step, judge),
        }
    }

    /// Takes a Learn step.
    fn learn(&mut self, lits: &[Lit], hints: &[u64]) -> Result<(), StepError>
        requires { AreFormedLits lits.now }
        ensures { Does self.old self.new (learn_error self.old lits.now hints.now)
            (after_learn self.old lits.now) result }
    {
        self.learn_error(lits, hints)?;
        self.add_learnt(lits)
    }

    /// Adds a clause that may be learnt.
    fn add_learnt(&mut self, lits: &[Lit]) -> Result<(), StepError>
        requires formed { AreFormedLits lits.now }
        requires allowed { MayBeLearnt self.old lits.now }
        ensures { Does self.old self.new None (after_learn self.old lits.now) result }
    {
        self.clauses.add(lits, Origin::Learnt)?;
        self.conflicts += 1;
        self.learnt += 1;
        Ok(())
    }

    /// The first error of a Learn step.
    fn learn_error(&mut self, lits: &[Lit], hints: &[u64]) -> Result<(), StepError>
        ensures stays { self.new ≡ self.old }
        ensures left { OnOk result (self.new.conflicts < self.new.budget) }
        ensures exists { OnOk result (lacks_variable self.old lits.now ≡ false) }
        ensures finds { Finds result (learn_error self.old lits.now hints.now) }
    {
        if lacks_variable(self.variables, lits) {
            return Err(StepError::BadVariable);
        }
        if self.is_spent() {
            return Err(StepError::WrongCount);
        }
        refill(&mut self.falses, lits)?;
        if self.clauses.holds_part(lits, &self.falses) {
            return Err(StepError::NotNew);
        }
        replay(&self.clauses, &mut self.falses, hints)
    }

    /// Takes a Core step.
    fn core(&mut self, lits: &[Lit], hints: &[u64]) -> Result<(), StepError>
        requires formed { AreFormedLits lits.now }
        requires awake { self.old.refused ≡ false }
        ensures { Does self.old self.new (core_error self.old lits.now hints.now)
            (after_core self.old lits.now) result }
    {
        self.core_error(lits, hints)?;
        self.split(lits)?;
        Ok(())
    }

    /// The first error of a Core step.
    fn core_error(&mut self, lits: &[Lit], hints: &[u64]) -> Result<(), StepError>
        ensures stays { self.new ≡ self.old }
        ensures left { OnOk result (self.new.conflicts < self.new.budget) }
        ensures exists { OnOk result (lacks_variable self.old lits.now ≡ false) }
        ensures known { OnOk result (lacks_soft self.old.softs lits.now ≡ false) }
        ensures finds { Finds result (core_error self.old lits.now hints.now) }
    {
        if lacks_variable(self.variables, lits) {
            return Err(StepError::BadVariable);
        }
        if self.is_spent() {
            return Err(StepError::WrongCount);
        }
        if !self.sets.is_empty() {
            return Err(StepError::CoreAfterSet);
        }
        if lacks_soft(&mut self.falses, self.softs.as_slice(), lits)? {
            return Err(StepError::NotSofts);
        }
        refill(&mut self.falses, lits)?;
        replay(&self.clauses, &mut self.falses, hints)
    }

    /// Splits a core.
    fn split(&mut self, lits: &[Lit]) -> Result<(), AllocError>
        requires formed { AreFormedLits lits.now }
        requires left { self.old.conflicts < self.old.budget }
        requires exists { lacks_variable self.old lits.now ≡ false }
        requires known { lacks_soft self.old.softs lits.now ≡ false }
        requires awake { self.old.refused ≡ false }
        ensures { OnOk result (self.new ≡ after_core self.old lits.now) }
    {
        self.refused = true;
        let count = lits.len() as u64;
        let room = (1 << 62) - 1 - self.variables;
        if count > room / 4 {
            return Err(AllocError);
        }
        let first = self.variables + 1;
        let variables = self.variables + fresh_count(count);
        self.falses.grow(2 * variables as usize + 2)?;
        self.clauses.grow(2 * variables as usize + 2)?;
        refill(&mut self.falses, lits)?;
        let weight = lightest(&self.falses, self.softs.as_slice()).unwrap_or(0);
        let bound = self.bound.checked_add(weight as u64).ok_or(AllocError)?;
        let mut softs = lowered(self.alloc, &self.falses, weight, self.softs.as_slice())?;
        add_late_softs(&mut softs, weight, first + count.saturating_sub(2), lits)?;
        self.clauses.add(lits, Origin::Core)?;
        add_split(&mut self.clauses, first, lits)?;
        self.softs = softs;
        self.bound = bound;
        self.variables = variables;
        self.conflicts += 1;
        self.refused = false;
        Ok(())
    }

    /// Takes a Delete step.
    fn delete(&mut self, numbers: &[u64]) -> Result<(), StepError>
        ensures does { Does self.old self.new (delete_error self.old numbers.now)
            (after_delete self.old numbers.now) result }
        ensures enough { is_memory result ≡ false }
    {
        if !self.clauses.may_all_go(numbers) {
            return Err(StepError::DeadClause);
        }
        if self.learnt < APART_BY {
            return Err(StepError::TooSoon);
        }
        self.clauses.delete(numbers);
        self.learnt = 0;
        Ok(())
    }

    /// Takes a Block step.
    fn block<J: RunJudge>(
        &mut self,
        groups: &[u32],
        run: &[Choice],
        judge: &J,
    ) -> Result<(), StepError>
        requires { AreAbove 0 groups.now }
        ensures { Does self.old self.new
            (block_error (J.accepts judge.now) self.old groups.now run.now)
            (after_block self.old groups.now) result }
    {
        self.block_error(groups, run, judge)?;
        let clause = block_clause(self.alloc, self.groups.as_slice(), groups)?;
        let set = Items::from_slice(self.alloc, groups)?;
        self.sets.push(set)?;
        self.clauses.add(clause.as_slice(), Origin::Blocked)?;
        Ok(())
    }

    /// The first error of a Block step.
    fn block_error<J: RunJudge>(
        &self,
        groups: &[u32],
        run: &[Choice],
        judge: &J,
    ) -> Result<(), StepError>
        ensures exist { OnOk result (lacks_group self.now.groups groups.now ≡ false) }
        ensures finds { Finds result
            (block_error (J.accepts judge.now) self.now groups.now run.now) }
    {
        if lacks_group(self.groups.as_slice(), groups) {
            return Err(StepError::BadVariable);
        }
        if is_among(self.sets.as_slice(), groups) {
            return Err(StepError::SetTwice);
        }
        if set_weight(self.groups.as_slice(), groups) != self.bound as u128 {
            return Err(StepError::WrongWeight);
        }
        if !judge.good(groups, run)? {
            return Err(StepError::RunNotGood);
        }
        Ok(())
    }

    /// Takes an EndLocated step.
    fn end_located(&mut self, lits: &[Lit], hints: &[u64]) -> Result<(), StepError>
        ensures { Does self.old self.new (located_error self.old lits.now hints.now)
            (record self.old { ended = true }) result }
    {
        self.located_error(lits, hints)?;
        self.ended = true;
        Ok(())
    }

    /// The first error of an EndLocated step.
    fn located_error(&mut self, lits: &[Lit], hints: &[u64]) -> Result<(), StepError>
        ensures stays { self.new ≡ self.old }
        ensures finds { Finds result (located_error self.old lits.now hints.now) }
    {
        if self.sets.is_empty() {
            return Err(StepError::WrongCount);
        }
        if self.is_spent() {
            return Err(StepError::WrongCount);
        }
        if lacks_variable(self.variables, lits) {
            return Err(StepError::BadVariable);
        }
        if lacks_soft(&mut self.falses, self.softs.as_slice(), lits)? {
            return Err(StepError::NotSofts);
        }
        refill(&mut self.falses, lits)?;
        replay(&self.clauses, &mut self.falses, hints)
    }

    /// Takes an EndNoRepair step.
    fn end_no_repair(&mut self, hints: &[u64]) -> Result<(), StepError>
        ensures { Does self.old self.new (no_repair_error self.old hints.now)
            (record self.old { ended = true }) result }
    {
        if !self.sets.is_empty() {
            return Err(StepError::WrongCount);
        }
        if self.is_spent() {
            return Err(StepError::WrongCount);
        }
        self.falses.clear();
        replay(&self.clauses, &mut self.falses, hints)?;
        self.ended = true;
        Ok(())
    }

    /// Takes an EndTooMany step.
    fn end_too_many(&mut self) -> Result<(), StepError>
        ensures { Does self.old self.new (too_many_error self.old)
            (record self.old { ended = true }) result }
    {
        if !self.are_too_many() {
            return Err(StepError::WrongCount);
        }
        self.ended = true;
        Ok(())
    }

    /// Whether the blocked sets are one more than allowed.
    fn are_too_many(&self) -> bool
        ensures { result ≡ are_too_many self.now }
    {
        self.sets.len() as u64 == self.most_sets as u64 + 1
    }

    /// Takes an EndSpent step.
    fn end_spent(&mut self) -> Result<(), StepError>
        ensures { Does self.old self.new (spent_error self.old) (record self.old { ended = true })
            result }
    {
        if !self.is_spent() {
            return Err(StepError::WrongCount);
        }
        self.ended = true;
        Ok(())
    }
}

/// Whether an answer is out of memory.
fn is_memory(answer: &Result<(), StepError>) -> bool
    ensures { result ≡ is_memory answer.now }
{
    matches!(answer, Err(StepError::Memory))
}

/// Whether a literal's variable doesn't exist.
fn lacks_variable(variables: u64, lits: &[Lit]) -> bool
    ensures { result ≡ list_any (λ (l : Literal). ltb variables l.variable) lits.now }
{
    lits.iter().any(|lit| variables < lit.variable())
}

/// Whether a literal isn't the negation of a soft literal. It overwrites the set.
fn lacks_soft(set: &mut LiteralSet, softs: &[(Lit, u32)], lits: &[Lit]) -> Result<bool, AllocError>
    ensures { IfOk result (λ lacks. lacks ≡ lacks_soft softs.now lits.now) }
{
    refill_softs(set, softs)?;
    Ok(lacks_negation(set, lits))
}

/// Whether the negation of a literal isn't a member of the set.
fn lacks_negation(set: &LiteralSet, lits: &[Lit]) -> bool
    ensures { result ≡ list_any (λ (l : Literal). not (has_literal (negate l) set.now)) lits.now }
{
    lits.iter().any(|lit| !set.contains(lit.negated()))
}

/// Fills the set with the soft literals.
fn refill_softs(set: &mut LiteralSet, softs: &[(Lit, u32)]) -> Result<(), AllocError>
    ensures { OnOk result (set.new ≡ map (λ (s : Soft). s.0) softs.now) }
{
    set.clear();
    for soft in softs {
        set.insert(soft.0)?;
    }
    Ok(())
}

/// The clauses of a formula.
fn given_clauses(alloc: Global, formula: &Formula, variables: u64) -> Result<Clauses, AllocError>
    requires { variables < 2 ^ 62 }
    ensures { IfOk result (λ clauses. clauses ≡ map (kept origins.Given) formula.now.clauses) }
{
    let mut clauses = Clauses::new(alloc);
    clauses.grow(2 * variables as usize + 2)?;
    for place in 0..formula.len() {
        clauses.add(formula.clause(place + 1), Origin::Given)?;
    }
    Ok(clauses)
}

/// The soft literals of a weight above 0.
fn present_softs(alloc: Global, softs: &[(Lit, u32)]) -> Result<Vec<(Lit, u32)>, AllocError>
    ensures { IfOk result (λ kept. kept.items ≡ present softs.now) }
{
    let mut kept = Vec::new(alloc);
    for soft in softs {
        add_present(&mut kept, *soft)?;
    }
    Ok(kept)
}

/// Adds a soft literal of a weight above 0.
fn add_present(kept: &mut Vec<(Lit, u32)>, soft: (Lit, u32)) -> Result<(), AllocError>
    ensures { OnOk result (kept.new.items ≡ kept.old.items ++ present (soft ∷ [])) }
{
    if soft.1 > 0 {
        kept.push(soft)?;
    }
    Ok(())
}
