//! Decisions when no clause is false or unit, and the answers when nothing is left to decide.

ghost use Rattle.std.specs.Prelude.{◌≡◌, ◌≢◌, ℕ, ◌<◌, ◌≤◌, ◌^◌, None, Some, true, false, is_none, length, IfOk, IfSome, IfNone, List};
ghost use Rattle.ba_lits.specs.Literals.{Literal, lit_at, positive};
ghost use Rattle.ba_lits.specs.Hints.{has_literal};
ghost use Rattle.ba_watch.specs.Trails.{value_of, decided};
ghost use Rattle.ba_watch.specs.Propagation.{IsComplete};
ghost use Rattle.ba_checker.specs.States.{State as Checking};
ghost use Rattle.ba_search.specs.Answers.{AreAssumptions};
ghost use Rattle.ba_search.specs.Engines.{Decides, LearnsNothing};
ghost use Rattle.ba_search.specs.Values.{is_true, values_of, IsUnassigned};
ghost use Rattle.ba_search.specs.Iterations.{AreTrue, IsDecision, IsUnderway, iterations_left};

use crate::candidates::Candidates;
use crate::engine::Engine;
use crate::iteration::is_spent;
use crate::order::Order;
use crate::search::Answer;
use crate::sweep::Sweep;
use ba_checker::Checker;
use ba_items::Items;
use ba_lits::{Lit, Model as Assignment};
use ba_watch::Watch;
use std::alloc::{AllocError, Global};

impl Engine {
    /// Decides or answers when no clause is false or unit. `None` if the search isn't over.
    ///
    /// The only error is out of memory.
    pub fn decide(
        &mut self,
        assumptions: &[Lit],
        checker: &Checker,
    ) -> Result<Option<Answer>, AllocError>
        requires underway { IsUnderway assumptions.now self.old.watch self.old.numbers checker.now }
        requires assumptions { AreAssumptions checker.now.variables assumptions.now }
        requires settled { self.old.watch.settled ≡ true }
        requires complete { IsComplete self.old.watch.clauses self.old.watch.trail }
        ensures { Decides assumptions.now checker.now result self.old self.new }
    {
        checker.keeps_facts();
        if self.has_branched(assumptions) {
            return self.branch(assumptions, checker);
        }
        match first_untrue(&self.watch, assumptions) {
            Some(assumption) => self.assume(assumptions, checker, assumption),
            None => {
                self.first_branch = self.watch.trail().len();
                self.assumption_level = self.watch.level();
                self.branch(assumptions, checker)
            }
        }
    }

    /// Whether a literal that is no assumption was decided at the noted trail index. All assumptions are true
    /// then.
    fn has_branched(&self, assumptions: &[Lit]) -> bool
        ensures { result ≡ true → (checker : Checking)
            → IsUnderway assumptions.now self.now.watch self.now.numbers checker
            → AreTrue self.now.watch.trail assumptions.now }
    {
        let trail = self.watch.trail();
        let reasons = self.watch.reasons();
        let place = self.first_branch;
        if place >= trail.len() || place >= reasons.len() {
            return false;
        }
        reasons[place].is_none() && !is_among(trail[place], assumptions)
    }

    /// Decides a literal.
    fn decide_literal(&mut self, lit: Lit)
        requires settled { self.old.watch.settled ≡ true }
        requires within { lit.variable ≤ self.old.watch.variables }
        requires free { value_of self.old.watch.trail lit ≡ None }
        ensures underway { (assumptions : List Literal) (checker : Checking)
            → IsDecision checker.variables assumptions self.old.watch.trail lit
            → IsUnderway assumptions self.old.watch self.old.numbers checker
            → IsUnderway assumptions self.new.watch self.new.numbers checker }
        ensures less { (checker : Checking)
            → iterations_left checker self.new.backtracks_left self.new.watch
            < iterations_left checker self.old.backtracks_left self.old.watch }
        ensures numbers { self.new.numbers ≡ self.old.numbers }
        ensures learns_nothing { LearnsNothing self.old self.new }
    {
        self.watch.keeps_facts();
        self.watch.decide(lit);
        self.watch.keeps_facts();
    }

    /// Decides an assumption without a value, or answers if one is false.
    ///
    /// The only error is out of memory.
    fn assume(
        &mut self,
        assumptions: &[Lit],
        checker: &Checker,
        assumption: Lit,
    ) -> Result<Option<Answer>, AllocError>
        requires underway { IsUnderway assumptions.now self.old.watch self.old.numbers checker.now }
        requires assumptions { AreAssumptions checker.now.variables assumptions.now }
        requires settled { self.old.watch.settled ≡ true }
        requires one { has_literal assumption assumptions.now ≡ true }
        requires untrue { value_of self.old.watch.trail assumption ≢ Some true }
        ensures { Decides assumptions.now checker.now result self.old self.new }
    {
        self.watch.keeps_facts();
        if self.watch.value(assumption).is_none() {
            self.decide_literal(assumption);
            return Ok(None);
        }
        if is_spent(checker) {
            return Ok(Some(Answer::Spent));
        }
        let core = self.analyser.core_of(&self.watch, assumption)?;
        self.candidates.set(core.lits.as_slice())?;
        Ok(Some(Answer::Core(core)))
    }

    /// Decides a variable without a value, or answers if all have one.
    ///
    /// The only error is out of memory.
    fn branch(
        &mut self,
        assumptions: &[Lit],
        checker: &Checker,
    ) -> Result<Option<Answer>, AllocError>
        requires underway { IsUnderway assumptions.now self.old.watch self.old.numbers checker.now }
        requires settled { self.old.watch.settled ≡ true }
        requires complete { IsComplete self.old.watch.clauses self.old.watch.trail }
        requires assumptions { AreAssumptions checker.now.variables assumptions.now }
        requires true_ { AreTrue self.old.watch.trail assumptions.now }
        ensures { Decides assumptions.now checker.now result self.old self.new }
    {
        checker.keeps_facts();
        let left = self.backtracks_left;
        let sweep = &mut self.sweep;
        let candidates = &mut self.candidates;
        let over = level_to_leave(sweep, candidates, &self.watch, self.assumption_level, left);
        if let Some(level) = over {
            self.leave(level);
            return Ok(None);
        }
        let variables = checker.variables();
        let order = &mut self.order;
        let candidates = &mut self.candidates;
        let sweep = &mut self.sweep;
        let picked = pick(
            self.alloc,
            order,
            candidates,
            sweep,
            &self.watch,
            checker,
            variables,
        )?;
        if let Some(variable) = picked {
            let lit = literal(variable, self.order.phase(variable));
            self.decide_literal(lit);
            return Ok(None);
        }
        self.candidates.note_model();
        let model = model_of(self.alloc, &self.watch, variables)?;
        Ok(Some(Answer::Model(model)))
    }

    /// Takes back the decisions above a level: those of a trial of a sweep, or of a candidate's turn.
    fn leave(&mut self, level: usize)
        requires level { level ≤ decided self.old.watch.reasons }
        requires left { 1 ≤ self.old.backtracks_left }
        ensures underway { (assumptions : List Literal) (checker : Checking)
            → IsUnderway assumptions self.old.watch self.old.numbers checker
            → IsUnderway assumptions self.new.watch self.new.numbers checker }
        ensures less { (checker : Checking)
            → iterations_left checker self.new.backtracks_left self.new.watch
            < iterations_left checker self.old.backtracks_left self.old.watch }
        ensures numbers { self.new.numbers ≡ self.old.numbers }
        ensures propagated { self.new.propagated ≡ self.old.propagated }
    {
        self.backtrack(level);
        self.backtracks_left -= 1;
    }
}

/// The level to go back to. It is the one at which an ended trial of a hypothesis began, or that of the
/// assumptions after a candidate's turn. `None` if they go on, or if no decisions may be taken back. A sweep
/// runs under one candidate, so its turn doesn't end then.
fn level_to_leave(
    sweep: &mut Sweep,
    candidates: &mut Candidates,
    watch: &Watch,
    assumption_level: usize,
    backtracks_left: u64,
) -> Option<usize>
    ensures level { IfSome result (λ level. level ≤ decided watch.now.reasons) }
    ensures left { IfSome result (λ level. 1 ≤ backtracks_left) }
{
    if let Some(level) = sweep.level_after_trial(watch, backtracks_left) {
        return Some(level);
    }
    if backtracks_left == 0 || sweep.is_running() || !candidates.ends_turn() {
        return None;
    }
    sweep.note_restart();
    Some(assumption_level.min(watch.level()))
}

/// The variable without a value, up to a limit, that is decided next, with its phase. It is a candidate's, or
/// one that a sweep asks for, or the most active one. `None` exactly if all have values.
///
/// The only error is out of memory.
fn pick(
    alloc: Global,
    order: &mut Order,
    candidates: &mut Candidates,
    sweep: &mut Sweep,
    watch: &Watch,
    checker: &Checker,
    limit: u64,
) -> Result<Option<u64>, AllocError>
    requires { limit ≤ watch.now.variables }
    ensures some { IfOk result (λ picked. IfSome picked (IsUnassigned watch.now.trail limit)) }
    ensures none { IfOk result (λ picked. IfNone picked ((variable : ℕ) → 1 ≤ variable
        → variable ≤ limit → is_none (value_of watch.now.trail (positive variable)) ≡ false)) }
{
    if let Some(lit) = candidates.next(watch, limit) {
        order.set_phase(lit);
        return Ok(Some(lit.variable()));
    }
    sweep.prepare(alloc, watch, checker)?;
    let wanted = sweep.literal_to_try(watch);
    Ok(order.pick(watch, limit, wanted))
}

/// The first assumption that isn't true.
fn first_untrue(watch: &Watch, assumptions: &[Lit]) -> Option<Lit>
    requires { (k : ℕ) → k < length assumptions.now
        → (lit_at assumptions.now k).variable ≤ watch.now.variables }
    ensures one { IfSome result (λ lit. has_literal lit assumptions.now ≡ true) }
    ensures untrue { IfSome result (λ lit. value_of watch.now.trail lit ≢ Some true) }
    ensures none { IfNone result (AreTrue watch.now.trail assumptions.now) }
{
    for lit in assumptions {
        if !is_true(watch, *lit) {
            return Some(*lit);
        }
    }
    None
}

/// Whether a literal is among others.
fn is_among(lit: Lit, lits: &[Lit]) -> bool
    ensures { result ≡ has_literal lit lits.now }
{
    for other in lits {
        if other.index() == lit.index() {
            return true;
        }
    }
    false
}

/// Whether a literal is true.
fn is_true(watch: &Watch, lit: Lit) -> bool
    requires { lit.variable ≤ watch.now.variables }
    ensures { result ≡ is_true (value_of watch.now.trail lit) }
{
    watch.value(lit) == Some(true)
}

/// The literal of a variable that is true if the variable has this value.
fn literal(variable: u64, value: bool) -> Lit
    requires counted { 1 ≤ variable }
    requires below { variable < 2 ^ 62 }
    ensures variable { result.variable ≡ variable }
    ensures free { (trail : List Literal) → value_of trail (positive variable) ≡ None
        → value_of trail result ≡ None }
{
    let lit = Lit::positive(variable);
    if value { lit } else { lit.negated() }
}

/// The values of the variables up to a number.
///
/// The only error is out of memory.
fn model_of(alloc: Global, watch: &Watch, variables: u64) -> Result<Assignment, AllocError>
    requires { variables ≤ watch.now.variables }
    ensures { IfOk result (λ model. model.values ≡ values_of watch.now.trail variables) }
{
    let mut values = Vec::new(alloc);
    for place in 0..variables {
        values.push(is_positive(watch, place + 1))?;
    }
    Ok(Assignment {
        values: Items::from_vec(values),
    })
}

/// Whether a variable is true.
fn is_positive(watch: &Watch, variable: u64) -> bool
    requires counted { 1 ≤ variable }
    requires within { variable ≤ watch.now.variables }
    ensures { result ≡ is_true (value_of watch.now.trail (positive variable)) }
{
    let variables = watch.variables();
    is_true(watch, Lit::positive(variable.min(variables)))
}
