//! The search.

ghost use Rattle.std.specs.Prelude.{◌≡◌, ◌≤◌, None, Some, IfOk, IsSome, OnOk, Err};
ghost use Rattle.ba_checker.specs.States.{clause_at};
ghost use Rattle.ba_search.specs.Rules.{IsKeepRule, IsRestartRule};
ghost use Rattle.ba_search.specs.Searching.{ArePart, HasSolved, HasTaken, KeepsError, Leaves, MaySolve, Puts, RanSearch, Starts, StaysIdle};
ghost use Rattle.ba_search.specs.Answers.{IsAnswer};
ghost use Rattle.ba_search.specs.Iterations.{failure_of};

use crate::engine::Engine;
use crate::rules::{RulesBy, SearchRules};
use ba_checker::ProofLog;
use ba_learn::Learnt;
use ba_lits::{Formula, Lit, Model as Assignment};
use ba_steps::SinkError;
use std::alloc::{AllocError, Global};
use std::marker::Model;
use thiserror::Error;

/// The answer of a search under assumptions.
#[derive(Drop)]
pub enum Answer {
    /// An assignment of all variables that satisfies every live clause and the assumptions.
    Model(Assignment),
    /// A clause that follows by its hints from the live clauses and negates assumptions alone. It isn't put
    /// as a step yet.
    Core(Learnt),
    /// The stated number of conflicts is spent.
    Spent,
}

/// Why a search gives up. It answers the same error from then on.
#[derive(Clone, Copy, Debug, PartialEq, Eq, Error)]
pub enum SearchError {
    /// The sink of steps failed.
    #[error("the sink failed")]
    SinkFailed,
    /// Out of memory.
    #[error("out of memory")]
    Memory,
}

impl From<AllocError> for SearchError {
    ghost use Rattle.std.specs.Prelude.{◌≡◌};
    ghost use Rattle.ba_search.specs.declared.search.SearchError.TheVariants.{Memory};

    ghost from_gives = { λ _ error. error ≡ Memory };

    fn from(_error: AllocError) -> SearchError {
        SearchError::Memory
    }
}

impl From<SinkError> for SearchError {
    ghost use Rattle.std.specs.Prelude.{◌≡◌};
    ghost use Rattle.ba_search.specs.Iterations.{error_of_sink};

    ghost from_gives = { λ refusal error. error ≡ error_of_sink refusal };

    fn from(refusal: SinkError) -> SearchError {
        match refusal {
            SinkError::Failed => SearchError::SinkFailed,
            SinkError::Memory => SearchError::Memory,
        }
    }
}

/// The error of an answer.
fn failure_of<T>(answer: &Result<T, SearchError>) -> Option<SearchError>
    ensures { result ≡ failure_of answer.now }
{
    match answer {
        Ok(_) => None,
        Err(error) => Some(*error),
    }
}

/// A search over the clauses of a checker, by rules.
pub struct Search<R> {
    engine: Engine,
    rules: R,
    failure: Option<SearchError>,
}

impl<R: Drop> Drop for Search<R> {
    fn drop(self) {
        let Search {
            engine: _,
            rules: _,
            failure: _,
        } = self;
    }
}

impl<R> Model for Search<R> {
    ghost use Rattle.std.specs.Prelude.{◌≡◌, None};
    ghost use Rattle.ba_search.specs.Searching.{Searching};
    ghost use Rattle.ba_search.specs.Iterations.{MarksLive};

    ghost Value = { Searching R };

    ghost view = { λ s. record {
      variables = s.engine.watch.variables;
      clauses =
          s.engine.watch.clauses;
      learnt = s.engine.numbers.learnt;
      rules = s.rules;
      failure = s.failure;
      propagated = s.engine.propagated;
    } };

    ghost invariant = { λ s. s.failure ≡ None
        → MarksLive s.engine.watch.clauses s.engine.numbers.taken };
}

impl<R: Fn(u64) -> u64 + Drop, K: Fn(u64, u64) -> bool + Drop> Search<RulesBy<R, K>> {
    /// A search over the clauses of a formula, with numbers from 1 on, by the rules of these functions.
    ///
    /// The only error is out of memory.
    pub fn new(
        alloc: Global,
        formula: &Formula,
        restart: R,
        keep: K,
    ) -> Result<Search<RulesBy<R, K>>, AllocError>
        requires restart { IsRestartRule (R.pre restart) (R.post restart) }
        requires keep { IsKeepRule (K.pre keep) (K.post keep) }
        ensures starts { IfOk result (Starts formula.now) }
        ensures restart { IfOk result (λ search. search.rules.restart ≡ restart) }
        ensures keep { IfOk result (λ search. search.rules.keep ≡ keep) }
    {
        Search::by_rules(alloc, formula, RulesBy { restart, keep })
    }
}

impl<R: SearchRules + Drop> Search<R> {
    /// A search over the clauses of a formula, with numbers from 1 on, by these rules.
    ///
    /// The only error is out of memory.
    pub fn by_rules(alloc: Global, formula: &Formula, rules: R) -> Result<Search<R>, AllocError>
        requires rules { R.are_rules rules }
        ensures starts { IfOk result (Starts formula.now) }
        ensures rules { IfOk result (λ search. search.rules ≡ rules) }
    {
        let mut engine = Engine::new(alloc);
        engine.grow(formula.variables())?;
        for place in 0..formula.len() {
            engine.add(formula.clause(place + 1), place + 1)?;
        }
        Ok(Search {
            engine,
            rules,
            failure: None,
        })
    }

    /// Adds the clauses that the checker has and the search hasn't, each once.
    ///
    /// The only new error is out of memory. A search that answered an error answers it from then on.
    pub fn take_new<L: ProofLog>(&mut self, log: &L) -> Result<(), SearchError>
        requires part { self.old.failure ≡ None
            → ArePart self.old.clauses (clause_at (L.log log.now).checker.clauses) }
        ensures taken { OnOk result (HasTaken self.new (L.log log.now)) }
        ensures keeps { KeepsError result self.old self.new }
        ensures cause { result ≡ Err SearchError.SinkFailed → self.old.failure
            ≡ Some SearchError.SinkFailed }
        ensures stays { StaysIdle self.old self.new }
    {
        if let Some(failure) = self.failure {
            return Err(failure);
        }
        let result = self.engine.take_new(log.checker());
        self.failure = failure_of(&result);
        result
    }

    /// How many literals propagation has assigned so far, for measurements. It never falls; only tests show
    /// that it counts all.
    pub fn propagated(&self) -> u64
        ensures { result ≡ self.now.propagated }
    {
        self.engine.propagated
    }

    /// Searches for a model of the live clauses under the assumptions. Each learnt clause is put as a step,
    /// and so is each deletion, which comes at a restart. Conflicts count until the checker's stated number
    /// is spent.
    ///
    /// `SinkFailed` comes only if the sink's faults rose, `Memory` if memory runs out. A search that answered
    /// an error answers it from then on. Steps that were put before an error stay put.
    pub fn solve<L: ProofLog>(
        &mut self,
        assumptions: &[Lit],
        log: &mut L,
    ) -> Result<Answer, SearchError>
        requires rules { R.are_rules self.old.rules }
        requires ready { self.old.failure ≡ None
            → MaySolve assumptions.now self.old (L.log log.old) }
        ensures answer { IfOk result (IsAnswer (L.log log.new).checker assumptions.now) }
        ensures solved { OnOk result (HasSolved self.new (L.log log.new)) }
        ensures steps { OnOk result (Puts (R.keeping self.old.rules) self.old.learnt self.new.learnt
            (L.log log.old) (L.log log.new)) }
        ensures leaves { Leaves (R.keeping self.old.rules) self.old.learnt
            (L.log log.old) (L.log log.new) }
        ensures ran { RanSearch result self.old self.new (L.log log.old) (L.log log.new) }
        ensures keeps { KeepsError result self.old self.new }
        ensures again { IsSome self.old.failure → log.new ≡ log.old }
    {
        if let Some(failure) = self.failure {
            return Err(failure);
        }
        let result = self.engine.search(assumptions, log, &self.rules);
        self.failure = failure_of(&result);
        result
    }
}
