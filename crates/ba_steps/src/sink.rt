//! Sinks of steps.

ghost use Rattle.std.specs.Prelude.{◌≡◌, ◌≢◌, ◌∷◌, ◌++◌, [], Ok, Err, OnOk, OnErr};
ghost use Rattle.ba_lits.specs.Satisfaction.{Soft};
ghost use Rattle.ba_lits.specs.Formulas.{Cnf};
ghost use Rattle.ba_steps.specs.Lists.{told_by_list};
ghost use Rattle.ba_steps.specs.Steps.{IsFormed};
ghost use Rattle.ba_steps.specs.Sinks.{Begins, RefusesInTurn, StopsInTurn, Takes, Told, basis, told_by_both, untold, with_told};

use crate::step::CertStep;
use ba_items::{Items, TryClone};
use ba_lits::{Formula, Lit};
use std::alloc::{AllocError, AllocFailed, Global};
use std::marker::Model;
use thiserror::Error;

/// Why a sink refuses.
#[derive(Clone, Copy, Debug, PartialEq, Eq, Error)]
pub enum SinkError {
    /// What the sink writes to failed.
    #[error("the sink failed")]
    Failed,
    /// Out of memory.
    #[error("out of memory")]
    Memory,
}

impl From<AllocError> for SinkError {
    ghost use Rattle.std.specs.Prelude.{◌≡◌};
    ghost use Rattle.ba_steps.specs.declared.sink.SinkError.TheVariants.{Memory};

    ghost from_gives = { λ _ error. error ≡ Memory };

    fn from(_error: AllocError) -> SinkError {
        SinkError::Memory
    }
}

impl<T: Drop> From<AllocFailed<T>> for SinkError {
    ghost use Rattle.std.specs.Prelude.{◌≡◌};
    ghost use Rattle.ba_steps.specs.declared.sink.SinkError.TheVariants.{Memory};

    ghost from_gives = { λ _ error. error ≡ Memory };

    fn from(_error: AllocFailed<T>) -> SinkError {
        SinkError::Memory
    }
}

/// A formula with its soft literals, over which steps are taken.
pub struct Basis {
    pub formula: Formula,
    pub softs: Items<(Lit, u32)>,
}

impl Drop for Basis {
    fn drop(self) {
        let Basis {
            formula: _,
            softs: _,
        } = self;
    }
}

/// A sink takes formulas, and after each formula steps over it.
pub trait StepSink {
    // What the sink tells.
    ghost told: { Self → Told };

    /// Begins a formula with its soft literals; steps over it follow. A refusal may leave them told.
    fn begin(&mut self, formula: &Formula, softs: &[(Lit, u32)]) -> Result<(), SinkError>
        ensures { Begins (basis formula.now softs.now) result (told self.old) (told self.new) };

    /// Takes a step. A refusal may leave it in some of the logs.
    fn take(&mut self, step: &CertStep) -> Result<(), SinkError>
        requires formed { IsFormed step.now }
        ensures { Takes step.now result (told self.old) (told self.new) };
}

/// A sink that drops its formulas and steps. It has no log, tells nothing and never fails.
#[derive(Clone, Copy, Debug, Drop)]
pub struct NoSink;

impl StepSink for NoSink {
    ghost told = { λ _. untold };

    fn begin(&mut self, formula: &Formula, softs: &[(Lit, u32)]) -> Result<(), SinkError>
        ensures never { result ≡ Ok tt }
    {
        Ok(())
    }

    fn take(&mut self, step: &CertStep) -> Result<(), SinkError>
        ensures never { result ≡ Ok tt }
    {
        Ok(())
    }
}

/// A sink that keeps its formulas and steps, and tells them.
pub struct ListSink {
    alloc: Global,
    steps: Vec<CertStep>,
    over: Vec<Basis>,
}

impl Drop for ListSink {
    fn drop(self) {
        let ListSink {
            alloc: _,
            steps: _,
            over: _,
        } = self;
    }
}

impl Model for ListSink {
    ghost use Rattle.ba_steps.specs.Lists.{Listing};

    ghost Value = { Listing };

    ghost view = { λ s. record { steps = s.steps.items; over = s.over.items } };
}

impl ListSink {
    /// A sink that has taken nothing. It takes no memory.
    pub fn new(alloc: Global) -> ListSink
        ensures { result ≡ record { steps = []; over = [] } }
    {
        ListSink {
            alloc,
            steps: Vec::new(alloc),
            over: Vec::new(alloc),
        }
    }

    /// The steps in the order in which they were taken.
    pub fn steps(&self) -> &[CertStep]
        ensures { result.now ≡ self.now.steps }
    {
        self.steps.as_slice()
    }

    /// The formulas with their soft literals, in the order in which they were begun.
    pub fn over(&self) -> &[Basis]
        ensures { result.now ≡ self.now.over }
    {
        self.over.as_slice()
    }
}

impl StepSink for ListSink {
    ghost told = { told_by_list };

    fn begin(&mut self, formula: &Formula, softs: &[(Lit, u32)]) -> Result<(), SinkError>
        ensures kept { OnOk result (self.new
            ≡ record self.old { over = self.old.over ++ basis formula.now softs.now ∷ [] }) }
        ensures unchanged { OnErr result (self.new ≡ self.old) }
        ensures never { result ≢ Err SinkError.Failed }
    {
        let formula = formula.try_clone(self.alloc)?;
        let softs = Items::from_slice(self.alloc, softs)?;
        self.over.push(Basis { formula, softs })?;
        Ok(())
    }

    fn take(&mut self, step: &CertStep) -> Result<(), SinkError>
        ensures kept { OnOk result (self.new
            ≡ record self.old { steps = self.old.steps ++ step.now ∷ [] }) }
        ensures unchanged { OnErr result (self.new ≡ self.old) }
        ensures never { result ≢ Err SinkError.Failed }
    {
        self.steps.push(step.try_clone(self.alloc)?)?;
        Ok(())
    }
}

/// A sink that hands each formula and step to `first`, and then to `second`. It tells the formulas of
/// `second`. Its logs are those of `first`, followed by those of `second`.
#[derive(Drop)]
pub struct Both<'a, A, D> {
    pub first: A,
    pub second: &'a mut D,
}

impl<'a, A: StepSink, D: StepSink> StepSink for Both<'a, A, D> {
    ghost told = { λ s. told_by_both s.second.ghost_name (A.told s.first) (D.told s.second.now) };

    fn begin(&mut self, formula: &Formula, softs: &[(Lit, u32)]) -> Result<(), SinkError>
        ensures begins { Begins (basis formula.now softs.now) result
            (told_by_both self.old.second.ghost_name (A.told self.old.first)
            (D.told self.old.second.now))
            (told_by_both self.new.second.ghost_name (A.told self.new.first)
            (D.told self.new.second.now)) }
        ensures first { OnOk result ((A.told self.new.first).over
            ≡ with_told (basis formula.now softs.now) (A.told self.old.first).over) }
        ensures in_turn { OnErr result (StopsInTurn (basis formula.now softs.now)
            (A.told self.old.first).over (A.told self.new.first).over
            (D.told self.old.second.now).over (D.told self.new.second.now).over) }
    {
        self.first.begin(formula, softs)?;
        self.second.begin(formula, softs)
    }

    fn take(&mut self, step: &CertStep) -> Result<(), SinkError>
        requires formed { IsFormed step.now }
        ensures takes { Takes step.now result
            (told_by_both self.old.second.ghost_name (A.told self.old.first)
            (D.told self.old.second.now))
            (told_by_both self.new.second.ghost_name (A.told self.new.first)
            (D.told self.new.second.now)) }
        ensures in_turn { OnErr result (RefusesInTurn step.now
            (A.told self.old.first).logs (A.told self.new.first).logs
            (D.told self.old.second.now).logs (D.told self.new.second.now).logs) }
    {
        self.first.take(step)?;
        self.second.take(step)
    }
}
