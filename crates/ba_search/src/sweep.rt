//! Sweeping (F. Lu, L.-C. Wang, K.-T. Cheng, R. Huang, A Circuit SAT Solver With Signal Correlation Guided
//! Learning). In a long search, pairs of literals that simulated runs never made both true are decided to be
//! both true. Each pair is tried until its first conflict, in the order of the variables. What is learnt of
//! one pair helps with the next, and with the whole search. Figures: `docs/measurements.md`.

ghost use Rattle.std.specs.Prelude.{◌≤◌, IfSome};
ghost use Rattle.ba_watch.specs.Trails.{decided};

use crate::simulation::{Hypothesis, hypotheses};
use ba_checker::Checker;
use ba_lits::Lit;
use ba_watch::Watch;
use std::alloc::{AllocError, Global};
use std::mem;

/// How many conflicts a search has before its first sweep. Each further sweep waits twice as long as the last
/// one. Conflicts of a sweep that tried all its hypotheses count for that.
const FIRST_PATIENCE: u64 = 10_000;

/// A sweep takes at most this many times the conflicts that came before it.
const GREATEST_SHARE: u64 = 3;

/// Hypotheses that are tried one after the other, and the state of the trial.
#[derive(Drop)]
pub struct Sweep {
    hypotheses: Vec<Hypothesis>,
    /// The index of the hypothesis that is tried.
    next: usize,
    /// The level at which its trial began, if it did.
    base: Option<usize>,
    /// Whether a conflict came in its trial.
    is_tried: bool,
    /// How many conflicts came since the last sweep began or was given up.
    conflicts: u64,
    /// After how many conflicts the next sweep comes.
    patience: u64,
    /// The limit on conflicts of this sweep.
    limit: u64,
    /// Whether a restart came since a literal other than assumptions and candidates was decided.
    has_restarted: bool,
    /// The last literal that was decided before the sweep. The sweep ends when it is no longer true.
    under: Option<Lit>,
}

impl Sweep {
    /// No hypotheses. It takes no memory.
    pub fn new(alloc: Global) -> Sweep {
        Sweep {
            hypotheses: Vec::new(alloc),
            next: 0,
            base: None,
            is_tried: false,
            conflicts: 0,
            patience: FIRST_PATIENCE,
            limit: 0,
            has_restarted: false,
            under: None,
        }
    }

    /// Resets the sweep for another search.
    pub fn reset(&mut self) {
        self.stop();
        self.patience = FIRST_PATIENCE;
    }

    /// Ends a sweep.
    fn stop(&mut self) {
        self.hypotheses.clear();
        self.next = 0;
        self.base = None;
        self.is_tried = false;
        self.conflicts = 0;
    }

    /// Whether there are hypotheses to try.
    pub fn is_running(&self) -> bool {
        self.next < self.hypotheses.len()
    }

    /// Notes a restart.
    pub fn note_restart(&mut self) {
        self.has_restarted = true;
    }

    /// Notes a conflict.
    pub fn note_conflict(&mut self) {
        self.is_tried = true;
        self.conflicts = self.conflicts.saturating_add(1);
        if self.is_running() && self.conflicts >= self.limit {
            self.stop();
        }
    }

    /// Makes hypotheses if all assumptions and candidates have values, a restart came before anything else
    /// was decided, and the search is long enough.
    ///
    /// The only error is out of memory.
    pub fn prepare(
        &mut self,
        alloc: Global,
        watch: &Watch,
        checker: &Checker,
    ) -> Result<(), AllocError> {
        let has_restarted = mem::replace(&mut self.has_restarted, false);
        if !has_restarted || self.is_running() || self.conflicts < self.patience {
            return Ok(());
        }
        self.limit = self.conflicts.saturating_mul(GREATEST_SHARE);
        self.patience = self.patience.saturating_mul(2);
        self.stop();
        self.under = last_decision(watch);
        self.hypotheses = hypotheses(alloc, watch, checker)?;
        Ok(())
    }

    /// The level to go back to when the trial of a hypothesis is over. `None` if there is none or it goes on,
    /// or if no decisions may be taken back.
    pub fn level_after_trial(&mut self, watch: &Watch, backtracks_left: u64) -> Option<usize>
        ensures level { IfSome result (λ level. level ≤ decided watch.now.reasons) }
        ensures left { IfSome result (λ level. 1 ≤ backtracks_left) }
    {
        if backtracks_left == 0 {
            return None;
        }
        for _ in self.next..self.hypotheses.len() {
            if !self.is_over(watch) {
                return None;
            }
            let base = mem::replace(&mut self.base, None).unwrap_or(usize::MAX);
            self.next = self.next.saturating_add(1);
            self.is_tried = false;
            if base < watch.level() {
                return Some(base);
            }
        }
        None
    }

    /// Whether a conflict came in the trial, or the hypothesis holds by now.
    fn is_over(&self, watch: &Watch) -> bool {
        let Some(hypothesis) = self.hypotheses.get(self.next) else {
            return true;
        };
        self.is_tried
            || value(watch, hypothesis.first) == Some(false)
            || value(watch, hypothesis.second) == Some(false)
    }

    /// A literal of the tried hypothesis without a value, if there is one. It is decided next, so that a
    /// conflict follows if the hypothesis holds.
    pub fn literal_to_try(&mut self, watch: &Watch) -> Option<Lit> {
        let hypothesis = self.hypotheses.get(self.next).copied()?;
        if self.is_left(watch) {
            self.stop();
            return None;
        }
        let is_open = value(watch, hypothesis.first).is_none();
        if is_open || self.base.is_none() {
            self.base = Some(watch.level());
            self.is_tried = false;
        }
        if is_open {
            return Some(hypothesis.first);
        }
        match value(watch, hypothesis.second) {
            None => Some(hypothesis.second),
            Some(_) => None,
        }
    }

    /// Whether the last literal that was decided before the sweep is no longer true.
    fn is_left(&self, watch: &Watch) -> bool {
        match self.under {
            Some(lit) => value(watch, lit) != Some(true),
            None => false,
        }
    }
}

/// The last literal that was decided.
fn last_decision(watch: &Watch) -> Option<Lit> {
    let reasons = watch.reasons();
    for place in (0..reasons.len()).rev() {
        if let Some(None) = reasons.get(place) {
            return watch.trail().get(place).copied();
        }
    }
    None
}

/// The value of a literal on a trail.
fn value(watch: &Watch, lit: Lit) -> Option<bool> {
    if lit.variable() > watch.variables() {
        return None;
    }
    watch.value(lit)
}
