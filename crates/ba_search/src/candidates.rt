//! Candidates: the literals of the last core take turns at being decided first. One of them has to be given
//! up, and a hard one would keep the others waiting. Figures: `docs/measurements.md`.

ghost use Rattle.std.specs.Prelude.{◌≤◌, IfSome};
ghost use Rattle.ba_search.specs.Values.{IsUnassigned};

use crate::order::is_unassigned;
use ba_lits::Lit;
use ba_watch::Watch;
use std::alloc::{AllocError, Global};

/// After how many conflicts of a search candidates are decided though no model was found yet. Until then the
/// activities alone decide, which leads to a first model sooner.
const PATIENCE: u64 = 200;

/// How many conflicts a candidate's turn has in the first round of a search. Each further round doubles it.
const FIRST_TURN: u64 = 16;

/// Literals one of which has to be true. The candidate whose turn it is is decided before other variables, as
/// true. Then those after it without a value follow.
#[derive(Drop)]
pub struct Candidates {
    lits: Vec<Lit>,
    /// The index of the candidate whose turn it is, counted on after each round.
    first: usize,
    /// How many candidates have values, from that one on.
    passed: usize,
    /// Whether no candidate is decided yet.
    waits: bool,
    /// How many turns of this round are over.
    turns: usize,
    /// How many conflicts a turn of this round has.
    turn: u64,
    /// How many conflicts came in this turn.
    conflicts: u64,
}

impl Candidates {
    /// No literals. It takes no memory.
    pub fn new(alloc: Global) -> Candidates {
        Candidates {
            lits: Vec::new(alloc),
            first: 0,
            passed: 0,
            waits: true,
            turns: 0,
            turn: FIRST_TURN,
            conflicts: 0,
        }
    }

    /// Takes the literals of another core.
    ///
    /// The only error is out of memory.
    pub fn set(&mut self, lits: &[Lit]) -> Result<(), AllocError> {
        self.lits.clear();
        self.first = 0;
        self.passed = 0;
        for lit in lits {
            self.lits.push(*lit)?;
        }
        Ok(())
    }

    /// Begins with another search.
    pub fn reset(&mut self) {
        self.turns = 0;
        self.turn = FIRST_TURN;
        self.conflicts = 0;
    }

    /// Notes a conflict.
    pub fn note_conflict(&mut self) {
        self.conflicts = self.conflicts.saturating_add(1);
    }

    /// Notes that decisions were taken back.
    pub fn note_backtrack(&mut self) {
        self.passed = 0;
    }

    /// Notes a model.
    pub fn note_model(&mut self) {
        self.waits = false;
    }

    /// Whether the turn of a candidate is over while there are others. If so, the next one's begins.
    pub fn ends_turn(&mut self) -> bool {
        let limit = if self.waits { PATIENCE } else { self.turn };
        if self.lits.len() < 2 || self.conflicts < limit {
            return false;
        }
        self.conflicts = 0;
        if self.waits {
            self.waits = false;
        } else {
            self.begin_turn();
        }
        true
    }

    /// Begins the next candidate's turn, and the next round after the last.
    fn begin_turn(&mut self) {
        self.first = self.first.saturating_add(1);
        self.passed = 0;
        self.turns = self.turns.saturating_add(1);
        if self.turns >= self.lits.len() {
            self.turns = 0;
            self.turn = self.turn.saturating_mul(2);
        }
    }

    /// The next candidate without a value.
    pub fn next(&mut self, watch: &Watch, limit: u64) -> Option<Lit>
        requires { limit ≤ watch.now.variables }
        ensures { IfSome result (λ lit. IsUnassigned watch.now.trail limit lit.variable) }
    {
        if self.waits {
            return None;
        }
        let count = self.lits.len();
        for passed in self.passed..count {
            let lit = self.lits[self.first.saturating_add(passed) % count];
            let variable = lit.variable();
            if 1 <= variable && variable <= limit && is_unassigned(watch, variable) {
                self.passed = passed;
                return Some(lit);
            }
        }
        self.passed = count;
        None
    }
}
