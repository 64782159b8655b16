//! Unit propagation along hints.

ghost use Rattle.std.specs.Prelude.{◌≡◌, OnOk};
ghost use Rattle.ba_lits.specs.Hints.{standing, replay as replay_of};
ghost use Rattle.ba_checker.specs.States.{clause_at};
ghost use Rattle.ba_checker.specs.StepRules.{Finds, error_of_replay};
ghost use Rattle.ba_checker.specs.Looks.{standing_of};

use crate::clauses::Clauses;
use ba_lits::{Lit, LiteralSet};
use ba_steps::StepError;
use std::alloc::AllocError;

/// The status of a clause if some literals are false.
#[derive(Clone, Copy)]
pub enum Look {
    /// All its literals are false.
    False,
    /// This one has no value, and all others are false.
    Forced(Lit),
    /// Neither.
    Open,
}

/// The status of a clause if the members of the set are false.
pub fn look_at(falses: &LiteralSet, lits: &[Lit]) -> Look
    ensures { standing_of result ≡ standing falses.now lits.now }
{
    let mut free = None;
    for lit in lits {
        match falses.value(*lit) {
            Some(false) => {}
            Some(true) => return Look::Open,
            None => {
                if free.is_some() {
                    return Look::Open;
                }
                free = Some(*lit);
            }
        }
    }
    match free {
        None => Look::False,
        Some(lit) => Look::Forced(lit),
    }
}

/// Takes the clauses of the hints in turn, with the members of the set false, and makes the free literal of
/// each unit clause true. The answer is `Ok` if the last clause is false.
pub fn replay(clauses: &Clauses, falses: &mut LiteralSet, hints: &[u64]) -> Result<(), StepError>
    ensures { Finds result (error_of_replay
        (replay_of (clause_at clauses.now) falses.old hints.now)) }
{
    for (place, hint) in hints.iter().enumerate() {
        let lits = match clauses.clause(*hint) {
            None => return Err(StepError::HintMissing),
            Some(lits) => lits,
        };
        match look_at(falses, lits) {
            Look::Open => return Err(StepError::HintNotUnit),
            Look::Forced(lit) => falses.insert(lit.negated())?,
            Look::False => {
                return if place + 1 == hints.len() {
                    Ok(())
                } else {
                    Err(StepError::HintNotUnit)
                };
            }
        }
    }
    Err(StepError::NotClosed)
}

/// Fills the set with a clause's literals.
pub fn refill(set: &mut LiteralSet, lits: &[Lit]) -> Result<(), AllocError>
    ensures { OnOk result (set.new ≡ lits.now) }
{
    set.clear();
    for lit in lits {
        set.insert(*lit)?;
    }
    Ok(())
}
