//! The steps of a derivation, and why a step isn't allowed.

ghost use Rattle.std.specs.Prelude.{◌≡◌};
ghost use Rattle.ba_steps.specs.Numbers.{number_of};

use ba_choices::Choice;
use ba_items::{Items, TryClone};
use ba_lits::Lit;
use std::alloc::{AllocError, AllocFailed, Global};
use thiserror::Error;

/// A step of a derivation. Its literals have strictly ascending variables and, except in `EndLocated`, are at
/// least one. Numbers of clauses are at least 1. All numbers are below 2^62, values without their signs.
pub enum CertStep {
    /// The clause follows by the hints, which are numbers of live clauses. It is live from now on.
    Learn {
        lits: Items<Lit>,
        hints: Items<u64>,
    },
    /// The clause follows by the hints and negates soft literals alone. It is live from now on and split.
    Core {
        lits: Items<Lit>,
        hints: Items<u64>,
    },
    /// The clauses of these numbers, strictly ascending and at least one, are no longer live. Learn steps
    /// made them, and they have at least three literals.
    Delete {
        clauses: Items<u64>,
    },
    /// The set is blocked: a clause that one of its groups' selectors is true is live from now on. Groups
    /// have numbers from 1, strictly ascending and at least one. The sum of their weights is the bound, and
    /// the run is good if they are relaxed.
    Block {
        groups: Items<u32>,
        run: Items<Choice>,
    },
    /// The clause follows by the hints and negates soft literals alone. So no further set has the weight of
    /// the bound, and the blocked sets are all. The derivation ends.
    EndLocated {
        lits: Items<Lit>,
        hints: Items<u64>,
    },
    /// The empty clause follows by the hints, so the formula has no model. The derivation ends.
    EndNoRepair {
        hints: Items<u64>,
    },
    /// There are more least sets than allowed: one more is blocked. The derivation ends.
    EndTooMany,
    /// The stated number of conflicts is spent. The derivation ends.
    EndSpent,
}

impl Drop for CertStep {
    fn drop(self) {
        match self {
            CertStep::Learn { lits: _, hints: _ } => {}
            CertStep::Core { lits: _, hints: _ } => {}
            CertStep::Delete { clauses: _ } => {}
            CertStep::Block { groups: _, run: _ } => {}
            CertStep::EndLocated { lits: _, hints: _ } => {}
            CertStep::EndNoRepair { hints: _ } => {}
            CertStep::EndTooMany => {}
            CertStep::EndSpent => {}
        }
    }
}

impl TryClone for CertStep {
    fn try_clone(&self, alloc: Global) -> Result<CertStep, AllocError> {
        match self {
            CertStep::Learn { lits, hints } => Ok(CertStep::Learn {
                lits: Items::from_slice(alloc, lits.as_slice())?,
                hints: Items::from_slice(alloc, hints.as_slice())?,
            }),
            CertStep::Core { lits, hints } => Ok(CertStep::Core {
                lits: Items::from_slice(alloc, lits.as_slice())?,
                hints: Items::from_slice(alloc, hints.as_slice())?,
            }),
            CertStep::Delete { clauses } => Ok(CertStep::Delete {
                clauses: Items::from_slice(alloc, clauses.as_slice())?,
            }),
            CertStep::Block { groups, run } => Ok(CertStep::Block {
                groups: Items::from_slice(alloc, groups.as_slice())?,
                run: run.try_clone(alloc)?,
            }),
            CertStep::EndLocated { lits, hints } => Ok(CertStep::EndLocated {
                lits: Items::from_slice(alloc, lits.as_slice())?,
                hints: Items::from_slice(alloc, hints.as_slice())?,
            }),
            CertStep::EndNoRepair { hints } => Ok(CertStep::EndNoRepair {
                hints: Items::from_slice(alloc, hints.as_slice())?,
            }),
            CertStep::EndTooMany => Ok(CertStep::EndTooMany),
            CertStep::EndSpent => Ok(CertStep::EndSpent),
        }
    }
}

/// Why a step isn't allowed, with the number of the error in messages. If a step has several errors, the
/// first in the order of the tests is answered.
#[derive(Clone, Copy, Debug, PartialEq, Eq, Error)]
pub enum StepError {
    /// 1: no live clause has the number of a hint.
    #[error("1: a hint names no clause")]
    HintMissing,
    /// 2: the clause of a hint is neither unit nor, as the last one, false.
    #[error("2: a hint's clause is neither unit nor, as the last, false")]
    HintNotUnit,
    /// 3: the hints end without a false clause.
    #[error("3: the hints end without a false clause")]
    NotClosed,
    /// 4: a literal isn't the negation of a soft literal.
    #[error("4: a literal isn't the negation of a soft literal")]
    NotSofts,
    /// 5: a number isn't that of a learnt clause of more than two literals.
    #[error("5: a clause can't be deleted")]
    DeadClause,
    /// 6: the run isn't good for these groups.
    #[error("6: the run isn't good")]
    RunNotGood,
    /// 7: the set was blocked before.
    #[error("7: the set was blocked before")]
    SetTwice,
    /// 8: the weight of the set isn't the bound.
    #[error("8: the weight of the set isn't the bound")]
    WrongWeight,
    /// 9: the derivation has ended.
    #[error("9: the derivation has ended")]
    AfterEnd,
    /// 10: a live clause has all its literals in the new one.
    #[error("10: the clause holds a live clause")]
    NotNew,
    /// 11: too few clauses were learnt since the last deletion.
    #[error("11: too soon after the last deletion")]
    TooSoon,
    /// 12: a core may not follow a blocked set.
    #[error("12: a core after a blocked set")]
    CoreAfterSet,
    /// 13: the step may not come with this number of conflicts or sets.
    #[error("13: wrong number of conflicts or sets")]
    WrongCount,
    /// 14: a variable or group doesn't exist.
    #[error("14: a variable or group doesn't exist")]
    BadVariable,
    /// Out of memory.
    #[error("out of memory")]
    Memory,
}

impl StepError {
    /// The number of the error, from 1 to 14. `Memory` has none.
    pub fn number(self) -> Option<u8>
        ensures { result ≡ number_of self }
    {
        match self {
            StepError::HintMissing => Some(1),
            StepError::HintNotUnit => Some(2),
            StepError::NotClosed => Some(3),
            StepError::NotSofts => Some(4),
            StepError::DeadClause => Some(5),
            StepError::RunNotGood => Some(6),
            StepError::SetTwice => Some(7),
            StepError::WrongWeight => Some(8),
            StepError::AfterEnd => Some(9),
            StepError::NotNew => Some(10),
            StepError::TooSoon => Some(11),
            StepError::CoreAfterSet => Some(12),
            StepError::WrongCount => Some(13),
            StepError::BadVariable => Some(14),
            StepError::Memory => None,
        }
    }
}

impl From<AllocError> for StepError {
    ghost use Rattle.std.specs.Prelude.{◌≡◌};
    ghost use Rattle.ba_steps.specs.declared.step.StepError.TheVariants.{Memory};

    ghost from_gives = { λ _ error. error ≡ Memory };

    fn from(_error: AllocError) -> StepError {
        StepError::Memory
    }
}

impl<T: Drop> From<AllocFailed<T>> for StepError {
    ghost use Rattle.std.specs.Prelude.{◌≡◌};
    ghost use Rattle.ba_steps.specs.declared.step.StepError.TheVariants.{Memory};

    ghost from_gives = { λ _ error. error ≡ Memory };

    fn from(_error: AllocFailed<T>) -> StepError {
        StepError::Memory
    }
}
