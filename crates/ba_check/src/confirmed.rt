//! What a certificate says.

ghost use Rattle.std.specs.Prelude.{◌≡◌, option_map, map, IfOk};
ghost use Rattle.ba_check.specs.Answers.{confirmed_of, statements_of};
ghost use Rattle.ba_check.specs.Readings.{verdict_at};
ghost use Rattle.ba_derivations.specs.Derivations.{verdict_of};
ghost use Rattle.ba_checker.specs.StepRules.{after};
ghost use Rattle.ba_checker.specs.States.{State};
ghost use Rattle.ba_tree.specs.Least.{stmt_of};

use ba_checker::Checker;
use ba_items::Items;
use ba_numbers::ids::StmtId;
use ba_steps::CertStep;
use std::alloc::{AllocError, Global};

/// What an accepted certificate says.
#[derive(Drop)]
pub enum Confirmed {
    /// These are all sets of least weight, in the order of their lines, and this is their weight.
    Located {
        weight: u64,
        sets: Items<Items<StmtId>>,
    },
    /// No set of statements could repair the run.
    NoRepair,
    /// There are more sets of least weight than may be listed, and this is their weight.
    TooMany {
        weight: u64,
    },
    /// The stated number of conflicts is spent.
    Spent,
}

/// The kind of step that ended a certificate.
#[derive(Clone, Copy)]
pub(crate) enum Ending {
    Located,
    NoRepair,
    TooMany,
    Spent,
}

/// The kind of end of a step, if it is an End step.
pub(crate) fn ending_of(step: &CertStep) -> Option<Ending>
    ensures { (s : State) → option_map (verdict_at (after s step.now)) result
        ≡ verdict_of s step.now }
{
    match step {
        CertStep::EndLocated { .. } => Some(Ending::Located),
        CertStep::EndNoRepair { .. } => Some(Ending::NoRepair),
        CertStep::EndTooMany => Some(Ending::TooMany),
        CertStep::EndSpent => Some(Ending::Spent),
        _ => None,
    }
}

/// The statements of these numbers.
///
/// The only error is out of memory.
fn set_of(alloc: Global, numbers: &[u32]) -> Result<Items<StmtId>, AllocError>
    ensures { IfOk result (λ set. set ≡ map stmt_of numbers.now) }
{
    let mut set = Items::new(alloc);
    for number in numbers {
        set.push(StmtId(*number))?;
    }
    Ok(set)
}

/// The sets of statements of these numbers.
///
/// The only error is out of memory.
fn sets_of(alloc: Global, groups: &[Items<u32>]) -> Result<Items<Items<StmtId>>, AllocError>
    ensures { IfOk result (λ sets. sets ≡ statements_of groups.now) }
{
    let mut sets = Items::new(alloc);
    for numbers in groups {
        sets.push(set_of(alloc, numbers.as_slice())?)?;
    }
    Ok(sets)
}

/// What a certificate says that ended so, in the checker's state at the end.
///
/// The only error is out of memory.
pub(crate) fn said_by(
    alloc: Global,
    checker: &Checker,
    ending: Ending,
) -> Result<Confirmed, AllocError>
    ensures { IfOk result (λ said. said ≡ confirmed_of (verdict_at checker.now ending)) }
{
    match ending {
        Ending::Located => Ok(Confirmed::Located {
            weight: checker.bound(),
            sets: sets_of(alloc, checker.sets())?,
        }),
        Ending::NoRepair => Ok(Confirmed::NoRepair),
        Ending::TooMany => Ok(Confirmed::TooMany {
            weight: checker.bound(),
        }),
        Ending::Spent => Ok(Confirmed::Spent),
    }
}
