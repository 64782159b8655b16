//! Blocking the set of a model.

ghost use Rattle.std.specs.Prelude.{◌≡◌, ◌+◌, ◌<◌, ◌≤◌, length, IfOk, OnOk};
ghost use Rattle.ba_derivations.specs.Encodings.{is_false_group, false_groups};
ghost use Rattle.ba_enum.specs.Leading.{BlocksSet, HasReached, IsNextModel, IsRead, Leaves, MayPut};
ghost use Rattle.ba_enum.specs.Problems.{IsReadable};
ghost use Rattle.ba_encode.specs.Softs.{softs_of};
ghost use Rattle.ba_lits.specs.Satisfaction.{assignment_of};
ghost use Rattle.ba_search.specs.Searching.{Ran};
ghost use Rattle.ba_checker.specs.Facts.{AreAmong};
ghost use Rattle.ba_checker.specs.States.{present};

use crate::putting::put;
use crate::task::Task;
use ba_checker::ProofLog;
use ba_derivations::FoundSet;
use ba_encode::choices_of;
use ba_items::{Items, TryClone};
use ba_lits::{Lit, Model};
use ba_search::SearchError;
use ba_steps::CertStep;
use std::alloc::{AllocError, Global};

/// Blocks the set of a model, with the run that is read from it, and adds it to those found.
///
/// `SinkFailed` comes only if the sink's faults rose; `Memory` if memory runs out.
pub fn block<L: ProofLog>(
    alloc: Global,
    task: &Task,
    model: &Model,
    log: &mut L,
    found: &mut Items<FoundSet>,
) -> Result<(), SearchError>
    requires readable { IsReadable task.now.encoded.now (L.log log.old).accepts }
    requires reached { HasReached task.now.encoded.now (L.log log.old) found.old }
    requires next { IsNextModel task.now.encoded.now (L.log log.old) model.now.values }
    requires may_put { MayPut (L.log log.old) }
    ensures blocks { OnOk result (BlocksSet task.now.encoded.now
        (L.log log.old) (L.log log.new) found.old found.new) }
    ensures leaves { Leaves (L.log log.old) (L.log log.new) }
    ensures ran { Ran result (L.log log.old) (L.log log.new) }
{
    let set = found_set(alloc, task, model)?;
    let step = CertStep::Block {
        groups: Items::from_slice(alloc, set.groups.as_slice())?,
        run: set.run.try_clone(alloc)?,
    };
    put(log, &step)?;
    found.push(set)?;
    Ok(())
}

/// The set of a model, with its run.
///
/// The only error is out of memory.
fn found_set(alloc: Global, task: &Task, model: &Model) -> Result<FoundSet, AllocError>
    requires long { task.now.encoded.now.formula.variables ≤ length model.now.values }
    requires softs { AreAmong task.now.encoded.now.formula.variables
        (present (softs_of task.now.encoded.now.groups)) }
    ensures { IfOk result (IsRead task.now.encoded.now model.now.values) }
{
    Ok(FoundSet {
        groups: false_groups(alloc, task.softs.as_slice(), model)?,
        run: choices_of(alloc, task.encoded, model)?,
    })
}

/// The numbers of the groups whose selectors are false in a model, in ascending order.
///
/// The only error is out of memory, also for a number past 32 bits.
fn false_groups(
    alloc: Global,
    softs: &[(Lit, u32)],
    model: &Model,
) -> Result<Items<u32>, AllocError>
    requires { AreAmong (length model.now.values) (present softs.now) }
    ensures { IfOk result (λ groups.
        groups ≡ false_groups (assignment_of model.now.values) softs.now) }
{
    let mut groups = Items::new(alloc);
    for (place, soft) in softs.iter().enumerate() {
        if is_false_group(model, *soft) {
            groups.push(number_of(place)?)?;
        }
    }
    Ok(groups)
}

/// The number of the group of an entry.
///
/// The only error is that it needs more than 32 bits.
fn number_of(place: usize) -> Result<u32, AllocError>
    ensures { IfOk result (λ number. number ≡ place + 1) }
{
    if place < u32::MAX as usize {
        return Ok(place as u32 + 1);
    }
    Err(AllocError)
}

/// Whether an entry is of a group whose selector is false in a model.
fn is_false_group(model: &Model, soft: (Lit, u32)) -> bool
    requires { 0 < soft.1 → soft.0.variable ≤ length model.now.values }
    ensures { result ≡ is_false_group (assignment_of model.now.values) soft }
{
    soft.1 > 0 && model.value(soft.0.variable()) == soft.0.is_negated()
}
