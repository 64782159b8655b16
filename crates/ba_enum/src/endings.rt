//! The end of a search for all least sets.

ghost use Rattle.std.specs.Prelude.{◌≡◌, ◌≤◌, None, IfOk, OnOk, Err, length, nat_eq};
ghost use Rattle.std.specs.Cmp.Lexicographic.{pointwise};
ghost use Rattle.std.specs.List.{IsDistinct};
ghost use Rattle.ba_derivations.specs.Derivations.{sets_of};
ghost use Rattle.ba_enum.specs.Enumerating.{EndsWith, HaveSame};
ghost use Rattle.ba_enum.specs.Turning.{IsEnd, IsLast};
ghost use Rattle.ba_enum.specs.Leading.{HasFound, Leaves, MayPut};
ghost use Rattle.ba_search.specs.Searching.{Ran};
ghost use Rattle.ba_tree.specs.Least.{AreInOrder};

use crate::putting::put;
use ba_checker::ProofLog;
use ba_derivations::{FoundSet, Verdict};
use ba_items::Items;
use ba_learn::Learnt;
use ba_search::SearchError;
use ba_steps::CertStep;
use std::alloc::AllocError;

/// Why the search ends.
#[derive(Drop)]
pub enum End {
    /// The formula has no model: the empty clause follows by these hints.
    NoModel(Items<u64>),
    /// One more set is found than may be listed.
    TooMany,
    /// No further set is of least weight: this clause of negated soft literals follows.
    NoMore(Learnt),
    /// The stated number of conflicts is spent.
    Spent,
}

/// Puts the End step, and gives its verdict.
///
/// `SinkFailed` comes only if the sink's faults rose; `Memory` if memory runs out.
pub fn finish<L: ProofLog>(
    end: End,
    found: Items<FoundSet>,
    log: &mut L,
) -> Result<Verdict, SearchError>
    requires end { IsEnd (L.log log.old).checker found end }
    requires found { HasFound (L.log log.old) found }
    requires may_put { MayPut (L.log log.old) }
    ensures ends { IfOk result (EndsWith found (L.log log.old) (L.log log.new)) }
    ensures leaves { Leaves (L.log log.old) (L.log log.new) }
    ensures ran { Ran result (L.log log.old) (L.log log.new) }
{
    let weight = log.checker().bound();
    match end {
        End::NoModel(hints) => {
            put(log, &CertStep::EndNoRepair { hints })?;
            Ok(Verdict::NoRepair)
        }
        End::TooMany => {
            put(log, &CertStep::EndTooMany)?;
            Ok(Verdict::TooMany {
                weight,
                sets: found,
            })
        }
        End::NoMore(core) => locate(weight, core, found, log),
        End::Spent => {
            put(log, &CertStep::EndSpent)?;
            Ok(Verdict::Spent)
        }
    }
}

/// Puts the End step for `NoMore`, and gives the found sets in order.
///
/// `SinkFailed` comes only if the sink's faults rose; `Memory` if memory runs out.
fn locate<L: ProofLog>(
    weight: u64,
    core: Learnt,
    found: Items<FoundSet>,
    log: &mut L,
) -> Result<Verdict, SearchError>
    requires weight { weight ≡ (L.log log.old).checker.bound }
    requires core { IsLast (L.log log.old).checker found core.lits core.hints core.back }
    requires found { HasFound (L.log log.old) found }
    requires may_put { MayPut (L.log log.old) }
    ensures ends { IfOk result (EndsWith found (L.log log.old) (L.log log.new)) }
    ensures leaves { Leaves (L.log log.old) (L.log log.new) }
    ensures ran { Ran result (L.log log.old) (L.log log.new) }
{
    let sets = in_order(found)?;
    log.checker().keeps_facts();
    let step = CertStep::EndLocated {
        lits: core.lits,
        hints: core.hints,
    };
    put(log, &step)?;
    Ok(Verdict::Located { weight, sets })
}

/// The sets in lexicographic order of their numbers.
///
/// The only error is out of memory.
fn in_order(found: Items<FoundSet>) -> Result<Items<FoundSet>, AllocError>
    requires { IsDistinct (pointwise nat_eq) (sets_of found) }
    ensures same { IfOk result (λ sets. HaveSame sets found) }
    ensures order { IfOk result (λ sets. AreInOrder (sets_of sets)) }
    ensures count { IfOk result (λ sets. length sets ≡ length found) }
{
    let mut sets = found.into_vec();
    sets.sort_by(|set, other| set.groups.as_slice().cmp(other.groups.as_slice()))?;
    Ok(Items::from_vec(sets))
}
