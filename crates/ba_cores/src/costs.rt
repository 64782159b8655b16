//! The least cost.

ghost use Rattle.std.specs.Prelude.{◌≡◌, None, Some, IfOk, OnOk, Err};
ghost use Rattle.ba_search.specs.declared.search.SearchError.{SearchError};
ghost use Rattle.ba_search.specs.Searching.{RanSearch};
ghost use Rattle.ba_cores.specs.Derivations.{Leaves};
ghost use Rattle.ba_cores.specs.Findings.{IsFound};
ghost use Rattle.ba_cores.specs.Rounds.{HasPut, IsReady, MayStart};

use crate::rounds::{heaviest, round};
use ba_checker::ProofLog;
use ba_items::Items;
use ba_lits::Model;
use ba_search::{Search, SearchError, SearchRules};
use std::alloc::Global;

/// What the search for the least cost finds.
#[derive(Drop)]
pub enum Found {
    /// The least cost of the formula's models, and a model of that cost.
    Least { weight: u64, model: Model },
    /// There is no model: the empty clause follows by these hints.
    NoModel { hints: Items<u64> },
    /// The stated number of conflicts is spent.
    Spent,
}

/// The least cost of the models of the formula that the checker started from. A model costs the sum of the
/// weights of its false soft literals. Learn, Delete and Core steps are put on the way.
///
/// `SinkFailed` comes only if the sink's faults rose, or the search answered it before; `Memory` if memory
/// runs out. Steps that were put before an error stay put.
pub fn least<L: ProofLog, R: SearchRules + Drop>(
    alloc: Global,
    search: &mut Search<R>,
    log: &mut L,
) -> Result<Found, SearchError>
    requires rules { R.are_rules search.old.rules }
    requires starts { search.old.failure ≡ None → MayStart search.old (L.log log.old) }
    ensures found { IfOk result (IsFound (L.log log.old) (L.log log.new)) }
    ensures put { OnOk result (HasPut search.new (L.log log.old) (L.log log.new)) }
    ensures ready { OnOk result (IsReady (L.log log.new).checker) }
    ensures leaves { Leaves (L.log log.old) (L.log log.new) }
    ensures ran { RanSearch result search.old search.new (L.log log.old) (L.log log.new) }
    ensures again { (error : SearchError) → search.old.failure ≡ Some error
        → (result ≡ Err error) × (search.new ≡ search.old) × (log.new ≡ log.old) }
{
    search.take_new(log)?;
    let mut weight = heaviest(log.checker().softs());
    'rounds: loop {
        if let Some(found) = round(alloc, search, log, &mut weight)? {
            return Ok(found);
        }
    }
}
