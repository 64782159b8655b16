//! All least sets.

ghost use Rattle.std.specs.Prelude.{◌≡◌, [], None, Some, IfOk, Err};
ghost use Rattle.ba_checker.specs.Facts.{IsStart};
ghost use Rattle.ba_cores.specs.Rounds.{literals_of};
ghost use Rattle.ba_encode.specs.Softs.{softs_of};
ghost use Rattle.ba_enum.specs.Enumerating.{EnumeratesIn, Finishes};
ghost use Rattle.ba_enum.specs.Leading.{IsNextModel, Leaves};
ghost use Rattle.ba_enum.specs.Problems.{IsFresh, IsReadable};
ghost use Rattle.ba_enum.specs.Turning.{IsTask, Stands};
ghost use Rattle.ba_search.specs.Searching.{RanSearch};
ghost use Rattle.ba_search.specs.declared.search.SearchError.{SearchError};

use crate::endings::{End, finish};
use crate::task::Task;
use crate::turns::{Next, turn};
use ba_checker::ProofLog;
use ba_cores::{Found, least};
use ba_derivations::Verdict;
use ba_encode::{Encoded, softs_of};
use ba_items::Items;
use ba_lits::{Lit, Model};
use ba_search::{Search, SearchError, SearchRules};
use std::alloc::{AllocError, Global};

/// All sets of models of least weight, each with a run, if they are at most `sets`; else one more than that.
/// The set of a model has the groups whose selectors are false, and its run is read from the model. Over a
/// faithful encoding these are the least sets, with good runs. The End step of the verdict is put.
///
/// The checker is at its start, with the formula and the soft literals of its groups.
///
/// `SinkFailed` comes only if the sink's faults rose, or the search answered it before; `Memory` if memory
/// runs out. Steps that were put before an error stay put.
pub fn all_sets<L: ProofLog, R: SearchRules + Drop>(
    alloc: Global,
    encoded: &Encoded,
    sets: u32,
    search: &mut Search<R>,
    log: &mut L,
) -> Result<Verdict, SearchError>
    requires rules { R.are_rules search.old.rules }
    requires fresh { search.old.failure ≡ None
        → IsFresh encoded.now sets search.old (L.log log.old) }
    requires clauses { IsStart encoded.now.formula (softs_of encoded.now.groups) }
    requires readable { IsReadable encoded.now (L.log log.old).accepts }
    ensures verdict { IfOk result (EnumeratesIn encoded.now (L.log log.old) (L.log log.new)) }
    ensures leaves { search.old.failure ≡ None → Leaves (L.log log.old) (L.log log.new) }
    ensures again { (error : SearchError) → search.old.failure ≡ Some error
        → (result ≡ Err error) × (search.new ≡ search.old) × (log.new ≡ log.old) }
    ensures ran { RanSearch result search.old search.new (L.log log.old) (L.log log.new) }
{
    match least(alloc, search, log)? {
        Found::NoModel { hints } => finish(End::NoModel(hints), Items::new(alloc), log),
        Found::Spent => finish(End::Spent, Items::new(alloc), log),
        Found::Least { model, .. } => {
            let task = task_of(alloc, encoded, sets, log.checker().softs())?;
            enumerate(alloc, &task, model, search, log)
        }
    }
}

/// Blocks the sets of models of least cost, and puts the End step.
///
/// `SinkFailed` comes only if the sink's faults rose; `Memory` if memory runs out.
fn enumerate<L: ProofLog, R: SearchRules + Drop>(
    alloc: Global,
    task: &Task,
    model: Model,
    search: &mut Search<R>,
    log: &mut L,
) -> Result<Verdict, SearchError>
    requires rules { R.are_rules search.old.rules }
    requires readable { IsReadable task.now.encoded.now (L.log log.old).accepts }
    requires stands { Stands task.now [] search.old (L.log log.old) }
    requires next { IsNextModel task.now.encoded.now (L.log log.old) model.values }
    ensures finishes { IfOk result (Finishes task.now.encoded.now (L.log log.old) (L.log log.new)) }
    ensures leaves { Leaves (L.log log.old) (L.log log.new) }
    ensures ran { RanSearch result search.old search.new (L.log log.old) (L.log log.new) }
{
    let mut model = model;
    let mut found = Items::new(alloc);
    'turns: loop {
        match turn(alloc, task, &model, search, log, &mut found)? {
            Next::Model(next) => model = next,
            Next::End(end) => return finish(end, found, log),
        }
    }
}

/// The task for the present soft literals of the checker.
///
/// The only error is out of memory.
fn task_of<'a>(
    alloc: Global,
    encoded: &'a Encoded,
    sets: u32,
    softs: &[(Lit, u32)],
) -> Result<Task<'a>, AllocError>
    ensures { IfOk result (IsTask encoded.now sets softs.now) }
{
    Ok(Task {
        encoded,
        softs: softs_of(alloc, encoded)?,
        assumptions: literals_of(alloc, softs)?,
        sets,
    })
}

/// The soft literals without their weights, in their order.
///
/// The only error is out of memory.
fn literals_of(alloc: Global, softs: &[(Lit, u32)]) -> Result<Vec<Lit>, AllocError>
    ensures { IfOk result (λ lits. lits.items ≡ literals_of softs.now) }
{
    let mut lits = Vec::with_capacity(alloc, softs.len())?;
    for soft in softs {
        lits.push(soft.0)?;
    }
    Ok(lits)
}
