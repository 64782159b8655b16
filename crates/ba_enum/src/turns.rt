//! One turn of the search for all least sets: a set is blocked, and the next model of the same cost is
//! searched for.

ghost use Rattle.std.specs.Prelude.{◌≡◌, IfOk, OnOk};
ghost use Rattle.ba_enum.specs.Turning.{ComesTo, HasTurned, Stands, next_of};
ghost use Rattle.ba_enum.specs.Leading.{IsNextModel, Leaves};
ghost use Rattle.ba_enum.specs.Problems.{IsReadable};
ghost use Rattle.ba_search.specs.Searching.{RanSearch};

use crate::blocking::block;
use crate::endings::End;
use crate::task::Task;
use ba_checker::ProofLog;
use ba_derivations::FoundSet;
use ba_items::Items;
use ba_lits::Model;
use ba_search::{Answer, Search, SearchError, SearchRules};
use std::alloc::Global;

/// What a turn gives: a model with another set, or the end.
#[derive(Drop)]
pub enum Next {
    Model(Model),
    End(End),
}

/// Blocks the set of a model, and searches for a further model that satisfies the assumptions.
///
/// `SinkFailed` comes only if the sink's faults rose; `Memory` if memory runs out.
pub fn turn<L: ProofLog, R: SearchRules + Drop>(
    alloc: Global,
    task: &Task,
    model: &Model,
    search: &mut Search<R>,
    log: &mut L,
    found: &mut Items<FoundSet>,
) -> Result<Next, SearchError>
    requires rules { R.are_rules search.old.rules }
    requires readable { IsReadable task.now.encoded.now (L.log log.old).accepts }
    requires stands { Stands task.now found.old search.old (L.log log.old) }
    requires next { IsNextModel task.now.encoded.now (L.log log.old) model.now.values }
    ensures comes { IfOk result (ComesTo task.now.encoded.now (L.log log.new) found.new) }
    ensures turned { OnOk result (HasTurned task.now.encoded.now found.old found.new search.new
        (L.log log.old) (L.log log.new)) }
    ensures leaves { Leaves (L.log log.old) (L.log log.new) }
    ensures ran { RanSearch result search.old search.new (L.log log.old) (L.log log.new) }
{
    block(alloc, task, model, log, found)?;
    search.take_new(log)?;
    if found.len() > task.sets as usize {
        return Ok(Next::End(End::TooMany));
    }
    let answer = search.solve(task.assumptions.as_slice(), log)?;
    Ok(next_of(answer))
}

/// What the answer of a search means for the next turn.
fn next_of(answer: Answer) -> Next
    ensures { result ≡ next_of answer }
{
    match answer {
        Answer::Model(model) => Next::Model(model),
        Answer::Core(core) => Next::End(End::NoMore(core)),
        Answer::Spent => Next::End(End::Spent),
    }
}
