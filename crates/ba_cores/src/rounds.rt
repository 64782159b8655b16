//! One round of the search for the least cost: a search under the heavy soft literals, and the use of its
//! answer.

ghost use Rattle.std.specs.Prelude.{◌≡◌, ◌-◌, ◌<◌, ◌≤◌, ◌∷◌, ◌++◌, [], None, true, false, length, IfOk, IfSome, IfNone, OnOk, Err};
ghost use Rattle.ba_search.specs.Answers.{IsAnswer, IsCore, IsModel};
ghost use Rattle.ba_search.specs.Searching.{RanSearch};
ghost use Rattle.ba_cores.specs.Derivations.{Leaves};
ghost use Rattle.ba_cores.specs.Findings.{IsFound};
ghost use Rattle.ba_cores.specs.Rounds.{EndsRound, HasPut, IsReady, Stands, heavy, literals_of};

use crate::costs::Found;
use ba_checker::ProofLog;
use ba_learn::Learnt;
use ba_lits::{Lit, Model};
use ba_search::{Answer, Search, SearchError, SearchRules};
use ba_steps::CertStep;
use std::alloc::{AllocError, Global};

/// Searches once for a model that satisfies the present soft literals of at least `weight`. It gives what is
/// found. It gives nothing after a core, which was put as a step. It gives nothing after a model if there are
/// lighter soft literals; the weight is then smaller.
///
/// `SinkFailed` comes only if the sink's faults rose; `Memory` if memory runs out.
pub fn round<L: ProofLog, R: SearchRules + Drop>(
    alloc: Global,
    search: &mut Search<R>,
    log: &mut L,
    weight: &mut u32,
) -> Result<Option<Found>, SearchError>
    requires rules { R.are_rules search.old.rules }
    requires stands { Stands search.old (L.log log.old) }
    ensures found { IfOk result (EndsRound (L.log log.old) (L.log log.new) weight.old weight.new) }
    ensures put { OnOk result (HasPut search.new (L.log log.old) (L.log log.new)) }
    ensures leaves { Leaves (L.log log.old) (L.log log.new) }
    ensures ran { RanSearch result search.old search.new (L.log log.old) (L.log log.new) }
{
    let Ok(assumptions) = heavy_literals(alloc, log.checker().softs(), *weight) else {
        return Err(SearchError::Memory);
    };
    let answer = search.solve(assumptions.as_slice(), log)?;
    take_answer(search, log, weight, answer)
}

/// Uses the answer of a search under the soft literals of at least `weight`. A model is of least cost if
/// there are no lighter ones.
///
/// `SinkFailed` comes only if the sink's faults rose; `Memory` if memory runs out.
fn take_answer<L: ProofLog, R: SearchRules + Drop>(
    search: &mut Search<R>,
    log: &mut L,
    weight: &mut u32,
    answer: Answer,
) -> Result<Option<Found>, SearchError>
    requires answer { IsAnswer (L.log log.old).checker
        (literals_of (heavy weight.old (L.log log.old).checker.softs)) answer }
    requires stands { Stands search.old (L.log log.old) }
    ensures found { IfOk result (EndsRound (L.log log.old) (L.log log.new) weight.old weight.new) }
    ensures put { OnOk result (HasPut search.new (L.log log.old) (L.log log.new)) }
    ensures leaves { Leaves (L.log log.old) (L.log log.new) }
    ensures ran { RanSearch result search.old search.new (L.log log.old) (L.log log.new) }
{
    match answer {
        Answer::Model(model) => Ok(take_model(log, weight, model)),
        Answer::Core(core) => take_core(search, log, core),
        Answer::Spent => Ok(Some(Found::Spent)),
    }
}

/// Uses a model of the soft literals of at least `weight`. It is of least cost if there are no lighter ones;
/// else the weight gets smaller.
fn take_model<L: ProofLog>(log: &L, weight: &mut u32, model: Model) -> Option<Found>
    requires model { IsModel (L.log log.now).checker
        (literals_of (heavy weight.old (L.log log.now).checker.softs)) model.values }
    requires ready { IsReady (L.log log.now).checker }
    ensures found { IfSome result (IsFound (L.log log.now) (L.log log.now)) }
    ensures less { IfNone result (weight.new < weight.old) }
{
    let checker = log.checker();
    if !are_heavy(checker.softs(), *weight) {
        *weight = next_weight(checker.softs(), *weight).min(*weight / 2);
        return None;
    }
    Some(Found::Least {
        weight: checker.bound(),
        model,
    })
}

/// Uses a core: without literals it shows that there is no model, else it is put as a step.
///
/// `SinkFailed` comes only if the sink's faults rose; `Memory` if memory runs out.
fn take_core<L: ProofLog, R: SearchRules + Drop>(
    search: &mut Search<R>,
    log: &mut L,
    core: Learnt,
) -> Result<Option<Found>, SearchError>
    requires core { IsCore (L.log log.old).checker (literals_of (L.log log.old).checker.softs)
        core.lits core.hints core.back }
    requires stands { Stands search.old (L.log log.old) }
    ensures found { IfOk result (EndsRound (L.log log.old) (L.log log.new) 0 0) }
    ensures put { OnOk result (HasPut search.new (L.log log.old) (L.log log.new)) }
    ensures leaves { Leaves (L.log log.old) (L.log log.new) }
    ensures ran { RanSearch result search.old search.new (L.log log.old) (L.log log.new) }
{
    if core.lits.is_empty() {
        return Ok(Some(Found::NoModel { hints: core.hints }));
    }
    put_core(search, log, core)?;
    Ok(None)
}

/// Puts a core with literals as a step, and gives the new clauses to the search.
///
/// `SinkFailed` comes only if the sink's faults rose; `Memory` if memory runs out.
fn put_core<L: ProofLog, R: SearchRules + Drop>(
    search: &mut Search<R>,
    log: &mut L,
    core: Learnt,
) -> Result<(), SearchError>
    requires core { IsCore (L.log log.old).checker (literals_of (L.log log.old).checker.softs)
        core.lits core.hints core.back }
    requires some { 0 < length core.lits }
    requires stands { Stands search.old (L.log log.old) }
    ensures put { OnOk result (HasPut search.new (L.log log.old) (L.log log.new)) }
    ensures fewer { OnOk result ((L.log log.new).checker.budget - (L.log log.new).checker.conflicts
        < (L.log log.old).checker.budget - (L.log log.old).checker.conflicts) }
    ensures leaves { Leaves (L.log log.old) (L.log log.new) }
    ensures ran { RanSearch result search.old search.new (L.log log.old) (L.log log.new) }
{
    log.checker().keeps_facts();
    let step = CertStep::Core {
        lits: core.lits,
        hints: core.hints,
    };
    if let Err(refusal) = log.put(&step) {
        return Err(SearchError::from(refusal));
    }
    search.take_new(log)
}

/// The soft literals of at least a weight, without their weights, in their order.
///
/// The only error is out of memory.
fn heavy_literals(alloc: Global, softs: &[(Lit, u32)], weight: u32) -> Result<Vec<Lit>, AllocError>
    ensures { IfOk result (λ lits. lits.items ≡ literals_of (heavy weight softs.now)) }
{
    let mut lits = Vec::new(alloc);
    for soft in softs {
        add_heavy(&mut lits, *soft, weight)?;
    }
    Ok(lits)
}

/// Adds a soft literal of at least a weight.
///
/// The only error is out of memory.
fn add_heavy(lits: &mut Vec<Lit>, soft: (Lit, u32), weight: u32) -> Result<(), AllocError>
    ensures { OnOk result (lits.new.items ≡ lits.old.items
        ++ literals_of (heavy weight (soft ∷ []))) }
{
    if soft.1 >= weight {
        lits.push(soft.0)?;
    }
    Ok(())
}

/// Whether all soft literals are of at least a weight.
fn are_heavy(softs: &[(Lit, u32)], weight: u32) -> bool
    ensures all { result ≡ true → heavy weight softs.now ≡ softs.now }
    ensures one { result ≡ false → 1 ≤ weight }
{
    for soft in softs {
        if soft.1 < weight {
            return false;
        }
    }
    true
}

/// The greatest weight of the soft literals.
pub fn heaviest(softs: &[(Lit, u32)]) -> u32 {
    next_weight(softs, u32::MAX)
}

/// The greatest weight of the soft literals that is below `weight`.
fn next_weight(softs: &[(Lit, u32)], weight: u32) -> u32 {
    let mut heaviest = 0;
    for soft in softs {
        if soft.1 < weight {
            heaviest = soft.1.max(heaviest);
        }
    }
    heaviest
}
