//! Steps that are put.

ghost use Rattle.std.specs.Prelude.{◌≡◌, None};
ghost use Rattle.ba_checker.specs.StepRules.{error_of};
ghost use Rattle.ba_enum.specs.Leading.{PutsAllowed};
ghost use Rattle.ba_steps.specs.Steps.{IsFormed};

use ba_checker::ProofLog;
use ba_search::SearchError;
use ba_steps::CertStep;

/// Puts an allowed step.
///
/// `SinkFailed` comes only if the sink's faults rose; `Memory` if memory runs out.
pub fn put<L: ProofLog>(log: &mut L, step: &CertStep) -> Result<(), SearchError>
    requires formed { IsFormed step.now }
    requires allowed { error_of (L.log log.old).accepts (L.log log.old).checker step.now ≡ None }
    requires fresh { (L.log log.old).refusal ≡ None }
    ensures { PutsAllowed step.now result (L.log log.old) (L.log log.new) }
{
    if let Err(refusal) = log.put(step) {
        return Err(SearchError::from(refusal));
    }
    Ok(())
}
