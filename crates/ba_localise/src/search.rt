//! The search for the least sets of a program.

ghost use Rattle.std.specs.Prelude.{◌≡◌, ◌≢◌, true, IfOk};
ghost use Rattle.ba_encode.specs.Softs.{softs_of};
ghost use Rattle.ba_enum.specs.Enumerating.{Enumerates};
ghost use Rattle.ba_enum.specs.Leading.{LeavesBetween};
ghost use Rattle.ba_enum.specs.Problems.{IsReadable, problem_in};
ghost use Rattle.ba_localise.specs.Places.{FindsPlaces, LeavesPlaces};
ghost use Rattle.ba_localise.specs.Starting.{IsEncodedBy, IsStarted};
ghost use Rattle.ba_localise.specs.Verdicts.{Finds, LeavesDerivation};
ghost use Rattle.ba_search.specs.Searching.{IsCaused};
ghost use Rattle.ba_steps.specs.Sinks.{Outlasts};
ghost use Rattle.ba_checker.specs.Facts.{AreSelectors, IsStart};
ghost use Rattle.ba_places.specs.Least.{place_judge_of};
ghost use Rattle.ba_tree.specs.Least.{AreWeightsOf, WeightList, judge_of};
ghost use Rattle.ba_tree.specs.Run.{are_bounds, fits, plain_run};
ghost use Rattle.ba_tree.specs.declared.run.Outcome.{Outcome};

use crate::lent::Lent;
use crate::verdict::PlaceVerdict;
use ba_checker::{Checked, Checker};
use ba_derivations::Verdict;
use ba_encode::{Encoded, softs_of};
use ba_enum::all_sets;
use ba_formula::{PlaceFormula, formula_of, place_formula_of};
use ba_judge::ProgramJudge;
use ba_places::PlaceJudge;
use ba_places::laws::least_by_number;
use ba_search::{Search, SearchError, SearchRules};
use ba_steps::{RunJudge, StepSink};
use ba_tree::run::{Bounds, Input, Weights};
use ba_tree::tree::Program;
use std::alloc::Global;

/// The least sets of statements whose change could repair a run that is not good as written, each with the
/// choices of such a run. If they are at most `sets`, the answer has all of them, in order, else one more
/// than that. Or it says that there is none, or that the conflicts are spent.
///
/// A derivation of the answer is handed to `steps`: the formula of the program, which encodes faithfully
/// which runs are good, and then each step of the search. If the conflicts are spent, the steps have as many
/// as are allowed. The checker allows each step before it is handed on, and the interpreter judges each run.
///
/// The search restarts and keeps learnt clauses by these rules; what is promised holds for all of them.
///
/// `SinkFailed`: the faults of `steps` rose. `Memory`: out of memory. What was handed on before an error
/// stays there: the formula, and steps over it that are allowed one after the other.
pub fn localise<D: StepSink + Drop, R: SearchRules + Drop>(
    alloc: Global,
    program: &Program,
    input: &Input,
    bounds: Bounds,
    weights: &Weights,
    conflicts: u64,
    sets: u32,
    rules: R,
    steps: &mut D,
) -> Result<Verdict, SearchError>
    requires fits { fits program.now input.now ≡ true }
    requires bounds { are_bounds bounds ≡ true }
    requires weights { AreWeightsOf program.now weights.now.of }
    requires failing { plain_run program.now input.now bounds ≢ Outcome.Done }
    requires rules { R.are_rules rules }
    ensures finds { IfOk result (Finds weights.now.of (judge_of program.now input.now bounds)
        conflicts sets (D.told steps.old) (D.told steps.new)) }
    ensures leaves { LeavesDerivation weights.now.of (judge_of program.now input.now bounds)
        conflicts sets (D.told steps.old) (D.told steps.new) }
    ensures cause { IsCaused result (D.told steps.old) (D.told steps.new) }
    ensures outlasts { Outlasts (D.told steps.old) (D.told steps.new) }
{
    let encoded = formula_of(alloc, program, input, bounds, weights)?;
    let judge = ProgramJudge::new(alloc, program, input, bounds);
    search_for(alloc, &encoded, judge, conflicts, sets, rules, steps)
}

/// The least sets of single executions that could repair a run that is not good as written, each with the
/// choices of such a run. The sets are of numbers in a list of places, which is given too.
///
/// What is promised, handed to `steps` and left there is as for [`localise`]. In place of statements there
/// are places of statements that have a weight. Each execution is relaxed by itself, and weighs 1.
///
/// `SinkFailed`: the faults of `steps` rose. `Memory`: out of memory.
pub fn localise_places<D: StepSink + Drop, R: SearchRules + Drop>(
    alloc: Global,
    program: &Program,
    input: &Input,
    bounds: Bounds,
    weights: &Weights,
    conflicts: u64,
    sets: u32,
    rules: R,
    steps: &mut D,
) -> Result<PlaceVerdict, SearchError>
    requires fits { fits program.now input.now ≡ true }
    requires bounds { are_bounds bounds ≡ true }
    requires weights { AreWeightsOf program.now weights.now.of }
    requires failing { plain_run program.now input.now bounds ≢ Outcome.Done }
    requires rules { R.are_rules rules }
    ensures finds { IfOk result (FindsPlaces weights.now.of
        (place_judge_of program.now input.now bounds)
        conflicts sets (D.told steps.old) (D.told steps.new)) }
    ensures leaves { LeavesPlaces weights.now.of (place_judge_of program.now input.now bounds)
        conflicts sets (D.told steps.old) (D.told steps.new) }
    ensures cause { IsCaused result (D.told steps.old) (D.told steps.new) }
    ensures outlasts { Outlasts (D.told steps.old) (D.told steps.new) }
{
    let PlaceFormula { places, encoded } = place_formula_of(
        alloc, program, input, bounds, weights,
    )?;
    let judge = PlaceJudge::new(alloc, program, input, bounds, places.as_slice());
    least_by_number();
    let verdict = search_for(alloc, &encoded, judge, conflicts, sets, rules, steps)?;
    Ok(PlaceVerdict { places, verdict })
}

/// The least sets of groups of a formula that encodes faithfully which runs are good, whatever the groups and
/// the runs are. Each model of the formula makes some selector false, and the judge calls the choices good
/// that are read from it. What is promised, handed to `steps` and left there is as for [`localise`].
///
/// `SinkFailed`: the faults of `steps` rose. `Memory`: out of memory.
pub fn search_for<D, J, R>(
    alloc: Global,
    encoded: &Encoded,
    judge: J,
    conflicts: u64,
    sets: u32,
    rules: R,
    steps: &mut D,
) -> Result<Verdict, SearchError>
where
    D: StepSink + Drop,
    J: RunJudge + Drop,
    R: SearchRules + Drop,
    requires clauses { IsStart encoded.now.formula (softs_of encoded.now.groups) }
    requires selectors { AreSelectors encoded.now.formula.variables (softs_of encoded.now.groups) }
    requires readable { IsReadable encoded.now (J.accepts judge) }
    requires rules { R.are_rules rules }
    ensures finds { (weights : WeightList) → IsEncodedBy weights (J.accepts judge) encoded.now
        → IfOk result (Finds weights (J.accepts judge)
        conflicts sets (D.told steps.old) (D.told steps.new)) }
    ensures leaves { (weights : WeightList) → IsEncodedBy weights (J.accepts judge) encoded.now
        → LeavesDerivation weights (J.accepts judge)
        conflicts sets (D.told steps.old) (D.told steps.new) }
    ensures cause { IsCaused result (D.told steps.old) (D.told steps.new) }
    ensures outlasts { Outlasts (D.told steps.old) (D.told steps.new) }
{
    let softs = softs_of(alloc, encoded)?;
    let checker = Checker::new(alloc, encoded.formula(), softs.as_slice(), conflicts, sets)?;
    let mut search = Search::by_rules(alloc, encoded.formula(), rules)?;
    steps.begin(encoded.formula(), softs.as_slice())?;
    let (answer, _) = all_sets_into(alloc, encoded, sets, &mut search, checker, judge, steps);
    answer
}

/// All least sets, by steps that go through the checker to the sink. Gives the checker back.
///
/// `SinkFailed`: the sink's faults rose. `Memory`: out of memory.
fn all_sets_into<D, J, R>(
    alloc: Global,
    encoded: &Encoded,
    sets: u32,
    search: &mut Search<R>,
    checker: Checker,
    judge: J,
    steps: &mut D,
) -> (Result<Verdict, SearchError>, Checker)
where
    D: StepSink + Drop,
    J: RunJudge + Drop,
    R: SearchRules + Drop,
    requires rules { R.are_rules search.old.rules }
    requires started { IsStarted encoded.now sets search.old checker }
    requires clauses { IsStart encoded.now.formula (softs_of encoded.now.groups) }
    requires readable { IsReadable encoded.now (J.accepts judge) }
    ensures verdict { IfOk result.0 (λ verdict.
        Enumerates (problem_in encoded.now (J.accepts judge) checker)
        (D.told steps.old).logs verdict result.1 (D.told steps.new).logs) }
    ensures leaves { LeavesBetween (J.accepts judge) checker (D.told steps.old).logs result.1
        (D.told steps.new).logs }
    ensures over_stays { (D.told steps.new).over ≡ (D.told steps.old).over }
    ensures cause { IsCaused result.0 (D.told steps.old) (D.told steps.new) }
    ensures outlasts { Outlasts (D.told steps.old) (D.told steps.new) }
{
    let mut checked = Checked::new(checker, judge, Lent { sink: steps });
    let answer = all_sets(alloc, encoded, sets, search, &mut checked);
    // The sink is taken back out, so that it's known what it has become.
    let (checker, Lent { sink: _sink }) = checked.finish();
    (answer, checker)
}
