//! A search for least sets, with a certificate if one is named.

ghost use Rattle.std.specs.Prelude.{◌≡◌, ◌⊎◌, ◌<◌, ◌^◌, ◌≤◌, true, [], Err, OnOk, Some};
ghost use Rattle.ba_cert.specs.Text.{text_of as certificate_of};
ghost use Rattle.ba_cert.specs.Writing.{HasNoStep, HoldsPrefix, IsUnbegun, is_sound};
ghost use Rattle.ba_certified.specs.Certifying.{Begins, Starts};
ghost use Rattle.ba_certified.specs.Leaving.{SearchEnds};
ghost use Rattle.ba_checker.specs.Facts.{AreSelectors, IsStart};
ghost use Rattle.ba_encode.specs.Softs.{softs_of};
ghost use Rattle.ba_enum.specs.Problems.{IsReadable};
ghost use Rattle.ba_localise.specs.Starting.{IsEncodedBy};
ghost use Rattle.ba_search.specs.declared.search.SearchError.{SearchError};
ghost use Rattle.ba_tree.specs.Least.{WeightList};
ghost use Rattle.ba_world.specs.World.{HasWriteFault};

use ba_cert::{CertHead, CertSink, Start, TextSink, begin_text};
use ba_commands::Text;
use ba_derivations::Verdict;
use ba_encode::Encoded;
use ba_localise::search_for;
use ba_search::{SearchError, SearchRules};
use ba_steps::{RunJudge, SinkError, StepSink};
use ba_world::World;
use std::alloc::Global;
use std::marker::Brand;

/// Begins the certificate of a search.
///
/// `SinkFailed` comes only if the world's faults of writing rose; `Memory` if memory runs out.
fn begin<W: World>(
    alloc: Global,
    world: &mut W,
    name: &str,
    head: &CertHead,
) -> Result<(), SearchError>
    requires countable { head.now.conflicts < 2 ^ 62 }
    ensures sound { OnOk result (is_sound head.now true name.now (W.outside world.new) ≡ true) }
    ensures no_step { OnOk result (HasNoStep head.now name.now (W.outside world.new)) }
    ensures begins { Begins head.now name.now (W.outside world.old) (W.outside world.new) }
    ensures empty { IsUnbegun name.now (W.outside world.old) (W.outside world.new)
        ⊎ HoldsPrefix name.now (certificate_of head.now []) (W.outside world.new) }
    ensures cause { result ≡ Err SearchError.SinkFailed
        → HasWriteFault (W.outside world.old) (W.outside world.new) }
{
    match begin_text(alloc, world, name, head) {
        Ok(()) => Ok(()),
        Err(SinkError::Failed) => Err(SearchError::SinkFailed),
        Err(SinkError::Memory) => Err(SearchError::Memory),
    }
}

/// The same as [`search_certified`] with a certificate. Its steps are written to the file of this name as
/// they are made, and then handed on.
///
/// `SinkFailed` comes only if the faults of `steps` and of the world's writing rose, which count together;
/// `Memory` if memory runs out. The file and `steps` then have the beginning of one derivation.
fn certify<S, W, D, J, R>(
    alloc: Global,
    world: &mut W,
    name: &Text,
    head: CertHead,
    encoded: &Encoded,
    judge: J,
    rules: R,
    steps: &mut D,
) -> Result<Verdict, SearchError>
where
    S: Start,
    W: World,
    D: StepSink + Drop,
    J: RunJudge + Drop,
    R: SearchRules + Drop,
    requires starts { Starts name.now head (W.outside world.old)
        (D.told steps.old).faults S.name S.head S.outside S.faults }
    requires countable { head.conflicts < 2 ^ 62 }
    requires clauses { IsStart encoded.now.formula (softs_of encoded.now.groups) }
    requires selectors { AreSelectors encoded.now.formula.variables (softs_of encoded.now.groups) }
    requires readable { IsReadable encoded.now (J.accepts judge) }
    requires rules { R.are_rules rules }
    ensures ends { (weights : WeightList) → IsEncodedBy weights (J.accepts judge) encoded.now
        → SearchEnds head (Some name.now) weights (J.accepts judge)
        (W.outside world.old) (W.outside world.new) (D.told steps.old) (D.told steps.new) result }
    ensures bounded { (W.outside world.new).given ≤ (W.outside world.old).given }
{
    begin(alloc, world, name.as_str(), &head)?;
    let text: TextSink<W, S> = TextSink::new(alloc, world, name.as_str(), head);
    let mut sink = CertSink { text, next: steps };
    let verdict = search_for(
        alloc,
        encoded,
        judge,
        head.conflicts,
        head.sets,
        rules,
        &mut sink,
    )?;
    if sink.text.is_whole(name.as_str()) {
        Ok(verdict)
    } else {
        // Each step was taken, so the certificate is whole.
        Err(SearchError::Memory)
    }
}

/// The verdict of a search for the least sets of groups, with as many conflicts and sets as these settings
/// allow. The formula encodes faithfully which runs this judge calls good. Each model of it makes some
/// selector false, and the judge calls the choices good that are read from it.
///
/// The derivation is handed to `steps`, and its steps are written to the certificate, if one is named.
///
/// - `SinkFailed`: the faults of `steps` rose. If a certificate is named, those of `steps` and of the world's
///   writing count together.
/// - `Memory`: out of memory.
///
/// What was handed on before an error stays.
pub fn search_certified<W, D, J, R>(
    alloc: Global,
    world: &mut W,
    cert: &Option<Text>,
    head: CertHead,
    encoded: &Encoded,
    judge: J,
    rules: R,
    steps: &mut D,
) -> Result<Verdict, SearchError>
where
    W: World,
    D: StepSink + Drop,
    J: RunJudge + Drop,
    R: SearchRules + Drop,
    requires countable { head.conflicts < 2 ^ 62 }
    requires clauses { IsStart encoded.now.formula (softs_of encoded.now.groups) }
    requires selectors { AreSelectors encoded.now.formula.variables (softs_of encoded.now.groups) }
    requires readable { IsReadable encoded.now (J.accepts judge) }
    requires rules { R.are_rules rules }
    ensures ends { (weights : WeightList) → IsEncodedBy weights (J.accepts judge) encoded.now
        → SearchEnds head cert.now weights (J.accepts judge)
        (W.outside world.old) (W.outside world.new) (D.told steps.old) (D.told steps.new) result }
    ensures bounded { (W.outside world.new).given ≤ (W.outside world.old).given }
{
    match cert {
        Some(name) => {
            certify::<Brand, W, D, J, R>(alloc, world, name, head, encoded, judge, rules, steps)
        }
        None => search_for(
            alloc,
            encoded,
            judge,
            head.conflicts,
            head.sets,
            rules,
            steps,
        ),
    }
}
