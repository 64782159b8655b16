//! The certificate of a check, read in pieces.

ghost use Rattle.std.specs.Prelude.{◌≡◌, ◌≤◌, ◌+◌, [], true, All, IfOk, IfErr};
ghost use Rattle.ba_check.specs.Answers.{confirmed_of};
ghost use Rattle.ba_check.specs.Readers.{seen};
ghost use Rattle.ba_check.specs.Readings.{HasRead};
ghost use Rattle.ba_derivations.specs.Derivations.{Verdict};
ghost use Rattle.ba_derivations.specs.Encodings.{IsFaithful};
ghost use Rattle.ba_world.specs.Read.{piece_size};
ghost use Rattle.ba_world.specs.World.{OnlyReads, Outside};
ghost use Rattle.ba_cases.specs.AllCases.{IsCaseOfAll};
ghost use Rattle.ba_cases.specs.Cases.{IsCaseOf};
ghost use Rattle.ba_cases.specs.Reading.{AreShort};
ghost use Rattle.mode_check.specs.Certificates.{CertificateComesTo, IsFed, IsUnfed, Checking, claim_of, unfed_answer};
ghost use Rattle.ba_answers.specs.Limits.{certificate_limit};
ghost use Rattle.ba_files.specs.Files.{GivesAtMost};
ghost use Rattle.ba_checker.specs.Facts.{AreSelectors, IsStart};
ghost use Rattle.ba_encode.specs.Softs.{softs_of};
ghost use Rattle.ba_tree.specs.Least.{AreWeightsOf, WeightList};
ghost use Rattle.ba_tree.specs.Run.{are_bounds, fits};
ghost use Rattle.mode_check.specs.Checks.{FormulaEnds, TextsEnd, all_runs, one_run};

use crate::jobs::CheckJob;
use ba_all::JudgeOfAll;
use ba_answers::answers::{Answer, Claim};
use ba_answers::file::{CERTIFICATE_LIMIT, File};
use ba_cases::{Case, CaseOfAll, Texts, read_case, read_case_of_all};
use ba_check::{CheckError, Confirm, Confirmed, Settings};
use ba_encode::{Encoded, softs_of};
use ba_formula::{formula_of, formula_of_all};
use ba_judge::ProgramJudge;
use ba_search::SearchError;
use ba_steps::{RunJudge, StepSink};
use ba_world::{ReadFileError, World, WorldError};
use std::alloc::{AllocError, Global};

/// Why a certificate wasn't read to its end.
#[derive(Clone, Copy)]
pub enum Unfed {
    /// Its file can't be read, or is too long.
    Unread(ReadFileError),
    /// A line is refused.
    Refused(CheckError),
}

impl From<WorldError> for Unfed {
    ghost use Rattle.std.specs.Prelude.{◌≡◌};
    ghost use Rattle.ba_world.specs.Read.{read_error};
    ghost use Rattle.mode_check.specs.declared.certificates.Unfed.TheVariants.{Unread};

    ghost from_gives = { λ cause error. error ≡ Unread (read_error cause) };

    fn from(error: WorldError) -> Unfed {
        Unfed::Unread(ReadFileError::from(error))
    }
}

impl From<CheckError> for Unfed {
    ghost use Rattle.std.specs.Prelude.{◌≡◌};
    ghost use Rattle.mode_check.specs.declared.certificates.Unfed.TheVariants.{Refused};

    ghost from_gives = { λ cause error. error ≡ Refused cause };

    fn from(error: CheckError) -> Unfed {
        Unfed::Refused(error)
    }
}

/// How many bytes are read at a time.
const BUFFER: usize = 4096;

/// Gives the file of this name to a reader of certificates that has read nothing. It stops at the end, or
/// with the piece in which the first refused line ends.
fn feed_file<W: World, J: RunJudge + Drop>(
    world: &mut W,
    name: &str,
    confirm: &mut Confirm<J>,
) -> Result<(), Unfed>
    ensures fed { (j : Checking) → j.name ≡ name.now
        → HasRead j.head j.problem [] (seen J.accepts confirm.old)
        → IfOk result
        (λ _. IsFed j (W.outside world.old) (W.outside world.new) (seen J.accepts confirm.new)) }
    ensures unfed { (j : Checking) → j.name ≡ name.now
        → HasRead j.head j.problem [] (seen J.accepts confirm.old)
        → IfErr result (λ unfed. IsUnfed j unfed (W.outside world.old) (W.outside world.new)) }
    ensures bounded { (W.outside world.new).given
        ≤ (W.outside world.old).given + (certificate_limit + piece_size) }
    ensures stays { OnlyReads (W.outside world.old) (W.outside world.new) }
{
    world.open_file(name)?;
    let mut given = 0;
    let mut buffer = [0u8; BUFFER];
    loop {
        let count = world.next_piece(&mut buffer)?;
        if count == 0 {
            return Ok(());
        }
        given += count as u64;
        if given > CERTIFICATE_LIMIT {
            return Err(Unfed::Unread(ReadFileError::TooLong));
        }
        confirm.feed(&buffer[..count])?;
    }
}

/// The answer for a certificate that wasn't read to its end; none if memory ran out.
fn unfed_answer(unfed: Unfed) -> Option<Answer>
    ensures { result ≡ unfed_answer unfed }
{
    match unfed {
        Unfed::Unread(ReadFileError::Failed) => Some(Answer::Unreadable(File::Certificate)),
        Unfed::Unread(ReadFileError::TooLong) => Some(Answer::TooLong(File::Certificate)),
        Unfed::Refused(CheckError::Line { line, code }) => {
            Some(Answer::BadCertificate { code, line })
        }
        Unfed::Unread(ReadFileError::Memory) | Unfed::Refused(CheckError::Memory) => None,
    }
}

/// The claim of a certificate that says this.
fn claim_of(confirmed: &Confirmed) -> Claim
    ensures { (verdict : Verdict) → confirmed.now ≡ confirmed_of verdict
        → result ≡ claim_of verdict }
{
    match confirmed {
        Confirmed::Located { .. } => Claim::Located,
        Confirmed::NoRepair => Claim::NoRepair,
        Confirmed::TooMany { .. } => Claim::TooManySets,
        Confirmed::Spent => Claim::BudgetSpent,
    }
}

/// The answer of a certificate that was read to its end.
///
/// The only error is out of memory.
fn read_answer<J: RunJudge + Drop>(confirm: Confirm<J>) -> Result<Answer, AllocError>
    ensures { (j : Checking) (old new : Outside) → IsFed j old new (seen J.accepts confirm)
        → IsFaithful j.problem.formula j.problem.softs j.weights j.problem.good
        → IfOk result (λ answer. CertificateComesTo j answer old new) }
{
    match confirm.finish() {
        Ok(confirmed) => Ok(Answer::Accepted(claim_of(&confirmed))),
        Err(CheckError::Line { line, code }) => Ok(Answer::BadCertificate { code, line }),
        Err(CheckError::Memory) => Err(AllocError),
    }
}

/// The answer of the certificate in the file of this name, by a reader that has read nothing.
///
/// The only error is out of memory.
fn file_answer<W: World, J: RunJudge + Drop>(
    world: &mut W,
    name: &str,
    mut confirm: Confirm<J>,
) -> Result<Answer, AllocError>
    ensures answer { (j : Checking) → j.name ≡ name.now
        → HasRead j.head j.problem [] (seen J.accepts confirm)
        → IsFaithful j.problem.formula j.problem.softs j.weights j.problem.good
        → IfOk result (λ answer. CertificateComesTo j answer
        (W.outside world.old) (W.outside world.new)) }
    ensures bounded { (W.outside world.new).given
        ≤ (W.outside world.old).given + (certificate_limit + piece_size) }
    ensures stays { OnlyReads (W.outside world.old) (W.outside world.new) }
{
    match feed_file(world, name, &mut confirm) {
        Ok(()) => read_answer(confirm),
        Err(unfed) => match unfed_answer(unfed) {
            Some(answer) => Ok(answer),
            None => Err(AllocError),
        },
    }
}

/// The answer of a job's certificate over a formula, which is handed to `steps` without a step. Then the file
/// is read in pieces and checked, up to its first refused line.
///
/// `SinkFailed` comes only if the faults of `steps` rose; `Memory` if memory runs out.
fn check_over<W, D, J>(
    alloc: Global,
    world: &mut W,
    job: &CheckJob,
    encoded: &Encoded,
    judge: J,
    steps: &mut D,
) -> Result<Answer, SearchError>
where
    W: World,
    D: StepSink + Drop,
    J: RunJudge + Drop,
    requires clauses { IsStart encoded.now.formula (softs_of encoded.now.groups) }
    requires selectors { AreSelectors encoded.now.formula.variables (softs_of encoded.now.groups) }
    ensures ends { (weights : WeightList)
        → IsFaithful encoded.now.formula (softs_of encoded.now.groups) weights (J.accepts judge)
        → FormulaEnds job.now weights (J.accepts judge)
        (W.outside world.old) (W.outside world.new) (D.told steps.old) (D.told steps.new) result }
    ensures bounded { GivesAtMost (certificate_limit + piece_size)
        (W.outside world.old) (W.outside world.new) }
    ensures stays { OnlyReads (W.outside world.old) (W.outside world.new) }
{
    let settings = Settings {
        bounds: job.bounds,
        conflicts: job.conflicts,
        sets: job.sets,
    };
    let softs = softs_of(alloc, encoded)?;
    let confirm = Confirm::new(alloc, judge, settings, encoded)?;
    steps.begin(encoded.formula(), softs.as_slice())?;
    Ok(file_answer(world, job.cert.as_str(), confirm)?)
}

/// The answer of a job's certificate on a case.
///
/// `SinkFailed` comes only if the faults of `steps` rose; `Memory` if memory runs out.
fn check_case<W, D>(
    alloc: Global,
    world: &mut W,
    job: &CheckJob,
    case: &Case,
    steps: &mut D,
) -> Result<Answer, SearchError>
where
    W: World,
    D: StepSink + Drop,
    requires bounds { are_bounds job.now.bounds ≡ true }
    requires fits { fits case.now.program case.now.input ≡ true }
    requires weights { AreWeightsOf case.now.program case.now.weights.of }
    ensures ends { (x : Texts) → IsCaseOf job.now.bounds x case.now
        → TextsEnd (one_run job.now) job.now x
        (W.outside world.old) (W.outside world.new) (D.told steps.old) (D.told steps.new) result }
    ensures bounded { GivesAtMost (certificate_limit + piece_size)
        (W.outside world.old) (W.outside world.new) }
    ensures stays { OnlyReads (W.outside world.old) (W.outside world.new) }
{
    let encoded = formula_of(alloc, &case.program, &case.input, job.bounds, &case.weights)?;
    let judge = ProgramJudge::new(alloc, &case.program, &case.input, job.bounds);
    check_over(alloc, world, job, &encoded, judge, steps)
}

/// The answer of a job's certificate on several runs taken together.
///
/// `SinkFailed` comes only if the faults of `steps` rose; `Memory` if memory runs out.
fn check_case_of_all<W, D>(
    alloc: Global,
    world: &mut W,
    job: &CheckJob,
    case: &CaseOfAll,
    steps: &mut D,
) -> Result<Answer, SearchError>
where
    W: World,
    D: StepSink + Drop,
    requires bounds { are_bounds job.now.bounds ≡ true }
    requires fits { All (λ input. fits case.now.program input ≡ true) case.now.inputs }
    requires weights { AreWeightsOf case.now.program case.now.weights.of }
    ensures ends { (x : Texts) → IsCaseOfAll job.now.bounds x case.now
        → TextsEnd (all_runs job.now) job.now x
        (W.outside world.old) (W.outside world.new) (D.told steps.old) (D.told steps.new) result }
    ensures bounded { GivesAtMost (certificate_limit + piece_size)
        (W.outside world.old) (W.outside world.new) }
    ensures stays { OnlyReads (W.outside world.old) (W.outside world.new) }
{
    let inputs = case.inputs.as_slice();
    let encoded = formula_of_all(alloc, &case.program, inputs, job.bounds, &case.weights)?;
    let judge = JudgeOfAll::new(alloc, &case.program, inputs, job.bounds);
    check_over(alloc, world, job, &encoded, judge, steps)
}

/// The answer of a job's certificate on the run of the program that these texts spell, which fails; or why it
/// isn't checked.
///
/// In this order it reads the program, the input and the weights, counts the units, and runs the program as
/// written. It hands the formula to `steps`, without a step. Then it reads the certificate in pieces and
/// checks it over that formula, up to its first refused line.
///
/// `SinkFailed` comes only if the faults of `steps` rose; `Memory` if memory runs out.
pub fn check_texts<W, D>(
    alloc: Global,
    world: &mut W,
    job: &CheckJob,
    texts: &Texts,
    steps: &mut D,
) -> Result<Answer, SearchError>
where
    W: World,
    D: StepSink + Drop,
    requires short { AreShort texts.now }
    requires bounds { are_bounds job.now.bounds ≡ true }
    ensures ends { TextsEnd (one_run job.now) job.now texts.now
        (W.outside world.old) (W.outside world.new) (D.told steps.old) (D.told steps.new) result }
    ensures bounded { GivesAtMost (certificate_limit + piece_size)
        (W.outside world.old) (W.outside world.new) }
    ensures stays { OnlyReads (W.outside world.old) (W.outside world.new) }
{
    match read_case(alloc, texts, job.bounds) {
        Ok(case) => check_case(alloc, world, job, &case, steps),
        Err(stop) => stop.answer(),
    }
}

/// The answer of a job's certificate on the runs on all inputs that a text writes in its lines, each of which
/// fails; or why it isn't checked.
///
/// The units are counted once for each input, and the program is run as written on each. All else is as in
/// [`check_texts`].
///
/// `SinkFailed` comes only if the faults of `steps` rose; `Memory` if memory runs out.
pub fn check_all_texts<W, D>(
    alloc: Global,
    world: &mut W,
    job: &CheckJob,
    texts: &Texts,
    steps: &mut D,
) -> Result<Answer, SearchError>
where
    W: World,
    D: StepSink + Drop,
    requires short { AreShort texts.now }
    requires bounds { are_bounds job.now.bounds ≡ true }
    ensures ends { TextsEnd (all_runs job.now) job.now texts.now
        (W.outside world.old) (W.outside world.new) (D.told steps.old) (D.told steps.new) result }
    ensures bounded { GivesAtMost (certificate_limit + piece_size)
        (W.outside world.old) (W.outside world.new) }
    ensures stays { OnlyReads (W.outside world.old) (W.outside world.new) }
{
    match read_case_of_all(alloc, texts, job.bounds) {
        Ok(case) => check_case_of_all(alloc, world, job, &case, steps),
        Err(stop) => stop.answer(),
    }
}
