//! A checker that hands its allowed steps to a sink.

ghost use Rattle.std.specs.Prelude.{◌≡◌, true, false, None};
ghost use Rattle.ba_steps.specs.Steps.{IsFormed};
ghost use Rattle.ba_checker.specs.StepRules.{error_of, after};
ghost use Rattle.ba_checker.specs.Puts.{Checking, HandsOn, IsAllowed, Puts, log_of, refusal_of};

use crate::checker::Checker;
use ba_steps::{CertStep, RunJudge, SinkError, StepSink};
use std::marker::Model;

/// A checker, with a judge of runs and a sink. Each step goes to the checker and then to the sink. After a
/// refusal every further step is refused in the same way.
pub struct Checked<S: StepSink, J: RunJudge> {
    checker: Checker,
    judge: J,
    sink: S,
    refusal: Option<SinkError>,
}

impl<S: StepSink + Drop, J: RunJudge + Drop> Drop for Checked<S, J> {
    fn drop(self) {
        let Checked {
            checker: _,
            judge: _,
            sink: _,
            refusal: _,
        } = self;
    }
}

impl<S: StepSink, J: RunJudge> Model for Checked<S, J> {
    ghost use Rattle.ba_checker.specs.Puts.{Putting};

    ghost Value = { Putting J };

    ghost view = { λ c. record {
      checker = c.checker;
      judge = c.judge;
      told = S.told c.sink;
      refusal = c.refusal;
    } };
}

impl<S: StepSink + Drop, J: RunJudge + Drop> Checked<S, J> {
    /// The three together. It takes no memory.
    pub fn new(checker: Checker, judge: J, sink: S) -> Checked<S, J>
        ensures { result ≡ record {
          checker = checker;
          judge = judge;
          told = S.told sink;
          refusal = None;
        } }
    {
        Checked {
            checker,
            judge,
            sink,
            refusal: None,
        }
    }

    /// Gives the checker and the sink back. It takes no memory.
    pub fn finish(self) -> (Checker, S)
        ensures checker { result.0 ≡ self.checker }
        ensures told { S.told result.1 ≡ self.told }
    {
        let Checked {
            checker,
            judge: _,
            sink,
            refusal: _,
        } = self;
        (checker, sink)
    }
}

impl<S: StepSink, J: RunJudge> Checked<S, J> {
    /// The checker.
    pub fn checker(&self) -> &Checker
        ensures { result.now ≡ self.now.checker }
    {
        &self.checker
    }

    /// Puts an allowed step to the checker, and hands it to the sink.
    ///
    /// - `Failed`: only if the sink's faults rose in this call, or `Failed` was answered before. The checker
    ///   has then taken the step, and some of the sink's logs may hold it.
    /// - `Memory`: memory ran out. The checker has taken the step, or answers `Memory` from then on.
    ///
    /// After a refusal nothing changes any more, and the answer stays the same.
    pub fn put(&mut self, step: &CertStep) -> Result<(), SinkError>
        requires formed { IsFormed step.now }
        requires allowed { self.old.refusal ≡ None
            → IsAllowed step.now (log_of J.accepts self.old) }
        ensures { Puts step.now result (log_of J.accepts self.old) (log_of J.accepts self.new) }
    {
        if let Some(refusal) = self.refusal {
            return Err(refusal);
        }
        let result = self.hand_on(step);
        self.refusal = refusal_of(&result);
        result
    }

    /// Puts a step through the checker and hands it to the sink.
    fn hand_on(&mut self, step: &CertStep) -> Result<(), SinkError>
        requires formed { IsFormed step.now }
        requires allowed { IsAllowed step.now (log_of J.accepts self.old) }
        ensures { HandsOn step.now result (log_of J.accepts self.old) (log_of J.accepts self.new) }
    {
        if !advance(&mut self.checker, step, &self.judge) {
            return Err(SinkError::Memory);
        }
        self.sink.take(step)
    }
}

/// A log of proofs, to which the steps of a derivation go one by one. A checker, a judge of runs and a sink
/// implement it together ([`Checked`]). Learn, Delete and Core steps ask no judge.
pub trait ProofLog {
    // The checker, the runs that its judge accepts, and what the sink tells.
    ghost log: { Self → Checking };

    /// The checker.
    fn checker(&self) -> &Checker
        ensures { result.now ≡ (log self.now).checker };

    /// Puts an allowed step, as [`Checked::put`] does.
    fn put(&mut self, step: &CertStep) -> Result<(), SinkError>
        requires formed { IsFormed step.now }
        requires allowed { (log self.old).refusal ≡ None → IsAllowed step.now (log self.old) }
        ensures { Puts step.now result (log self.old) (log self.new) };
}

impl<S: StepSink, J: RunJudge> ProofLog for Checked<S, J> {
    ghost log = { log_of J.accepts };

    fn checker(&self) -> &Checker
        ensures { result.now ≡ self.now.checker }
    {
        Checked::checker(self)
    }

    fn put(&mut self, step: &CertStep) -> Result<(), SinkError>
        requires formed { IsFormed step.now }
        requires allowed { self.old.refusal ≡ None
            → IsAllowed step.now (log_of J.accepts self.old) }
        ensures { Puts step.now result (log_of J.accepts self.old) (log_of J.accepts self.new) }
    {
        Checked::put(self, step)
    }
}

/// Puts an allowed step to the checker. It answers false if memory ran out.
fn advance<J: RunJudge>(checker: &mut Checker, step: &CertStep, judge: &J) -> bool
    requires formed { IsFormed step.now }
    requires allowed { checker.old.refused ≡ false
        → error_of (J.accepts judge.now) checker.old step.now ≡ None }
    ensures taken { result ≡ true → checker.new ≡ after checker.old step.now }
    ensures awake { result ≡ true → checker.new.refused ≡ false }
    ensures asleep { result ≡ false → checker.new.refused ≡ true }
{
    checker.accept(step, judge).is_ok()
}

/// The refusal of an answer.
fn refusal_of(answer: &Result<(), SinkError>) -> Option<SinkError>
    ensures { result ≡ refusal_of answer.now }
{
    match answer {
        Ok(()) => None,
        Err(error) => Some(*error),
    }
}
