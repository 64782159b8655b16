//! A sink that is lent to a search.

ghost use Rattle.ba_localise.specs.Lending.{told_through};

use ba_lits::{Formula, Lit};
use ba_steps::{CertStep, SinkError, StepSink};

/// A sink behind a reference. It tells what that sink tells, and writes through the reference too.
#[derive(Drop)]
pub struct Lent<'a, D> {
    pub sink: &'a mut D,
}

impl<'a, D: StepSink> StepSink for Lent<'a, D> {
    ghost told = { λ lent. told_through lent.sink.ghost_name (D.told lent.sink.now) };

    fn begin(&mut self, formula: &Formula, softs: &[(Lit, u32)]) -> Result<(), SinkError> {
        self.sink.begin(formula, softs)
    }

    fn take(&mut self, step: &CertStep) -> Result<(), SinkError> {
        self.sink.take(step)
    }
}
