//! The proof format in memory: steps of derivations, errors of steps, sinks of steps and judges of runs.
//!
//! A derivation starts from a formula in conjunctive normal form with weighted soft literals. Each step adds
//! a clause, deletes learnt clauses, or ends the derivation. A [`StepError`] says why a step isn't allowed. A
//! [`StepSink`] takes formulas and steps, and a [`RunJudge`] tells which runs are good.
#![tactic(auto)]

mod judge;
mod list_judge;
mod sink;
mod step;

pub use judge::RunJudge;
pub use list_judge::{GoodRun, ListJudge};
pub use sink::{Basis, Both, ListSink, NoSink, SinkError, StepSink};
pub use step::{CertStep, StepError};
