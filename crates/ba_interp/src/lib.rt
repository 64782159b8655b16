//! A big-step interpreter of typed C programs, with relaxed statements and given choices.
//!
//! [`run`] gives exactly the outcome that the meaning of C defines. [`run_prefix`] gives that of a run that
//! may leave choices, and how many it leaves. The time of both is linear in the steps of the run: variables
//! and elements are found by their numbers, and no path is copied.
#![tactic(auto)]

mod execution;
mod flows;
mod frames;
mod machine;
mod path;
mod relaxing;
mod runs;
mod setting;
mod stop;
mod values;

pub use runs::{PrefixRun, run, run_prefix};
