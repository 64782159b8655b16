//! The front end of a call: from texts to a program with its input and weights, or to an answer before any
//! search.
#![tactic(auto)]

mod all_cases;
mod cases;
mod inputs;
pub mod laws;
mod parts;
mod programs;
mod stop;
mod texts;

pub use all_cases::{CaseOfAll, read_case_of_all};
pub use cases::{Case, read_case};
pub use inputs::{check_runs, read_several_inputs};
pub use parts::{
    check_failing, check_size, plain_run, position_of, read_one_input, read_weights_of,
};
pub use programs::read_program;
pub use stop::Stop;
pub use texts::{Texts, files_for};
