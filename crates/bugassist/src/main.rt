//! The program: it names the sets of statements of a C program whose change could repair one failing run.
#![tactic(auto)]

use ba_tool::entry::{exit_code, run};
use std::process::ExitCode;

/// Calls the tool with the words of the command line, and ends with the number of its status.
fn main(rt: HostRuntime) -> ExitCode {
    exit_code(run(&rt))
}
