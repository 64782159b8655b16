//! Trials of the program and of its parts.
//!
//! A scripted test driver: `trials SCRIPT ..` makes the trials of scripts, which are files. A line of a
//! script is a trial, with single blanks between its words. Blank lines and lines that begin with `#` are
//! skipped. Each trial prints its line, and then its result:
//!
//! - `bugassist WORDS ..`: the program called by these words, over the files of the current folder, with its
//!   status if that is not 0;
//! - `formula PROGRAM INPUT BOUND [DEPTH]`: the formula of a C program on an input, where each statement
//!   weighs 1. It is weighted CNF in the format of the MaxSAT evaluations since 2022. Comments have the sizes
//!   of what it was made from; standard error has the time of each step.
//! - `search FILE`: the search over a formula in the DIMACS format, with each learnt clause put to a checker.
//!   It prints the answer, the conflicts and the literals that propagation assigned.
#![tactic(auto)]

mod calls;
mod clauses;
mod formulas;
mod searches;

use anyhow::{Result, bail};
use calls::call;
use formulas::try_formula;
use searches::try_search;
use std::rt::{Env, Files};
use std::time::Clock;
use std::{env, fs};

/// Makes the trial of a line.
fn make_trial<R: AllocGlobal + Clock + Eprint + Files + Print>(rt: &R, line: &str) -> Result<()> {
    let words: Vec<&str> = line.split(' ').collect(rt.alloc())?;
    match words.as_slice() {
        ["bugassist", words @ ..] => call(rt, words),
        ["formula", words @ ..] => try_formula(rt, words),
        ["search", words @ ..] => try_search(rt, words),
        _ => bail!("there is no such trial"),
    }
}

/// Whether a line of a script is a trial.
fn is_trial(line: &str) -> bool {
    !line.trim().is_empty() && !line.starts_with('#')
}

/// Makes the trials of a script, and tells each after its line.
fn make_trials<R: AllocGlobal + Clock + Eprint + Files + Print>(rt: &R, name: &str) -> Result<()> {
    let script = fs::read_to_string(rt, name)?;
    for line in script.lines() {
        if is_trial(line) {
            println!(rt; "$ {line}")?;
            make_trial(rt, line)?;
        }
    }
    Ok(())
}

/// Makes the trials of all scripts that the words of the call name.
fn run<R: AllocGlobal + Clock + Env + Eprint + Files + Print>(rt: &R) -> Result<()> {
    for name in env::args(rt)?.skip(1) {
        make_trials(rt, name.as_str())?;
    }
    Ok(())
}

/// Makes the trials of the scripts that the words name.
fn main(rt: HostRuntime) -> Result<()> {
    run(&rt)
}
