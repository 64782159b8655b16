//! Formulas of C programs.

mod reading;
mod sizes;
mod steps;
mod wcnf;

use anyhow::{Result, bail, ensure};
use ba_formula::formula_of;
use ba_tree::run::Bounds;
use reading::{input_of, program_of, unit_weights};
use std::fs;
use std::rt::Files;
use std::time::{Clock, Instant};
use steps::{print_steps, tell_time};
use wcnf::print_encoded;

/// How many frames may be active at a time if the words don't say it.
const DEPTH: &str = "16";

/// Prints the formula that words ask for.
pub fn try_formula<R: AllocGlobal + Clock + Eprint + Files + Print>(
    rt: &R,
    words: &[&str],
) -> Result<()> {
    match words {
        [program, input, turns] => print_formula(rt, program, input, bounds_of(turns, DEPTH)?),
        [program, input, turns, frames] => {
            print_formula(rt, program, input, bounds_of(turns, frames)?)
        }
        _ => bail!("the words are no PROGRAM INPUT BOUND [DEPTH]"),
    }
}

/// The bounds that are written so.
fn bounds_of(turns: &str, frames: &str) -> Result<Bounds> {
    Ok(Bounds {
        turns: number_to(128, turns)?,
        frames: number_to(32, frames)?,
    })
}

/// The number from 1 to a greatest one that is written so.
fn number_to(most: u32, word: &str) -> Result<u32> {
    let number: u32 = word.parse()?;
    ensure!(
        1 <= number && number <= most,
        "{number} is not from 1 to {most}"
    );
    Ok(number)
}

/// Prints the formula of a program on an input, whose files have these names, after the sizes of what it is
/// made from.
fn print_formula<R: AllocGlobal + Clock + Eprint + Files + Print>(
    rt: &R,
    program: &str,
    input: &str,
    bounds: Bounds,
) -> Result<()> {
    let alloc = rt.alloc();
    let program = program_of(alloc, fs::read(rt, program)?.as_slice())?;
    let input = input_of(alloc, &program, fs::read(rt, input)?.as_slice())?;
    let weights = unit_weights(alloc, &program)?;
    print_steps(rt, &program, &input, bounds)?;
    let start = Instant::now(rt)?;
    let encoded = formula_of(alloc, &program, &input, bounds, &weights)?;
    tell_time(rt, "formula, with all steps again", &start)?;
    print_encoded(rt, &program, &encoded)?;
    Ok(())
}
