//! Searches over formulas.

mod dimacs;
mod report;
mod solving;

use anyhow::{Result, bail};
use ba_lits::Formula;
use dimacs::read_formula;
use report::Report;
use solving::solve;
use std::fs;
use std::rt::Files;

/// Solves the formula in the file that words name, and tells the answer.
pub fn try_search<R: AllocGlobal + Files + Print>(rt: &R, words: &[&str]) -> Result<()> {
    let [name] = words else {
        bail!("the words are no FILE");
    };
    let text = fs::read_to_string(rt, *name)?;
    report_on(rt, &read_formula(rt.alloc(), text.as_str())?)
}

/// Solves a formula, and tells the answer with the work that it took.
fn report_on<R: AllocGlobal + Print>(rt: &R, formula: &Formula) -> Result<()> {
    let Report {
        verdict,
        conflicts,
        propagated,
    } = solve(rt.alloc(), formula)?;
    println!(rt; "{verdict}: {conflicts} conflicts, {propagated} literals propagated")?;
    Ok(())
}
