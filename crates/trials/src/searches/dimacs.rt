//! Formulas as text in the DIMACS format.

use anyhow::{Result, bail, ensure};
use ba_lits::{Formula, Lit, is_clause};
use std::alloc::Global;
use test_formulas::{lit, without_clauses};

/// The formula that a text spells, with a clause in each line.
pub fn read_formula(alloc: Global, text: &str) -> Result<Formula> {
    let mut formula = Formula::new(alloc);
    for line in text.lines() {
        read_line(alloc, &mut formula, line)?;
    }
    Ok(formula)
}

/// Reads a line: a comment, the head with the numbers of variables and clauses, or a clause.
fn read_line(alloc: Global, formula: &mut Formula, line: &str) -> Result<()> {
    let words: Vec<&str> = line.split_whitespace().collect(alloc)?;
    match words.as_slice() {
        [] | ["c", ..] => Ok(()),
        ["p", "cnf", variables, _] => {
            *formula = without_clauses(alloc, variables.parse()?)?;
            Ok(())
        }
        [codes @ .., "0"] => add_clause(alloc, formula, codes),
        _ => bail!("a line is no clause"),
    }
}

/// The literal that is written so.
fn literal(word: &str) -> Result<Lit> {
    match word.parse()? {
        0 => bail!("a clause ends before its line"),
        code => Ok(lit(code)),
    }
}

/// Adds the clause whose literals are written so.
fn add_clause(alloc: Global, formula: &mut Formula, codes: &[&str]) -> Result<()> {
    let mut lits = Vec::new(alloc);
    for code in codes {
        lits.push(literal(code)?)?;
    }
    lits.sort_unstable_by_key(|lit| lit.index());
    ensure!(
        is_clause(formula.variables(), lits.as_slice()),
        "the variables of a clause are not different ones of the head's"
    );
    formula.push(lits.as_slice())?;
    Ok(())
}
