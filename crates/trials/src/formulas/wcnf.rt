//! Weighted formulas as text: `h` and a hard clause, or a weight and a soft clause, in each line.

use crate::clauses::write_clause;
use crate::formulas::sizes::literals_in;
use ba_encode::Encoded;
use ba_lits::Formula;
use ba_numbers::ids::At;
use ba_tree::tree::Program;
use std::io::{self, BufWriter, Write};

/// Prints the formula of a program after its sizes. A soft clause says that a statement runs as written, and
/// the comment before it which one, and where it begins.
pub fn print_encoded<R: AllocGlobal + Print>(
    rt: &R,
    program: &Program,
    encoded: &Encoded,
) -> io::Result<()> {
    let mut writer = BufWriter::new(rt.alloc(), io::writer(rt))?;
    write_sizes(&mut writer, encoded.formula())?;
    write_soft(&mut writer, program, encoded)?;
    write_hard(&mut writer, encoded.formula())?;
    writer.flush()
}

/// Writes how many variables, clauses and literals a formula has.
fn write_sizes<W: Write>(writer: &mut W, formula: &Formula) -> io::Result<()> {
    let variables = formula.variables();
    let clauses = formula.len();
    let literals = literals_in(formula);
    writeln!(
        writer,
        "c variables: {variables}\nc clauses: {clauses}\nc literals: {literals}"
    )
}

/// Writes the soft clause of each statement.
fn write_soft<W: Write>(writer: &mut W, program: &Program, encoded: &Encoded) -> io::Result<()> {
    for group in 0..encoded.groups() {
        let number = encoded.number(group);
        let weight = encoded.weight(group);
        let At { line, column } = position_of(program, number);
        writeln!(writer, "c statement {number} at {line}:{column}")?;
        write!(writer, "{weight} ")?;
        write_clause(writer, &[encoded.selector(group)])?;
    }
    Ok(())
}

/// Where the statement of a number begins; 0:0 if there is none.
fn position_of(program: &Program, number: u32) -> At {
    let place = number.saturating_sub(1) as usize;
    match program.statements.as_slice().get(place) {
        Some(statement) => statement.at,
        None => At { line: 0, column: 0 },
    }
}

/// Writes the clauses of a formula as hard ones.
fn write_hard<W: Write>(writer: &mut W, formula: &Formula) -> io::Result<()> {
    for place in 0..formula.len() {
        write!(writer, "h ")?;
        write_clause(writer, formula.clause(place + 1))?;
    }
    Ok(())
}
