//! Clauses as text.

use ba_lits::Lit;
use std::fmt;
use std::io::{self, Write};

/// A literal as the DIMACS format and weighted CNF write it.
#[derive(Clone, Copy)]
struct Signed(Lit);

impl fmt::Display for Signed {
    fn fmt<W: fmt::Write>(&self, f: &mut fmt::Formatter<W>) -> fmt::Result {
        let variable = self.0.variable();
        if self.0.is_negated() {
            write!(f, "-{variable}")
        } else {
            write!(f, "{variable}")
        }
    }
}

/// Writes the literals of a clause and the 0 after them, up to the end of the line.
pub fn write_clause<W: Write>(writer: &mut W, lits: &[Lit]) -> io::Result<()> {
    for lit in lits {
        let signed = Signed(*lit);
        write!(writer, "{signed} ")?;
    }
    writeln!(writer, "0")
}
