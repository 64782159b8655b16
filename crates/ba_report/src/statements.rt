//! The parts of a statement's line in a report.

ghost use Rattle.std.specs.Prelude.{◌≡◌, ◌++◌, OnOk};
ghost use Rattle.ba_report.specs.Report.{kind_word, statement_head, source_text};
ghost use Rattle.ba_tree.specs.Choices.{info_of};
ghost use Rattle.ba_tree.specs.Least.{stmt_of};

use crate::lines::trimmed;
use ba_text::push_number;
use ba_tree::tree::{Program, StmtInfo, StmtKind};
use std::alloc::AllocError;

/// The word for a kind of statement.
fn kind_word(kind: StmtKind) -> &'static [u8]
    ensures { result.now ≡ kind_word kind }
{
    match kind {
        StmtKind::Initialiser => b"initialiser",
        StmtKind::Assignment => b"assignment",
        StmtKind::Store => b"store",
        StmtKind::Condition => b"condition",
        StmtKind::Switch => b"switch",
        StmtKind::Return => b"return",
        StmtKind::Call => b"call",
        StmtKind::Assert => b"assert",
    }
}

/// The kind and position of the statement of this number, counted from 1.
pub fn info_of(program: &Program, number: u32) -> Option<StmtInfo>
    ensures { result ≡ info_of program.now (stmt_of number) }
{
    let place = number.checked_sub(1)?;
    program.statements.as_slice().get(place as usize).copied()
}

/// Appends the position and the kind of a statement: `L:K KIND`.
///
/// The only error is out of memory.
pub fn push_statement_head(info: StmtInfo, text: &mut Vec<u8>) -> Result<(), AllocError>
    ensures { OnOk result (text.new.items ≡ text.old.items ++ statement_head info) }
{
    push_number(u64::from(info.at.line), text)?;
    text.extend_from_slice(b":")?;
    push_number(u64::from(info.at.column), text)?;
    text.extend_from_slice(b" ")?;
    text.extend_from_slice(kind_word(info.kind))
}

/// Appends a source line without blanks at both ends, and a line feed: ` | TEXT`.
///
/// The only error is out of memory.
pub fn push_source(line: &[u8], text: &mut Vec<u8>) -> Result<(), AllocError>
    ensures { OnOk result (text.new.items ≡ text.old.items ++ source_text line.now) }
{
    text.extend_from_slice(b" | ")?;
    text.extend_from_slice(trimmed(line))?;
    text.extend_from_slice(b"\n")
}
