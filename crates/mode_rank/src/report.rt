//! The report of a ranking.

ghost use Rattle.std.specs.Prelude.{◌≡◌, ◌++◌, Some, flat_map, IfOk, OnOk};
ghost use Rattle.mode_rank.specs.Report.{entry_line, line_of, ranked_text};

use ba_rank::Ranked;
use ba_report::{Lines, info_of, push_source, push_statement_head};
use ba_text::push_number;
use ba_tree::tree::{Program, StmtInfo};
use std::alloc::{AllocError, Global};

/// Appends the line of a statement with its count and the number of inputs.
fn push_info(
    lines: &Lines,
    all: u64,
    count: u64,
    info: StmtInfo,
    text: &mut Vec<u8>,
) -> Result<(), AllocError>
    ensures { OnOk result (text.new.items
        ≡ text.old.items ++ line_of lines.now all count (Some info)) }
{
    text.extend_from_slice(b"  ")?;
    push_number(count, text)?;
    text.extend_from_slice(b"/")?;
    push_number(all, text)?;
    text.extend_from_slice(b" ")?;
    push_statement_head(info, text)?;
    push_source(lines.at(info.at.line), text)
}

/// Appends the line of an entry, with the number of inputs.
fn push_entry(
    lines: &Lines,
    program: &Program,
    all: u64,
    entry: Ranked,
    text: &mut Vec<u8>,
) -> Result<(), AllocError>
    ensures { OnOk result (text.new.items
        ≡ text.old.items ++ entry_line lines.now program.now all entry) }
{
    match info_of(program, entry.stmt.0) {
        Some(info) => push_info(lines, all, u64::from(entry.inputs), info, text),
        None => Ok(()),
    }
}

/// Appends the lines of entries, with the number of inputs.
fn push_entries(
    lines: &Lines,
    program: &Program,
    all: u64,
    entries: &[Ranked],
    text: &mut Vec<u8>,
) -> Result<(), AllocError>
    ensures { OnOk result (text.new.items
        ≡ text.old.items ++ flat_map (entry_line lines.now program.now all) entries.now) }
{
    for entry in entries {
        push_entry(lines, program, all, *entry, text)?;
    }
    Ok(())
}

/// The report of a ranking. Its first line has the number of inputs. Each entry has a line: the number of
/// inputs that have its statement, and the statement's position, kind and source line.
///
/// The only error is out of memory.
pub fn ranked_text(
    alloc: Global,
    source: &[u8],
    program: &Program,
    all: u64,
    entries: &[Ranked],
) -> Result<Vec<u8>, AllocError>
    ensures { IfOk result (λ text. text.items
        ≡ ranked_text source.now program.now all entries.now) }
{
    let lines = Lines::new(alloc, source)?;
    let mut text = Vec::from_slice(alloc, b"ranked: inputs ")?;
    push_number(all, &mut text)?;
    text.extend_from_slice(b"\n")?;
    push_entries(&lines, program, all, entries, &mut text)?;
    Ok(text)
}
