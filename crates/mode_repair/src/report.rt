//! The report of edits.

ghost use Rattle.std.specs.Prelude.{◌≡◌, ◌++◌, Some, flat_map, IfOk, OnOk};
ghost use Rattle.mode_repair.specs.Report.{change_text, edit_line, line_of, operator_word, repair_text};

use ba_numbers::numbers::BinOp;
use ba_repair::{Change, Edit};
use ba_report::{Lines, info_of, push_source, push_statement_head};
use ba_text::{push_number, push_value};
use ba_tree::tree::{Program, StmtInfo};
use std::alloc::{AllocError, Global};

/// An operator as C writes it.
fn operator_word(op: BinOp) -> &'static [u8]
    ensures { result.now ≡ operator_word op }
{
    match op {
        BinOp::Mul => b"*",
        BinOp::Div => b"/",
        BinOp::Rem => b"%",
        BinOp::Add => b"+",
        BinOp::Sub => b"-",
        BinOp::Shl => b"<<",
        BinOp::Shr => b">>",
        BinOp::Lt => b"<",
        BinOp::Le => b"<=",
        BinOp::Gt => b">",
        BinOp::Ge => b">=",
        BinOp::Eq => b"==",
        BinOp::Ne => b"!=",
        BinOp::And => b"&",
        BinOp::Xor => b"^",
        BinOp::Or => b"|",
    }
}

/// Appends `FROM -> TO` of a change.
fn push_change(change: Change, text: &mut Vec<u8>) -> Result<(), AllocError>
    ensures { OnOk result (text.new.items ≡ text.old.items ++ change_text change) }
{
    match change {
        Change::Constant { from, to } => {
            push_value(from, text)?;
            text.extend_from_slice(b" -> ")?;
            push_value(to, text)
        }
        Change::Operator { from, to } => {
            text.extend_from_slice(operator_word(from))?;
            text.extend_from_slice(b" -> ")?;
            text.extend_from_slice(operator_word(to))
        }
        Change::ToOr => text.extend_from_slice(b"&& -> ||"),
        Change::ToAnd => text.extend_from_slice(b"|| -> &&"),
    }
}

/// Appends the line of an edit of this statement.
fn push_info(
    lines: &Lines,
    edit: Edit,
    info: StmtInfo,
    text: &mut Vec<u8>,
) -> Result<(), AllocError>
    ensures { OnOk result (text.new.items
        ≡ text.old.items ++ line_of lines.now edit (Some info)) }
{
    text.extend_from_slice(b"  ")?;
    push_statement_head(info, text)?;
    text.extend_from_slice(b", node ")?;
    push_number(u64::from(edit.node), text)?;
    text.extend_from_slice(b": ")?;
    push_change(edit.change, text)?;
    push_source(lines.at(info.at.line), text)
}

/// Appends the line of an edit.
fn push_edit(
    lines: &Lines,
    program: &Program,
    edit: Edit,
    text: &mut Vec<u8>,
) -> Result<(), AllocError>
    ensures { OnOk result (text.new.items
        ≡ text.old.items ++ edit_line lines.now program.now edit) }
{
    match info_of(program, edit.stmt.0) {
        Some(info) => push_info(lines, edit, info, text),
        None => Ok(()),
    }
}

/// Appends the lines of edits.
fn push_edits(
    lines: &Lines,
    program: &Program,
    edits: &[Edit],
    text: &mut Vec<u8>,
) -> Result<(), AllocError>
    ensures { OnOk result (text.new.items
        ≡ text.old.items ++ flat_map (edit_line lines.now program.now) edits.now) }
{
    for edit in edits {
        push_edit(lines, program, *edit, text)?;
    }
    Ok(())
}

/// The report of edits of the program that the source text spells. Its first line has their number. Each has
/// a line: the statement's position and kind, the number of the node, the change, and the source line.
///
/// The only error is out of memory.
pub fn repair_text(
    alloc: Global,
    source: &[u8],
    program: &Program,
    edits: &[Edit],
) -> Result<Vec<u8>, AllocError>
    ensures { IfOk result (λ text. text.items ≡ repair_text source.now program.now edits.now) }
{
    let lines = Lines::new(alloc, source)?;
    let mut text = Vec::from_slice(alloc, b"edits: ")?;
    push_number(edits.len() as u64, &mut text)?;
    text.extend_from_slice(b"\n")?;
    push_edits(&lines, program, edits, &mut text)?;
    Ok(text)
}
