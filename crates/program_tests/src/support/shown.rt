//! Nodes as words.

use ba_code::nodes::Node;
use ba_tree::run::{Place, Step};
use std::alloc::{AllocError, Global};
use std::panic::Expect;
use std::process::Abort;

/// A call by its number, or a loop's statement and the number of its iteration.
fn show_step(out: &mut String, step: &Step) -> Result<(), AllocError> {
    match step {
        Step::Call(call) => write!(out, " c{}", call.0),
        Step::Turn(stmt, turn) => write!(out, " {}.{turn}", stmt.0),
    }
}

/// A place: its statement, and the calls and iterations around it, as `5(3.1 c2)` for statement 5 in
/// iteration 1 of loop 3 and call 2.
fn show_place(out: &mut String, place: &Place) -> Result<(), AllocError> {
    write!(out, "{}(", place.stmt.0)?;
    for step in place.path.as_slice() {
        show_step(out, step)?;
    }
    out.push_str(" ) ")
}

/// Puts a word and a number after the text.
fn show_number(out: &mut String, word: &str, number: u32) -> Result<(), AllocError> {
    write!(out, "{word} {number} ")
}

/// Puts the node after the text: places with what Keep does there, blocks, branches, and ends.
#[cycle(nodes)]
fn show(out: &mut String, node: &Node) -> Result<(), AllocError> {
    match node {
        Node::Pick { place, keep, .. } => {
            show_place(out, place)?;
            show_row(out, keep.as_slice())
        }
        Node::If { yes, no, .. } => {
            out.push_str("if ")?;
            show_braced(out, yes.as_slice())?;
            show_braced(out, no.as_slice())
        }
        Node::Block { label, body } => {
            show_number(out, "block", *label)?;
            show_braced(out, body.as_slice())
        }
        Node::Leave { label } => show_number(out, "leave", *label),
        Node::Loop { .. } => out.push_str("loop "),
        Node::Beyond { stmt } => show_number(out, "beyond", stmt.0),
        _ => out.push_str("step "),
    }
}

/// Puts nodes after the text.
#[cycle(nodes)]
fn show_row(out: &mut String, nodes: &[Node]) -> Result<(), AllocError> {
    for node in nodes {
        show(out, node)?;
    }
    Ok(())
}

/// Puts nodes in braces after the text.
#[cycle(nodes)]
fn show_braced(out: &mut String, nodes: &[Node]) -> Result<(), AllocError> {
    out.push_str("{ ")?;
    for node in nodes {
        show(out, node)?;
    }
    out.push_str("} ")
}

/// The nodes as words.
pub fn shown(rt: &impl Abort, alloc: Global, nodes: &[Node]) -> String {
    let mut out = String::new(alloc);
    show_row(&mut out, nodes).expect(rt, "memory");
    out
}
