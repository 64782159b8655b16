//! Blocks and leaves that can be left out: a `return` at the end of a function's body.

ghost use Rattle.std.specs.Prelude.{◌≡◌, ◌++◌, length, List, OnOk};
ghost use Rattle.std.specs.Bool.{OnTrue};
ghost use Rattle.ba_code.specs.declared.nodes.Node.{Node};
ghost use Rattle.ba_inline.specs.Adding.{block_act, if_act};
ghost use Rattle.ba_inline.specs.Leaving.{AreSameBlock, EndsInReturn, never_leaves, none_leaves};
ghost use Rattle.ba_inline.specs.Making.{Adds, return_label};
ghost use Rattle.ba_inline.specs.Repeating.{AddsLoop};

use crate::emit::{add, add_block, taken_off};
use crate::frames::{BROKEN, CONTINUED, RETURNED};
use ba_code::nodes::{Node, Operand};
use ba_numbers::ids::StmtId;
use std::alloc::{AllocError, Global};

/// Whether a node never ends by leaving a block of this label.
#[cycle(never)]
#[tactic(auto, unfolding(crate::specs::Leaving::never_leaves))]
fn never_leaves(label: u32, node: &Node) -> bool
    ensures { result ≡ never_leaves label node.now }
{
    match node {
        Node::Set { .. }
        | Node::Unary { .. }
        | Node::Binary { .. }
        | Node::Convert { .. }
        | Node::Load { .. }
        | Node::Save { .. }
        | Node::Fill { .. }
        | Node::Assert { .. }
        | Node::Beyond { .. } => true,
        Node::Pick { keep, .. } => none_leaves(label, keep.as_slice()),
        Node::If { yes, no, .. } => {
            none_leaves(label, yes.as_slice()) & none_leaves(label, no.as_slice())
        }
        Node::Block { label: own, body } => *own == label || none_leaves(label, body.as_slice()),
        Node::Leave { label: own } => *own != label,
        Node::Loop {
            head,
            body,
            step,
            ..
        } => {
            none_leaves(label, head.as_slice())
                & none_leaves(label, body.as_slice())
                & none_leaves(label, step.as_slice())
        }
    }
}

/// Whether nodes never end by leaving a block of this label.
#[cycle(never)]
fn none_leaves(label: u32, nodes: &[Node]) -> bool
    ensures { result ≡ none_leaves label nodes.now }
{
    for node in nodes {
        if !never_leaves(label, node) {
            return false;
        }
    }
    true
}

/// Whether the last node is a `return`.
fn ends_in_return(nodes: &[Node]) -> bool
    ensures { OnTrue result (EndsInReturn nodes.now) }
{
    match nodes.last() {
        Some(Node::Leave { label }) => *label == RETURNED,
        _ => false,
    }
}

/// The nodes of a function's block without a `return` at the end.
fn without_last_return(mut nodes: Vec<Node>) -> Vec<Node>
    ensures { AreSameBlock return_label result.items nodes.items }
{
    if ends_in_return(nodes.as_slice()) {
        nodes.pop();
    }
    nodes
}

/// Appends the body of a function: a block for its `return`s, or its nodes alone if none comes before the
/// end.
#[inline(never)]
pub fn add_body(out: &mut Vec<Node>, body: Vec<Node>) -> Result<(), AllocError>
    ensures { OnOk result (Adds out.old.items out.new.items (block_act return_label body.items)) }
{
    let mut nodes = without_last_return(body);
    if !none_leaves(RETURNED, nodes.as_slice()) {
        return add(
            out,
            Node::Block {
                label: RETURNED,
                body: nodes,
            },
        );
    }
    out.append(&mut nodes)?;
    Ok(())
}

/// Appends a branch. A `return` that ends both sides occurs once, after them.
#[inline(never)]
pub fn add_branches(
    out: &mut Vec<Node>,
    when: Operand,
    mut yes: Vec<Node>,
    mut no: Vec<Node>,
) -> Result<(), AllocError>
    ensures { OnOk result (Adds out.old.items out.new.items (if_act when yes.items no.items)) }
{
    if !ends_in_return(yes.as_slice()) || !ends_in_return(no.as_slice()) {
        return add(out, Node::If { when, yes, no });
    }
    yes.pop();
    no.pop();
    add(out, Node::If { when, yes, no })?;
    add(out, Node::Leave { label: RETURNED })
}

/// Makes a branch of the last nodes: one side begins at one index, the other at another. A `return` that ends
/// both occurs once, after them.
#[inline(never)]
pub fn wrap_branches(
    alloc: Global,
    out: &mut Vec<Node>,
    start: usize,
    middle: usize,
    when: Operand,
) -> Result<(), AllocError>
    ensures { OnOk result ((old yes no : List Node) → start ≡ length old
        → middle ≡ length (old ++ yes) → out.old.items ≡ (old ++ yes) ++ no
        → Adds old out.new.items (if_act when yes no)) }
{
    let no = taken_off(alloc, out, middle)?;
    let yes = taken_off(alloc, out, start)?;
    add_branches(out, when, yes, no)
}

/// Makes the nodes from this index on the body of a block.
#[inline(never)]
pub fn wrap_block(
    alloc: Global,
    out: &mut Vec<Node>,
    start: usize,
    label: u32,
) -> Result<(), AllocError>
    ensures { OnOk result ((old made : List Node) → start ≡ length old
        → out.old.items ≡ old ++ made → Adds old out.new.items (block_act label made)) }
{
    let body = taken_off(alloc, out, start)?;
    add_block(out, label, body)
}

/// Makes a loop of the nodes from three indices on: head, body, and step. A `break` leaves the block around
/// it, and a `continue` that of its body.
#[inline(never)]
pub fn wrap_loop(
    alloc: Global,
    out: &mut Vec<Node>,
    start: usize,
    head_end: usize,
    body_end: usize,
    after: bool,
    stmt: StmtId,
    to: u32,
) -> Result<(), AllocError>
    ensures { OnOk result ((old heads bodies steps : List Node) → start ≡ length old
        → head_end ≡ length (old ++ heads) → body_end ≡ length ((old ++ heads) ++ bodies)
        → out.old.items ≡ ((old ++ heads) ++ bodies) ++ steps
        → AddsLoop after stmt to heads bodies steps old out.new.items) }
{
    let step = taken_off(alloc, out, body_end)?;
    let body = taken_off(alloc, out, head_end)?;
    let head = taken_off(alloc, out, start)?;
    let mut turn = Vec::new(alloc);
    add_block(&mut turn, CONTINUED, body)?;
    let mut whole = Vec::new(alloc);
    add(
        &mut whole,
        Node::Loop {
            after,
            head,
            when: Operand::Var(to),
            body: turn,
            step,
            stmt,
        },
    )?;
    add_block(out, BROKEN, whole)
}
