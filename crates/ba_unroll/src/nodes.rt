//! Nodes whose loops become iterations.

ghost use Rattle.std.specs.Prelude.{◌≡◌, ◌++◌, ◌∷◌, ℕ, OnOk, IfOk, List, [], length};
ghost use Rattle.ba_code.specs.Meaning.{Setting};
ghost use Rattle.ba_code.specs.State.{CodeExecution};
ghost use Rattle.ba_code.specs.declared.nodes.Node as node;
ghost use Rattle.ba_code.specs.declared.nodes.Node.{Node};
ghost use Rattle.ba_unroll.specs.Unrolling.{Adds, EndsIn, IsBlock, IsIf, IsPick, all_inside, loop_act, loop_inside, node_act, nodes_act, node_inside, turn_act, turns_act};

use crate::places::place_in;
use crate::turns::{Parts, turn_behind, with_turn};
use ba_code::nodes::{Node, Operand, Take};
use ba_numbers::ids::StmtId;
use ba_tree::run::Place;
use std::alloc::{AllocError, Global};

/// Appends a node.
fn add(out: &mut Vec<Node>, node: Node) -> Result<(), AllocError>
    ensures { OnOk result (out.new.items ≡ out.old.items ++ node ∷ []) }
{
    out.push(node)?;
    Ok(())
}

/// Removes the nodes from this index on, and gives them.
fn taken_off(alloc: Global, out: &mut Vec<Node>, place: usize) -> Result<Vec<Node>, AllocError>
    ensures { IfOk result (λ nodes. (old made : List Node) → place ≡ length old
        → out.old.items ≡ old ++ made → (out.new.items ≡ old) × (nodes.items ≡ made)) }
{
    if out.len() < place {
        return Ok(Vec::new(alloc));
    }
    out.split_off(place)
}

/// Makes the nodes from this index on those of an execution of a statement that may be relaxed.
#[inline(never)]
fn wrap_pick(
    alloc: Global,
    turns: &[u32],
    out: &mut Vec<Node>,
    start: usize,
    place: &Place,
    take: Take,
) -> Result<(), AllocError>
    ensures { OnOk result ((old made : List Node) → start ≡ length old
        → out.old.items ≡ old ++ made
        → EndsIn old (λ n. IsPick turns.now place.now take made n) out.new.items) }
{
    let keep = taken_off(alloc, out, start)?;
    let place = place_in(alloc, turns, place)?;
    add(out, Node::Pick { place, take, keep })
}

/// Makes a branch of the last nodes: one side begins at one index, the other at another.
#[inline(never)]
fn wrap_if(
    alloc: Global,
    out: &mut Vec<Node>,
    start: usize,
    middle: usize,
    when: Operand,
) -> Result<(), AllocError>
    ensures { OnOk result ((old first second : List Node) → start ≡ length old
        → middle ≡ length (old ++ first) → out.old.items ≡ (old ++ first) ++ second
        → EndsIn old (IsIf when first second) out.new.items) }
{
    let no = taken_off(alloc, out, middle)?;
    let yes = taken_off(alloc, out, start)?;
    add(out, Node::If { when, yes, no })
}

/// Makes the nodes from this index on the body of a block.
#[inline(never)]
fn wrap_block(
    alloc: Global,
    out: &mut Vec<Node>,
    start: usize,
    label: u32,
) -> Result<(), AllocError>
    ensures { OnOk result ((old made : List Node) → start ≡ length old
        → out.old.items ≡ old ++ made → EndsIn old (IsBlock label made) out.new.items) }
{
    let body = taken_off(alloc, out, start)?;
    add(out, Node::Block { label, body })
}

/// Moves the nodes from one index on, up to another, into a branch after those from there on.
#[inline(never)]
fn wrap_rest(
    alloc: Global,
    out: &mut Vec<Node>,
    start: usize,
    middle: usize,
    when: Operand,
) -> Result<(), AllocError>
    ensures { OnOk result ((old rest made : List Node) → start ≡ length old
        → middle ≡ length (old ++ rest) → out.old.items ≡ (old ++ rest) ++ made
        → EndsIn (old ++ made) (IsIf when rest []) out.new.items) }
{
    let mut made = taken_off(alloc, out, middle)?;
    let yes = taken_off(alloc, out, start)?;
    out.append(&mut made)?;
    add(
        out,
        Node::If {
            when,
            yes,
            no: Vec::new(alloc),
        },
    )
}

/// Appends the end of a run that needs one more iteration of the loop of this statement.
#[inline(never)]
fn add_beyond(out: &mut Vec<Node>, stmt: StmtId) -> Result<(), AllocError>
    ensures { OnOk result (out.new.items ≡ out.old.items ++ node.Beyond stmt ∷ []) }
{
    add(out, Node::Beyond { stmt })
}

/// Appends a copy of a node without nodes inside. Any other node is answered as out of memory.
#[inline(never)]
fn add_leaf(alloc: Global, node: &Node, out: &mut Vec<Node>) -> Result<(), AllocError>
    ensures { OnOk result ((bound : ℕ) (turns : List ℕ)
        → Adds (node_act bound turns node.now) (node_inside node.now)
        out.old.items out.new.items) }
{
    match node {
        Node::Set { to, from } => add(
            out,
            Node::Set {
                to: *to,
                from: *from,
            },
        ),
        Node::Unary { to, op, t, a } => add(
            out,
            Node::Unary {
                to: *to,
                op: *op,
                t: *t,
                a: *a,
            },
        ),
        Node::Binary {
            to,
            op,
            t,
            a,
            b,
            stmt,
        } => add(
            out,
            Node::Binary {
                to: *to,
                op: *op,
                t: *t,
                a: *a,
                b: *b,
                stmt: *stmt,
            },
        ),
        Node::Convert { to, t, a } => add(
            out,
            Node::Convert {
                to: *to,
                t: *t,
                a: *a,
            },
        ),
        Node::Load {
            to,
            array,
            index,
            stmt,
        } => add(
            out,
            Node::Load {
                to: *to,
                array: *array,
                index: *index,
                stmt: *stmt,
            },
        ),
        Node::Save {
            array,
            index,
            value,
            stmt,
        } => add(
            out,
            Node::Save {
                array: *array,
                index: *index,
                value: *value,
                stmt: *stmt,
            },
        ),
        Node::Fill { array, values } => {
            let values = Vec::from_slice(alloc, values.as_slice())?;
            add(
                out,
                Node::Fill {
                    array: *array,
                    values,
                },
            )
        }
        Node::Leave { label } => add(out, Node::Leave { label: *label }),
        Node::Assert { when, stmt } => add(
            out,
            Node::Assert {
                when: *when,
                stmt: *stmt,
            },
        ),
        Node::Beyond { stmt } => add(out, Node::Beyond { stmt: *stmt }),
        Node::Pick { .. } | Node::If { .. } | Node::Block { .. } | Node::Loop { .. } => {
            Err(AllocError)
        }
    }
}

/// Appends the copy of a node in these iterations of the loops around, innermost first, with the bound on
/// iterations.
#[cycle(unroll)]
fn add_node(
    alloc: Global,
    bound: u32,
    turns: &[u32],
    node: &Node,
    out: &mut Vec<Node>,
) -> Result<(), AllocError>
    ensures { OnOk result (Adds (node_act bound turns.now node.now) (node_inside node.now)
        out.old.items out.new.items) }
{
    let start = out.len();
    match node {
        Node::Pick { place, take, keep } => {
            add_nodes(alloc, bound, turns, keep.as_slice(), out)?;
            wrap_pick(alloc, turns, out, start, place, *take)
        }
        Node::If { when, yes, no } => {
            add_nodes(alloc, bound, turns, yes.as_slice(), out)?;
            let middle = out.len();
            add_nodes(alloc, bound, turns, no.as_slice(), out)?;
            wrap_if(alloc, out, start, middle, *when)
        }
        Node::Block { label, body } => {
            add_nodes(alloc, bound, turns, body.as_slice(), out)?;
            wrap_block(alloc, out, start, *label)
        }
        Node::Loop {
            after,
            head,
            when,
            body,
            step,
            stmt,
        } => {
            let parts = Parts {
                after: *after,
                head: head.as_slice(),
                when: *when,
                body: body.as_slice(),
                step: step.as_slice(),
                stmt: *stmt,
            };
            add_loop(alloc, bound, turns, &parts, out)
        }
        Node::Set { .. }
        | Node::Unary { .. }
        | Node::Binary { .. }
        | Node::Convert { .. }
        | Node::Load { .. }
        | Node::Save { .. }
        | Node::Fill { .. }
        | Node::Leave { .. }
        | Node::Assert { .. }
        | Node::Beyond { .. } => add_leaf(alloc, node, out),
    }
}

/// Appends the copies of nodes, one after the other.
#[cycle(unroll)]
pub fn add_nodes(
    alloc: Global,
    bound: u32,
    turns: &[u32],
    nodes: &[Node],
    out: &mut Vec<Node>,
) -> Result<(), AllocError>
    ensures { OnOk result (Adds (nodes_act bound turns.now nodes.now) (all_inside nodes.now)
        out.old.items out.new.items) }
{
    for node in nodes {
        add_node(alloc, bound, turns, node, out)?;
    }
    Ok(())
}

/// Puts an iteration of this number and the head after it before the nodes from this index on. Those are the
/// rest of the loop if the condition is true then.
#[cycle(unroll)]
#[inline(never)]
fn add_turn(
    alloc: Global,
    bound: u32,
    turns: &[u32],
    parts: &Parts,
    turn: u32,
    start: usize,
    out: &mut Vec<Node>,
) -> Result<(), AllocError>
    ensures { OnOk result ((left : Setting → CodeExecution) (old : List Node) → start ≡ length old
        → Adds left (loop_inside parts.now) old out.old.items
        → Adds (turn_act bound turns.now parts.now turn left) (loop_inside parts.now)
        old out.new.items) }
{
    let inner = with_turn(alloc, turn, turns)?;
    let behind = with_turn(alloc, turn_behind(parts.after, turn)?, turns)?;
    let middle = out.len();
    add_nodes(alloc, bound, inner.as_slice(), parts.body, out)?;
    add_nodes(alloc, bound, inner.as_slice(), parts.step, out)?;
    add_nodes(alloc, bound, behind.as_slice(), parts.head, out)?;
    wrap_rest(alloc, out, start, middle, parts.when)
}

/// Appends all iterations of a loop, from its first, as many as the bound allows. If the condition is true
/// after the last, the run ends.
#[cycle(unroll)]
fn add_turns(
    alloc: Global,
    bound: u32,
    turns: &[u32],
    parts: &Parts,
    out: &mut Vec<Node>,
) -> Result<(), AllocError>
    ensures { OnOk result (Adds (turns_act bound turns.now parts.now bound 1)
        (loop_inside parts.now) out.old.items out.new.items) }
{
    let start = out.len();
    add_beyond(out, parts.stmt)?;
    for left in 0..bound {
        add_turn(alloc, bound, turns, parts, bound - left, start, out)?;
    }
    Ok(())
}

/// Appends a loop: its head and the iterations, or the iterations alone if no head comes before the first.
#[cycle(unroll)]
#[inline(never)]
fn add_loop(
    alloc: Global,
    bound: u32,
    turns: &[u32],
    parts: &Parts,
    out: &mut Vec<Node>,
) -> Result<(), AllocError>
    ensures { OnOk result (Adds (loop_act bound turns.now parts.now) (loop_inside parts.now)
        out.old.items out.new.items) }
{
    if parts.after {
        return add_turns(alloc, bound, turns, parts, out);
    }
    let first = with_turn(alloc, 1, turns)?;
    add_nodes(alloc, bound, first.as_slice(), parts.head, out)?;
    let start = out.len();
    add_turns(alloc, bound, turns, parts, out)?;
    let end = out.len();
    wrap_if(alloc, out, start, end, parts.when)
}
