//! Functions that append nodes.

ghost use Rattle.std.specs.Prelude.{◌≡◌, ◌++◌, ◌∷◌, [], pos, length, List, IfOk, OnOk};
ghost use Rattle.ba_code.specs.declared.nodes.Node.{Node};
ghost use Rattle.ba_code.specs.declared.nodes.Node as node;
ghost use Rattle.ba_inline.specs.Adding.{pick_act, set_act};
ghost use Rattle.ba_inline.specs.Making.{Adds};

use ba_code::nodes::{Node, Operand, Take};
use ba_items::Items;
use ba_numbers::ids::StmtId;
use ba_numbers::numbers::{BinOp, CType, UnOp};
use ba_tree::run::{Place, Step};
use std::alloc::{AllocError, Global};

/// Appends a node.
pub fn add(out: &mut Vec<Node>, node: Node) -> Result<(), AllocError>
    ensures { OnOk result (out.new.items ≡ out.old.items ++ node ∷ []) }
{
    out.push(node)?;
    Ok(())
}

/// Removes the nodes from this index on, and gives them.
#[inline(never)]
pub fn taken_off(alloc: Global, out: &mut Vec<Node>, place: usize) -> Result<Vec<Node>, AllocError>
    ensures { IfOk result (λ nodes. (old made : List Node) → place ≡ length old
        → out.old.items ≡ old ++ made → (out.new.items ≡ old) × (nodes.items ≡ made)) }
{
    if out.len() < place {
        return Ok(Vec::new(alloc));
    }
    out.split_off(place)
}

/// Appends: a variable gets the value of an operand.
#[inline(never)]
pub fn add_set(out: &mut Vec<Node>, to: u32, from: Operand) -> Result<(), AllocError>
    ensures { OnOk result (out.new.items ≡ out.old.items ++ node.Set to from ∷ []) }
{
    add(out, Node::Set { to, from })
}

/// Appends: a variable gets the value of a unary operator.
#[inline(never)]
pub fn add_unary(
    out: &mut Vec<Node>,
    to: u32,
    op: UnOp,
    t: CType,
    a: Operand,
) -> Result<(), AllocError>
    ensures { OnOk result (out.new.items ≡ out.old.items ++ node.Unary to op t a ∷ []) }
{
    add(out, Node::Unary { to, op, t, a })
}

/// Appends: a variable gets the value of a binary operator.
#[inline(never)]
pub fn add_binary(
    out: &mut Vec<Node>,
    to: u32,
    op: BinOp,
    t: CType,
    a: Operand,
    b: Operand,
    stmt: StmtId,
) -> Result<(), AllocError>
    ensures { OnOk result (out.new.items ≡ out.old.items ++ node.Binary to op t a b stmt ∷ []) }
{
    add(
        out,
        Node::Binary {
            to,
            op,
            t,
            a,
            b,
            stmt,
        },
    )
}

/// Appends: a variable gets the value of an operand, converted to a type.
#[inline(never)]
pub fn add_convert(out: &mut Vec<Node>, to: u32, t: CType, a: Operand) -> Result<(), AllocError>
    ensures { OnOk result (out.new.items ≡ out.old.items ++ node.Convert to t a ∷ []) }
{
    add(out, Node::Convert { to, t, a })
}

/// Appends: a variable gets an element of an array.
#[inline(never)]
pub fn add_load(
    out: &mut Vec<Node>,
    to: u32,
    array: u32,
    index: Operand,
    stmt: StmtId,
) -> Result<(), AllocError>
    ensures { OnOk result (out.new.items ≡ out.old.items ++ node.Load to array index stmt ∷ []) }
{
    add(
        out,
        Node::Load {
            to,
            array,
            index,
            stmt,
        },
    )
}

/// Appends a branch.
#[inline(never)]
pub fn add_if(
    out: &mut Vec<Node>,
    when: Operand,
    yes: Vec<Node>,
    no: Vec<Node>,
) -> Result<(), AllocError>
    ensures { OnOk result (out.new.items ≡ out.old.items ++ node.If when yes no ∷ []) }
{
    add(out, Node::If { when, yes, no })
}

/// Appends a block that a leave of its label ends.
#[inline(never)]
pub fn add_block(out: &mut Vec<Node>, label: u32, body: Vec<Node>) -> Result<(), AllocError>
    ensures { OnOk result (out.new.items ≡ out.old.items ++ node.Block label body ∷ []) }
{
    add(out, Node::Block { label, body })
}

/// Appends a leave of the block of this label.
#[inline(never)]
pub fn add_leave(out: &mut Vec<Node>, label: u32) -> Result<(), AllocError>
    ensures { OnOk result (out.new.items ≡ out.old.items ++ node.Leave label ∷ []) }
{
    add(out, Node::Leave { label })
}

/// Appends an assertion that a value isn't 0.
#[inline(never)]
pub fn add_assert(out: &mut Vec<Node>, when: Operand, stmt: StmtId) -> Result<(), AllocError>
    ensures { OnOk result (out.new.items ≡ out.old.items ++ node.Assert when stmt ∷ []) }
{
    add(out, Node::Assert { when, stmt })
}

/// Appends: a variable gets 0.
#[inline(never)]
pub fn add_zero(out: &mut Vec<Node>, to: u32) -> Result<(), AllocError>
    ensures { OnOk result (Adds out.old.items out.new.items (set_act to (Operand.Const (pos 0)))) }
{
    out.push(Node::Set {
        to,
        from: Operand::Const(0),
    })?;
    Ok(())
}

/// Appends an execution of a statement that may be relaxed, with this path.
#[inline(never)]
pub fn add_pick(
    alloc: Global,
    out: &mut Vec<Node>,
    path: &[Step],
    stmt: StmtId,
    take: Take,
    keep: Vec<Node>,
) -> Result<(), AllocError>
    ensures { OnOk result (Adds out.old.items out.new.items
        (pick_act path.now stmt take keep.items)) }
{
    let place = Place {
        path: Items::from_slice(alloc, path)?,
        stmt,
    };
    out.push(Node::Pick { place, take, keep })?;
    Ok(())
}
