//! The edits of statements.

ghost use Rattle.std.specs.Prelude.{◌≡◌, ◌+◌, ◌+ℤ◌, ◌-ℤ◌, ◌∷◌, [], ◌++◌, pos, map, IfOk, OnOk};
ghost use Rattle.ba_numbers.specs.Numbers.{converted};
ghost use Rattle.ba_repair.specs.Edits.{changes_of, edits_from, edits_of};
ghost use Rattle.ba_tree.specs.Trees.{tree_of};

use crate::nodes::EditableNode;
use crate::rows::Rows;
use crate::walk::program_nodes;
use ba_numbers::ids::StmtId;
use ba_numbers::numbers::{BinOp, CType, apply};
use ba_tree::tree::Program;
use std::alloc::{AllocError, Global};

/// What an edit changes a node to.
#[derive(Clone, Copy, Debug, PartialEq, Eq)]
pub enum Change {
    /// A constant to another value.
    Constant { from: i64, to: i64 },
    /// An operator to its partner: `<` and `<=`, `>` and `>=`, `==` and `!=`, `+` and `-` are partners.
    Operator { from: BinOp, to: BinOp },
    /// `&&` to `||`.
    ToOr,
    /// `||` to `&&`.
    ToAnd,
}

/// A change of one node of a statement. The nodes of a statement are numbered from 1, a node before its
/// parts, and parts from the left to the right.
#[derive(Clone, Copy, Debug, PartialEq, Eq)]
pub struct Edit {
    pub stmt: StmtId,
    pub node: u32,
    pub change: Change,
}

/// A value less 1, converted to the type.
#[tactic(auto, unfolding(ba_numbers::specs::Numbers::value_of))]
fn less_one(t: CType, value: i64) -> i64
    ensures { result ≡ converted t (value -ℤ pos 1) }
{
    match apply(BinOp::Sub, t, value, 1) {
        Some(less) => less,
        // Only a division may have no value.
        None => unreachable!(),
    }
}

/// A value plus 1, converted to the type.
#[tactic(auto, unfolding(ba_numbers::specs::Numbers::value_of))]
fn plus_one(t: CType, value: i64) -> i64
    ensures { result ≡ converted t (value +ℤ pos 1) }
{
    match apply(BinOp::Add, t, value, 1) {
        Some(more) => more,
        // Only a division may have no value.
        None => unreachable!(),
    }
}

/// Appends an edit.
fn push_edit(
    stmt: StmtId,
    number: u32,
    change: Change,
    edits: &mut Vec<Edit>,
) -> Result<(), AllocError>
    ensures { OnOk result (edits.new.items
        ≡ edits.old.items ++ record { stmt = stmt; node = number; change = change } ∷ []) }
{
    edits.push(Edit {
        stmt,
        node: number,
        change,
    })?;
    Ok(())
}

/// Appends the edits of a node of this statement, which has this number.
fn push_changes(
    stmt: StmtId,
    number: u32,
    node: EditableNode,
    edits: &mut Vec<Edit>,
) -> Result<(), AllocError>
    ensures { OnOk result (edits.new.items ≡ edits.old.items
        ++ map (λ change. record { stmt = stmt; node = number; change = change }) (changes_of node)) }
{
    match node {
        EditableNode::Constant { t, value } => {
            let to = less_one(t, value);
            push_edit(stmt, number, Change::Constant { from: value, to }, edits)?;
            let to = plus_one(t, value);
            push_edit(stmt, number, Change::Constant { from: value, to }, edits)
        }
        EditableNode::Operator { op, partner } => {
            let change = Change::Operator {
                from: op,
                to: partner,
            };
            push_edit(stmt, number, change, edits)
        }
        EditableNode::And => push_edit(stmt, number, Change::ToOr, edits),
        EditableNode::Or => push_edit(stmt, number, Change::ToAnd, edits),
    }
}

/// The number after this one.
///
/// The one error is answered as out of memory: a count past 32 bits, which no program has.
fn next_number(number: u32) -> Result<u32, AllocError>
    ensures { IfOk result (λ next. next ≡ number + 1) }
{
    number.checked_add(1).ok_or(AllocError)
}

/// Appends the edits of the nodes of a statement, which are numbered from 1.
fn push_edits(stmt: StmtId, nodes: &[EditableNode], edits: &mut Vec<Edit>) -> Result<(), AllocError>
    ensures { OnOk result (edits.new.items
        ≡ edits.old.items ++ edits_from stmt.0 1 nodes.now) }
{
    let mut number = 0;
    for node in nodes {
        number = next_number(number)?;
        push_changes(stmt, number, *node, edits)?;
    }
    Ok(())
}

/// The edits of these statements, in their order, by node; a constant's first one is by less 1. A number
/// without a statement has none.
///
/// The time is linear in the program and in what is listed. The only error is out of memory.
pub fn edits(alloc: Global, program: &Program, stmts: &[StmtId]) -> Result<Vec<Edit>, AllocError>
    ensures { IfOk result (λ edits. edits.items
        ≡ edits_of (tree_of program.now) (map (λ stmt. stmt.0) stmts.now)) }
{
    let found = program_nodes(alloc, program)?;
    let rows = Rows::new(alloc, found.as_slice())?;
    let mut edits = Vec::new(alloc);
    for stmt in stmts {
        push_edits(*stmt, rows.at(stmt.0), &mut edits)?;
    }
    Ok(edits)
}
