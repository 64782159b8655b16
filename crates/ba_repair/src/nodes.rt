//! The editable nodes of expressions.

ghost use Rattle.std.specs.Prelude.{◌≡◌};
ghost use Rattle.ba_repair.specs.Nodes.{partner_of};

use ba_numbers::ids::StmtId;
use ba_numbers::numbers::{BinOp, CType};

/// A node of an expression that an edit may change.
#[derive(Clone, Copy, Debug, PartialEq, Eq)]
pub enum EditableNode {
    /// A constant of this type.
    Constant { t: CType, value: i64 },
    /// A binary operator, and its partner.
    Operator { op: BinOp, partner: BinOp },
    /// C's `&&`.
    And,
    /// C's `||`.
    Or,
}

/// A node, and the statement that has it in its expressions.
#[derive(Clone, Copy, Debug, PartialEq, Eq)]
pub struct StmtNode {
    pub stmt: StmtId,
    pub node: EditableNode,
}

/// The operator that this one changes to, if there is one. Partners change to each other.
pub fn partner_of(op: BinOp) -> Option<BinOp>
    ensures { result ≡ partner_of op }
{
    match op {
        BinOp::Lt => Some(BinOp::Le),
        BinOp::Le => Some(BinOp::Lt),
        BinOp::Gt => Some(BinOp::Ge),
        BinOp::Ge => Some(BinOp::Gt),
        BinOp::Eq => Some(BinOp::Ne),
        BinOp::Ne => Some(BinOp::Eq),
        BinOp::Add => Some(BinOp::Sub),
        BinOp::Sub => Some(BinOp::Add),
        _ => None,
    }
}
