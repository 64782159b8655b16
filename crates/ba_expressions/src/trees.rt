//! Typed trees of expressions from those of their operands. The only error of each function is out of memory.

ghost use Rattle.std.specs.Prelude.{◌≡◌, IfOk};
ghost use Rattle.ba_tree.specs.Trees.{and_also, binary, convert, element, or_else, select, tree_of_expr, unary};

use ba_numbers::ids::VarId;
use ba_numbers::numbers::{BinOp, CType, UnOp};
use ba_tree::tree::Expr;
use std::alloc::{AllocError, Global};

/// A conversion.
pub(crate) fn convert(alloc: Global, t: CType, a: Expr) -> Result<Expr, AllocError>
    ensures { IfOk result (λ e. tree_of_expr e ≡ convert t (tree_of_expr a)) }
{
    let a = Box::new(alloc, a)?;
    Ok(Expr::Convert { t, a })
}

/// A unary operator.
pub(crate) fn unary(alloc: Global, op: UnOp, t: CType, a: Expr) -> Result<Expr, AllocError>
    ensures { IfOk result (λ e. tree_of_expr e ≡ unary op t (tree_of_expr a)) }
{
    let a = Box::new(alloc, a)?;
    Ok(Expr::Unary { op, t, a })
}

/// A binary operator.
pub(crate) fn binary(
    alloc: Global,
    op: BinOp,
    t: CType,
    a: Expr,
    b: Expr,
) -> Result<Expr, AllocError>
    ensures { IfOk result (λ e. tree_of_expr e ≡ binary op t (tree_of_expr a) (tree_of_expr b)) }
{
    let a = Box::new(alloc, a)?;
    let b = Box::new(alloc, b)?;
    Ok(Expr::Binary { op, t, a, b })
}

/// `&&`.
pub(crate) fn and_also(alloc: Global, a: Expr, b: Expr) -> Result<Expr, AllocError>
    ensures { IfOk result (λ e. tree_of_expr e ≡ and_also (tree_of_expr a) (tree_of_expr b)) }
{
    let a = Box::new(alloc, a)?;
    let b = Box::new(alloc, b)?;
    Ok(Expr::AndAlso { a, b })
}

/// `||`.
pub(crate) fn or_else(alloc: Global, a: Expr, b: Expr) -> Result<Expr, AllocError>
    ensures { IfOk result (λ e. tree_of_expr e ≡ or_else (tree_of_expr a) (tree_of_expr b)) }
{
    let a = Box::new(alloc, a)?;
    let b = Box::new(alloc, b)?;
    Ok(Expr::OrElse { a, b })
}

/// `?:`.
pub(crate) fn select(
    alloc: Global,
    t: CType,
    when: Expr,
    a: Expr,
    b: Expr,
) -> Result<Expr, AllocError>
    ensures { IfOk result (λ e.
        tree_of_expr e ≡ select t (tree_of_expr when) (tree_of_expr a) (tree_of_expr b)) }
{
    let when = Box::new(alloc, when)?;
    let yes = Box::new(alloc, a)?;
    let no = Box::new(alloc, b)?;
    Ok(Expr::Select { t, when, yes, no })
}

/// An element of an array.
pub(crate) fn element(alloc: Global, array: VarId, index: Expr) -> Result<Expr, AllocError>
    ensures { IfOk result (λ e. tree_of_expr e ≡ element array (tree_of_expr index)) }
{
    let index = Box::new(alloc, index)?;
    Ok(Expr::Element { array, index })
}
