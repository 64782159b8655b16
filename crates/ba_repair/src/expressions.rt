//! Copies of expressions with one node changed.
//!
//! `left` counts down. It is the number of the node to change among those that follow; 0 if none of them is.

ghost use Rattle.std.specs.Prelude.{◌≡◌, ◌-◌, ◌==◌, length, map, flat_map, Some, None, IfOk, OnOk};
ghost use Rattle.ba_repair.specs.Changes.{change_here, changed_and, changed_arg, changed_arg_list, changed_expr, changed_exprs, changed_or, changed_value, operator_here};
ghost use Rattle.ba_repair.specs.Nodes.{arg_nodes, expr_nodes, operator_nodes};
ghost use Rattle.ba_tree.specs.Trees.{tree_of_arg, tree_of_expr};

use crate::listing::Change;
use crate::nodes::partner_of;
use ba_numbers::numbers::BinOp;
use ba_tree::tree::{Arg, Expr};
use std::alloc::{AllocError, Global};

/// The change, if this node is the one to change. The node is counted.
fn change_here(change: Change, left: &mut u32) -> Option<Change>
    ensures here { result ≡ change_here change left.old }
    ensures left { left.new ≡ left.old - 1 }
{
    let number = *left;
    *left = number.saturating_sub(1);
    if number == 1 { Some(change) } else { None }
}

/// The value of a constant after this change; as it was without one.
fn changed_value(change: Option<Change>, value: i64) -> i64
    ensures { result ≡ changed_value change value }
{
    match change {
        Some(Change::Constant { to, .. }) => to,
        _ => value,
    }
}

/// The operator, or what it is changed to if it is the node to change. It is counted if it has a partner.
fn operator_here(change: Change, left: &mut u32, op: BinOp) -> BinOp
    ensures here { result ≡ operator_here change left.old op }
    ensures left { left.new ≡ left.old - length (operator_nodes op) }
{
    if partner_of(op).is_none() {
        return op;
    }
    match change_here(change, left) {
        Some(Change::Operator { to, .. }) => to,
        _ => op,
    }
}

/// `&&` of these parts, or `||` if it is changed.
fn changed_and(change: Option<Change>, a: Box<Expr>, b: Box<Expr>) -> Expr
    ensures { tree_of_expr result ≡ changed_and change (tree_of_expr a.value) (tree_of_expr b.value) }
{
    match change {
        Some(Change::ToOr) => Expr::OrElse { a, b },
        _ => Expr::AndAlso { a, b },
    }
}

/// `||` of these parts, or `&&` if it is changed.
fn changed_or(change: Option<Change>, a: Box<Expr>, b: Box<Expr>) -> Expr
    ensures { tree_of_expr result ≡ changed_or change (tree_of_expr a.value) (tree_of_expr b.value) }
{
    match change {
        Some(Change::ToAnd) => Expr::AndAlso { a, b },
        _ => Expr::OrElse { a, b },
    }
}

/// The copy of an expression.
///
/// The only error is out of memory.
#[cycle(copying)]
pub fn copy_expr(
    alloc: Global,
    change: Change,
    left: &mut u32,
    expr: &Expr,
) -> Result<Expr, AllocError>
    ensures copy { IfOk result (λ copy. tree_of_expr copy
        ≡ changed_expr change left.old (tree_of_expr expr.now)) }
    ensures left { OnOk result (left.new ≡ left.old - length (expr_nodes (tree_of_expr expr.now))) }
{
    match expr {
        Expr::Const { t, value } => {
            let change = change_here(change, left);
            Ok(Expr::Const {
                t: *t,
                value: changed_value(change, *value),
            })
        }
        Expr::Var { var } => Ok(Expr::Var { var: *var }),
        Expr::Element { array, index } => {
            let index = copy_boxed(alloc, change, left, index)?;
            Ok(Expr::Element {
                array: *array,
                index,
            })
        }
        Expr::Unary { op, t, a } => {
            let a = copy_boxed(alloc, change, left, a)?;
            Ok(Expr::Unary { op: *op, t: *t, a })
        }
        Expr::Binary { op, t, a, b } => {
            let op = operator_here(change, left, *op);
            let (a, b) = copy_two(alloc, change, left, a, b)?;
            Ok(Expr::Binary { op, t: *t, a, b })
        }
        Expr::AndAlso { a, b } => {
            let here = change_here(change, left);
            let (a, b) = copy_two(alloc, change, left, a, b)?;
            Ok(changed_and(here, a, b))
        }
        Expr::OrElse { a, b } => {
            let here = change_here(change, left);
            let (a, b) = copy_two(alloc, change, left, a, b)?;
            Ok(changed_or(here, a, b))
        }
        Expr::Select { t, when, yes, no } => {
            let when = copy_boxed(alloc, change, left, when)?;
            let (yes, no) = copy_two(alloc, change, left, yes, no)?;
            Ok(Expr::Select {
                t: *t,
                when,
                yes,
                no,
            })
        }
        Expr::Convert { t, a } => {
            let a = copy_boxed(alloc, change, left, a)?;
            Ok(Expr::Convert { t: *t, a })
        }
        Expr::Call {
            call,
            function,
            args,
        } => {
            let args = copy_args(alloc, change, left, args.as_slice())?;
            Ok(Expr::Call {
                call: *call,
                function: *function,
                args,
            })
        }
    }
}

/// The copy of an expression that is a part of another.
#[cycle(copying)]
fn copy_boxed(
    alloc: Global,
    change: Change,
    left: &mut u32,
    expr: &Expr,
) -> Result<Box<Expr>, AllocError>
    ensures copy { IfOk result (λ copy. tree_of_expr copy.value
        ≡ changed_expr change left.old (tree_of_expr expr.now)) }
    ensures left { OnOk result (left.new ≡ left.old - length (expr_nodes (tree_of_expr expr.now))) }
{
    let copy = copy_expr(alloc, change, left, expr)?;
    Ok(Box::new(alloc, copy)?)
}

/// The copies of two parts of an expression.
#[cycle(copying)]
fn copy_two(
    alloc: Global,
    change: Change,
    left: &mut u32,
    a: &Expr,
    b: &Expr,
) -> Result<(Box<Expr>, Box<Expr>), AllocError>
    ensures first { IfOk result (λ copies. tree_of_expr copies.0.value
        ≡ changed_expr change left.old (tree_of_expr a.now)) }
    ensures second { IfOk result (λ copies. tree_of_expr copies.1.value
        ≡ changed_expr change (left.old - length (expr_nodes (tree_of_expr a.now)))
        (tree_of_expr b.now)) }
    ensures left { OnOk result (left.new ≡ left.old - length (expr_nodes (tree_of_expr a.now))
        - length (expr_nodes (tree_of_expr b.now))) }
{
    let a = copy_boxed(alloc, change, left, a)?;
    let b = copy_boxed(alloc, change, left, b)?;
    Ok((a, b))
}

/// The copy of an argument.
#[cycle(copying)]
fn copy_arg(alloc: Global, change: Change, left: &mut u32, arg: &Arg) -> Result<Arg, AllocError>
    ensures copy { IfOk result (λ copy. tree_of_arg copy
        ≡ changed_arg change left.old (tree_of_arg arg.now)) }
    ensures left { OnOk result (left.new ≡ left.old - length (arg_nodes (tree_of_arg arg.now))) }
{
    match arg {
        Arg::Value(value) => Ok(Arg::Value(copy_expr(alloc, change, left, value)?)),
        Arg::Array(array) => Ok(Arg::Array(*array)),
    }
}

/// The copies of the arguments of a call.
///
/// The only error is out of memory.
#[cycle(copying)]
pub fn copy_args(
    alloc: Global,
    change: Change,
    left: &mut u32,
    args: &[Arg],
) -> Result<Vec<Arg>, AllocError>
    ensures copies { IfOk result (λ copies. map tree_of_arg copies.items
        ≡ changed_arg_list change left.old (map tree_of_arg args.now)) }
    ensures left { OnOk result
        (left.new ≡ left.old - length (flat_map arg_nodes (map tree_of_arg args.now))) }
{
    let mut copies = Vec::with_capacity(alloc, args.len())?;
    for arg in args {
        let copy = copy_arg(alloc, change, left, arg)?;
        copies.push(copy)?;
    }
    Ok(copies)
}

/// The copies of expressions in a row.
///
/// The only error is out of memory.
pub fn copy_exprs(
    alloc: Global,
    change: Change,
    number: u32,
    exprs: &[Expr],
) -> Result<Vec<Expr>, AllocError>
    ensures { IfOk result (λ copies. map tree_of_expr copies.items
        ≡ changed_exprs change number (map tree_of_expr exprs.now)) }
{
    let mut left = number;
    let mut copies = Vec::with_capacity(alloc, exprs.len())?;
    for expr in exprs {
        let copy = copy_expr(alloc, change, &mut left, expr)?;
        copies.push(copy)?;
    }
    Ok(copies)
}
