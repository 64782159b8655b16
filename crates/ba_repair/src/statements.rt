//! Copies of statements with one node changed.

ghost use Rattle.std.specs.Prelude.{◌≡◌, map, option_map, IfOk};
ghost use Rattle.ba_repair.specs.Changes.{changed_arg_list, changed_in, changed_stmt, node_in};
ghost use Rattle.ba_tree.specs.Trees.{store, tree_of_arg, tree_of_expr, tree_of_stmt};

use crate::expressions::{copy_args, copy_expr, copy_exprs};
use crate::listing::Edit;
use ba_numbers::ids::{StmtId, VarId};
use ba_tree::tree::{Arg, Expr, Start, Stmt};
use std::alloc::{AllocError, Global};

/// The number of the node that an edit changes in the expressions of this statement; 0 in those of another.
fn node_in(edit: Edit, stmt: StmtId) -> u32
    ensures { result ≡ node_in edit stmt }
{
    if stmt.0 == edit.stmt.0 { edit.node } else { 0 }
}

/// The copy of the first expression of a statement.
fn copy_own(alloc: Global, edit: Edit, stmt: StmtId, expr: &Expr) -> Result<Expr, AllocError>
    ensures { IfOk result (λ copy. tree_of_expr copy ≡ changed_in edit stmt (tree_of_expr expr.now)) }
{
    let mut left = node_in(edit, stmt);
    copy_expr(alloc, edit.change, &mut left, expr)
}

/// The copies of the arguments of a call that is a statement.
fn copy_own_args(
    alloc: Global,
    edit: Edit,
    stmt: StmtId,
    args: &[Arg],
) -> Result<Vec<Arg>, AllocError>
    ensures { IfOk result (λ copies. map tree_of_arg copies.items
        ≡ changed_arg_list edit.change (node_in edit stmt) (map tree_of_arg args.now)) }
{
    let mut left = node_in(edit, stmt);
    copy_args(alloc, edit.change, &mut left, args)
}

/// The copy of an assignment to an element. Its index has its nodes before those of the value.
fn copy_store(
    alloc: Global,
    edit: Edit,
    stmt: StmtId,
    array: VarId,
    index: &Expr,
    value: &Expr,
) -> Result<Stmt, AllocError>
    ensures { IfOk result (λ copy. tree_of_stmt copy
        ≡ changed_stmt edit (store stmt array (tree_of_expr index.now) (tree_of_expr value.now))) }
{
    let mut left = node_in(edit, stmt);
    let index = copy_expr(alloc, edit.change, &mut left, index)?;
    let value = copy_expr(alloc, edit.change, &mut left, value)?;
    Ok(Stmt::Store {
        stmt,
        array,
        index,
        value,
    })
}

/// A copy of the labels of a `switch`.
fn copy_starts(alloc: Global, starts: &[Start]) -> Result<Vec<Start>, AllocError>
    ensures { IfOk result (λ copies. copies.items ≡ starts.now) }
{
    Vec::from_slice(alloc, starts)
}

/// The copy of a statement.
///
/// The only error is out of memory.
#[cycle(copying)]
pub fn copy_stmt(alloc: Global, edit: Edit, stmt: &Stmt) -> Result<Stmt, AllocError>
    ensures { IfOk result (λ copy. tree_of_stmt copy ≡ changed_stmt edit (tree_of_stmt stmt.now)) }
{
    match stmt {
        Stmt::Block { body } => {
            let body = copy_stmts(alloc, edit, body.as_slice())?;
            Ok(Stmt::Block { body })
        }
        Stmt::Declare { var } => Ok(Stmt::Declare { var: *var }),
        Stmt::Init { stmt, var, value } => {
            let value = copy_own(alloc, edit, *stmt, value)?;
            Ok(Stmt::Init {
                stmt: *stmt,
                var: *var,
                value,
            })
        }
        Stmt::InitArray {
            stmt,
            array,
            values,
        } => {
            let values = copy_exprs(alloc, edit.change, node_in(edit, *stmt), values.as_slice())?;
            Ok(Stmt::InitArray {
                stmt: *stmt,
                array: *array,
                values,
            })
        }
        Stmt::Assign { stmt, var, value } => {
            let value = copy_own(alloc, edit, *stmt, value)?;
            Ok(Stmt::Assign {
                stmt: *stmt,
                var: *var,
                value,
            })
        }
        Stmt::Store {
            stmt,
            array,
            index,
            value,
        } => copy_store(alloc, edit, *stmt, *array, index, value),
        Stmt::If {
            stmt,
            when,
            yes,
            no,
        } => {
            let when = copy_own(alloc, edit, *stmt, when)?;
            let yes = copy_boxed(alloc, edit, yes)?;
            let no = copy_optional(alloc, edit, no)?;
            Ok(Stmt::If {
                stmt: *stmt,
                when,
                yes,
                no,
            })
        }
        Stmt::Switch {
            stmt,
            t,
            on,
            starts,
            other,
            body,
        } => {
            let on = copy_own(alloc, edit, *stmt, on)?;
            let starts = copy_starts(alloc, starts.as_slice())?;
            let body = copy_stmts(alloc, edit, body.as_slice())?;
            Ok(Stmt::Switch {
                stmt: *stmt,
                t: *t,
                on,
                starts,
                other: *other,
                body,
            })
        }
        Stmt::While { stmt, when, body } => {
            let when = copy_own(alloc, edit, *stmt, when)?;
            let body = copy_boxed(alloc, edit, body)?;
            Ok(Stmt::While {
                stmt: *stmt,
                when,
                body,
            })
        }
        Stmt::DoWhile { stmt, when, body } => {
            let when = copy_own(alloc, edit, *stmt, when)?;
            let body = copy_boxed(alloc, edit, body)?;
            Ok(Stmt::DoWhile {
                stmt: *stmt,
                when,
                body,
            })
        }
        Stmt::For {
            stmt,
            first,
            when,
            step,
            body,
        } => {
            let first = copy_stmts(alloc, edit, first.as_slice())?;
            let when = copy_own(alloc, edit, *stmt, when)?;
            let step = copy_stmts(alloc, edit, step.as_slice())?;
            let body = copy_boxed(alloc, edit, body)?;
            Ok(Stmt::For {
                stmt: *stmt,
                first,
                when,
                step,
                body,
            })
        }
        Stmt::Break => Ok(Stmt::Break),
        Stmt::Continue => Ok(Stmt::Continue),
        Stmt::Return { stmt, value } => {
            let value = copy_own(alloc, edit, *stmt, value)?;
            Ok(Stmt::Return { stmt: *stmt, value })
        }
        Stmt::ReturnNone => Ok(Stmt::ReturnNone),
        Stmt::CallStmt {
            stmt,
            call,
            function,
            args,
        } => {
            let args = copy_own_args(alloc, edit, *stmt, args.as_slice())?;
            Ok(Stmt::CallStmt {
                stmt: *stmt,
                call: *call,
                function: *function,
                args,
            })
        }
        Stmt::Print { stmt, args } => {
            let args = copy_exprs(alloc, edit.change, node_in(edit, *stmt), args.as_slice())?;
            Ok(Stmt::Print { stmt: *stmt, args })
        }
        Stmt::Assert { stmt, when } => {
            let when = copy_own(alloc, edit, *stmt, when)?;
            Ok(Stmt::Assert { stmt: *stmt, when })
        }
    }
}

/// The copy of a statement that is a part of another.
#[cycle(copying)]
fn copy_boxed(alloc: Global, edit: Edit, stmt: &Stmt) -> Result<Box<Stmt>, AllocError>
    ensures { IfOk result
        (λ copy. tree_of_stmt copy.value ≡ changed_stmt edit (tree_of_stmt stmt.now)) }
{
    let copy = copy_stmt(alloc, edit, stmt)?;
    Ok(Box::new(alloc, copy)?)
}

/// The copy of a statement that may be there.
#[cycle(copying)]
fn copy_optional(
    alloc: Global,
    edit: Edit,
    stmt: &Option<Box<Stmt>>,
) -> Result<Option<Box<Stmt>>, AllocError>
    ensures { IfOk result (λ copy. option_map (λ stmt. tree_of_stmt stmt.value) copy
        ≡ option_map (λ stmt. changed_stmt edit (tree_of_stmt stmt.value)) stmt.now) }
{
    match stmt {
        None => Ok(None),
        Some(stmt) => Ok(Some(copy_boxed(alloc, edit, stmt)?)),
    }
}

/// The copies of statements in a row.
///
/// The only error is out of memory.
#[cycle(copying)]
pub fn copy_stmts(alloc: Global, edit: Edit, stmts: &[Stmt]) -> Result<Vec<Stmt>, AllocError>
    ensures { IfOk result (λ copies. map tree_of_stmt copies.items
        ≡ map (changed_stmt edit) (map tree_of_stmt stmts.now)) }
{
    let mut copies = Vec::with_capacity(alloc, stmts.len())?;
    for stmt in stmts {
        let copy = copy_stmt(alloc, edit, stmt)?;
        copies.push(copy)?;
    }
    Ok(copies)
}
