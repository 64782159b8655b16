//! The walk that gathers the editable nodes of a program.

ghost use Rattle.std.specs.Prelude.{◌≡◌, ◌++◌, flat_map, map, IfOk, OnOk};
ghost use Rattle.ba_repair.specs.Nodes.{arg_nodes, body_nodes, expr_nodes, operator_nodes, own_nodes, program_nodes, stmt_nodes};
ghost use Rattle.ba_tree.specs.Trees.{FunctionTree, tree_of, tree_of_arg, tree_of_expr, tree_of_function, tree_of_stmt};

use crate::nodes::{EditableNode, StmtNode, partner_of};
use ba_numbers::ids::StmtId;
use ba_numbers::numbers::BinOp;
use ba_tree::tree::{Arg, Expr, Function, Program, Stmt};
use std::alloc::{AllocError, Global};

/// Appends the node of an operator of this statement, if it has a partner.
fn add_operator(stmt: StmtId, op: BinOp, found: &mut Vec<StmtNode>) -> Result<(), AllocError>
    ensures { OnOk result (found.new.items
        ≡ found.old.items ++ own_nodes stmt (operator_nodes op)) }
{
    if let Some(partner) = partner_of(op) {
        let node = EditableNode::Operator { op, partner };
        found.push(StmtNode { stmt, node })?;
    }
    Ok(())
}

/// Appends the nodes of an expression of this statement.
#[cycle(expression)]
fn add_expr(stmt: StmtId, expr: &Expr, found: &mut Vec<StmtNode>) -> Result<(), AllocError>
    ensures { OnOk result (found.new.items
        ≡ found.old.items ++ own_nodes stmt (expr_nodes (tree_of_expr expr.now))) }
{
    match expr {
        Expr::Const { t, value } => {
            let node = EditableNode::Constant {
                t: *t,
                value: *value,
            };
            found.push(StmtNode { stmt, node })?;
            Ok(())
        }
        Expr::Var { .. } => Ok(()),
        Expr::Element { index, .. } => add_expr(stmt, index, found),
        Expr::Unary { a, .. } => add_expr(stmt, a, found),
        Expr::Binary { op, a, b, .. } => {
            add_operator(stmt, *op, found)?;
            add_expr(stmt, a, found)?;
            add_expr(stmt, b, found)
        }
        Expr::AndAlso { a, b } => {
            let node = EditableNode::And;
            found.push(StmtNode { stmt, node })?;
            add_expr(stmt, a, found)?;
            add_expr(stmt, b, found)
        }
        Expr::OrElse { a, b } => {
            let node = EditableNode::Or;
            found.push(StmtNode { stmt, node })?;
            add_expr(stmt, a, found)?;
            add_expr(stmt, b, found)
        }
        Expr::Select { when, yes, no, .. } => {
            add_expr(stmt, when, found)?;
            add_expr(stmt, yes, found)?;
            add_expr(stmt, no, found)
        }
        Expr::Convert { a, .. } => add_expr(stmt, a, found),
        Expr::Call { args, .. } => add_args(stmt, args.as_slice(), found),
    }
}

/// Appends the nodes of an argument.
#[cycle(expression)]
fn add_arg(stmt: StmtId, arg: &Arg, found: &mut Vec<StmtNode>) -> Result<(), AllocError>
    ensures { OnOk result (found.new.items
        ≡ found.old.items ++ own_nodes stmt (arg_nodes (tree_of_arg arg.now))) }
{
    match arg {
        Arg::Value(value) => add_expr(stmt, value, found),
        Arg::Array(_) => Ok(()),
    }
}

/// Appends the nodes of the arguments of a call.
#[cycle(expression)]
fn add_args(stmt: StmtId, args: &[Arg], found: &mut Vec<StmtNode>) -> Result<(), AllocError>
    ensures { OnOk result (found.new.items
        ≡ found.old.items ++ own_nodes stmt (flat_map arg_nodes (map tree_of_arg args.now))) }
{
    for arg in args {
        add_arg(stmt, arg, found)?;
    }
    Ok(())
}

/// Appends the nodes of expressions in a row.
fn add_exprs(stmt: StmtId, exprs: &[Expr], found: &mut Vec<StmtNode>) -> Result<(), AllocError>
    ensures { OnOk result (found.new.items
        ≡ found.old.items ++ own_nodes stmt (flat_map expr_nodes (map tree_of_expr exprs.now))) }
{
    for expr in exprs {
        add_expr(stmt, expr, found)?;
    }
    Ok(())
}

/// Appends the nodes of a statement, and of its inner ones.
#[cycle(statement)]
fn add_stmt(stmt: &Stmt, found: &mut Vec<StmtNode>) -> Result<(), AllocError>
    ensures { OnOk result (found.new.items
        ≡ found.old.items ++ stmt_nodes (tree_of_stmt stmt.now)) }
{
    match stmt {
        Stmt::Block { body } => add_stmts(body.as_slice(), found),
        Stmt::Declare { .. } => Ok(()),
        Stmt::Init { stmt, value, .. } => add_expr(*stmt, value, found),
        Stmt::InitArray { stmt, values, .. } => add_exprs(*stmt, values.as_slice(), found),
        Stmt::Assign { stmt, value, .. } => add_expr(*stmt, value, found),
        Stmt::Store {
            stmt,
            index,
            value,
            ..
        } => {
            add_expr(*stmt, index, found)?;
            add_expr(*stmt, value, found)
        }
        Stmt::If {
            stmt,
            when,
            yes,
            no,
        } => {
            add_expr(*stmt, when, found)?;
            add_stmt(yes, found)?;
            match no {
                None => Ok(()),
                Some(no) => add_stmt(no, found),
            }
        }
        Stmt::Switch { stmt, on, body, .. } => {
            add_expr(*stmt, on, found)?;
            add_stmts(body.as_slice(), found)
        }
        Stmt::While { stmt, when, body } => {
            add_expr(*stmt, when, found)?;
            add_stmt(body, found)
        }
        Stmt::DoWhile { stmt, when, body } => {
            add_expr(*stmt, when, found)?;
            add_stmt(body, found)
        }
        Stmt::For {
            stmt,
            first,
            when,
            step,
            body,
        } => {
            add_expr(*stmt, when, found)?;
            add_stmts(first.as_slice(), found)?;
            add_stmts(step.as_slice(), found)?;
            add_stmt(body, found)
        }
        Stmt::Break => Ok(()),
        Stmt::Continue => Ok(()),
        Stmt::Return { stmt, value } => add_expr(*stmt, value, found),
        Stmt::ReturnNone => Ok(()),
        Stmt::CallStmt { stmt, args, .. } => add_args(*stmt, args.as_slice(), found),
        Stmt::Print { stmt, args } => add_exprs(*stmt, args.as_slice(), found),
        Stmt::Assert { stmt, when } => add_expr(*stmt, when, found),
    }
}

/// Appends the nodes of statements in a row.
#[cycle(statement)]
fn add_stmts(stmts: &[Stmt], found: &mut Vec<StmtNode>) -> Result<(), AllocError>
    ensures { OnOk result (found.new.items
        ≡ found.old.items ++ body_nodes (map tree_of_stmt stmts.now)) }
{
    for stmt in stmts {
        add_stmt(stmt, found)?;
    }
    Ok(())
}

/// Appends the nodes of functions.
fn add_functions(functions: &[Function], found: &mut Vec<StmtNode>) -> Result<(), AllocError>
    ensures { OnOk result (found.new.items ≡ found.old.items
        ++ flat_map (λ (f : FunctionTree). body_nodes f.body)
        (map tree_of_function functions.now)) }
{
    for function in functions {
        add_stmts(function.body.as_slice(), found)?;
    }
    Ok(())
}

/// The editable nodes of a program, each with its statement: those of the globals' initialisers, and then
/// those of each function.
///
/// The only error is out of memory.
pub fn program_nodes(alloc: Global, program: &Program) -> Result<Vec<StmtNode>, AllocError>
    ensures { IfOk result (λ found. found.items ≡ program_nodes (tree_of program.now)) }
{
    let mut found = Vec::new(alloc);
    add_stmts(program.inits.as_slice(), &mut found)?;
    add_functions(program.functions.as_slice(), &mut found)?;
    Ok(found)
}
