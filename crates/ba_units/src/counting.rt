//! The units left after expressions, statements and calls.

ghost use Rattle.std.specs.Prelude.{◌≡◌, ◌+◌, ◌-◌};
ghost use Rattle.ba_tree.specs.Units.{loop_units};
ghost use Rattle.ba_units.specs.Counts.{arg_units, args_units, expr_units, exprs_units, stmt_units, stmts_units, units_of_call};

use crate::costs::{
    element_units, left_after_declaration, left_after_labels, left_after_turns, operator_units,
};
use crate::frame::{Frame, length_of};
use crate::setting::Setting;
use ba_numbers::ids::FnId;
use ba_tree::lookup::function_of;
use ba_tree::tree::{Arg, Expr, Stmt};

/// The units left after an expression.
#[cycle(units)]
fn left_after_expr<'t>(
    setting: &Setting<'t>,
    frames: u32,
    frame: &Frame<'t, '_>,
    left: u32,
    expr: &'t Expr,
) -> u32
    ensures { result ≡ left - expr_units setting.now frames frame.now expr.now }
{
    match expr {
        Expr::Const { .. } => left,
        Expr::Var { .. } => left,
        Expr::Element { array, index } => {
            let length = length_of(setting.program, frame, *array);
            let left = left.saturating_sub(element_units(length));
            left_after_expr(setting, frames, frame, left, index)
        }
        Expr::Unary { a, .. } => {
            let left = left.saturating_sub(1);
            left_after_expr(setting, frames, frame, left, a)
        }
        Expr::Binary { op, a, b, .. } => {
            let left = left.saturating_sub(operator_units(*op));
            let left = left_after_expr(setting, frames, frame, left, a);
            left_after_expr(setting, frames, frame, left, b)
        }
        Expr::AndAlso { a, b } => {
            let left = left.saturating_sub(1);
            let left = left_after_expr(setting, frames, frame, left, a);
            left_after_expr(setting, frames, frame, left, b)
        }
        Expr::OrElse { a, b } => {
            let left = left.saturating_sub(1);
            let left = left_after_expr(setting, frames, frame, left, a);
            left_after_expr(setting, frames, frame, left, b)
        }
        Expr::Select { when, yes, no, .. } => {
            let left = left.saturating_sub(1);
            let left = left_after_expr(setting, frames, frame, left, when);
            let left = left_after_expr(setting, frames, frame, left, yes);
            left_after_expr(setting, frames, frame, left, no)
        }
        Expr::Convert { a, .. } => left_after_expr(setting, frames, frame, left, a),
        Expr::Call { function, args, .. } => {
            left_after_call(setting, frames, frame, left, *function, args.as_slice())
        }
    }
}

/// The units left after expressions in a row.
#[cycle(units)]
fn left_after_exprs<'t>(
    setting: &Setting<'t>,
    frames: u32,
    frame: &Frame<'t, '_>,
    left: u32,
    exprs: &'t [Expr],
) -> u32
    ensures { result ≡ left - exprs_units setting.now frames frame.now exprs.now }
{
    let mut rest = left;
    for expr in exprs {
        rest = left_after_expr(setting, frames, frame, rest, expr);
    }
    rest
}

/// The units left after an argument.
#[cycle(units)]
fn left_after_arg<'t>(
    setting: &Setting<'t>,
    frames: u32,
    frame: &Frame<'t, '_>,
    left: u32,
    arg: &'t Arg,
) -> u32
    ensures { result ≡ left - arg_units setting.now frames frame.now arg.now }
{
    match arg {
        Arg::Value(value) => {
            let left = left.saturating_sub(1);
            left_after_expr(setting, frames, frame, left, value)
        }
        Arg::Array(_) => left,
    }
}

/// The units left after the arguments of a call.
#[cycle(units)]
fn left_after_args<'t>(
    setting: &Setting<'t>,
    frames: u32,
    frame: &Frame<'t, '_>,
    left: u32,
    args: &'t [Arg],
) -> u32
    ensures { result ≡ left - args_units setting.now frames frame.now args.now }
{
    let mut rest = left;
    for arg in args {
        rest = left_after_arg(setting, frames, frame, rest, arg);
    }
    rest
}

/// The units left after a call: its arguments, and the function's body if one more frame may begin.
#[cycle(units)]
fn left_after_call<'t>(
    setting: &Setting<'t>,
    frames: u32,
    frame: &Frame<'t, '_>,
    left: u32,
    function: FnId,
    args: &'t [Arg],
) -> u32
    ensures { result ≡ left - units_of_call setting.now frames frame.now function args.now }
{
    let left = left.saturating_sub(1);
    let left = left_after_args(setting, frames, frame, left, args);
    if frames == 0 {
        return left;
    }
    let Some(function) = function_of(setting.program, function) else {
        return left;
    };
    let inside = Frame::called(&*frame, function.params.as_slice(), args);
    left_after_stmts(setting, frames - 1, &inside, left, function.body.as_slice())
}

/// The units left after a statement.
#[cycle(units)]
fn left_after_stmt<'t>(
    setting: &Setting<'t>,
    frames: u32,
    frame: &Frame<'t, '_>,
    left: u32,
    stmt: &'t Stmt,
) -> u32
    ensures { result ≡ left - stmt_units setting.now frames frame.now stmt.now }
{
    match stmt {
        Stmt::Block { body } => left_after_stmts(setting, frames, frame, left, body.as_slice()),
        Stmt::Declare { var } => left_after_declaration(setting.program, left, *var),
        Stmt::Init { value, .. } => left_after_expr(setting, frames, frame, left, value),
        Stmt::InitArray { values, .. } => {
            left_after_exprs(setting, frames, frame, left, values.as_slice())
        }
        Stmt::Assign { value, .. } => {
            let left = left.saturating_sub(1);
            left_after_expr(setting, frames, frame, left, value)
        }
        Stmt::Store {
            array,
            index,
            value,
            ..
        } => {
            let length = length_of(setting.program, frame, *array);
            let left = left.saturating_sub(1).saturating_sub(element_units(length));
            let left = left_after_expr(setting, frames, frame, left, index);
            left_after_expr(setting, frames, frame, left, value)
        }
        Stmt::If { when, yes, no, .. } => {
            let left = left.saturating_sub(1);
            let left = left_after_expr(setting, frames, frame, left, when);
            let left = left_after_stmt(setting, frames, frame, left, yes);
            match no {
                None => left,
                Some(no) => left_after_stmt(setting, frames, frame, left, no),
            }
        }
        Stmt::Switch {
            on,
            starts,
            body,
            ..
        } => {
            let left = left.saturating_sub(1);
            let left = left_after_expr(setting, frames, frame, left, on);
            let left = left_after_labels(left, starts.as_slice());
            left_after_stmts(setting, frames, frame, left, body.as_slice())
        }
        Stmt::While { when, body, .. } => {
            left_after_loop(&*setting, frames, &*frame, left, when, body, &[])
        }
        Stmt::DoWhile { when, body, .. } => {
            left_after_loop(&*setting, frames, &*frame, left, when, body, &[])
        }
        Stmt::For {
            first,
            when,
            step,
            body,
            ..
        } => {
            let left = left_after_stmts(setting, frames, frame, left, first.as_slice());
            left_after_loop(setting, frames, frame, left, when, body, step.as_slice())
        }
        Stmt::Break => left.saturating_sub(1),
        Stmt::Continue => left.saturating_sub(1),
        Stmt::Return { value, .. } => {
            let left = left.saturating_sub(1);
            left_after_expr(setting, frames, frame, left, value)
        }
        Stmt::ReturnNone => left.saturating_sub(1),
        Stmt::CallStmt { function, args, .. } => {
            let left = left.saturating_sub(1);
            left_after_call(setting, frames, frame, left, *function, args.as_slice())
        }
        Stmt::Print { args, .. } => {
            let left = left.saturating_sub(1);
            left_after_exprs(setting, frames, frame, left, args.as_slice())
        }
        Stmt::Assert { when, .. } => {
            let left = left.saturating_sub(1);
            left_after_expr(setting, frames, frame, left, when)
        }
    }
}

/// The units left after statements in a row. No further one is counted once nothing is left.
#[cycle(units)]
pub fn left_after_stmts<'t>(
    setting: &Setting<'t>,
    frames: u32,
    frame: &Frame<'t, '_>,
    left: u32,
    body: &'t [Stmt],
) -> u32
    ensures { result ≡ left - stmts_units setting.now frames frame.now body.now }
{
    let mut rest = left;
    for stmt in body {
        if rest == 0 {
            return 0;
        }
        rest = left_after_stmt(setting, frames, frame, rest, stmt);
    }
    rest
}

/// The units left after a loop of this condition, body and step. Each of them is counted once.
#[cycle(units)]
fn left_after_loop<'t>(
    setting: &Setting<'t>,
    frames: u32,
    frame: &Frame<'t, '_>,
    left: u32,
    when: &'t Expr,
    body: &'t Stmt,
    step: &'t [Stmt],
) -> u32
    ensures { result ≡ left - loop_units setting.now.turns
        (1 + expr_units setting.now frames frame.now when.now)
        (stmt_units setting.now frames frame.now body.now)
        (stmts_units setting.now frames frame.now step.now) }
{
    let condition = left_after_expr(setting, frames, frame, left.saturating_sub(1), when);
    let turn = left_after_stmt(setting, frames, frame, condition, body);
    let turn = left_after_stmts(setting, frames, frame, turn, step);
    left_after_turns(setting.turns, left, condition, turn)
}
