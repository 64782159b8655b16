//! Whether expressions make calls, and the types of their values.

ghost use Rattle.std.specs.Prelude.{◌≡◌, true, unwrap_or};
ghost use Rattle.std.specs.List.{list_any};
ghost use Rattle.ba_inline.specs.Calling.{arg_has_call, has_call};
ghost use Rattle.ba_numbers.specs.declared.numbers.CType.TheVariants.{I32};
ghost use Rattle.ba_tree.specs.Facts.{expr_facts, result_at};
ghost use Rattle.ba_numbers.specs.Types.{is_promoted};
ghost use Rattle.ba_tree.specs.Kept.{parts_of};

use ba_numbers::ids::FnId;
use ba_numbers::numbers::CType;
use ba_numbers::types::{type_of_binary, type_of_unary};
use ba_tree::lookup::variable_of;
use ba_tree::tree::{Arg, Expr, Program};

/// Whether evaluating the expression makes a call.
#[tactic(auto, unfolding(crate::specs::Calling::has_call))]
pub fn has_call(expr: &Expr) -> bool
    ensures { result ≡ has_call expr.now }
{
    match expr {
        Expr::Const { .. } | Expr::Var { .. } => false,
        Expr::Element { index, .. } => has_call(index),
        Expr::Unary { a, .. } => has_call(a),
        Expr::Binary { a, b, .. } => has_call(a) || has_call(b),
        Expr::AndAlso { a, b } => has_call(a) || has_call(b),
        Expr::OrElse { a, b } => has_call(a) || has_call(b),
        Expr::Select { when, yes, no, .. } => has_call(when) || (has_call(yes) || has_call(no)),
        Expr::Convert { a, .. } => has_call(a),
        Expr::Call { .. } => true,
    }
}

/// Whether an argument makes a call.
#[tactic(auto, unfolding(crate::specs::Calling::has_call, crate::specs::Calling::arg_has_call))]
pub fn arg_has_call(arg: &Arg) -> bool
    ensures { result ≡ arg_has_call arg.now }
{
    match arg {
        Arg::Value(value) => has_call(value),
        Arg::Array(_) => false,
    }
}

/// Whether one of the expressions makes a call.
pub fn any_has_call(exprs: &[Expr]) -> bool
    ensures { result ≡ list_any has_call exprs.now }
{
    exprs.iter().any(|expr| has_call(expr))
}

/// Whether one of the arguments makes a call.
pub fn any_arg_has_call(args: &[Arg]) -> bool
    ensures { result ≡ list_any arg_has_call args.now }
{
    args.iter().any(|arg| arg_has_call(arg))
}

/// The type of an expression's value.
#[tactic(auto, unfolding(ba_tree::specs::Facts::expr_facts))]
pub fn type_of(program: &Program, expr: &Expr) -> CType
    ensures { result ≡ (expr_facts (parts_of program.now) expr.now).t }
{
    match expr {
        Expr::Const { t, .. } | Expr::Select { t, .. } | Expr::Convert { t, .. } => *t,
        Expr::Var { var } => variable_of(program, *var).t,
        Expr::Element { array, .. } => variable_of(program, *array).t,
        Expr::Unary { op, t, .. } => type_of_unary(*op, *t),
        Expr::Binary { op, t, .. } => type_of_binary(*op, *t),
        Expr::AndAlso { .. } | Expr::OrElse { .. } => CType::I32,
        Expr::Call { function, .. } => result_of(program, *function),
    }
}

/// The type that a function returns, and `I32` for `void`.
pub fn result_of(program: &Program, function: FnId) -> CType
    ensures { result ≡ unwrap_or (result_at (parts_of program.now) function) I32 }
{
    match program.functions.as_slice().get(function.0 as usize) {
        Some(found) => found.result.unwrap_or(CType::I32),
        None => CType::I32,
    }
}

/// The promoted type in which a value of the type is tested.
pub fn tested_in(t: CType) -> CType
    ensures { is_promoted result ≡ true }
{
    match t {
        CType::U32 => CType::U32,
        _ => CType::I32,
    }
}
