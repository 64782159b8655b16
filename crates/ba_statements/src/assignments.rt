//! Assignments, steps and calls as statements (C90 6.3.16, 6.3.2.4, 6.3.3.1, 6.3.2.2).

ghost use Rattle.std.specs.Prelude.{◌≡◌, ◌&&◌, ◌++◌, None, Some, is_some, map, nat_lt, IfOk, OnOk};
ghost use Rattle.ba_statements.specs.Adding.{Assigns, GivesTarget, InfersTarget, behind_part, typed_target_of, state};
ghost use Rattle.ba_typing.specs.Expressions.{Typed, typed_arguments, typed_conditional, tree_as};
ghost use Rattle.ba_typing.specs.Faults.{fault_if, height_limit, limit_faults};
ghost use Rattle.ba_expressions.specs.Inferring.{Infers, with_faults};
ghost use Rattle.ba_typing.specs.Names.{name_of};
ghost use Rattle.ba_typing.specs.Statements.{TypedTarget, add_assignment, add_call, add_simple, add_simples, assigned_tree, changed, kind_of_target, one, operator_at, typed_target, var_of};
ghost use Rattle.ba_tree.specs.Trees.{tree_of_expr, tree_of_stmt};
ghost use Rattle.ba_typing.specs.declared.fault.Cause.TheVariants.{CallInIndex};

use crate::work::{Work, put};
use ba_expressions::expressions::{call, conditional};
use ba_expressions::inferred;
use ba_expressions::inferred::{Inferred, array_of, element_type, variable_type};
use ba_expressions::tally::{HEIGHT_LIMIT, Tally};
use ba_expressions::uses::{add_array_name_faults, add_target_name_faults, add_value_name_faults};
use ba_numbers::ids::{At, StmtId, VarId};
use ba_numbers::numbers::{BinOp, CType};
use ba_numbers::types::promoted;
use ba_scopes::scopes::Scope;
use ba_tokens::token::Token;
use ba_tree::tree::{Expr, Stmt, StmtKind};
use ba_trees::tree::expressions::{Arguments, Conditional};
use ba_trees::tree::statements::{Simple, Simples, Target};
use ba_typing::fault::Cause;
use ba_typing::meanings::Meaning;
use ba_typing::names::{changing_operator, name_of, punct_of};
use std::alloc::{AllocError, Global};

/// What is inferred of an assignment's target: the variable or array, its value's type, and the typed tree of
/// its index (`None` for a variable).
#[derive(Drop)]
pub struct InferredTarget {
    pub var: VarId,
    pub t: CType,
    pub index: Option<Expr>,
}

/// The operator that an assignment or a step applies to its target, `None` for `=`.
fn operator_at(token: &Token) -> Option<BinOp>
    ensures { result ≡ operator_at token.now }
{
    changing_operator(punct_of(token))
}

/// The variable of a name of this meaning; any variable if the name is at fault.
fn var_of(meaning: &Meaning) -> VarId
    ensures { result ≡ var_of meaning.now }
{
    match meaning {
        Meaning::Variable(object) => object.var,
        Meaning::Unknown | Meaning::Function | Meaning::Constant(_) => VarId(0),
    }
}

/// A variable as the target of an assignment.
fn variable_target<'a>(scope: &Scope<'a>, name: &'a Token, tally: &mut Tally) -> InferredTarget
    ensures { GivesTarget name.now.at name.now.at None
        (typed_target name.now.at (name_of name.now) None scope.now tally.old.calls)
        tally.old tally.new result }
{
    let meaning = scope.meaning_of(&name_of(name));
    add_target_name_faults(&meaning, name.at, tally);
    add_value_name_faults(&meaning, name.at, tally);
    InferredTarget {
        var: var_of(&meaning),
        t: variable_type(&meaning),
        index: None,
    }
}

/// Whether an operator changes an element whose index has a call. `before` calls come before the index, and
/// `behind` up to its end.
fn is_changed_by_call(op: Option<BinOp>, before: u32, behind: u32) -> bool
    ensures { result ≡ (is_some op && nat_lt before behind) }
{
    op.is_some() && before < behind
}

/// Adds the faults of an index of this height. `at` is the position of the statement, `name_at` that of the
/// array's name.
fn add_index_faults(at: At, name_at: At, has_call: bool, height: u32, tally: &mut Tally)
    ensures { tally.new ≡ with_faults tally.old
        (limit_faults height_limit height at ++ fault_if has_call CallInIndex name_at) }
{
    tally.add_limit(HEIGHT_LIMIT, height, at);
    tally.add_if(has_call, Cause::CallInIndex, name_at);
}

/// An element as the target of an assignment. `at` is the position of the statement.
///
/// The only error is out of memory, also if the numbers for calls or heights run out.
fn element_target<'a>(
    alloc: Global,
    scope: &Scope<'a>,
    at: At,
    op: Option<BinOp>,
    name: &'a Token,
    index: &'a Conditional,
    tally: &mut Tally,
) -> Result<InferredTarget, AllocError>
    ensures { IfOk result (λ j. GivesTarget at name.now.at op
        (typed_target name.now.at (name_of name.now) (Some (typed_conditional index.now)) scope.now
        tally.old.calls) tally.old tally.new j) }
{
    let meaning = scope.meaning_of(&name_of(name));
    add_array_name_faults(&meaning, name.at, tally);
    let before = tally.calls;
    let j = conditional(alloc, scope, index, tally)?;
    let has_call = is_changed_by_call(op, before, tally.calls);
    add_index_faults(at, name.at, has_call, j.height, tally);
    let t = promoted(j.t);
    let index = j.into_tree(alloc, t)?;
    Ok(InferredTarget {
        var: array_of(&meaning),
        t: element_type(&meaning),
        index: Some(index),
    })
}

/// The target of an assignment with this operator, `None` for `=`. `at` is the position of the statement.
///
/// The only error is out of memory, also if the numbers for calls or heights run out.
fn target_of<'a>(
    alloc: Global,
    scope: &Scope<'a>,
    at: At,
    op: Option<BinOp>,
    target: &'a Target,
    tally: &mut Tally,
) -> Result<InferredTarget, AllocError>
    ensures { IfOk result (λ j. GivesTarget at target.now.name.at op
        (typed_target_of target.now scope.now tally.old.calls) tally.old tally.new j) }
{
    match &target.index {
        None => Ok(variable_target(scope, &target.name, tally)),
        Some(index) => element_target(alloc, scope, at, op, &target.name, &index.value, tally),
    }
}

/// The target as an expression, after what this tally counts. It is typed once more, since its index occurs
/// twice in the typed tree; its calls and faults are counted elsewhere.
///
/// The only error is out of memory, also if the numbers for calls or heights run out.
fn target_value<'a>(
    alloc: Global,
    scope: &Scope<'a>,
    target: &'a Target,
    mut tally: Tally,
) -> Result<Inferred<'a>, AllocError>
    ensures { IfOk result (λ j. Infers j
        (typed_target_of target.now scope.now tally.calls).expression) }
{
    let name = name_of(&target.name);
    let meaning = scope.meaning_of(&name);
    match &target.index {
        None => inferred::name(target.name.at, name, &meaning),
        Some(index) => {
            let j = conditional(alloc, scope, &index.value, &mut tally)?;
            inferred::element(alloc, target.name.at, &meaning, j)
        }
    }
}

/// The assigned value: the given one, or that of this operator over the target and the given one.
///
/// The only error is out of memory, also if the numbers for calls or heights run out.
fn changed<'a>(
    alloc: Global,
    scope: &Scope<'a>,
    op: Option<BinOp>,
    target: &'a Target,
    before: Tally,
    value: Inferred<'a>,
) -> Result<Inferred<'a>, AllocError>
    ensures { IfOk result (λ j. (e : Typed) → Infers value.entry e →
        Infers j (changed op (typed_target_of target.now scope.now before.calls).expression e)) }
{
    match op {
        None => Ok(value),
        Some(op) => {
            let left = target_value(alloc, scope, target, before)?;
            inferred::value(alloc, op, left, value)
        }
    }
}

/// The kind of a statement with this target.
fn kind_of_target(target: &InferredTarget) -> StmtKind
    ensures { (s : TypedTarget) → InfersTarget target.now s → result ≡ kind_of_target s.index }
{
    match &target.index {
        None => StmtKind::Assignment,
        Some(_) => StmtKind::Store,
    }
}

/// The statement of this number that assigns a value to the target.
fn assigned_stmt(stmt: StmtId, target: InferredTarget, value: Expr) -> Stmt
    ensures { (s : TypedTarget) (e : Typed) → InfersTarget target s →
        tree_of_expr value ≡ tree_as s.expression.t e
        → tree_of_stmt result ≡ assigned_tree stmt s e }
{
    let InferredTarget { var, t: _, index } = target;
    match index {
        None => Stmt::Assign { stmt, var, value },
        Some(index) => Stmt::Store {
            stmt,
            array: var,
            index,
            value,
        },
    }
}

/// Appends an assignment of a whole expression. `at` is the position of the statement.
///
/// The only error is out of memory, also if the numbers run out.
fn put_assignment<'a>(
    alloc: Global,
    at: At,
    target: InferredTarget,
    whole: Inferred<'a>,
    work: &mut Work,
    stmts: &mut Vec<Stmt>,
) -> Result<(), AllocError>
    ensures { OnOk result ((s : TypedTarget) (e : Typed) → InfersTarget target s
        → Infers whole.entry e →
        Assigns at s e work.old work.new
        (map tree_of_stmt stmts.old.items) (map tree_of_stmt stmts.new.items)) }
{
    work.tally.add_limit(HEIGHT_LIMIT, whole.height, at);
    let value = whole.into_tree(alloc, target.t)?;
    let kind = kind_of_target(&target);
    let stmt = work.number(at, kind)?;
    put(stmts, assigned_stmt(stmt, target, value))
}

/// Appends an assignment (C90 6.3.16).
///
/// The only error is out of memory, also if the numbers run out.
fn add_assign<'a>(
    alloc: Global,
    target: &'a Target,
    operator: &'a Token,
    value: &'a Conditional,
    scope: &Scope<'a>,
    work: &mut Work,
    stmts: &mut Vec<Stmt>,
) -> Result<(), AllocError>
    ensures { OnOk result (state scope.now work.new stmts.new
        ≡ behind_part (add_assignment target.now.name.at target.now (operator_at operator.now)
        (typed_conditional value.now)) (state scope.now work.old stmts.old)) }
{
    let at = target.name.at;
    let op = operator_at(operator);
    let before = work.tally;
    let place = target_of(alloc, scope, at, op, target, &mut work.tally)?;
    let j = conditional(alloc, scope, value, &mut work.tally)?;
    let whole = changed(alloc, scope, op, target, before, j)?;
    put_assignment(alloc, at, place, whole, work, stmts)
}

/// Appends a step, which adds or subtracts 1 (C90 6.3.2.4, 6.3.3.1). `at` is the position of the statement.
///
/// The only error is out of memory, also if the numbers run out.
fn add_step<'a>(
    alloc: Global,
    at: At,
    target: &'a Target,
    operator: &'a Token,
    scope: &Scope<'a>,
    work: &mut Work,
    stmts: &mut Vec<Stmt>,
) -> Result<(), AllocError>
    ensures { OnOk result (state scope.now work.new stmts.new
        ≡ behind_part
        (add_assignment at target.now (operator_at operator.now) (one operator.now.at))
        (state scope.now work.old stmts.old)) }
{
    let op = operator_at(operator);
    let before = work.tally;
    let place = target_of(alloc, scope, at, op, target, &mut work.tally)?;
    let j = inferred::constant(operator.at, CType::I32, 1)?;
    let whole = changed(alloc, scope, op, target, before, j)?;
    put_assignment(alloc, at, place, whole, work, stmts)
}

/// Appends a call statement (C90 6.3.2.2).
///
/// The only error is out of memory, also if the numbers run out.
fn add_call<'a>(
    alloc: Global,
    name: &'a Token,
    arguments: &'a Arguments,
    scope: &Scope<'a>,
    work: &mut Work,
    stmts: &mut Vec<Stmt>,
) -> Result<(), AllocError>
    ensures { OnOk result (state scope.now work.new stmts.new
        ≡ behind_part (add_call name.now.at (name_of name.now) (typed_arguments arguments.now))
        (state scope.now work.old stmts.old)) }
{
    let j = call(alloc, scope, false, name, arguments, &mut work.tally)?;
    let stmt = work.number(name.at, StmtKind::Call)?;
    put(
        stmts,
        Stmt::CallStmt {
            stmt,
            call: j.call,
            function: j.function,
            args: j.args,
        },
    )
}

/// Types an assignment, a step or a call, and appends it.
///
/// The only error is out of memory, also if the numbers run out.
pub(crate) fn add_simple<'a>(
    alloc: Global,
    simple: &'a Simple,
    scope: &Scope<'a>,
    work: &mut Work,
    stmts: &mut Vec<Stmt>,
) -> Result<(), AllocError>
    ensures { OnOk result (state scope.now work.new stmts.new
        ≡ behind_part (add_simple simple.now) (state scope.now work.old stmts.old)) }
{
    match simple {
        Simple::Assign {
            target,
            operator,
            value,
        } => add_assign(alloc, target, operator, value, scope, work, stmts),
        Simple::Step { target, operator } => {
            add_step(alloc, target.name.at, target, operator, scope, work, stmts)
        }
        Simple::PrefixStep { operator, target } => {
            add_step(alloc, operator.at, target, operator, scope, work, stmts)
        }
        Simple::Call {
            name,
            arguments,
            ..
        } => add_call(alloc, name, arguments, scope, work, stmts),
    }
}

/// Types the assignments, steps and calls of a list, and appends them.
///
/// The only error is out of memory, also if the numbers run out.
pub(crate) fn add_simples<'a>(
    alloc: Global,
    simples: &'a Simples,
    scope: &Scope<'a>,
    work: &mut Work,
    stmts: &mut Vec<Stmt>,
) -> Result<(), AllocError>
    ensures { OnOk result (state scope.now work.new stmts.new
        ≡ behind_part (add_simples simples.now) (state scope.now work.old stmts.old)) }
{
    for listed in &simples.all {
        add_simple(alloc, &listed.simple, scope, work, stmts)?;
    }
    Ok(())
}
