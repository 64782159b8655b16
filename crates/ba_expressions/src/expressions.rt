//! Type checking of expressions (C90 6.3), with constant folding (C90 6.4).

ghost use Rattle.std.specs.Prelude.{◌≡◌, nat_lt, length, option_map, IfOk};
ghost use Rattle.std.specs.List.{list_all};
ghost use Rattle.ba_trees.specs.declared.tree.expressions.Chain.{out-Chain};
ghost use Rattle.ba_typing.specs.Expressions.{Typed, called, params_of_called, typed_arg, typed_args, typed_arguments, typed_call, typed_chain, typed_conditional, typed_constant_kind, typed_name, typed_operand, typed_primary, typed_token, typed_unary_expression, whole_operand};
ghost use Rattle.ba_expressions.specs.Inferring.{Gives, GivesArg, GivesArgs, GivesCall, Infers, Stands, goes_on, is_left_to_right};
ghost use Rattle.ba_typing.specs.Names.{meaning_of, name_of};
ghost use Rattle.ba_expressions.specs.declared.tally.Tally.{Tally};

use crate::arguments::{InferredArg, InferredArgs, give};
use crate::inferred;
use crate::inferred::{Inferred, InferredCall};
use crate::tally::Tally;
use crate::uses::{
    CallUse, add_array_name_faults, add_call_faults, add_height_fault, add_tag_faults,
    add_value_name_faults, function_of, param_of, result_of,
};
use ba_numbers::numbers::{CType, convert};
use ba_scopes::scopes::Scope;
use ba_tokens::token::{Token, TokenKind};
use ba_trees::tree::expressions::{Arguments, Chain, Conditional, Operand, Primary, Unary};
use ba_typing::fault::Cause;
use ba_typing::meanings::{ParamType, Signature};
use ba_typing::names::{
    binary_operator, is_void, name_of, punct_of, tag_of_type, type_named, unary_operator,
};
use std::alloc::{AllocError, Global};

/// An expression in a scope: what is inferred of it; the tally gets its calls and faults.
///
/// The only error is out of memory, also if the numbers for calls or heights run out.
#[cycle(expression)]
pub fn conditional<'a>(
    alloc: Global,
    scope: &Scope<'a>,
    c: &'a Conditional,
    tally: &mut Tally,
) -> Result<Inferred<'a>, AllocError>
    ensures { Gives (typed_conditional c.now scope.now tally.old.calls) tally.old tally.new result }
{
    let test = operand(alloc, scope, &c.test, tally)?;
    match &c.branches {
        None => Ok(test),
        Some(branches) => {
            let holds = conditional(alloc, scope, &branches.holds, tally)?;
            let fails = conditional(alloc, scope, &branches.fails, tally)?;
            inferred::select(alloc, test, holds, fails)
        }
    }
}

/// A unary expression and the chains of operators after it.
#[cycle(expression)]
fn operand<'a>(
    alloc: Global,
    scope: &Scope<'a>,
    o: &'a Operand,
    tally: &mut Tally,
) -> Result<Inferred<'a>, AllocError>
    ensures { Gives (whole_operand (typed_operand o.now) scope.now tally.old.calls)
        tally.old tally.new result }
{
    let mut left = unary(alloc, scope, &o.first, tally)?;
    for c in &o.chains {
        left = chain(alloc, scope, c, left, tally)?;
    }
    Ok(left)
}

/// Whether the operators of these chains bind tighter than those of a level.
fn bind_tighter(level: u32, chains: &[Chain]) -> bool
    ensures { result ≡ list_all (λ chain. nat_lt (out-Chain chain).level level) chains.now }
{
    chains.iter().all(|chain| chain.level < level)
}

/// Whether the rest of a chain, if it has one, binds no tighter than a level.
fn goes_on(level: u32, rest: &Option<Box<Chain>>) -> bool
    ensures { result ≡ goes_on level rest.now }
{
    match rest {
        None => true,
        Some(rest) => level <= rest.level,
    }
}

/// Whether the operators in a chain's operand bind tighter than its own, and those of its rest do not. Its
/// value is then that of its operator over the whole operand, followed by the rest.
fn is_left_to_right(c: &Chain) -> bool
    ensures { result ≡ is_left_to_right c.now }
{
    let is_inside = bind_tighter(c.level, c.operand.chains.as_slice());
    let is_behind = goes_on(c.level, &c.rest);
    is_inside && is_behind
}

/// A chain of operators after its leftmost operand.
///
/// The only error is out of memory, also for a chain that no parser makes.
#[cycle(expression)]
fn chain<'a>(
    alloc: Global,
    scope: &Scope<'a>,
    c: &'a Chain,
    left: Inferred<'a>,
    tally: &mut Tally,
) -> Result<Inferred<'a>, AllocError>
    ensures { (base : Tally) (s : Typed) → Stands left.entry s base tally.old →
        Gives ((typed_chain c.now).over scope.now base.calls s) base tally.new result }
{
    if !is_left_to_right(c) {
        return Err(AllocError);
    }
    let right = operand(alloc, scope, &c.operand, tally)?;
    let operator = binary_operator(punct_of(&c.operator));
    let left = inferred::binary(alloc, operator, left, right)?;
    match &c.rest {
        None => Ok(left),
        Some(rest) => chain(alloc, scope, rest, left, tally),
    }
}

/// A unary expression.
#[cycle(expression)]
fn unary<'a>(
    alloc: Global,
    scope: &Scope<'a>,
    u: &'a Unary,
    tally: &mut Tally,
) -> Result<Inferred<'a>, AllocError>
    ensures { Gives (typed_unary_expression u.now scope.now tally.old.calls)
        tally.old tally.new result }
{
    match u {
        Unary::Prefix { operator, operand } => {
            let a = unary(alloc, scope, operand, tally)?;
            inferred::unary(alloc, operator.at, unary_operator(punct_of(operator)), a)
        }
        Unary::Cast {
            open,
            name,
            operand,
            ..
        } => {
            let to = type_named(name);
            add_tag_faults(tag_of_type(name), scope, tally);
            tally.add_if(is_void(to), Cause::WrongKind, open.at);
            let a = unary(alloc, scope, operand, tally)?;
            inferred::cast(alloc, open.at, to, a)
        }
        Unary::Primary(p) => primary(alloc, scope, p, tally),
    }
}

/// A primary expression.
#[cycle(expression)]
fn primary<'a>(
    alloc: Global,
    scope: &Scope<'a>,
    p: &'a Primary,
    tally: &mut Tally,
) -> Result<Inferred<'a>, AllocError>
    ensures { Gives (typed_primary p.now scope.now tally.old.calls) tally.old tally.new result }
{
    match p {
        Primary::Name { name } => token_value(scope, name, tally),
        Primary::Element { name, index, .. } => {
            let meaning = scope.meaning_of(&name_of(name));
            add_array_name_faults(&meaning, name.at, tally);
            let index = conditional(alloc, scope, index, tally)?;
            inferred::element(alloc, name.at, &meaning, index)
        }
        Primary::Call {
            name,
            arguments,
            ..
        } => {
            let j = call(alloc, scope, true, name, arguments, tally)?;
            inferred::called(name.at, j)
        }
        Primary::Constant { constant } => token_value(scope, constant, tally),
        Primary::Parenthesized {
            open,
            expression,
            ..
        } => {
            let j = conditional(alloc, scope, expression, tally)?;
            Ok(j.beginning_at(open.at))
        }
    }
}

/// A name where a value is wanted.
fn named<'a>(
    scope: &Scope<'a>,
    name: &'a Token,
    tally: &mut Tally,
) -> Result<Inferred<'a>, AllocError>
    ensures { Gives
        (typed_name name.now.at (name_of name.now) (meaning_of scope.now (name_of name.now)))
        tally.old tally.new result }
{
    let text = name_of(name);
    let meaning = scope.meaning_of(&text);
    add_value_name_faults(&meaning, name.at, tally);
    inferred::name(name.at, text, &meaning)
}

/// A name or a constant, by the kind of its token.
fn token_value<'a>(
    scope: &Scope<'a>,
    token: &'a Token,
    tally: &mut Tally,
) -> Result<Inferred<'a>, AllocError>
    ensures { Gives (typed_token token.now scope.now tally.old.calls) tally.old tally.new result }
{
    match &token.kind {
        TokenKind::Name(_) => named(scope, token, tally),
        _ => constant_of(token),
    }
}

/// A constant token.
fn constant_of<'a>(constant: &'a Token) -> Result<Inferred<'a>, AllocError>
    ensures { IfOk result (λ j. Infers j (typed_constant_kind constant.now.at constant.now.kind)) }
{
    match &constant.kind {
        TokenKind::Constant { t, value } => inferred::constant(
            constant.at,
            *t,
            convert(*t, *value),
        ),
        _ => inferred::constant(constant.at, CType::I32, 0),
    }
}

/// A call of a name with these arguments, as a value or as a statement: what is inferred of it. The tally
/// gets its calls and faults. In a statement each argument is a whole expression.
///
/// The only error is out of memory, also if the numbers for calls or heights run out.
#[cycle(expression)]
pub fn call<'a>(
    alloc: Global,
    scope: &Scope<'a>,
    as_value: bool,
    name: &'a Token,
    a: &'a Arguments,
    tally: &mut Tally,
) -> Result<InferredCall, AllocError>
    ensures { GivesCall (record { as_value = as_value; at = name.now.at })
        (typed_call as_value name.now.at (name_of name.now) (typed_arguments a.now)
        scope.now tally.old.calls) tally.old tally.new result }
{
    let usage = CallUse {
        as_value,
        at: name.at,
    };
    let text = name_of(name);
    let definition = scope.called(&text);
    let meaning = scope.meaning_of(&text);
    let call = tally.next_call()?;
    add_call_faults(&text, &meaning, definition, usage, count_of(a), tally);
    let args = arguments(alloc, scope, usage, definition, a, tally)?;
    Ok(InferredCall {
        call,
        function: function_of(definition),
        result: result_of(definition),
        args: args.given,
        height: args.tallest,
    })
}

/// How many arguments a call has.
fn count_of(a: &Arguments) -> usize
    ensures { result ≡ length (typed_arguments a.now) }
{
    match &a.values {
        None => 0,
        Some(values) => values.rest.len() + 1,
    }
}

/// The arguments of a call of a function with this definition.
#[cycle(expression)]
fn arguments<'a>(
    alloc: Global,
    scope: &Scope<'a>,
    usage: CallUse,
    definition: Option<&Signature<'a>>,
    a: &'a Arguments,
    tally: &mut Tally,
) -> Result<InferredArgs, AllocError>
    ensures { GivesArgs usage (typed_args scope.now tally.old.calls
        (params_of_called (option_map (λ s. s.now) definition.entry)) (typed_arguments a.now))
        tally.old tally.new result }
{
    let mut args = InferredArgs::new(alloc);
    let Some(values) = &a.values else {
        return Ok(args);
    };
    args.push(argument(
        alloc,
        scope,
        usage,
        param_of(definition, 0),
        &values.first,
        tally,
    )?)?;
    for next in &values.rest {
        let param = param_of(definition, args.given.len());
        args.push(argument(alloc, scope, usage, param, &next.expression, tally)?)?;
    }
    Ok(args)
}

/// An argument for a parameter, `None` if the function has no more.
#[cycle(expression)]
fn argument<'a>(
    alloc: Global,
    scope: &Scope<'a>,
    usage: CallUse,
    param: Option<ParamType>,
    c: &'a Conditional,
    tally: &mut Tally,
) -> Result<InferredArg, AllocError>
    ensures { GivesArg usage
        (typed_arg scope.now param (typed_conditional c.now scope.now tally.old.calls))
        tally.old tally.new result }
{
    let before = tally.least;
    let j = conditional(alloc, scope, c, tally)?;
    let height = j.height;
    let given = give(alloc, scope, param, before, j, tally)?;
    add_height_fault(usage, height, tally);
    Ok(InferredArg { given, height })
}
