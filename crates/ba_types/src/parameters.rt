//! The parameters of functions (C90 6.5.4.3).

ghost use Rattle.std.specs.Prelude.{◌≡◌, ◌++◌, List, Option, true, IfOk, OnOk};
ghost use Rattle.ba_statements.specs.Adding.{AddsLength, IsLength, state_with, behind_part, plain_length};
ghost use Rattle.ba_typing.specs.Declarations.{TypedLength};
ghost use Rattle.ba_typing.specs.Faults.{limit_faults, parameter_limit, void_faults};
ghost use Rattle.ba_typing.specs.Files.{add_param, add_params, check_length, first_at, name_of_param, param_length, param_shape, params_of, position_of_param};
ghost use Rattle.ba_types.specs.Filing.{declaring_param, is_bad, next_params};
ghost use Rattle.ba_expressions.specs.Inferring.{with_faults};
ghost use Rattle.ba_typing.specs.Names.{words_of};
ghost use Rattle.ba_tree.specs.Trees.{StmtTree};

use crate::signatures::{listed, number_behind};
use ba_expressions::tally::Tally;
use ba_expressions::uses::add_tag_faults;
use ba_numbers::ids::At;
use ba_numbers::numbers::CType;
use ba_scopes::scopes::{Functions, Scope};
use ba_statements::declarations::{Length, add_length, add_variable, array_length, shape_of};
use ba_statements::work::Work;
use ba_tree::tree::{Shape, Variable};
use ba_trees::tree::declarations::{ArrayLength, NextParameter, Parameter, Parameters};
use ba_trees::tree::expressions::TypeName;
use ba_typing::fault::Cause;
use ba_typing::names::{is_void, name_of, tag_of_type, type_named};
use ba_typing::text::Text;
use std::alloc::{AllocError, Global};

/// The limit on parameters of a function.
const PARAMETER_LIMIT: u32 = 32;

/// The function of a parameter: whether it is `main`, whether it is defined, and the position of its name.
#[derive(Clone, Copy)]
pub struct Owner {
    pub is_main: bool,
    pub is_defined: bool,
    pub at: At,
}

/// The position of a type's first word.
fn first_at(name: &TypeName, other: At) -> At
    ensures { result ≡ first_at (words_of name.now) other }
{
    if name.words.is_empty() {
        return other;
    }
    name.words[0].at
}

/// The position of a parameter: its name, or its first word.
fn position_of_param(other: At, parameter: &Parameter) -> At
    ensures { result ≡ position_of_param other parameter.now }
{
    match &parameter.name {
        None => first_at(&parameter.type_name, other),
        Some(name) => name.at,
    }
}

/// The name of a parameter, without bytes if it has none.
fn name_of_param<'a>(parameter: &'a Parameter) -> Text<'a>
    ensures { result ≡ name_of_param parameter.now.name }
{
    match &parameter.name {
        None => Text::new(b""),
        Some(name) => name_of(name),
    }
}

/// The shape of a parameter, which has this length if it is one of main's arrays.
fn param_shape(is_main: bool, written: &Option<ArrayLength>, length: Option<Length>) -> Shape
    ensures { (l : Option TypedLength) → length ≡ plain_length l →
        result ≡ param_shape is_main written.now l }
{
    if written.is_none() {
        return Shape::Value;
    }
    if is_main {
        shape_of(length)
    } else {
        Shape::Passed
    }
}

/// The length of an array parameter of a definition at this position; its elements are counted. Only lengths
/// in `main` are evaluated.
///
/// The only error is out of memory, also if the numbers run out.
fn add_own_length<'a>(
    alloc: Global,
    is_main: bool,
    at: At,
    length: &'a Option<ArrayLength>,
    scope: &Scope<'a>,
    work: &mut Work,
) -> Result<Option<Length>, AllocError>
    ensures { IfOk result (λ l. AddsLength at
        (param_length is_main at length.now scope.now work.old.tally.calls)
        scope.now work.old work.new l) }
{
    if !is_main {
        return Ok(None);
    }
    add_length(alloc, at, None, length, scope, work)
}

/// Declares a parameter of a definition, at this position and of this type: it is a variable.
///
/// The only error is out of memory, also if the numbers run out.
fn add_own<'a>(
    alloc: Global,
    is_main: bool,
    at: At,
    t: Option<CType>,
    parameter: &'a Parameter,
    scope: &mut Scope<'a>,
    work: &mut Work,
) -> Result<(), AllocError>
    ensures { OnOk result ((stmts : List StmtTree) → state_with scope.new work.new stmts
        ≡ behind_part (declaring_param is_main true at t parameter.now)
        (state_with scope.old work.old stmts)) }
{
    let length = add_own_length(alloc, is_main, at, &parameter.length, scope, work)?;
    let variable = Variable {
        t: t.unwrap_or(CType::I32),
        shape: param_shape(is_main, &parameter.length, length),
    };
    let name = name_of_param(parameter);
    let functions = Functions::new(alloc);
    add_variable(&functions, at, name, variable, scope, work)
}

/// The length of an array parameter of a prototype at this position. Only lengths in `main` are evaluated.
///
/// The only error is out of memory, also if the numbers for calls or heights run out.
fn length_of_param<'a>(
    alloc: Global,
    is_main: bool,
    at: At,
    length: &'a Option<ArrayLength>,
    scope: &Scope<'a>,
    tally: &mut Tally,
) -> Result<Option<Length>, AllocError>
    ensures { IfOk result (λ l. IsLength
        (param_length is_main at length.now scope.now tally.old.calls) tally.old tally.new l) }
{
    if !is_main {
        return Ok(None);
    }
    array_length(alloc, at, None, length, scope, tally)
}

/// Whether a length counts no elements.
fn is_bad(length: Option<Length>) -> bool
    ensures { result ≡ is_bad length }
{
    match length {
        None => false,
        Some(length) => length.count.is_none(),
    }
}

/// Tests the length of an array parameter of a prototype at this position; a bad one is a fault.
///
/// The only error is out of memory, also if the numbers for calls or heights run out.
fn check_length<'a>(
    alloc: Global,
    is_main: bool,
    at: At,
    length: &'a Option<ArrayLength>,
    scope: &Scope<'a>,
    work: &mut Work,
) -> Result<(), AllocError>
    ensures { OnOk result ((stmts : List StmtTree) → state_with scope.now work.new stmts
        ≡ behind_part (check_length at (param_length is_main at length.now scope.now
        work.old.tally.calls)) (state_with scope.now work.old stmts)) }
{
    let found = length_of_param(alloc, is_main, at, length, scope, &mut work.tally)?;
    work.tally.add_if(is_bad(found), Cause::BadLength, at);
    Ok(())
}

/// Types a parameter at this position and of this type. That of a definition is a variable; that of a
/// prototype is only tested.
///
/// The only error is out of memory, also if the numbers run out.
fn declare_param<'a>(
    alloc: Global,
    owner: Owner,
    at: At,
    t: Option<CType>,
    parameter: &'a Parameter,
    scope: &mut Scope<'a>,
    work: &mut Work,
) -> Result<(), AllocError>
    ensures { OnOk result ((stmts : List StmtTree) → state_with scope.new work.new stmts
        ≡ behind_part (declaring_param owner.is_main owner.is_defined at t parameter.now)
        (state_with scope.old work.old stmts)) }
{
    if owner.is_defined {
        add_own(alloc, owner.is_main, at, t, parameter, scope, work)
    } else {
        check_length(alloc, owner.is_main, at, &parameter.length, scope, work)
    }
}

/// Adds the faults of parameter `number`, counted from 1, at this position and of this type.
fn add_param_faults(at: At, t: Option<CType>, number: u32, tally: &mut Tally)
    ensures { tally.new ≡ with_faults tally.old
        (void_faults t at ++ limit_faults parameter_limit number at) }
{
    tally.add_if(is_void(t), Cause::WrongKind, at);
    tally.add_limit(PARAMETER_LIMIT, number, at);
}

/// Types parameter `number`, counted from 1 (C90 6.5.4.3). That of a definition is a variable.
///
/// The only error is out of memory, also if the numbers run out.
fn add_param<'a>(
    alloc: Global,
    owner: Owner,
    number: u32,
    parameter: &'a Parameter,
    scope: &mut Scope<'a>,
    work: &mut Work,
) -> Result<(), AllocError>
    ensures { OnOk result ((stmts : List StmtTree) → state_with scope.new work.new stmts
        ≡ behind_part (add_param owner.is_main owner.is_defined owner.at number parameter.now)
        (state_with scope.old work.old stmts)) }
{
    let at = position_of_param(owner.at, parameter);
    let t = type_named(&parameter.type_name);
    declare_param(alloc, owner, at, t, parameter, scope, work)?;
    add_param_faults(at, t, number, &mut work.tally);
    add_tag_faults(tag_of_type(&parameter.type_name), scope, &mut work.tally);
    Ok(())
}

/// Types the parameters after the first one.
///
/// The only error is out of memory, also if the numbers run out.
fn add_next_params<'a>(
    alloc: Global,
    owner: Owner,
    rest: &'a [NextParameter],
    scope: &mut Scope<'a>,
    work: &mut Work,
) -> Result<(), AllocError>
    ensures { OnOk result ((stmts : List StmtTree) → state_with scope.new work.new stmts
        ≡ behind_part
        (add_params owner.is_main owner.is_defined owner.at 2 (next_params rest.now))
        (state_with scope.old work.old stmts)) }
{
    let mut number = 2u32;
    for next in rest {
        add_param(alloc, owner, number, &next.parameter, scope, work)?;
        number = number_behind(number)?;
    }
    Ok(())
}

/// Types the parameters of a function.
///
/// The only error is out of memory, also if the numbers run out.
pub(crate) fn add_params<'a>(
    alloc: Global,
    owner: Owner,
    parameters: &'a Parameters,
    scope: &mut Scope<'a>,
    work: &mut Work,
) -> Result<(), AllocError>
    ensures { OnOk result ((stmts : List StmtTree) → state_with scope.new work.new stmts
        ≡ behind_part
        (add_params owner.is_main owner.is_defined owner.at 1 (params_of parameters.now))
        (state_with scope.old work.old stmts)) }
{
    let Some(list) = listed(parameters) else {
        return Ok(());
    };
    add_param(alloc, owner, 1, &list.first, scope, work)?;
    add_next_params(alloc, owner, list.rest.as_slice(), scope, work)
}
