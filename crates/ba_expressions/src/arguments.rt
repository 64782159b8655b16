//! Arguments of calls (C90 6.3.2.2).

ghost use Rattle.std.specs.Prelude.{◌≡◌, [], ◌∷◌, ◌++◌, List, IfOk, OnOk};
ghost use Rattle.ba_typing.specs.Expressions.{Typed, TypedArg, array_arg, named_array, typed_arg, value_arg};
ghost use Rattle.ba_expressions.specs.Inferring.{AreArgs, Infers, Stands, after};
ghost use Rattle.ba_tree.specs.Trees.{tree_of_arg};
ghost use Rattle.ba_expressions.specs.declared.tally.Tally.{Tally};

use crate::inferred::Inferred;
use crate::tally::Tally;
use crate::uses::named_array;
use ba_numbers::ids::VarId;
use ba_numbers::numbers::CType;
use ba_scopes::scopes::Scope;
use ba_tree::tree::Arg;
use ba_typing::fault::{Cause, Fault};
use ba_typing::meanings::ParamType;
use std::alloc::{AllocError, Global};

/// What is inferred of an argument: how it is passed, and its height.
#[derive(Drop)]
pub struct InferredArg {
    pub given: Arg,
    pub height: u32,
}

/// What is inferred of arguments: how they are passed, and the greatest height of one.
#[derive(Drop)]
pub struct InferredArgs {
    pub given: Vec<Arg>,
    pub tallest: u32,
}

impl InferredArgs {
    /// No argument. It takes no memory.
    pub(crate) fn new(alloc: Global) -> InferredArgs
        ensures { AreArgs result [] }
    {
        InferredArgs {
            given: Vec::new(alloc),
            tallest: 0,
        }
    }

    /// Adds an argument. The only error is out of memory.
    pub(crate) fn push(&mut self, arg: InferredArg) -> Result<(), AllocError>
        ensures { OnOk result ((es : List TypedArg) (e : TypedArg) → AreArgs self.old es →
            tree_of_arg arg.given ≡ e.given → arg.height ≡ e.expression.height →
            AreArgs self.new (es ++ e ∷ [])) }
    {
        self.tallest = self.tallest.max(arg.height);
        self.given.push(arg.given)?;
        Ok(())
    }
}

/// Passes an expression to a parameter, `None` if the function has no more. The tally has counted the
/// expression; `before` was the first fault before it.
///
/// The only error is out of memory.
pub(crate) fn give<'a>(
    alloc: Global,
    scope: &Scope<'a>,
    param: Option<ParamType>,
    before: Option<Fault>,
    j: Inferred<'a>,
    tally: &mut Tally,
) -> Result<Arg, AllocError>
    ensures tree { IfOk result (λ arg. (s : Typed) → Infers j.entry s →
        tree_of_arg arg ≡ (typed_arg scope.now param s).given) }
    ensures faults { OnOk result ((base : Tally) (s : Typed) → before ≡ base.least →
        Stands j.entry s base tally.old →
        tally.new ≡ after base s.calls (typed_arg scope.now param s).expression.faults) }
{
    match param {
        None => value_arg(alloc, None, j),
        Some(param) => {
            if param.is_array {
                let array = named_array(scope, param.t, &j.name);
                Ok(array_arg(array, before, j, tally))
            } else {
                value_arg(alloc, param.t, j)
            }
        }
    }
}

/// An expression as a value, converted to the parameter's type.
fn value_arg<'a>(alloc: Global, t: Option<CType>, j: Inferred<'a>) -> Result<Arg, AllocError>
    ensures { IfOk result (λ arg. (s : Typed) → Infers j.entry s →
        tree_of_arg arg ≡ (value_arg t s).given) }
{
    let t = t.unwrap_or(j.t);
    let expr = j.into_tree(alloc, t)?;
    Ok(Arg::Value(expr))
}

/// An expression as an array, if it is one; anything else is at fault.
fn array_arg<'a>(
    array: Option<VarId>,
    before: Option<Fault>,
    j: Inferred<'a>,
    tally: &mut Tally,
) -> Arg
    ensures tree { (s : Typed) → Infers j.entry s
        → tree_of_arg result ≡ (array_arg array s).given }
    ensures faults { (base : Tally) (s : Typed) → before ≡ base.least →
        Stands j.entry s base tally.old →
        tally.new ≡ after base s.calls (array_arg array s).expression.faults }
{
    match array {
        None => {
            tally.add_if(true, Cause::WrongKind, j.first);
            Arg::Value(j.expr)
        }
        Some(array) => {
            tally.least = before;
            Arg::Array(array)
        }
    }
}
