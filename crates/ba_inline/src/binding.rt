//! Frames of calls, and the variables at the start of a run.

ghost use Rattle.std.specs.Prelude.{◌≡◌, ◌++◌, ◌∷◌, [], pos, false, List, replicate, IfOk, OnOk};
ghost use Rattle.ba_code.specs.State.{CodeState};
ghost use Rattle.ba_code.specs.Types.{Types};
ghost use Rattle.ba_code.specs.declared.nodes.Node.{Node};
ghost use Rattle.ba_inline.specs.Binding.{Binds};
ghost use Rattle.ba_inline.specs.Making.{AreGiven, IsGiven, argument_in, reading_arguments};
ghost use Rattle.ba_inline.specs.Names.{IsScope, Names, seen};
ghost use Rattle.ba_numbers.specs.declared.ids.VarId.{VarId};
ghost use Rattle.ba_tree.specs.Meaning.{variable_of};
ghost use Rattle.ba_tree.specs.Run.{begin_all, begin_frame, begin_shape, bind_all, bind_one};
ghost use Rattle.ba_tree.specs.State.{State};

use crate::declared::Declared;
use crate::emit::add;
use crate::frames::{Given, Setting};
use crate::scope::Scope;
use ba_code::nodes::{ArrayInfo, Node, Operand};
use ba_numbers::ids::VarId;
use ba_tree::lookup::variable_of;
use ba_tree::tree::{Function, Shape};
use std::alloc::{AllocError, Global};

/// The operand 0, `count` times.
pub fn zeros(alloc: Global, count: u32) -> Result<Vec<Operand>, AllocError>
    ensures { IfOk result (λ zeros. zeros.items ≡ replicate count (Operand.Const (pos 0))) }
{
    Ok(vec![in alloc; Operand::Const(0); count as usize]?)
}

/// A parameter has the value, or names the array, of its argument. In each program they fit.
fn bind_one(
    setting: &Setting,
    scope: &mut Scope,
    declared: &mut Declared,
    out: &mut Vec<Node>,
    param: VarId,
    given: Given,
) -> Result<(), AllocError>
    ensures { OnOk result ((names : Names) (own : List VarId) (begun : CodeState → State)
        (low : Types) (base : List Node)
        → IsScope setting.now.program.now names low → IsGiven false names low given
        → Binds setting.now.program.now names own begun scope.old low declared.old
        base out.old.items
        → Binds setting.now.program.now names (own ++ param ∷ [])
        (λ t. bind_one param (argument_in t given) (begun t)) scope.new low declared.new
        base out.new.items) }
{
    let variable = variable_of(setting.program, param);
    match (given, variable.shape) {
        (Given::Value(value), Shape::Value) => {
            let number = declared.variable(variable.t)?;
            add(
                out,
                Node::Set {
                    to: number,
                    from: value,
                },
            )?;
            scope.set_value(param, number);
            Ok(())
        }
        (Given::Array(location), Shape::Passed) => {
            scope.set_location(param, location);
            Ok(())
        }
        _ => Err(AllocError),
    }
}

/// A variable begins as 0, and an array with a new location.
fn begin_one(
    setting: &Setting,
    scope: &mut Scope,
    declared: &mut Declared,
    out: &mut Vec<Node>,
    var: VarId,
) -> Result<(), AllocError>
    ensures { OnOk result ((names : Names) (own : List VarId) (begun : CodeState → State)
        (low : Types) (base : List Node)
        → IsScope setting.now.program.now names low
        → Binds setting.now.program.now names own begun scope.old low declared.old
        base out.old.items
        → Binds setting.now.program.now names (own ++ var ∷ [])
        (λ t. begin_shape (variable_of setting.now.program.now var).shape var (begun t))
        scope.new low declared.new base out.new.items) }
{
    let variable = variable_of(setting.program, var);
    match variable.shape {
        Shape::Value => {
            let number = declared.variable(variable.t)?;
            add(
                out,
                Node::Set {
                    to: number,
                    from: Operand::Const(0),
                },
            )?;
            scope.set_value(var, number);
        }
        Shape::Array(len) => {
            let number = declared.array(ArrayInfo { len, t: variable.t })?;
            add(
                out,
                Node::Fill {
                    array: number,
                    values: zeros(setting.alloc, len)?,
                },
            )?;
            let location = scope.add_array(number)?;
            scope.set_location(var, location);
        }
        Shape::Passed => {}
    }
    Ok(())
}

/// Parameters have the values, or name the arrays, of their arguments.
fn bind_all(
    setting: &Setting,
    scope: &mut Scope,
    declared: &mut Declared,
    out: &mut Vec<Node>,
    params: &[VarId],
    given: &[Given],
) -> Result<(), AllocError>
    ensures { OnOk result ((names : Names) (low : Types) (base : List Node)
        → IsScope setting.now.program.now names low → AreGiven false names low given.now
        → Binds setting.now.program.now names [] (seen names) scope.old low declared.old
        base out.old.items
        → Binds setting.now.program.now names params.now
        (λ t. bind_all params.now (reading_arguments given.now t) (seen names t))
        scope.new low declared.new base out.new.items) }
{
    if params.len() != given.len() {
        return Err(AllocError);
    }
    for i in 0..params.len() {
        bind_one(setting, scope, declared, out, params[i], given[i])?;
    }
    Ok(())
}

/// Variables begin as 0, and arrays with new locations.
pub fn begin_all(
    setting: &Setting,
    scope: &mut Scope,
    declared: &mut Declared,
    out: &mut Vec<Node>,
    vars: &[VarId],
) -> Result<(), AllocError>
    ensures { OnOk result ((names : Names) (own : List VarId) (begun : CodeState → State)
        (low : Types) (base : List Node)
        → IsScope setting.now.program.now names low
        → Binds setting.now.program.now names own begun scope.old low declared.old
        base out.old.items
        → Binds setting.now.program.now names (own ++ vars.now)
        (λ t. begin_all setting.now.program.now vars.now (begun t))
        scope.new low declared.new base out.new.items) }
{
    for var in vars {
        begin_one(setting, scope, declared, out, *var)?;
    }
    Ok(())
}

/// Begins the frame of a function with these arguments.
#[inline(never)]
pub fn begin_frame(
    setting: &Setting,
    scope: &Scope,
    declared: &mut Declared,
    out: &mut Vec<Node>,
    function: &Function,
    given: &[Given],
) -> Result<Scope, AllocError>
    ensures { IfOk result (λ inner. IsScope setting.now.program.now scope.now declared.old
        → AreGiven false scope.now declared.old given.now
        → Binds setting.now.program.now scope.now (function.now.params ++ function.now.locals)
        (λ t. begin_frame setting.now.program.now function.now
        (reading_arguments given.now t) (seen scope.now t))
        inner declared.old declared.new out.old.items out.new.items) }
{
    let mut inner = scope.copy(setting.alloc)?;
    bind_all(
        setting,
        &mut inner,
        declared,
        out,
        function.params.as_slice(),
        given,
    )?;
    begin_all(
        setting,
        &mut inner,
        declared,
        out,
        function.locals.as_slice(),
    )?;
    Ok(inner)
}
