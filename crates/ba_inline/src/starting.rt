//! The variables at the start of a run: the globals, and those of `main`. All variables of the code are 0
//! there but the parameters, so no node sets them.

ghost use Rattle.std.specs.Prelude.{◌≡◌, ◌≤◌, ◌∷◌, [], slice_get, Some, IfOk, OnOk};
ghost use Rattle.ba_inline.specs.Starting.{AreParams, IsParam, Starts};

use crate::declared::{Counts, Declared};
use crate::frames::Setting;
use crate::leaves::array_of;
use crate::scope::Scope;
use ba_code::nodes::{ArrayInfo, Operand, Param};
use ba_numbers::ids::VarId;
use ba_numbers::numbers::CType;
use ba_tree::lookup::variable_of;
use ba_tree::tree::Shape;
use std::alloc::AllocError;

/// Gives a variable of the program a variable of the code, or an array a new location.
fn start_one(
    setting: &Setting,
    scope: &mut Scope,
    declared: &mut Declared,
    var: VarId,
) -> Result<(), AllocError>
    ensures { OnOk result (Starts setting.now.program.now scope.old scope.new (var ∷ [])
        declared.old declared.new) }
{
    let variable = variable_of(setting.program, var);
    match variable.shape {
        Shape::Value => {
            let number = declared.variable(variable.t)?;
            scope.set_value(var, number);
        }
        Shape::Array(len) => {
            let number = declared.array(ArrayInfo { len, t: variable.t })?;
            let location = scope.add_array(number)?;
            scope.set_location(var, location);
        }
        Shape::Passed => {}
    }
    Ok(())
}

/// Gives variables of the program variables of the code, or arrays new locations.
pub fn start_all(
    setting: &Setting,
    scope: &mut Scope,
    declared: &mut Declared,
    vars: &[VarId],
) -> Result<(), AllocError>
    ensures { OnOk result (Starts setting.now.program.now scope.old scope.new vars.now
        declared.old declared.new) }
{
    for var in vars {
        start_one(setting, scope, declared, *var)?;
    }
    Ok(())
}

/// The variable of the code for a parameter of `main`. It comes after those of the globals, and holds numbers
/// of the parameter's type. In a program it always exists.
fn value_param(
    scope: &Scope,
    globals: Counts,
    declared: &Declared,
    var: VarId,
    t: CType,
) -> Result<u32, AllocError>
    ensures { IfOk result (λ number. (slice_get scope.now.values var.0 ≡ Some (Operand.Var number))
        × (globals.vars ≤ number) × (slice_get declared.now.vars number ≡ Some t)) }
{
    let number = scope.variable(var)?;
    match declared.type_of(number) {
        Some(own) if own == t && globals.vars <= number as usize => Ok(number),
        _ => Err(AllocError),
    }
}

/// The variable or array of the code for a parameter of `main`.
fn param_of(
    setting: &Setting,
    scope: &Scope,
    globals: Counts,
    declared: &Declared,
    var: VarId,
) -> Result<Param, AllocError>
    ensures { IfOk result (λ param.
        IsParam setting.now.program.now scope.now globals declared.now var param) }
{
    let variable = variable_of(setting.program, var);
    match variable.shape {
        Shape::Value => {
            let number = value_param(scope, globals, declared, var, variable.t)?;
            Ok(Param::Var(number))
        }
        Shape::Array(_) => {
            let (number, _) = array_of(setting, scope, declared, var)?;
            if (number as usize) < globals.arrays {
                return Err(AllocError);
            }
            Ok(Param::Array(number))
        }
        Shape::Passed => Err(AllocError),
    }
}

/// The variables and arrays of the code for the parameters of `main`, in their order.
pub fn params_of(
    setting: &Setting,
    scope: &Scope,
    globals: Counts,
    declared: &Declared,
    vars: &[VarId],
) -> Result<Vec<Param>, AllocError>
    ensures { IfOk result (λ params.
        AreParams setting.now.program.now scope.now globals declared.now
        vars.now params.items) }
{
    let mut params = Vec::with_capacity(setting.alloc, vars.len())?;
    for var in vars {
        params.push(param_of(setting, scope, globals, declared, *var)?)?;
    }
    Ok(params)
}
