//! Frames of calls, and the first frame of a run.

ghost use Rattle.std.specs.Prelude.{◌≡◌, ◌++◌, ℕ, List, OnOk, IfOk};
ghost use Rattle.ba_tree.specs.Run.{begin_all, begin_frame, bind_all, end_frame, with_restored};
ghost use Rattle.ba_tree.specs.State.{State};
ghost use Rattle.ba_interp.specs.Frames.{IsKept, all_taken};

use crate::machine::{Machine, Taken};
use ba_numbers::ids::VarId;
use ba_tree::lookup::variable_of;
use ba_tree::run::Argument;
use ba_tree::tree::{Function, Program};
use std::alloc::{AllocError, Global};

/// Variables begin as 0, arrays with new locations.
pub fn begin_all(
    alloc: Global,
    program: &Program,
    vars: &[VarId],
    machine: &mut Machine,
) -> Result<(), AllocError>
    ensures { OnOk result (machine.new ≡ begin_all program.now vars.now machine.old) }
{
    for var in vars {
        machine.begin(alloc, variable_of(program, *var).shape, *var)?;
    }
    Ok(())
}

/// Parameters have the values, or name the arrays, of the arguments.
fn bind_all(params: &[VarId], arguments: &[Argument], machine: &mut Machine)
    ensures { machine.new ≡ bind_all params.now arguments.now machine.old }
{
    for (param, argument) in params.iter().zip(arguments.iter()) {
        machine.bind(*param, *argument);
    }
}

/// Begins the frame of a function with these arguments.
pub fn begin_frame(
    alloc: Global,
    program: &Program,
    function: &Function,
    arguments: &[Argument],
    machine: &mut Machine,
) -> Result<(), AllocError>
    ensures { OnOk result (machine.new ≡ begin_frame program.now function.now arguments.now
        machine.old) }
{
    bind_all(function.params.as_slice(), arguments, machine);
    begin_all(alloc, program, function.locals.as_slice(), machine)
}

/// What a call's end restores.
#[derive(Drop)]
pub struct Kept {
    params: Vec<Taken>,
    locals: Vec<Taken>,
    arrays: usize,
}

/// The entries of these variables.
fn all_taken(alloc: Global, vars: &[VarId], machine: &Machine) -> Result<Vec<Taken>, AllocError>
    ensures { IfOk result (λ taken. taken.items ≡ all_taken machine.now vars.now) }
{
    let mut taken = Vec::with_capacity(alloc, vars.len())?;
    for var in vars {
        taken.push(machine.taken(*var))?;
    }
    Ok(taken)
}

/// What has to be kept before a call of the function.
pub fn keep(alloc: Global, function: &Function, machine: &Machine) -> Result<Kept, AllocError>
    ensures { IfOk result (λ kept. IsKept function.now kept machine.now) }
{
    Ok(Kept {
        params: all_taken(alloc, function.params.as_slice(), machine)?,
        locals: all_taken(alloc, function.locals.as_slice(), machine)?,
        arrays: machine.arrays(),
    })
}

/// Restores the entries of these variables.
fn restore(vars: &[VarId], taken: &[Taken], machine: &mut Machine)
    ensures { (before : State) → taken.now ≡ all_taken before vars.now
        → machine.new ≡ with_restored vars.now before machine.old }
{
    for (var, taken) in vars.iter().zip(taken.iter()) {
        machine.give_back(*var, *taken);
    }
}

/// Ends the frame of a function: its variables have what they had before it, and its arrays are dropped.
pub fn end_frame(function: &Function, kept: &Kept, machine: &mut Machine)
    ensures { (before : State) → IsKept function.now kept.now before
        → machine.new ≡ end_frame function.now before machine.old }
{
    restore(function.params.as_slice(), kept.params.as_slice(), machine);
    restore(function.locals.as_slice(), kept.locals.as_slice(), machine);
    machine.cut(kept.arrays);
}
