//! Frames of calls, and the arrays that their variables name.

ghost use Rattle.std.specs.Prelude.{◌≡◌, ◌==◌, Some, None, cond, map, option_map};
ghost use Rattle.ba_tree.specs.Units.{bound_lengths, declared_lengths, length_at};
ghost use Rattle.ba_tree.specs.declared.tree.Program.{Program};
ghost use Rattle.ba_units.specs.Lengths.{argument_at, elements_of, lengths_of};

use crate::costs::declared_length;
use ba_numbers::ids::VarId;
use ba_tree::lookup::variable_of;
use ba_tree::tree::{Arg, Program};

/// A frame: that of `main` and the initialisers of the globals, or that of a function whose call in another
/// frame has these arguments.
///
/// A frame refers to that of its caller, so no memory is taken.
#[derive(Clone, Copy)]
pub enum Frame<'t, 'c> {
    Main,
    Called {
        params: &'t [VarId],
        args: &'t [Arg],
        caller: &'c Frame<'t, 'c>,
    },
}

impl<'t, 'c> Frame<'t, 'c> {
    /// The frame of `main`.
    pub fn main() -> Frame<'t, 'c>
        ensures { (p : Program) → lengths_of p result ≡ declared_lengths p }
    {
        Frame::Main
    }

    /// The frame of a function with these parameters, called in the caller's frame with these arguments.
    pub fn called(caller: &'c Frame<'t, 'c>, params: &'t [VarId], args: &'t [Arg]) -> Frame<'t, 'c>
        ensures { (p : Program) → lengths_of p result ≡ bound_lengths params.now
            (map (elements_of (lengths_of p caller.now)) args.now) (declared_lengths p) }
    {
        Frame::Called {
            params,
            args,
            caller,
        }
    }
}

/// The later one of two arguments if its parameter is the wanted variable.
fn later<'t>(is_wanted: bool, arg: &'t Arg, found: Option<&'t Arg>) -> Option<&'t Arg>
    ensures { option_map (λ arg. arg.now) result
        ≡ cond is_wanted (Some arg.now) (option_map (λ arg. arg.now) found.entry) }
{
    if is_wanted { Some(arg) } else { found }
}

/// The argument that a call gives for the variable, if it is one of these parameters.
fn argument_for<'t>(params: &[VarId], args: &'t [Arg], var: VarId) -> Option<&'t Arg>
    ensures { option_map (λ arg. arg.now) result ≡ argument_at params.now args.now var None }
{
    let mut found = None;
    for (param, arg) in params.iter().zip(args.iter()) {
        found = later(param.0 == var.0, arg, found);
    }
    found
}

/// How many elements a variable owns by its declaration.
fn own_length(program: &Program, var: VarId) -> u32
    ensures { result ≡ length_at (declared_lengths program.now) var }
{
    declared_length(variable_of(program, var).shape)
}

/// How many elements the array has that the variable names in a frame; 0 if it is no array.
pub fn length_of(program: &Program, frame: &Frame, var: VarId) -> u32
    ensures { result ≡ length_at (lengths_of program.now frame.now) var }
{
    match frame {
        Frame::Main => own_length(program, var),
        Frame::Called {
            params,
            args,
            caller,
        } => {
            if program.variables.len() <= var.0 as usize {
                return 0;
            }
            match argument_for(params, args, var) {
                None => own_length(program, var),
                Some(arg) => match arg {
                    Arg::Value(_) => 0,
                    Arg::Array(array) => length_of(program, caller, *array),
                },
            }
        }
    }
}
