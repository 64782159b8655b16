//! The functions of the inliner that are no part of its recursion.

ghost use Rattle.std.specs.Prelude.{◌≡◌, ◌++◌, ◌∷◌, [], pos, ℕ, replicate, List, IfOk, OnOk};
ghost use Rattle.ba_inline.specs.Arrays.{IsArrayOf};
ghost use Rattle.ba_inline.specs.Making.{Does, Makes};
ghost use Rattle.ba_inline.specs.Names.{IsFrame};
ghost use Rattle.ba_inline.specs.Parts.{declare_part};
ghost use Rattle.ba_inline.specs.declared.frames.Frame.{Frame};
ghost use Rattle.ba_tree.specs.declared.run.Step.{Step};

use crate::binding::zeros;
use crate::declared::Declared;
use crate::emit::add;
use crate::frames::Setting;
use crate::scope::Scope;
use ba_code::nodes::{Node, Operand};
use ba_numbers::ids::VarId;
use ba_tree::lookup::variable_of;
use ba_tree::run::Step;
use ba_tree::tree::Shape;
use std::alloc::{AllocError, Global};

/// A path with one more step inside.
#[inline(never)]
pub fn extended(alloc: Global, path: &[Step], step: Step) -> Result<Vec<Step>, AllocError>
    ensures { IfOk result (λ inside. inside.items ≡ path.now ++ step ∷ []) }
{
    let mut inside = Vec::from_slice(alloc, path)?;
    inside.push(step)?;
    Ok(inside)
}

/// The code's array for an array variable, and how many elements it has. Its elements have the variable's
/// type; in a program it always exists.
pub fn array_of(
    setting: &Setting,
    scope: &Scope,
    declared: &Declared,
    array: VarId,
) -> Result<(u32, u32), AllocError>
    ensures { IfOk result (λ found.
        IsArrayOf setting.now.program.now scope.now declared.now array found.0) }
{
    let number = scope.array(array)?;
    match declared.info(number) {
        Some(info) if info.t == variable_of(setting.program, array).t => Ok((number, info.len)),
        _ => Err(AllocError),
    }
}

/// The values, followed by constants 0 up to length `len`.
pub fn filled_up(values: Vec<Operand>, len: u32) -> Result<Vec<Operand>, AllocError>
    ensures { IfOk result (λ filled. (count : ℕ)
        × (filled.items ≡ values.items ++ replicate count (Operand.Const (pos 0)))) }
{
    let given = values.len();
    let mut filled = values;
    for _ in given..len as usize {
        filled.push(Operand::Const(0))?;
    }
    Ok(filled)
}

/// The code of a declaration.
#[inline(never)]
pub fn declare(
    setting: &Setting,
    scope: &Scope,
    declared: &mut Declared,
    out: &mut Vec<Node>,
    var: VarId,
) -> Result<(), AllocError>
    ensures { OnOk result ((frame : Frame) (path : List Step)
        → IsFrame setting.now.program.now frame.home scope.now declared.old
        → Makes setting.now.program.now scope.now path
        (declare_part setting.now.program.now var)
        (Does scope.now frame.exits frame.home declared.old)
        declared.old declared.new out.old.items out.new.items) }
{
    match variable_of(setting.program, var).shape {
        Shape::Value => add(
            out,
            Node::Set {
                to: scope.variable(var)?,
                from: Operand::Const(0),
            },
        ),
        Shape::Array(len) => {
            let number = scope.array(var)?;
            add(
                out,
                Node::Fill {
                    array: number,
                    values: zeros(setting.alloc, len)?,
                },
            )
        }
        Shape::Passed => Ok(()),
    }
}
