//! Lookup of declarations by number, and the entry of a `switch`.

ghost use Rattle.std.specs.Prelude.{◌≡◌, ◌<◌, length, MatchOption};
ghost use Rattle.ba_tree.specs.Meaning.{entered, label_at, variable_of};
ghost use Rattle.ba_tree.specs.Run.{function_of, main_of, no_function};

use crate::tree::{Function, Program, Shape, Start, Stmt, Variable};
use ba_numbers::ids::{FnId, VarId};
use ba_numbers::numbers::CType;

/// The declaration of a variable. Each variable that a program names has one; any other number gives a value
/// of type `I32`.
pub fn variable_of(program: &Program, var: VarId) -> Variable
    ensures { result ≡ variable_of program.now var }
{
    match program.variables.as_slice().get(var.0 as usize) {
        Some(variable) => *variable,
        None => Variable {
            t: CType::I32,
            shape: Shape::Value,
        },
    }
}

/// The function of this number, if there is one. Each function that a program calls has a number.
pub fn function_of(program: &Program, function: FnId) -> Option<&Function>
    ensures { MatchOption result (function_of program.now function ≡ no_function)
        (λ found. (function.0 < length program.now.functions) × (function_of program.now function
        ≡ found.now)) }
{
    program.functions.as_slice().get(function.0 as usize)
}

/// The type that `main` returns, `None` for `void`.
pub fn main_result(program: &Program) -> Option<CType>
    ensures { result ≡ (main_of program.now).result }
{
    match function_of(program, program.main) {
        Some(main) => main.result,
        None => None,
    }
}

/// The parameters of `main`.
pub fn main_params(program: &Program) -> &[VarId]
    ensures { result.now ≡ (main_of program.now).params }
{
    match function_of(program, program.main) {
        Some(main) => main.params.as_slice(),
        None => &[],
    }
}

/// The variables of `main` that are no parameters.
pub fn main_locals(program: &Program) -> &[VarId]
    ensures { result.now ≡ (main_of program.now).locals }
{
    match function_of(program, program.main) {
        Some(main) => main.locals.as_slice(),
        None => &[],
    }
}

/// The body of `main`.
pub fn main_body(program: &Program) -> &[Stmt]
    ensures { result.now ≡ (main_of program.now).body }
{
    match function_of(program, program.main) {
        Some(main) => main.body.as_slice(),
        None => &[],
    }
}

/// How many statements of a `switch`'s body are before the label of this value, or else before `default`
/// (`other`). `None` if there is neither. Of equal labels the first counts.
pub fn label_at(starts: &[Start], value: i64, other: Option<u32>) -> Option<u32>
    ensures { result ≡ label_at starts.now value other }
{
    for start in starts {
        if start.value == value {
            return Some(start.at);
        }
    }
    other
}

/// The statements of a `switch` that are executed from this label on; none without a label.
pub fn entered(label: Option<u32>, body: &[Stmt]) -> &[Stmt]
    ensures { result.now ≡ entered label body.now }
{
    match label {
        None => &[],
        Some(at) => body.get(at as usize..).unwrap_or(&[]),
    }
}
