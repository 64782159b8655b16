//! The text of an input.

ghost use Rattle.std.specs.Prelude.{◌≡◌, ◌≤◌, ◌++◌, true, IfErr, IfOk, OnOk, length, replicate};
ghost use Rattle.std.specs.List.{zip};
ghost use Rattle.ba_bytes.specs.Pieces.{pieces_of};
ghost use Rattle.ba_tree.specs.Inputs.{first_where, input_fault, is_outside, numbers_for, types_for, values_for, IsInputOf};
ghost use Rattle.ba_tree.specs.Run.{fits};
ghost use Rattle.ba_inputs.specs.Inputs.{AreNumbers, Tells, no_number_fault};

use ba_bytes::decimal::decimal;
use ba_bytes::pieces::Pieces;
use ba_items::Items;
use ba_numbers::ids::VarId;
use ba_numbers::numbers::CType;
use ba_tree::lookup::{main_params, variable_of};
use ba_tree::run::Input;
use ba_tree::tree::{Program, Shape};
use std::alloc::{AllocError, AllocFailed, Global};
use thiserror::Error;

/// Why a text is no input of a program, or out of memory. Pieces are counted from 1.
#[derive(Clone, Copy, Debug, PartialEq, Eq, Error)]
pub enum InputError {
    /// Piece number I, from 1, is not one or more decimal digits, with or without a minus sign before them.
    #[error("piece {0} is no number")]
    NotANumber(u32),
    /// Number I, from 1, is outside the type of its parameter.
    #[error("number {0} is outside its type")]
    OutOfRange(u32),
    /// There are fewer or more numbers than the parameters take.
    #[error("too few or too many numbers")]
    WrongCount,
    /// Out of memory.
    #[error("out of memory")]
    Memory,
}

impl From<AllocError> for InputError {
    ghost use Rattle.std.specs.Prelude.{◌≡◌};
    ghost use Rattle.ba_inputs.specs.declared.input.InputError.TheVariants.{Memory};

    ghost from_gives = { λ _ error. error ≡ Memory };

    fn from(_error: AllocError) -> InputError {
        InputError::Memory
    }
}

impl<T: Drop> From<AllocFailed<T>> for InputError {
    ghost use Rattle.std.specs.Prelude.{◌≡◌};
    ghost use Rattle.ba_inputs.specs.declared.input.InputError.TheVariants.{Memory};

    ghost from_gives = { λ _ error. error ≡ Memory };

    fn from(_error: AllocFailed<T>) -> InputError {
        InputError::Memory
    }
}

/// The numbers of the pieces, each as the nearest number of type `i64`; or the number of the first piece that
/// is none.
fn numbers_of(alloc: Global, text: &[u8]) -> Result<Vec<i64>, InputError>
    requires { length text.now ≤ 65536 }
    ensures ok { IfOk result (λ numbers. AreNumbers (pieces_of text.now) numbers.items) }
    ensures err { IfErr result (λ error. Tells error (no_number_fault (pieces_of text.now))) }
{
    let mut numbers = Vec::new(alloc);
    let mut pieces = Pieces::new(text);
    while let Some(piece) = pieces.next_piece() {
        let Some(number) = decimal(piece) else {
            return Err(InputError::NotANumber(numbers.len() as u32 + 1));
        };
        numbers.push(number)?;
    }
    Ok(numbers)
}

/// How many numbers a parameter of this shape takes.
fn numbers_for(shape: Shape) -> usize
    ensures { result ≡ numbers_for shape }
{
    match shape {
        Shape::Value => 1,
        Shape::Array(count) => count as usize,
        Shape::Passed => 0,
    }
}

/// Appends `count` items of this type.
fn add_types(types: &mut Vec<CType>, count: usize, t: CType) -> Result<(), AllocError>
    ensures { OnOk result (types.new.items ≡ types.old.items ++ replicate count t) }
{
    for _ in 0..count {
        types.push(t)?;
    }
    Ok(())
}

/// The types of the numbers of these parameters.
fn types_for(alloc: Global, program: &Program, params: &[VarId]) -> Result<Vec<CType>, AllocError>
    ensures { IfOk result (λ types. types.items ≡ types_for program.now params.now) }
{
    let mut types = Vec::new(alloc);
    for param in params {
        let variable = variable_of(program, *param);
        add_types(&mut types, numbers_for(variable.shape), variable.t)?;
    }
    Ok(types)
}

/// The index, counted from 1, of the first number that is outside its type.
fn first_outside(types: &[CType], numbers: &[i64]) -> Option<u32>
    requires { length numbers.now ≤ 65536 }
    ensures { result ≡ first_where is_outside (zip types.now numbers.now) }
{
    let mut number = 0;
    for (t, value) in types.iter().zip(numbers.iter()) {
        number += 1;
        if !t.contains(*value) {
            return Some(number);
        }
    }
    None
}

/// The numbers in a list for each parameter.
fn values_for(
    alloc: Global,
    program: &Program,
    params: &[VarId],
    numbers: &[i64],
) -> Result<Vec<Items<i64>>, AllocError>
    requires { length numbers.now ≡ length (types_for program.now params.now) }
    ensures { IfOk result (λ lists. lists.items ≡ values_for program.now params.now numbers.now) }
{
    let mut lists = Vec::with_capacity(alloc, params.len())?;
    let mut rest = numbers;
    for param in params {
        let (values, others) = rest.split_at(numbers_for(variable_of(program, *param).shape));
        lists.push(Items::from_slice(alloc, values)?)?;
        rest = others;
    }
    Ok(lists)
}

/// Reads the input of a program from its text: decimal numbers between blanks, with or without a minus sign.
/// Blanks are bytes 9 to 13 and 32. Each parameter of `main` takes one number of its type, an array one for
/// each element, in the order of the parameters. The text has at most 65,536 bytes.
///
/// The errors are tested in this order; pieces are counted from 1:
/// - `NotANumber`: the first piece that is no number.
/// - `WrongCount`: there are too few or too many numbers.
/// - `OutOfRange`: the first number outside its type.
///
/// `Memory` is out of memory.
pub fn read_input(alloc: Global, program: &Program, text: &[u8]) -> Result<Input, InputError>
    requires short { length text.now ≤ 65536 }
    ensures ok { IfOk result (IsInputOf program.now text.now) }
    ensures fits { IfOk result (λ input. fits program.now input ≡ true) }
    ensures err { IfErr result (λ error. Tells error (input_fault program.now text.now)) }
{
    let numbers = numbers_of(alloc, text)?;
    let params = main_params(program);
    let types = types_for(alloc, program, params)?;
    if numbers.len() != types.len() {
        return Err(InputError::WrongCount);
    }
    if let Some(number) = first_outside(types.as_slice(), numbers.as_slice()) {
        return Err(InputError::OutOfRange(number));
    }
    let values = values_for(alloc, program, params, numbers.as_slice())?;
    Ok(Input {
        values: Items::from_vec(values),
    })
}
