//! The inputs of a text, one a line.

ghost use Rattle.std.specs.Prelude.{◌≡◌, ◌≤◌, true, None, All, length, IfErr, IfOk, OnOk};
ghost use Rattle.ba_bytes.specs.Pieces.{pieces_of};
ghost use Rattle.ba_tree.specs.Run.{fits};
ghost use Rattle.ba_inputs.specs.Adding.{Adds, AllFit, refusal};
ghost use Rattle.ba_inputs.specs.InputLines.{AreInputsIn, IsInputIn, Tells, are_skipped, first_refused, input_lines, inputs_fault, line_fault};

use crate::input::{InputError, read_input};
use crate::weights::begins_comment;
use ba_bytes::lines::Lines;
use ba_bytes::pieces::Pieces;
use ba_items::Items;
use ba_tree::run::Input;
use ba_tree::tree::Program;
use std::alloc::{AllocError, AllocFailed, Global};
use thiserror::Error;

/// An input, with the number of its line. All lines of the text are counted, from 1.
#[derive(Drop)]
pub struct InputLine {
    pub line: u64,
    pub input: Input,
}

/// Why a text gives no inputs of a program, or out of memory. Lines, and the pieces of each, are counted from
/// 1.
#[derive(Clone, Copy, Debug, PartialEq, Eq, Error)]
pub enum InputsError {
    /// In this line, piece number I is not one or more decimal digits, with or without a minus sign before
    /// them.
    #[error("piece {number} of line {line} is no number")]
    NotANumber { line: u64, number: u32 },
    /// In this line, number I is outside the type of its parameter.
    #[error("number {number} of line {line} is outside its type")]
    OutOfRange { line: u64, number: u32 },
    /// In this line there are fewer or more numbers than the parameters take.
    #[error("too few or too many numbers in line {line}")]
    WrongCount { line: u64 },
    /// There are fewer inputs than wanted.
    #[error("too few inputs")]
    NoInput,
    /// This line would be the 65th input.
    #[error("too many inputs in line {line}")]
    TooMany { line: u64 },
    /// Out of memory.
    #[error("out of memory")]
    Memory,
}

impl From<AllocError> for InputsError {
    ghost use Rattle.std.specs.Prelude.{◌≡◌};
    ghost use Rattle.ba_inputs.specs.declared.inputs.InputsError.TheVariants.{Memory};

    ghost from_gives = { λ _ error. error ≡ Memory };

    fn from(_error: AllocError) -> InputsError {
        InputsError::Memory
    }
}

impl<T: Drop> From<AllocFailed<T>> for InputsError {
    ghost use Rattle.std.specs.Prelude.{◌≡◌};
    ghost use Rattle.ba_inputs.specs.declared.inputs.InputsError.TheVariants.{Memory};

    ghost from_gives = { λ _ error. error ≡ Memory };

    fn from(_error: AllocFailed<T>) -> InputsError {
        InputsError::Memory
    }
}

/// The limit on inputs of a text.
const MOST_INPUTS: usize = 64;

/// Whether a line is skipped: it has only blanks, or is a comment.
fn is_skipped(line: &[u8]) -> bool
    ensures { result ≡ are_skipped (pieces_of line.now) }
{
    let mut pieces = Pieces::new(line);
    match pieces.next_piece() {
        None => true,
        Some(first) => begins_comment(first),
    }
}

/// The input of a line, with the number of the line.
fn read_line(
    alloc: Global,
    program: &Program,
    text: &[u8],
    line: u64,
) -> Result<InputLine, InputsError>
    requires short { length text.now ≤ 65536 }
    ensures ok { IfOk result (IsInputIn program.now (line, text.now)) }
    ensures fits { IfOk result (λ input. fits program.now input.input ≡ true) }
    ensures no_fault { IfOk result (λ _. line_fault program.now (line, text.now) ≡ None) }
    ensures err { IfErr result (λ error. Tells error (line_fault program.now (line, text.now))) }
{
    match read_input(alloc, program, text) {
        Ok(input) => Ok(InputLine { line, input }),
        Err(InputError::NotANumber(number)) => Err(InputsError::NotANumber { line, number }),
        Err(InputError::OutOfRange(number)) => Err(InputsError::OutOfRange { line, number }),
        Err(InputError::WrongCount) => Err(InputsError::WrongCount { line }),
        Err(InputError::Memory) => Err(InputsError::Memory),
    }
}

/// Adds the input of a line, unless the line is skipped.
fn add_line(
    alloc: Global,
    program: &Program,
    text: &[u8],
    line: u64,
    inputs: &mut Vec<InputLine>,
) -> Result<(), InputsError>
    requires short { length text.now ≤ 65536 }
    ensures ok { OnOk result
        (Adds program.now (line, text.now) inputs.old.items inputs.new.items) }
    ensures err { IfErr result (λ error.
        Tells error (refusal program.now inputs.old.items (line, text.now))) }
{
    if is_skipped(text) {
        return Ok(());
    }
    if inputs.len() >= MOST_INPUTS {
        return Err(InputsError::TooMany { line });
    }
    let input = read_line(alloc, program, text, line)?;
    inputs.push(input)?;
    Ok(())
}

/// The inputs of all lines, however few they are.
fn read_lines(alloc: Global, program: &Program, text: &[u8]) -> Result<Vec<InputLine>, InputsError>
    requires short { length text.now ≤ 65536 }
    ensures ok { IfOk result (λ inputs. AreInputsIn program.now text.now inputs.items) }
    ensures fit { IfOk result (λ inputs. AllFit program.now inputs.items) }
    ensures no_fault { IfOk result (λ _.
        first_refused program.now 64 (input_lines text.now) ≡ None) }
    ensures err { IfErr result (λ error.
        Tells error (first_refused program.now 64 (input_lines text.now))) }
{
    let mut inputs = Vec::new(alloc);
    let mut lines = Lines::new(text);
    let mut number = 0;
    while let Some(line) = lines.next_line() {
        prove!(number <= text.len());
        number += 1;
        add_line(alloc, program, line, number as u64, &mut inputs)?;
    }
    Ok(inputs)
}

/// Reads several inputs of a program from a text, one a line, each as [`read_input`] reads it. Only a line
/// feed ends a line. A line is skipped if it has only blanks, or if its first other byte is `#`. The text has
/// at most 65,536 bytes.
///
/// The first refused line is answered, with its number among all lines, from 1:
/// - `NotANumber`, `OutOfRange`, `WrongCount`: [`read_input`] refuses the line.
/// - `TooMany`: the 65th line that is not skipped, whatever it has.
///
/// `NoInput` comes if no line is refused and there are fewer inputs than `least`. `Memory` is out of memory.
pub fn read_inputs(
    alloc: Global,
    program: &Program,
    text: &[u8],
    least: u32,
) -> Result<Items<InputLine>, InputsError>
    requires short { length text.now ≤ 65536 }
    ensures ok { IfOk result (AreInputsIn program.now text.now) }
    ensures fit { IfOk result
        (λ inputs. All (λ entry. fits program.now entry.input ≡ true) inputs) }
    ensures accepted { IfOk result (λ _. inputs_fault program.now text.now least ≡ None) }
    ensures err { IfErr result (λ error. Tells error (inputs_fault program.now text.now least)) }
{
    let inputs = read_lines(alloc, program, text)?;
    if inputs.len() < least as usize {
        return Err(InputsError::NoInput);
    }
    Ok(Items::from_vec(inputs))
}
