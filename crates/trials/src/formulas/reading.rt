//! Programs, inputs and weights.

ghost use Rattle.std.specs.Prelude.{◌≡◌, true, IfOk};
ghost use Rattle.ba_tree.specs.Least.{AreWeightsOf};
ghost use Rattle.ba_tree.specs.Run.{fits};

use anyhow::{Result, bail};
use ba_inputs::{read_input, read_weights};
use ba_lex::{MAX_TEXT, tokens};
use ba_parse::parse;
use ba_tree::run::{Input, Weights};
use ba_tree::tree::Program;
use ba_types::check;
use std::alloc::Global;

/// The program that a text spells.
pub fn program_of(alloc: Global, text: &[u8]) -> Result<Program> {
    if text.len() > MAX_TEXT {
        bail!("the program is too long");
    }
    let tokens = tokens(alloc, text)?;
    let raw = parse(alloc, tokens.as_slice())?;
    Ok(check(alloc, &raw)?)
}

/// The input of a program that a text spells.
pub fn input_of(alloc: Global, program: &Program, text: &[u8]) -> Result<Input>
    ensures { IfOk result (λ input. fits program.now input ≡ true) }
{
    if text.len() > 65536 {
        bail!("the input is too long");
    }
    Ok(read_input(alloc, program, text)?)
}

/// The weights of a program's statements if each is 1.
pub fn unit_weights(alloc: Global, program: &Program) -> Result<Weights>
    ensures { IfOk result (λ weights. AreWeightsOf program.now weights.of) }
{
    Ok(read_weights(alloc, program, b"".as_slice())?)
}
