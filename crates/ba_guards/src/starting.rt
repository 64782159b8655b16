//! The start of a run: all variables and elements are 0 except those of parameters, which the input gives.

ghost use Rattle.std.specs.Prelude.{◌≡◌, ℕ, ℤ, pos, true, [], map, IfOk, OnOk, slice_index_or};
ghost use Rattle.std.specs.List.{list_all};
ghost use Rattle.ba_code.specs.Facts.{is_array_info, is_param};
ghost use Rattle.ba_code.specs.Run.{all_zero, with_param, with_params};
ghost use Rattle.ba_code.specs.State.{CodeState};
ghost use Rattle.ba_code.specs.declared.nodes.Operand.TheVariants.{Const};
ghost use Rattle.ba_guards.specs.Contract.{are_word_values};
ghost use Rattle.ba_guards.specs.Parts.{declared};
ghost use Rattle.ba_guards.specs.Starting.{AreZero, Starts};
ghost use Rattle.ba_tree.specs.Meaning.{elements_with};
ghost use Rattle.ba_wordlist.specs.Facts.{are_words, is_word_value};

use crate::builder::Builder;
use crate::exits::{Exit, Exits};
use crate::names::Names;
use crate::steps::{fill, length_of, set};
use crate::variables::Variables;
use crate::words::{ONE, Words, ZERO};
use ba_code::nodes::{ArrayInfo, Operand, Param};
use ba_items::Items;
use ba_wordlist::words::WordOp;
use std::alloc::{AllocError, Global};

/// A list in which all variables and elements are 0, and at whose end the run is. It has one exit below those
/// of the blocks, which is never taken.
pub fn start(alloc: Global, vars: u32, arrays: &[ArrayInfo]) -> Result<Builder, AllocError>
    ensures { IfOk result (λ b. list_all is_array_info arrays.now ≡ true
        → Starts (declared vars arrays.now) b (all_zero arrays.now [])) }
{
    let mut words = Words::new(alloc);
    words.push(WordOp::Const(0))?;
    words.push(WordOp::Const(1))?;
    let versions = zero_arrays(alloc, &mut words, arrays)?;
    let mut exits = Exits::new(alloc);
    exits.push(Exit {
        label: 0,
        since: 0,
        base: Variables::zeros(alloc, vars as usize)?,
        live: ZERO,
        vars: Variables::zeros(alloc, vars as usize)?,
        written: Names::new(alloc),
    })?;
    let zeros = Variables::zeros(alloc, vars as usize)?;
    Ok(Builder {
        words,
        require: Names::new(alloc),
        places: Items::new(alloc),
        vars: zeros,
        written: Names::new(alloc),
        arrays: versions,
        live: ONE,
        exits,
    })
}

/// A state of each array, whose elements are 0.
fn zero_arrays(alloc: Global, words: &mut Words, arrays: &[ArrayInfo]) -> Result<Names, AllocError>
    ensures { IfOk result (λ versions. are_words words.old ≡ true
        → list_all is_array_info arrays.now ≡ true
        → AreZero words.old words.new versions arrays.now) }
{
    let mut versions = Names::new(alloc);
    for info in arrays {
        let version = words.zeros(info.len)?;
        versions.push(version)?;
    }
    Ok(versions)
}

/// Gives the parameters the values of the input.
pub fn give_input(
    alloc: Global,
    arrays: &[ArrayInfo],
    b: &mut Builder,
    params: &[Param],
    given: &[Items<i64>],
) -> Result<(), AllocError>
    ensures { OnOk result ((vars : ℕ) (s : CodeState) → Starts (declared vars arrays.now) b.old s
        → list_all (is_param (declared vars arrays.now)) params.now ≡ true
        → are_word_values given.now ≡ true
        → Starts (declared vars arrays.now) b.new (with_params params.now given.now s)) }
{
    for (param, values) in params.iter().zip(given.iter()) {
        give(alloc, arrays, b, *param, values.as_slice())?;
    }
    Ok(())
}

/// Gives a parameter its values.
fn give(
    alloc: Global,
    arrays: &[ArrayInfo],
    b: &mut Builder,
    param: Param,
    values: &[i64],
) -> Result<(), AllocError>
    ensures { OnOk result ((vars : ℕ) (s : CodeState) → Starts (declared vars arrays.now) b.old s
        → is_param (declared vars arrays.now) param ≡ true
        → list_all is_word_value values.now ≡ true
        → Starts (declared vars arrays.now) b.new (with_param param values.now s)) }
{
    match param {
        Param::Var(number) => {
            set(b, number, Operand::Const(value_at(values, 0)))?;
            Ok(())
        }
        Param::Array(number) => {
            let constants = constants(alloc, length_of(arrays, number), values)?;
            fill(alloc, b, number, constants.as_slice())?;
            Ok(())
        }
    }
}

/// The first `count` values as operands; a missing value is 0.
fn constants(alloc: Global, count: u32, values: &[i64]) -> Result<Vec<Operand>, AllocError>
    ensures { IfOk result (λ constants. constants.items
        ≡ map Const (elements_with count values.now)) }
{
    let mut constants = Vec::new(alloc);
    for index in 0..count {
        constants.push(Operand::Const(value_at(values, index as usize)))?;
    }
    Ok(constants)
}

/// The value at this index, and 0 past the end.
fn value_at(values: &[i64], index: usize) -> i64
    ensures { result ≡ slice_index_or values.now index (pos 0) }
{
    if index < values.len() {
        values[index]
    } else {
        0
    }
}
