//! Nodes without nodes inside: each adds words, and changes a variable, an array or the requirements.

ghost use Rattle.std.specs.Prelude.{◌≡◌, ◌<◌, ◌≤◌, ◌==◌, ℕ, true, not, ◌&&◌, length, IfOk, OnOk};
ghost use Rattle.std.specs.List.{list_all};
ghost use Rattle.ba_code.specs.Facts.{Declared, is_array, is_array_info, is_operand, is_var};
ghost use Rattle.ba_code.specs.Meaning.{info_at};
ghost use Rattle.ba_guards.specs.Making.{Checks, Fits, Means, ReadsAll, has_value, word_in};
ghost use Rattle.ba_guards.specs.Parts.{assert_part, beyond_part, binary_part, convert_part, declared, fill_part, load_part, save_part, set_part, unary_part};
ghost use Rattle.ba_numbers.specs.Numbers.{converted, divides};
ghost use Rattle.ba_numbers.specs.Types.{is_promoted};
ghost use Rattle.ba_tree.specs.State.{is_index};
ghost use Rattle.ba_tree.specs.declared.run.Halt.{Halt};

use crate::builder::Builder;
use crate::words::ZERO;
use ba_code::nodes::{ArrayInfo, Operand};
use ba_items::Items;
use ba_numbers::ids::StmtId;
use ba_numbers::numbers::{BinOp, CType, UnOp};
use std::alloc::{AllocError, Global};

/// A variable gets the value of an operand.
pub fn set(b: &mut Builder, to: u32, from: Operand) -> Result<(), AllocError>
    ensures { OnOk result ((d : Declared) → Fits d b.old → (is_var d to && is_operand d from) ≡ true
        → Means d (λ f r. set_part to from) b.old b.new) }
{
    let word = b.operand(from)?;
    b.assign(to, word)?;
    Ok(())
}

/// A variable gets the value of a unary operator.
pub fn unary(b: &mut Builder, to: u32, op: UnOp, t: CType, a: Operand) -> Result<(), AllocError>
    ensures { OnOk result ((d : Declared) → Fits d b.old
        → (is_var d to && is_promoted t && is_operand d a) ≡ true
        → Means d (λ f r. unary_part to op t a) b.old b.new) }
{
    let a = b.operand(a)?;
    let word = b.words.unary(op, t, a)?;
    b.assign(to, word)?;
    Ok(())
}

/// A variable gets the value of an operand, converted to a type.
pub fn convert(b: &mut Builder, to: u32, t: CType, a: Operand) -> Result<(), AllocError>
    ensures { OnOk result ((d : Declared) → Fits d b.old → (is_var d to && is_operand d a) ≡ true
        → Means d (λ f r. convert_part to t a) b.old b.new) }
{
    let a = b.operand(a)?;
    let word = b.words.convert(t, a)?;
    b.assign(to, word)?;
    Ok(())
}

/// A variable gets the value of a binary operator, whose divisor is required to be other than 0.
pub fn binary(
    b: &mut Builder,
    to: u32,
    op: BinOp,
    t: CType,
    left: Operand,
    right: Operand,
    stmt: StmtId,
) -> Result<(), AllocError>
    ensures { OnOk result ((d : Declared) → Fits d b.old
        → (is_var d to && is_promoted t && is_operand d left && is_operand d right) ≡ true
        → Means d (λ f r. binary_part to op t left right stmt) b.old b.new) }
{
    let left = b.operand(left)?;
    let right = b.operand(right)?;
    demand_divisor(b, op, t, right)?;
    let word = b.words.binary(op, t, left, right)?;
    b.assign(to, word)?;
    Ok(())
}

/// Requires the divisor of a division to be other than 0.
fn demand_divisor(b: &mut Builder, op: BinOp, t: CType, divisor: u32) -> Result<(), AllocError>
    ensures { OnOk result ((d : Declared) (halt : Halt) → Fits d b.old
        → divisor < length b.old.words
        → Checks d b.old b.new halt (λ f. has_value op t (word_in b.old.words divisor f))) }
{
    if never_traps(op) {
        return Ok(());
    }
    let converted = b.words.convert(t, divisor)?;
    b.demand(converted)?;
    Ok(())
}

/// Whether an operator has a value for all operands.
fn never_traps(op: BinOp) -> bool
    ensures { result ≡ not (divides op) }
{
    match op {
        BinOp::Div | BinOp::Rem => false,
        _ => true,
    }
}

/// Requires an index to be in an array of `count` elements.
pub fn demand_index(b: &mut Builder, count: u32, index: u32) -> Result<(), AllocError>
    ensures { OnOk result ((d : Declared) (halt : Halt) → Fits d b.old
        → index < length b.old.words → count ≤ 256
        → Checks d b.old b.new halt (λ f. is_index count (word_in b.old.words index f))) }
{
    let limit = b.words.constant(i64::from(count))?;
    let below = b.words.binary(BinOp::Lt, CType::U32, index, limit)?;
    b.demand(below)?;
    Ok(())
}

/// A variable gets an element of an array.
pub fn load(
    b: &mut Builder,
    arrays: &[ArrayInfo],
    to: u32,
    array: u32,
    index: Operand,
    stmt: StmtId,
) -> Result<(), AllocError>
    ensures { OnOk result ((vars : ℕ) → list_all is_array_info arrays.now ≡ true
        → Fits (declared vars arrays.now) b.old
        → (is_var (declared vars arrays.now) to && is_array (declared vars arrays.now) array
        && is_operand (declared vars arrays.now) index) ≡ true
        → Means (declared vars arrays.now) (λ f r. load_part to array index stmt) b.old b.new) }
{
    let index = b.operand(index)?;
    demand_index(b, length_of(arrays, array), index)?;
    let word = b.words.read(b.arrays.at(array), index)?;
    b.assign(to, word)?;
    Ok(())
}

/// An element of an array gets the value of an operand.
pub fn save(
    b: &mut Builder,
    arrays: &[ArrayInfo],
    array: u32,
    index: Operand,
    value: Operand,
    stmt: StmtId,
) -> Result<(), AllocError>
    ensures { OnOk result ((vars : ℕ) → list_all is_array_info arrays.now ≡ true
        → Fits (declared vars arrays.now) b.old
        → (is_array (declared vars arrays.now) array && is_operand (declared vars arrays.now) index
        && is_operand (declared vars arrays.now) value) ≡ true
        → Means (declared vars arrays.now) (λ f r. save_part array index value stmt) b.old b.new) }
{
    let index = b.operand(index)?;
    let value = b.operand(value)?;
    demand_index(b, length_of(arrays, array), index)?;
    let version = b.words.write(b.arrays.at(array), index, value, b.live)?;
    b.arrays.set(array, version);
    Ok(())
}

/// All elements of an array get the values of operands.
pub fn fill(
    alloc: Global,
    b: &mut Builder,
    array: u32,
    values: &[Operand],
) -> Result<(), AllocError>
    ensures { OnOk result ((d : Declared) → Fits d b.old
        → (is_array d array && list_all (is_operand d) values.now
        && (length values.now == (info_at d.arrays array).len)) ≡ true
        → Means d (λ f r. fill_part array values.now) b.old b.new) }
{
    let words = operands(alloc, b, values)?;
    let version = b.words.fill(b.arrays.at(array), words, b.live)?;
    b.arrays.set(array, version);
    Ok(())
}

/// The words of operands.
fn operands(alloc: Global, b: &mut Builder, values: &[Operand]) -> Result<Items<u32>, AllocError>
    ensures { IfOk result (λ words. (d : Declared) → Fits d b.old
        → list_all (is_operand d) values.now ≡ true
        → ReadsAll d b.old b.new words values.now) }
{
    let mut words = Items::new(alloc);
    for value in values {
        let word = b.operand(*value)?;
        words.push(word)?;
    }
    Ok(words)
}

/// Requires the value of an operand to be other than 0.
pub fn assert_nonzero(b: &mut Builder, when: Operand, stmt: StmtId) -> Result<(), AllocError>
    ensures { OnOk result ((d : Declared) → Fits d b.old → is_operand d when ≡ true
        → Means d (λ f r. assert_part when stmt) b.old b.new) }
{
    let word = b.operand(when)?;
    b.demand(word)?;
    Ok(())
}

/// Requires that the run doesn't come here.
pub fn beyond(b: &mut Builder, stmt: StmtId) -> Result<(), AllocError>
    ensures { OnOk result ((d : Declared) → Fits d b.old
        → Means d (λ f r. beyond_part stmt) b.old b.new) }
{
    b.demand(ZERO)?;
    Ok(())
}

/// How many elements an array has.
pub fn length_of(arrays: &[ArrayInfo], array: u32) -> u32
    ensures { result ≡ (info_at arrays.now array).len }
{
    let array = array as usize;
    if array < arrays.len() {
        arrays[array].len
    } else {
        0
    }
}
