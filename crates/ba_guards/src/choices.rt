//! Words that can be each choice of an execution that may be relaxed.

ghost use Rattle.std.specs.Prelude.{ℕ, ◌≡◌, true, IfOk, slice_index_or};
ghost use Rattle.std.specs.List.{list_all};
ghost use Rattle.ba_code.specs.Facts.{is_array_info, is_take};
ghost use Rattle.ba_code.specs.Meaning.{info_at};
ghost use Rattle.ba_guards.specs.Making.{Draws, Offered, are_of, are_right};
ghost use Rattle.ba_guards.specs.Parts.{declared};
ghost use Rattle.ba_wordlist.specs.Facts.{are_words};

use crate::steps::length_of;
use crate::words::Words;
use ba_code::nodes::{ArrayInfo, Take};
use ba_items::Items;
use ba_numbers::numbers::CType;
use std::alloc::{AllocError, Global};

/// The words of a choice: it is Keep if `keep` isn't 0; else the words `values` have its values.
#[derive(Drop)]
pub struct Offer {
    pub keep: u32,
    pub values: Items<u32>,
}

/// Words that can be each choice of a statement.
///
/// The only error is out of memory.
#[inline(never)]
pub fn offered(
    alloc: Global,
    arrays: &[ArrayInfo],
    words: &mut Words,
    take: Take,
) -> Result<Offer, AllocError>
    ensures { IfOk result (λ offer. (vars : ℕ) → list_all is_array_info arrays.now ≡ true
        → are_words words.old ≡ true
        → is_take (declared vars arrays.now) take ≡ true
        → Offered (declared vars arrays.now) take words.old words.new offer.keep offer.values) }
{
    let keep = words.flag()?;
    let values = any_values(alloc, arrays, words, take)?;
    Ok(Offer { keep, values })
}

/// Words that can be the values of each choice of a statement other than Keep.
fn any_values(
    alloc: Global,
    arrays: &[ArrayInfo],
    words: &mut Words,
    take: Take,
) -> Result<Items<u32>, AllocError>
    ensures { IfOk result (λ values. (vars : ℕ) → are_words words.old ≡ true
        → Draws words.old words.new values (are_right (declared vars arrays.now) take)) }
{
    match take {
        Take::Value { t, .. } => {
            let value = words.any(t)?;
            Ok(Items::from_slice(alloc, &[value])?)
        }
        Take::Truth { .. } => {
            let value = words.flag()?;
            Ok(Items::from_slice(alloc, &[value])?)
        }
        Take::Cell { array } => {
            let index = words.any(CType::U8)?;
            let value = words.any(type_of(arrays, array))?;
            Ok(Items::from_slice(alloc, &[index, value])?)
        }
        Take::Cells { array } => {
            let values = several(
                alloc,
                words,
                type_of(arrays, array),
                length_of(arrays, array),
            )?;
            Ok(values)
        }
        Take::Nothing => Ok(Items::new(alloc)),
    }
}

/// `count` words that may be any number of a type.
fn several(alloc: Global, words: &mut Words, t: CType, count: u32) -> Result<Items<u32>, AllocError>
    ensures { IfOk result (λ values. are_words words.old ≡ true
        → Draws words.old words.new values (are_of t count)) }
{
    let mut values = Items::new(alloc);
    for _made in 0..count {
        let value = words.any(t)?;
        values.push(value)?;
    }
    Ok(values)
}

/// The type of an array's elements.
fn type_of(arrays: &[ArrayInfo], array: u32) -> CType
    ensures { result ≡ (info_at arrays.now array).t }
{
    let array = array as usize;
    if array < arrays.len() {
        arrays[array].t
    } else {
        CType::I32
    }
}
