//! A word list behind another.

ghost use Rattle.std.specs.Prelude.{◌≡◌, ◌+◌, ◌++◌, [], length, map, IfOk};
ghost use Rattle.ba_wordlist.specs.Joining.{IsJoined, shifted, shifted_op, shifted_place};

use crate::words::{PlaceWords, WordList, WordOp};
use ba_items::Items;
use ba_tree::run::Place;
use std::alloc::{AllocError, Global};

/// The number behind so many others.
///
/// The only error is a number beyond 32 bits.
fn number_behind(by: u32, number: u32) -> Result<u32, AllocError>
    ensures { IfOk result (λ moved. moved ≡ by + number) }
{
    by.checked_add(number).ok_or(AllocError)
}

/// The numbers behind so many others.
///
/// The only error is out of memory.
fn numbers_behind(alloc: Global, by: u32, numbers: &[u32]) -> Result<Items<u32>, AllocError>
    ensures { IfOk result (λ moved. moved ≡ shifted by numbers.now) }
{
    let mut moved = Vec::with_capacity(alloc, numbers.len())?;
    for number in numbers {
        moved.push(number_behind(by, *number)?)?;
    }
    Ok(Items::from_vec(moved))
}

/// An entry behind so many others.
///
/// The only error is out of memory.
fn entry_behind(alloc: Global, by: u32, op: &WordOp) -> Result<WordOp, AllocError>
    ensures { IfOk result (λ moved. moved ≡ shifted_op by op.now) }
{
    Ok(match op {
        WordOp::Const(value) => WordOp::Const(*value),
        WordOp::Free => WordOp::Free,
        WordOp::Flag => WordOp::Flag,
        WordOp::Unary { op, t, a } => WordOp::Unary {
            op: *op,
            t: *t,
            a: number_behind(by, *a)?,
        },
        WordOp::Binary { op, t, a, b } => WordOp::Binary {
            op: *op,
            t: *t,
            a: number_behind(by, *a)?,
            b: number_behind(by, *b)?,
        },
        WordOp::Convert { t, a } => WordOp::Convert {
            t: *t,
            a: number_behind(by, *a)?,
        },
        WordOp::Select { which, yes, no } => WordOp::Select {
            which: number_behind(by, *which)?,
            yes: number_behind(by, *yes)?,
            no: number_behind(by, *no)?,
        },
        WordOp::Read { array, index } => WordOp::Read {
            array: number_behind(by, *array)?,
            index: number_behind(by, *index)?,
        },
        WordOp::Zeros(count) => WordOp::Zeros(*count),
        WordOp::Fill { of, values, when } => WordOp::Fill {
            of: number_behind(by, *of)?,
            values: numbers_behind(alloc, by, values.as_slice())?,
            when: number_behind(by, *when)?,
        },
        WordOp::Write {
            of,
            index,
            value,
            when,
        } => WordOp::Write {
            of: number_behind(by, *of)?,
            index: number_behind(by, *index)?,
            value: number_behind(by, *value)?,
            when: number_behind(by, *when)?,
        },
    })
}

/// The words of a place behind so many others.
///
/// The only error is out of memory.
fn place_behind(alloc: Global, by: u32, words: &PlaceWords) -> Result<PlaceWords, AllocError>
    ensures { IfOk result (λ moved. moved ≡ shifted_place by words.now) }
{
    let path = Items::from_slice(alloc, words.place.path.as_slice())?;
    let values = numbers_behind(alloc, by, words.values.as_slice())?;
    Ok(PlaceWords {
        place: Place {
            path,
            stmt: words.place.stmt,
        },
        guard: number_behind(by, words.guard)?,
        keep: number_behind(by, words.keep)?,
        values,
    })
}

/// How many entries there are.
///
/// The only error is a number beyond 32 bits.
fn count_of(words: &[WordOp]) -> Result<u32, AllocError>
    ensures { IfOk result (λ count. count ≡ length words.now) }
{
    if words.len() > u32::MAX as usize {
        return Err(AllocError);
    }
    Ok(words.len() as u32)
}

/// Entries, and behind them others, which named each other from 0 on.
///
/// The only error is out of memory.
fn words_joined(
    alloc: Global,
    by: u32,
    words: Items<WordOp>,
    others: &[WordOp],
) -> Result<Items<WordOp>, AllocError>
    ensures { IfOk result (λ joined. joined ≡ words ++ map (shifted_op by) others.now) }
{
    let mut words = words;
    for op in others {
        words.push(entry_behind(alloc, by, op)?)?;
    }
    Ok(words)
}

/// Required words, and behind them those of a list that stands behind so many entries.
///
/// The only error is out of memory.
fn requirements_joined(
    by: u32,
    require: Items<u32>,
    others: &[u32],
) -> Result<Items<u32>, AllocError>
    ensures { IfOk result (λ joined. joined ≡ require ++ shifted by others.now) }
{
    let mut require = require;
    for word in others {
        require.push(number_behind(by, *word)?)?;
    }
    Ok(require)
}

/// Places, and behind them those of a list that stands behind so many entries.
///
/// The only error is out of memory.
fn places_joined(
    alloc: Global,
    by: u32,
    places: Items<PlaceWords>,
    others: &[PlaceWords],
) -> Result<Items<PlaceWords>, AllocError>
    ensures { IfOk result (λ joined. joined ≡ places ++ map (shifted_place by) others.now) }
{
    let mut places = places;
    for words in others {
        places.push(place_behind(alloc, by, words)?)?;
    }
    Ok(places)
}

/// A list, and another one behind it. The other one's entries, requirements and places come behind those of
/// the list. Each number in them is greater by how many entries the list has.
///
/// So it means both (`laws`). An assignment of it is one of each. Its requirements hold where those of both
/// do. Its visits are those of the list and then those of the other one.
///
/// The only error is out of memory, also for more than 2^32 - 1 words.
pub fn append(alloc: Global, list: WordList, other: WordList) -> Result<WordList, AllocError>
    ensures { IfOk result (IsJoined list other) }
{
    let by = count_of(list.words.as_slice())?;
    let (words, require, places) = list.into_parts();
    Ok(WordList {
        words: words_joined(alloc, by, words, other.words.as_slice())?,
        require: requirements_joined(by, require, other.require.as_slice())?,
        places: places_joined(alloc, by, places, other.places.as_slice())?,
    })
}

/// The list without words. Its requirements hold, and it has no visits. It takes no memory.
pub fn empty_list(alloc: Global) -> WordList
    ensures words { result.words ≡ [] }
    ensures require { result.require ≡ [] }
    ensures places { result.places ≡ [] }
{
    WordList {
        words: Items::new(alloc),
        require: Items::new(alloc),
        places: Items::new(alloc),
    }
}
