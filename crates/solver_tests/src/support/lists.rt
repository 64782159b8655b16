//! Word lists of tests, which are lists only if their parts make one.

ghost use Rattle.std.specs.Prelude.{◌≡◌, ◌<◌, ◌==◌, true, length, slice_get, slice_index_or};
ghost use Rattle.std.specs.List.{list_all};
ghost use Rattle.ba_numbers.specs.Types.{is_promoted};
ghost use Rattle.ba_wordlist.specs.Facts.{are_names, are_typed, are_words, fits_behind, is_name, is_place, is_typed, is_word_value, length_of, shows_type};

use ba_items::Items;
use ba_numbers::numbers::CType;
use ba_wordlist::words::{PlaceWords, WordList, WordOp};
use std::alloc::Global;
use std::panic::Expect;
use std::process::Abort;

/// The word list of these parts, which make one.
#[tactic(auto, unfolding(ba_wordlist::specs::Facts::is_word_list))]
pub fn word_list(
    rt: &impl Abort,
    alloc: Global,
    words: Items<WordOp>,
    require: Items<u32>,
    places: Items<PlaceWords>,
) -> WordList {
    let count = words.len();
    assert!(rt; are_words(rt, alloc, words.as_slice()));
    assert!(rt; are_names(count, require.as_slice()));
    assert!(rt; are_places(count, places.as_slice()));
    assert!(rt; are_typed(words.as_slice(), places.as_slice()));
    WordList {
        words,
        require,
        places,
    }
}

/// These entries in a row.
pub fn row<const N: usize>(rt: &impl Abort, alloc: Global, words: [WordOp; N]) -> Vec<WordOp> {
    Vec::from_array(alloc, words).expect(rt, "memory")
}

/// Whether each entry fits after those before it.
pub fn are_words(rt: &impl Abort, alloc: Global, words: &[WordOp]) -> bool
    ensures { result ≡ true → are_words words.now ≡ true }
{
    let mut lengths = Vec::new(alloc);
    for op in words {
        if !fits_behind(lengths.as_slice(), op) {
            return false;
        }
        let length = length_of(lengths.as_slice(), op);
        lengths.push(length).expect(rt, "memory");
    }
    true
}

/// Whether an entry fits after others of these lengths.
fn fits_behind(lengths: &[u32], op: &WordOp) -> bool
    ensures { result ≡ fits_behind lengths.now op.now }
{
    let count = lengths.len();
    match op {
        WordOp::Const(value) => is_word_value(*value),
        WordOp::Free | WordOp::Flag => true,
        WordOp::Unary { t, a, .. } => is_promoted(*t) && is_name(count, *a),
        WordOp::Binary { t, a, b, .. } => {
            is_promoted(*t) && is_name(count, *a) && is_name(count, *b)
        }
        WordOp::Convert { a, .. } => is_name(count, *a),
        WordOp::Select { which, yes, no } => {
            is_name(count, *which) && is_name(count, *yes) && is_name(count, *no)
        }
        WordOp::Read { array, index } => is_name(count, *array) && is_name(count, *index),
        WordOp::Zeros(length) => *length >= 1 && *length <= 256,
        WordOp::Fill { of, values, when } => {
            is_name(count, *of)
                && are_names(count, values.as_slice())
                && values.len() == array_length(lengths, *of) as usize
                && is_name(count, *when)
        }
        WordOp::Write {
            of,
            index,
            value,
            when,
        } => {
            is_name(count, *of)
                && is_name(count, *index)
                && is_name(count, *value)
                && is_name(count, *when)
        }
    }
}

/// How many elements an entry has.
fn length_of(lengths: &[u32], op: &WordOp) -> u32
    ensures { result ≡ length_of lengths.now op.now }
{
    match op {
        WordOp::Zeros(count) => *count,
        WordOp::Fill { of, .. } | WordOp::Write { of, .. } => array_length(lengths, *of),
        WordOp::Const(_)
        | WordOp::Free
        | WordOp::Flag
        | WordOp::Unary { .. }
        | WordOp::Binary { .. }
        | WordOp::Convert { .. }
        | WordOp::Select { .. }
        | WordOp::Read { .. } => 1,
    }
}

/// How many elements an earlier entry has.
fn array_length(lengths: &[u32], array: u32) -> u32
    ensures { result ≡ slice_index_or lengths.now array 1 }
{
    lengths.get(array as usize).copied().unwrap_or(1)
}

/// Whether a number is in the range of `I32` or of `U32`.
fn is_word_value(value: i64) -> bool
    ensures { result ≡ is_word_value value }
{
    (-0x8000_0000..=0x7fff_ffff).contains(&value) || (0..=0xffff_ffff).contains(&value)
}

/// Whether a type is `I32` or `U32`.
fn is_promoted(t: CType) -> bool
    ensures { result ≡ is_promoted t }
{
    matches!(t, CType::I32 | CType::U32)
}

/// Whether a number is that of one of so many entries.
fn is_name(count: usize, number: u32) -> bool
    ensures { result ≡ is_name count number }
{
    (number as usize) < count
}

/// Whether numbers are those of so many entries.
pub fn are_names(count: usize, numbers: &[u32]) -> bool
    ensures { result ≡ are_names count numbers.now }
{
    numbers.iter().all(|number| is_name(count, *number))
}

/// Whether the words of places are among so many entries.
fn are_places(count: usize, places: &[PlaceWords]) -> bool
    ensures { result ≡ list_all (is_place count) places.now }
{
    places.iter().all(|place| is_place(count, place))
}

fn is_place(count: usize, place: &PlaceWords) -> bool
    ensures { result ≡ is_place count place.now }
{
    is_name(count, place.guard)
        && is_name(count, place.keep)
        && are_names(count, place.values.as_slice())
}

/// Whether each value of a place is a word whose type is shown.
fn are_typed(words: &[WordOp], places: &[PlaceWords]) -> bool
    ensures { result ≡ are_typed words.now places.now }
{
    places.iter().all(|place| is_typed(words, place))
}

fn is_typed(words: &[WordOp], place: &PlaceWords) -> bool
    ensures { result ≡ is_typed words.now place.now }
{
    place
        .values
        .as_slice()
        .iter()
        .all(|number| shows_type(words, *number))
}

fn shows_type(words: &[WordOp], number: u32) -> bool
    ensures { result ≡ shows_type (slice_get words.now number) }
{
    match words.get(number as usize) {
        Some(
            WordOp::Const(_)
            | WordOp::Free
            | WordOp::Flag
            | WordOp::Unary { .. }
            | WordOp::Binary { .. }
            | WordOp::Convert { .. },
        ) => true,
        _ => false,
    }
}
