//! Executions as bits.

ghost use Rattle.std.specs.Prelude.{◌≡◌, ◌<◌, true, length, IfOk};
ghost use Rattle.ba_bits.specs.Bits.{AreEntriesOf};
ghost use Rattle.ba_encode.specs.Parts.{ArePlaces, IsPlace, TellsSet, are_long, is_signed, selector_at, values_bits};
ghost use Rattle.ba_nodes.specs.Gates.{Extends};
ghost use Rattle.ba_wordlist.specs.Facts.{are_names, is_place};

use ba_bits::Cells;
use ba_items::Items;
use ba_nodes::{Bit, Nodes};
use ba_numbers::numbers::CType;
use ba_wordlist::words::{PlaceWords, WordList, WordOp};
use ba_words::{Word, nonzero};
use std::alloc::{AllocError, Global};

/// A value as bits: the 32 bits of its word, the lowest first, and whether its type is `I32` or `U32`.
#[derive(Drop)]
pub(crate) struct ValueBits {
    pub(crate) signed: bool,
    pub(crate) bits: Items<Bit>,
}

/// An execution as bits: the selector of its group, if any, whether it takes place, whether it is kept as
/// written, and its values.
#[derive(Drop)]
pub(crate) struct PlaceBits {
    pub(crate) selector: Option<Bit>,
    pub(crate) guard: Bit,
    pub(crate) keep: Bit,
    pub(crate) values: Items<ValueBits>,
}

/// The executions of a list as bits, by the positions of their groups.
pub(crate) fn places_of(
    alloc: Global,
    nodes: &mut Nodes,
    list: &WordList,
    entries: &[Cells],
    groups: &[Option<usize>],
    selectors: &[Bit],
) -> Result<Vec<PlaceBits>, AllocError>
    requires entries { AreEntriesOf nodes.old entries.now }
    requires many { length entries.now ≡ length list.now.words }
    requires grouped { length groups.now ≡ length list.now.places }
    ensures places { IfOk result (λ places. ArePlaces nodes.old list.now.words entries.now
        selectors.now nodes.new list.now.places groups.now places.items) }
    ensures extends { Extends nodes.old nodes.new }
{
    let mut places = Vec::new(alloc);
    let words = list.places.as_slice();
    for i in 0..words.len() {
        let selector = selector_at(selectors, groups[i]);
        let list_words = list.words.as_slice();
        places.push(place_of(alloc, nodes, list_words, entries, &words[i], selector)?)?;
    }
    Ok(places)
}

/// The selector of a group.
fn selector_at(selectors: &[Bit], group: Option<usize>) -> Option<Bit>
    ensures { result ≡ selector_at selectors.now group }
{
    match group {
        None => None,
        Some(group) => selectors.get(group).copied(),
    }
}

/// An execution as bits.
fn place_of(
    alloc: Global,
    nodes: &mut Nodes,
    words: &[WordOp],
    entries: &[Cells],
    place: &PlaceWords,
    selector: Option<Bit>,
) -> Result<PlaceBits, AllocError>
    requires entries { AreEntriesOf nodes.old entries.now }
    requires many { length entries.now ≡ length words.now }
    requires place { is_place (length words.now) place.now ≡ true }
    ensures place { IfOk result
        (IsPlace nodes.old words.now entries.now nodes.new place.now selector) }
    ensures extends { Extends nodes.old nodes.new }
{
    let values = values_of(alloc, words, entries, place.values.as_slice())?;
    let guard = is_set(nodes, entries, place.guard)?;
    let keep = is_set(nodes, entries, place.keep)?;
    Ok(PlaceBits {
        selector,
        guard,
        keep,
        values,
    })
}

/// Whether the word of an entry is other than 0.
pub(crate) fn is_set(nodes: &mut Nodes, entries: &[Cells], number: u32) -> Result<Bit, AllocError>
    requires entries { AreEntriesOf nodes.old entries.now }
    requires name { number < length entries.now }
    ensures bit { IfOk result (TellsSet nodes.old entries.now number nodes.new) }
    ensures extends { Extends nodes.old nodes.new }
{
    nonzero(nodes, entries[number as usize].first())
}

/// The bits of values.
fn values_of(
    alloc: Global,
    words: &[WordOp],
    entries: &[Cells],
    values: &[u32],
) -> Result<Items<ValueBits>, AllocError>
    requires many { length entries.now ≡ length words.now }
    requires names { are_names (length words.now) values.now ≡ true }
    ensures values { IfOk result (λ bits. bits ≡ values_bits words.now entries.now values.now) }
    ensures long { IfOk result (λ bits. are_long bits ≡ true) }
{
    let mut bits = Items::new(alloc);
    for number in values {
        let word = entries[*number as usize].first();
        bits.push(ValueBits {
            signed: is_signed(&words[*number as usize]),
            bits: bits_of_word(alloc, word)?,
        })?;
    }
    Ok(bits)
}

/// The bits of a word as a list.
fn bits_of_word(alloc: Global, word: &Word) -> Result<Items<Bit>, AllocError>
    ensures bits { IfOk result (λ bits. bits ≡ word.now) }
    ensures long { IfOk result (λ bits. length bits ≡ 32) }
{
    Items::from_slice(alloc, word.as_slice())
}

/// Whether the values of a word are numbers of `I32`; else they are numbers of `U32`.
fn is_signed(op: &WordOp) -> bool
    ensures { result ≡ is_signed op.now }
{
    match op {
        WordOp::Const(value) => *value < 0,
        WordOp::Unary { t, .. } | WordOp::Binary { t, .. } | WordOp::Convert { t, .. } => {
            !matches!(*t, CType::U32)
        }
        WordOp::Free
        | WordOp::Flag
        | WordOp::Select { .. }
        | WordOp::Read { .. }
        | WordOp::Zeros(_)
        | WordOp::Fill { .. }
        | WordOp::Write { .. } => true,
    }
}
