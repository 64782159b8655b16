//! Arrays of words.

ghost use Rattle.std.specs.Prelude.{◌≡◌, ℕ, ◌<◌, ◌≤◌, Bool, true, List, length, replicate, slice_set, cond, IfOk};
ghost use Rattle.ba_bits.specs.Bits.{AreEntriesOf, HasLowBits, HaveLowBits, SpellZero, firsts_in, numbers_in, value_in, values_in};
ghost use Rattle.ba_cells.specs.Cells.{AreCellsOf};
ghost use Rattle.ba_nodes.specs.Gates.{Extends, IsBitOf, truth};
ghost use Rattle.ba_nodes.specs.declared.Node.{Node};
ghost use Rattle.ba_numbers.specs.Numbers.{low_word};
ghost use Rattle.ba_wordlist.specs.Facts.{are_names};
ghost use Rattle.ba_wordlist.specs.Meaning.{element_read, is_nonzero};
ghost use Rattle.ba_words.specs.Words.{AreBitsOf};

use crate::cells::Cells;
use crate::leaves::constant_word;
use crate::operators::is_set;
use ba_cells::{read_cell, write_cell};
use ba_nodes::{Bit, Nodes};
use ba_words::{Word, select};
use std::alloc::{AllocError, Global};

/// `count` words that are 0.
pub(crate) fn zeros(alloc: Global, count: usize) -> Result<Cells, AllocError>
    requires some { 1 ≤ count }
    requires few { count ≤ 256 }
    ensures cells { IfOk result (λ cells. (nodes : List Node) → AreCellsOf nodes cells) }
    ensures length { IfOk result (λ cells. length cells ≡ count) }
    ensures numbers { IfOk result (λ cells. (nodes : List Node) (free : ℕ → Bool)
        → numbers_in free nodes cells ≡ replicate count 0) }
    ensures zeros { IfOk result SpellZero }
{
    let mut words = Vec::with_capacity(alloc, count)?;
    words.resize(count, constant_word(0))?;
    Ok(Cells::from_vec(words))
}

/// The element of an array at an index.
pub(crate) fn read(nodes: &mut Nodes, array: &[Word], index: &Word) -> Result<Word, AllocError>
    requires some { 0 < length array.now }
    requires few { length array.now ≤ 256 }
    requires cells { AreCellsOf nodes.old array.now }
    requires index { AreBitsOf nodes.old index.now }
    ensures value { IfOk result (λ word. HasLowBits nodes.new word (λ free.
        element_read (values_in free nodes.old array.now) (value_in free nodes.old index.now))) }
    ensures extends { Extends nodes.old nodes.new }
{
    let word = read_cell(nodes, array, index)?;
    Ok(word)
}

/// The array with the first words of these entries for its elements, if `when` is not 0, and else as before.
pub(crate) fn fill(
    alloc: Global,
    nodes: &mut Nodes,
    array: &[Word],
    entries: &[Cells],
    values: &[u32],
    when: &Word,
) -> Result<Cells, AllocError>
    requires entries { AreEntriesOf nodes.old entries.now }
    requires some { 0 < length array.now }
    requires few { length array.now ≤ 256 }
    requires cells { AreCellsOf nodes.old array.now }
    requires when { AreBitsOf nodes.old when.now }
    requires names { are_names (length entries.now) values.now ≡ true }
    requires many { length values.now ≡ length array.now }
    ensures cells { IfOk result (AreCellsOf nodes.new) }
    ensures length { IfOk result (λ cells. length cells ≡ length array.now) }
    ensures numbers { IfOk result (λ cells. HaveLowBits nodes.new cells (λ free.
        cond (is_nonzero (value_in free nodes.old when.now))
        (firsts_in free nodes.old entries.now values.now) (values_in free nodes.old array.now))) }
    ensures extends { Extends nodes.old nodes.new }
{
    let bit = is_set(nodes, when)?;
    let filled = select_all(alloc, nodes, array, entries, values, bit)?;
    Ok(Cells::from_vec(filled))
}

/// The first words of these entries if `which` is true, and else the cells.
fn select_all(
    alloc: Global,
    nodes: &mut Nodes,
    cells: &[Word],
    entries: &[Cells],
    values: &[u32],
    which: Bit,
) -> Result<Vec<Word>, AllocError>
    requires entries { AreEntriesOf nodes.old entries.now }
    requires cells { AreCellsOf nodes.old cells.now }
    requires which { IsBitOf nodes.old which }
    requires names { are_names (length entries.now) values.now ≡ true }
    requires many { length values.now ≡ length cells.now }
    ensures cells { IfOk result (λ words. AreCellsOf nodes.new words.items) }
    ensures length { IfOk result (λ words. length words.items ≡ length cells.now) }
    ensures numbers { IfOk result (λ words. HaveLowBits nodes.new words.items (λ free.
        cond (truth free nodes.old which)
        (firsts_in free nodes.old entries.now values.now) (values_in free nodes.old cells.now))) }
    ensures extends { Extends nodes.old nodes.new }
{
    let mut words = Vec::new(alloc);
    for i in 0..cells.len() {
        let word = select(nodes, which, entries[values[i] as usize].first(), &cells[i])?;
        words.push(word)?;
    }
    Ok(words)
}

/// The array with the value at the index, if `when` is not 0 and the index is in the array, and else as
/// before.
pub(crate) fn write(
    alloc: Global,
    nodes: &mut Nodes,
    array: &[Word],
    index: &Word,
    value: &Word,
    when: &Word,
) -> Result<Cells, AllocError>
    requires some { 0 < length array.now }
    requires few { length array.now ≤ 256 }
    requires cells { AreCellsOf nodes.old array.now }
    requires index { AreBitsOf nodes.old index.now }
    requires value { AreBitsOf nodes.old value.now }
    requires when { AreBitsOf nodes.old when.now }
    ensures cells { IfOk result (AreCellsOf nodes.new) }
    ensures length { IfOk result (λ cells. length cells ≡ length array.now) }
    ensures numbers { IfOk result (λ cells. HaveLowBits nodes.new cells (λ free.
        cond (is_nonzero (value_in free nodes.old when.now))
        (slice_set (values_in free nodes.old array.now)
        (low_word (value_in free nodes.old index.now)) (value_in free nodes.old value.now))
        (values_in free nodes.old array.now))) }
    ensures extends { Extends nodes.old nodes.new }
{
    let bit = is_set(nodes, when)?;
    let written = write_cell(alloc, nodes, array, index, value, bit)?;
    Ok(Cells::from_vec(written))
}
