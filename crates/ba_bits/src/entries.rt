//! The bits of all entries of a word list.

ghost use Rattle.std.specs.Prelude.{◌≡◌, ◌<◌, ◌≤◌, true, false, map, length, IfOk};
ghost use Rattle.ba_bits.specs.Bits.{AreEntries, AreEntriesOf, AreOthersZero, CanTake, SpellEntry, SpellZero, word_at, words_at};
ghost use Rattle.ba_cells.specs.Cells.{AreCellsOf};
ghost use Rattle.ba_nodes.specs.Gates.{Extends};
ghost use Rattle.ba_wordlist.specs.Facts.{are_words, fits_behind, is_name, length_of};

use crate::arrays::{fill, read, write, zeros};
use crate::cells::Cells;
use crate::leaves::{free_word, truth_word, word_of};
use crate::operators::{binary, choose, convert, unary};
use ba_nodes::Nodes;
use ba_wordlist::words::WordOp;
use ba_words::Word;
use std::alloc::{AllocError, Global};

/// The bits of the entries of a word list, in order. An entry that isn't needed has words that are 0.
///
/// The only error is out of memory.
pub fn bits_of(
    alloc: Global,
    nodes: &mut Nodes,
    words: &[WordOp],
    needed: &[bool],
) -> Result<Vec<Cells>, AllocError>
    requires words { are_words words.now ≡ true }
    requires marks { length needed.now ≡ length words.now }
    ensures entries { IfOk result (λ entries.
        AreEntries nodes.old words.now needed.now nodes.new entries.items) }
    ensures zeros { IfOk result (λ entries. AreOthersZero needed.now entries.items) }
    ensures extends { Extends nodes.old nodes.new }
{
    let mut entries = Vec::new(alloc);
    for i in 0..words.len() {
        // The nodes are in order.
        let _ = nodes.as_slice();
        let cells = next_entry(alloc, nodes, entries.as_slice(), &words[i], needed[i])?;
        entries.push(cells)?;
    }
    Ok(entries)
}

/// The words of the next entry, which are 0 if it isn't needed.
fn next_entry(
    alloc: Global,
    nodes: &mut Nodes,
    entries: &[Cells],
    op: &WordOp,
    needed: bool,
) -> Result<Cells, AllocError>
    requires fits { fits_behind (map length entries.now) op.now ≡ true }
    requires entries { AreEntriesOf nodes.old entries.now }
    ensures cells { IfOk result (AreCellsOf nodes.new) }
    ensures length { IfOk result
        (λ cells. length cells ≡ length_of (map length entries.now) op.now) }
    ensures spell { IfOk result (λ cells. needed ≡ true
        → SpellEntry nodes.old entries.now op.now nodes.new cells) }
    ensures take { IfOk result (λ cells. needed ≡ true → CanTake nodes.old op.now nodes.new cells) }
    ensures zeros { IfOk result (λ cells. needed ≡ false → SpellZero cells) }
    ensures extends { Extends nodes.old nodes.new }
{
    if needed {
        entry(alloc, nodes, entries, op)
    } else {
        zeros(alloc, words_in(entries, op))
    }
}

/// How many words an entry has.
fn words_in(entries: &[Cells], op: &WordOp) -> usize
    requires { fits_behind (map length entries.now) op.now ≡ true }
    ensures length { result ≡ length_of (map length entries.now) op.now }
    ensures some { 1 ≤ result }
    ensures few { result ≤ 256 }
{
    match op {
        WordOp::Zeros(count) => *count as usize,
        WordOp::Fill { of, .. } | WordOp::Write { of, .. } => entries[*of as usize]
            .as_slice()
            .len(),
        WordOp::Const(_)
        | WordOp::Free
        | WordOp::Flag
        | WordOp::Unary { .. }
        | WordOp::Binary { .. }
        | WordOp::Convert { .. }
        | WordOp::Select { .. }
        | WordOp::Read { .. } => 1,
    }
}

/// The bits of the next entry.
fn entry(
    alloc: Global,
    nodes: &mut Nodes,
    entries: &[Cells],
    op: &WordOp,
) -> Result<Cells, AllocError>
    requires fits { fits_behind (map length entries.now) op.now ≡ true }
    requires entries { AreEntriesOf nodes.old entries.now }
    ensures cells { IfOk result (AreCellsOf nodes.new) }
    ensures length { IfOk result
        (λ cells. length cells ≡ length_of (map length entries.now) op.now) }
    ensures spell { IfOk result (SpellEntry nodes.old entries.now op.now nodes.new) }
    ensures take { IfOk result (CanTake nodes.old op.now nodes.new) }
    ensures extends { Extends nodes.old nodes.new }
{
    match op {
        WordOp::Const(value) => Cells::one(alloc, word_of(*value)),
        WordOp::Free => Cells::one(alloc, free_word(nodes)?),
        WordOp::Flag => Cells::one(alloc, truth_word(nodes.free()?)),
        WordOp::Unary { op, t, a } => {
            let word = unary(nodes, *op, *t, first_word(entries, *a))?;
            Cells::one(alloc, word)
        }
        WordOp::Binary { op, t, a, b } => {
            let first = first_word(entries, *a);
            let word = binary(nodes, *op, *t, first, first_word(entries, *b))?;
            Cells::one(alloc, word)
        }
        WordOp::Convert { t, a } => {
            let word = convert(nodes, *t, first_word(entries, *a));
            Cells::one(alloc, word)
        }
        WordOp::Select { which, yes, no } => {
            let chooser = first_word(entries, *which);
            let first = first_word(entries, *yes);
            let word = choose(nodes, chooser, first, first_word(entries, *no))?;
            Cells::one(alloc, word)
        }
        WordOp::Read { array, index } => {
            let index = first_word(entries, *index);
            let word = read(nodes, all_words(entries, *array), index)?;
            Cells::one(alloc, word)
        }
        WordOp::Zeros(count) => zeros(alloc, *count as usize),
        WordOp::Fill { of, values, when } => {
            let when = first_word(entries, *when);
            let array = all_words(entries, *of);
            fill(alloc, nodes, array, entries, values.as_slice(), when)
        }
        WordOp::Write {
            of,
            index,
            value,
            when,
        } => {
            let index = first_word(entries, *index);
            let value = first_word(entries, *value);
            let when = first_word(entries, *when);
            write(alloc, nodes, all_words(entries, *of), index, value, when)
        }
    }
}

/// The words of the entry of this number.
fn all_words(entries: &[Cells], number: u32) -> &[Word]
    requires { is_name (length entries.now) number ≡ true }
    ensures words { result.now ≡ words_at entries.now number }
    ensures some { 0 < length result.now }
    ensures few { length result.now ≤ 256 }
{
    entries[number as usize].as_slice()
}

/// The first word of the entry of this number.
fn first_word(entries: &[Cells], number: u32) -> &Word
    requires { is_name (length entries.now) number ≡ true }
    ensures { result.now ≡ word_at entries.now number }
{
    entries[number as usize].first()
}
