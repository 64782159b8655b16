//! The words of bits of one entry.

ghost use Rattle.std.specs.Prelude.{◌≡◌, ◌<◌, ◌≤◌, [], ◌∷◌, length, IfOk};
ghost use Rattle.ba_cells.specs.Cells.{cell_at};

use ba_words::Word;
use std::alloc::{AllocError, Global};
use std::marker::Model;

/// The words of bits of an entry of a word list: one for a word, and one for each of 1 to 256 elements. A
/// contract sees the list of the words.
#[derive(Drop)]
pub struct Cells {
    words: Vec<Word>,
}

impl Model for Cells {
    ghost use Rattle.std.specs.Prelude.{List, ◌<◌, ◌≤◌, length};
    ghost use Rattle.ba_nodes.specs.declared.Bit.{Bit};

    ghost Value = { List (List Bit) };

    ghost view = { λ cells. cells.words.items };

    ghost invariant = { λ cells. (0 < length cells.words.items)
        × (length cells.words.items ≤ 256) };
}

impl Cells {
    /// A single word.
    ///
    /// The only error is out of memory.
    pub fn one(alloc: Global, word: Word) -> Result<Cells, AllocError>
        ensures { IfOk result (λ cells. cells ≡ word ∷ []) }
    {
        let mut words = Vec::with_capacity(alloc, 1)?;
        words.push(word)?;
        Ok(Cells { words })
    }

    /// These words. It takes no memory.
    pub fn from_vec(words: Vec<Word>) -> Cells
        requires some { 0 < length words.items }
        requires few { length words.items ≤ 256 }
        ensures { result ≡ words.items }
    {
        Cells { words }
    }

    /// The words in their order.
    pub fn as_slice(&self) -> &[Word]
        ensures words { result.now ≡ self.now }
        ensures some { 0 < length self.now }
        ensures few { length self.now ≤ 256 }
    {
        self.words.as_slice()
    }

    /// The first word.
    pub fn first(&self) -> &Word
        ensures { result.now ≡ cell_at self.now 0 }
    {
        &self.words[0]
    }
}
