//! The words of all variables, in chunks that copies share.

ghost use Rattle.std.specs.Prelude.{◌≡◌, ◌<◌, ℕ, true, [], ◌∷◌, length, map, replicate, IfOk, OnOk, slice_index_or, slice_set};
ghost use Rattle.std.specs.List.{concat};
ghost use Rattle.std.specs.Rc.{rc_value};
ghost use Rattle.ba_guards.specs.Chunks.{AreChunks};
ghost use Rattle.ba_guards.specs.Making.{Merges, holds_in};
ghost use Rattle.ba_guards.specs.Written.{AgreeBut};
ghost use Rattle.ba_wordlist.specs.Facts.{are_names, are_words};

use crate::names::Names;
use crate::words::Words;
use std::alloc::{AllocError, Global};
use std::marker::Model;
use std::rc::Rc;

/// How many variables have their words in one chunk.
const CHUNK: usize = 128;

/// A word for each variable. A copy shares the chunks of words, and a write copies only its chunk. A contract
/// sees the list of words.
#[derive(Drop)]
pub struct Variables {
    chunks: Vec<Rc<Names>>,
}

impl Model for Variables {
    ghost use Rattle.std.specs.Prelude.{List, ℕ, map};
    ghost use Rattle.std.specs.List.{concat};
    ghost use Rattle.std.specs.Rc.{rc_value};
    ghost use Rattle.ba_guards.specs.Chunks.{AreChunks};

    ghost Value = { List ℕ };

    ghost view = { λ variables. concat (map rc_value variables.chunks.items) };

    ghost invariant = { λ variables. AreChunks 128 (map rc_value variables.chunks.items) };
}

impl Variables {
    /// `count` variables of word 0.
    ///
    /// The only error is out of memory.
    pub fn zeros(alloc: Global, count: usize) -> Result<Variables, AllocError>
        ensures { IfOk result (λ variables. variables ≡ replicate count 0) }
    {
        let mut chunks = full_chunks(alloc, count / CHUNK)?;
        let rest = Names::zeros(alloc, count % CHUNK)?;
        let rest = Rc::new(alloc, rest)?;
        chunks.push(rest)?;
        Ok(Variables { chunks })
    }

    /// The word of a variable, and word 0 if there is none. It takes no memory.
    pub fn at(&self, number: u32) -> u32
        ensures { result ≡ slice_index_or self.now number 0 }
    {
        word_at(self.chunks.as_slice(), number as usize)
    }

    /// Gives a variable another word.
    ///
    /// The only error is out of memory.
    pub fn set(&mut self, number: u32, word: u32) -> Result<(), AllocError>
        ensures { OnOk result (self.new ≡ slice_set self.old number word) }
    {
        let alloc = *self.chunks.allocator();
        set_word(alloc, self.chunks.as_mut_slice(), number as usize, word)?;
        Ok(())
    }

    /// A copy of the words, which shares their chunks.
    ///
    /// The only error is out of memory.
    pub fn copied(&self, alloc: Global) -> Result<Variables, AllocError>
        ensures { IfOk result (λ variables. variables ≡ self.now) }
    {
        Ok(Variables {
            chunks: Vec::from_clones(alloc, self.chunks.as_slice())?,
        })
    }

    /// Gives each of these variables a select: its word in `yes` if `which` isn't 0, and else its own. All
    /// others have the same word in both.
    ///
    /// The only error is out of memory.
    pub fn merge(
        &mut self,
        words: &mut Words,
        which: u32,
        yes: &Variables,
        numbers: &[u32],
    ) -> Result<(), AllocError>
        ensures kept { OnOk result (AgreeBut numbers.now self.old self.new) }
        ensures merges { OnOk result (are_words words.old ≡ true → which < length words.old
            → are_names (length words.old) yes.now ≡ true
            → are_names (length words.old) self.old ≡ true → length yes.now ≡ length self.old
            → AgreeBut numbers.now yes.now self.old
            → Merges words.old words.new (length self.old)
            (holds_in words.old which) yes.now self.old self.new) }
    {
        for number in numbers {
            let word = words.select(which, yes.at(*number), self.at(*number))?;
            self.set(*number, word)?;
        }
        Ok(())
    }

    /// Which of the variables have other words than before.
    ///
    /// The only error is out of memory.
    pub fn changed(
        &self,
        alloc: Global,
        before: &Variables,
        numbers: &[u32],
    ) -> Result<Names, AllocError>
        ensures { IfOk result (λ changed. AgreeBut numbers.now before.now self.now
            → AgreeBut changed before.now self.now) }
    {
        let mut changed = Names::new(alloc);
        for number in numbers {
            if before.at(*number) != self.at(*number) {
                changed.push(*number)?;
            }
        }
        Ok(changed)
    }
}

/// `count` full chunks of word 0, which share their memory.
fn full_chunks(alloc: Global, count: usize) -> Result<Vec<Rc<Names>>, AllocError>
    ensures { IfOk result (λ chunks. map rc_value chunks.items ≡ replicate count (replicate 128 0)) }
{
    let zeros = Names::zeros(alloc, CHUNK)?;
    let zeros = Rc::new(alloc, zeros)?;
    let mut chunks = Vec::new(alloc);
    for _chunk in 0..count {
        let chunk = zeros.clone()?;
        chunks.push(chunk)?;
    }
    Ok(chunks)
}

/// The word at this index of the chunks, and word 0 past the end.
fn word_at(chunks: &[Rc<Names>], number: usize) -> u32
    ensures { AreChunks 128 (map rc_value chunks.now)
        → result ≡ slice_index_or (concat (map rc_value chunks.now)) number 0 }
{
    let index = number / CHUNK;
    if index < chunks.len() {
        chunks[index].at_index(number % CHUNK)
    } else {
        0
    }
}

/// Sets the word at this index of the chunks.
fn set_word(
    alloc: Global,
    chunks: &mut [Rc<Names>],
    number: usize,
    word: u32,
) -> Result<(), AllocError>
    ensures set { OnOk result (AreChunks 128 (map rc_value chunks.old)
        → concat (map rc_value chunks.new)
        ≡ slice_set (concat (map rc_value chunks.old)) number word) }
    ensures shape { AreChunks 128 (map rc_value chunks.old)
        → AreChunks 128 (map rc_value chunks.new) }
{
    let index = number / CHUNK;
    if index < chunks.len() {
        set_in_chunk(alloc, &mut chunks[index], number % CHUNK, word)?;
    }
    Ok(())
}

/// Sets the word at an index of a chunk, which is copied first if it is shared.
fn set_in_chunk(
    alloc: Global,
    chunk: &mut Rc<Names>,
    index: usize,
    word: u32,
) -> Result<(), AllocError>
    ensures set { OnOk result (rc_value chunk.new ≡ slice_set (rc_value chunk.old) index word) }
    ensures length { length (rc_value chunk.new) ≡ length (rc_value chunk.old) }
{
    if let Some(words) = Rc::get_mut(chunk) {
        words.set_index(index, word);
        return Ok(());
    }
    let mut words = chunk.copied(alloc)?;
    words.set_index(index, word);
    *chunk = Rc::new(alloc, words)?;
    Ok(())
}
