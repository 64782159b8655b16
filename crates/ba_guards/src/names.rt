//! Lists of words by their numbers.

ghost use Rattle.std.specs.Prelude.{◌≡◌, ◌++◌, ◌∷◌, [], ℕ, IfOk, OnOk, drop, length, replicate, slice_index_or, slice_set, take};
ghost use Rattle.ba_guards.specs.Written.{is_among};

use ba_items::Items;
use std::alloc::{AllocError, Global};
use std::marker::Model;

/// Numbers of words, for instance one for each array. A contract sees their list.
#[derive(Drop)]
pub struct Names {
    items: Vec<u32>,
}

impl Model for Names {
    ghost use Rattle.std.specs.Prelude.{List, ℕ};

    ghost Value = { List ℕ };

    ghost view = { λ names. names.items.items };
}

impl Names {
    /// No numbers. It takes no memory.
    pub fn new(alloc: Global) -> Names
        ensures { result ≡ [] }
    {
        Names {
            items: Vec::new(alloc),
        }
    }

    /// `count` times the number 0.
    ///
    /// The only error is out of memory.
    pub fn zeros(alloc: Global, count: usize) -> Result<Names, AllocError>
        ensures { IfOk result (λ names. names ≡ replicate count 0) }
    {
        Ok(Names {
            items: vec![in alloc; 0; count]?,
        })
    }

    /// The entry at this index, and 0 past the end. It takes no memory.
    pub fn at(&self, number: u32) -> u32
        ensures { result ≡ slice_index_or self.now number 0 }
    {
        self.at_index(number as usize)
    }

    /// The entry at this index, and 0 past the end. It takes no memory.
    pub fn at_index(&self, index: usize) -> u32
        ensures { result ≡ slice_index_or self.now index 0 }
    {
        if index < self.items.len() {
            self.items[index]
        } else {
            0
        }
    }

    /// How many entries there are. It takes no memory.
    pub fn len(&self) -> usize
        ensures { result ≡ length self.now }
    {
        self.items.len()
    }

    /// Sets the entry at this index, if there is one. It takes no memory.
    pub fn set(&mut self, number: u32, name: u32)
        ensures { self.new ≡ slice_set self.old number name }
    {
        self.set_index(number as usize, name);
    }

    /// Sets the entry at this index, if there is one. It takes no memory.
    pub fn set_index(&mut self, index: usize, name: u32)
        ensures { self.new ≡ slice_set self.old index name }
    {
        if index < self.items.len() {
            self.items[index] = name;
        }
    }

    /// Adds an entry at the end.
    ///
    /// The only error is out of memory.
    pub fn push(&mut self, name: u32) -> Result<(), AllocError>
        ensures { OnOk result (self.new ≡ self.old ++ name ∷ []) }
    {
        self.items.push(name)?;
        Ok(())
    }

    /// Adds entries at the end.
    ///
    /// The only error is out of memory.
    pub fn append(&mut self, names: &Names) -> Result<(), AllocError>
        ensures { OnOk result (self.new ≡ self.old ++ names.now) }
    {
        self.items.extend_from_slice(names.as_slice())?;
        Ok(())
    }

    /// Keeps the first `count` entries. It takes no memory.
    pub fn truncate(&mut self, count: usize)
        ensures { self.new ≡ take count self.old }
    {
        self.items.truncate(count);
    }

    /// The entries from index `start` on.
    ///
    /// The only error is out of memory.
    pub fn behind(&self, alloc: Global, start: usize) -> Result<Names, AllocError>
        ensures { IfOk result (λ names. names ≡ drop start self.now) }
    {
        Ok(Names {
            items: Vec::from_slice(alloc, behind(self.items.as_slice(), start))?,
        })
    }

    /// The entries from index `start` on, and others, in ascending order and each once.
    ///
    /// The only error is out of memory.
    pub fn since(&self, alloc: Global, start: usize, others: &Names) -> Result<Names, AllocError>
        ensures { IfOk result (λ names. (n : ℕ) →
            is_among n names ≡ is_among n (drop start self.now ++ others.now)) }
    {
        let mut items = Vec::from_slice(alloc, behind(self.items.as_slice(), start))?;
        items.extend_from_slice(others.as_slice())?;
        items.sort_unstable();
        items.dedup();
        Ok(Names { items })
    }

    /// A copy of the entries.
    ///
    /// The only error is out of memory.
    pub fn copied(&self, alloc: Global) -> Result<Names, AllocError>
        ensures { IfOk result (λ names. names ≡ self.now) }
    {
        Ok(Names {
            items: Vec::from_slice(alloc, self.items.as_slice())?,
        })
    }

    /// The entries as a list. It takes no memory.
    pub fn into_items(self) -> Items<u32>
        ensures { result ≡ self }
    {
        Items::from_vec(self.items)
    }

    /// The entries in their order.
    pub fn as_slice(&self) -> &[u32]
        ensures { result.now ≡ self.now }
    {
        self.items.as_slice()
    }
}

/// The entries from index `start` on.
fn behind(names: &[u32], start: usize) -> &[u32]
    ensures { result.now ≡ drop start names.now }
{
    if start <= names.len() {
        &names[start..]
    } else {
        &[]
    }
}
