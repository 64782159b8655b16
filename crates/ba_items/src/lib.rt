//! Lists that contracts see as lists of their items.
//!
//! A field that Rust would write as `Vec<T>` is an [`Items<T>`] if contracts compare its struct. A contract
//! sees the items, but neither the capacity nor the place in memory.
#![tactic(auto)]

ghost use Rattle.std.specs.Prelude.{◌≡◌, ◌==◌, ◌≤◌, ℕ, [], ◌∷◌, ◌++◌, length, take, get_or, IfOk, OnOk, OnErr};

use std::alloc::{AllocError, Global};
use std::marker::Model;

/// A list of values in their order. A contract sees the list of its items and nothing else.
#[derive(Debug, Drop)]
pub struct Items<T> {
    items: Vec<T>,
}

impl<T> Model for Items<T> {
    ghost use Rattle.std.specs.Prelude.{List};

    ghost Value = { List T };

    ghost view = { λ list. list.items.items };
}

impl<T> Items<T> {
    /// The list without items. It takes no memory.
    pub fn new(alloc: Global) -> Items<T>
        ensures { result ≡ [] }
    {
        Items {
            items: Vec::new(alloc),
        }
    }

    /// The list of the vector's items. It takes no memory.
    pub fn from_vec(items: Vec<T>) -> Items<T>
        ensures { result ≡ items.items }
    {
        Items { items }
    }

    /// Gives the items back as a vector. It takes no memory.
    pub fn into_vec(self) -> Vec<T>
        ensures { result.items ≡ self }
    {
        self.items
    }

    /// The items in their order.
    pub fn as_slice(&self) -> &[T]
        ensures { result.now ≡ self.now }
    {
        self.items.as_slice()
    }

    /// How many items there are.
    pub fn len(&self) -> usize
        ensures { result ≡ length self.now }
    {
        self.items.len()
    }

    /// Whether there is no item.
    pub fn is_empty(&self) -> bool
        ensures { result ≡ (length self.now == 0) }
    {
        self.items.is_empty()
    }
}

impl<T: Drop> Items<T> {
    /// Adds an item at the end.
    ///
    /// The only error is out of memory, which leaves the list as it was.
    pub fn push(&mut self, item: T) -> Result<(), AllocError>
        ensures ok { OnOk result (self.new ≡ self.old ++ item ∷ []) }
        ensures err { OnErr result (self.new ≡ self.old) }
    {
        self.items.push(item)?;
        Ok(())
    }
}

/// Copies that no contract can tell from the original. Making one may run out of memory.
///
/// The trait is for types that own memory and so are not `Copy`. A list of such values has it too.
pub trait TryClone: Drop {
    /// Another copy of the value. The only error is out of memory.
    fn try_clone(&self, alloc: Global) -> Result<Self, AllocError>
        ensures { IfOk result (λ clone. clone ≡ self.now) };
}

impl<T: TryClone> TryClone for Items<T> {
    fn try_clone(&self, alloc: Global) -> Result<Items<T>, AllocError> {
        let mut clones = Vec::with_capacity(alloc, self.len())?;
        for item in self.as_slice() {
            clones.push(item.try_clone(alloc)?)?;
        }
        Ok(Items { items: clones })
    }
}

impl<T: Copy> Items<T> {
    /// The list of the slice's items.
    ///
    /// The only error is out of memory.
    pub fn from_slice(alloc: Global, items: &[T]) -> Result<Items<T>, AllocError>
        ensures { IfOk result (λ list. list ≡ items.now) }
    {
        Ok(Items {
            items: Vec::from_slice(alloc, items)?,
        })
    }
}

/// Grows a vector to at least `count` items, each new one `filler`. A longer vector stays as it is.
///
/// The only error is out of memory, which leaves the vector as it was.
pub fn fill_up<T: Copy>(items: &mut Vec<T>, count: usize, filler: T) -> Result<(), AllocError>
    ensures room { OnOk result (count ≤ length items.new.items) }
    ensures same { (k : ℕ) → get_or items.new.items k filler ≡ get_or items.old.items k filler }
    ensures front { take (length items.old.items) items.new.items ≡ items.old.items }
    ensures err { OnErr result (items.new.items ≡ items.old.items) }
{
    if items.len() < count {
        items.resize(count, filler)?;
    }
    Ok(())
}
