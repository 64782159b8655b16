//! Sets of indices that are emptied at once.

ghost use Rattle.std.specs.Prelude.{◌≡◌, ℕ, ◌==◌, ◌||◌, ◌<◌, ◌≤◌, ◌^◌, OnOk, OnErr, false, true, length, get_or, set};

use ba_items::fill_up;
use std::alloc::{AllocError, Global};
use std::marker::Model;

/// A set of indices: those whose stamp is the present one, so that a greater stamp empties the set. A
/// contract sees, for each index with room, whether it is in the set.
#[derive(Drop)]
pub struct Marks {
    stamps: Vec<u32>,
    stamp: u32,
}

impl Model for Marks {
    ghost use Rattle.std.specs.Prelude.{ℕ, ◌≤◌, List, Bool, ◌==◌, map, get_or};

    ghost Value = { List Bool };

    ghost view = { λ m. map (λ stamp. stamp == m.stamp) m.stamps.items };

    ghost invariant = { λ m. (1 ≤ m.stamp)
        × ((place : ℕ) → get_or m.stamps.items place 0 ≤ m.stamp) };
}

impl Marks {
    /// The empty set. It takes no memory.
    pub fn new(alloc: Global) -> Marks
        ensures { (place : ℕ) → get_or result place false ≡ false }
    {
        Marks {
            stamps: Vec::new(alloc),
            stamp: 1,
        }
    }

    /// Removes all indices.
    pub fn clear(&mut self)
        ensures { (place : ℕ) → get_or self.new place false ≡ false }
    {
        if self.stamp == u32::MAX {
            self.stamps.clear();
            self.stamp = 1;
        } else {
            self.stamp += 1;
        }
    }

    /// Whether an index is in the set.
    pub fn contains(&self, place: usize) -> bool
        ensures { result ≡ get_or self.now place false }
    {
        place < self.stamps.len() && self.stamps[place] == self.stamp
    }

    /// Makes room for indices below a number.
    ///
    /// The only error is out of memory.
    pub fn grow(&mut self, places: usize) -> Result<(), AllocError>
        ensures same { (place : ℕ) → get_or self.new place false ≡ get_or self.old place false }
        ensures room { OnOk result (places ≤ length self.new) }
    {
        fill_up(&mut self.stamps, places, 0)
    }

    /// Adds an index with room.
    pub fn mark(&mut self, place: usize)
        requires { place < length self.old }
        ensures { self.new ≡ set self.old place true }
    {
        self.stamps[place] = self.stamp;
    }

    /// Adds an index, and makes room for it.
    ///
    /// The only error is out of memory, which leaves the members as they were.
    pub fn insert(&mut self, place: usize) -> Result<(), AllocError>
        requires { place < 2 ^ 63 }
        ensures ok { OnOk result ((p : ℕ) → get_or self.new p false
            ≡ ((p == place) || get_or self.old p false)) }
        ensures err { OnErr result ((p : ℕ) → get_or self.new p false ≡ get_or self.old p false) }
    {
        self.grow(place + 1)?;
        self.mark(place);
        Ok(())
    }
}
