//! The numbers of the clauses of a search.

ghost use Rattle.std.specs.Prelude.{◌≡◌, ◌≢◌, ℕ, ◌<◌, ◌^◌, ◌++◌, ◌∷◌, [], false, OnOk, get_or};
ghost use Rattle.ba_search.specs.Iterations.{MarksOne, Forgets};

use ba_items::fill_up;
use std::alloc::{AllocError, Global};
use std::marker::Model;

/// The numbers of clauses that were taken, and those of learnt clauses in the order of learning, the deleted
/// ones too. The entry at index n is that of the clause before which n were learnt.
#[derive(Drop)]
pub struct ClauseNumbers {
    taken: Vec<bool>,
    learnt: Vec<u64>,
}

impl Model for ClauseNumbers {
    ghost use Rattle.ba_search.specs.Iterations.{Numbering};

    ghost Value = { Numbering };

    ghost view = { λ n. record { taken = n.taken.items; learnt = n.learnt.items } };
}

impl ClauseNumbers {
    /// No numbers. It takes no memory.
    pub fn new(alloc: Global) -> ClauseNumbers
        ensures taken { (number : ℕ) → get_or result.taken number false ≡ false }
        ensures learnt { result.learnt ≡ [] }
    {
        ClauseNumbers {
            taken: Vec::new(alloc),
            learnt: Vec::new(alloc),
        }
    }

    /// Whether a number is that of a clause that was taken.
    pub fn is_taken(&self, number: u64) -> bool
        ensures { result ≡ get_or self.now.taken number false }
    {
        let place = number as usize;
        place < self.taken.len() && self.taken[place]
    }

    /// Marks a number as that of a clause that was taken.
    ///
    /// The only error is out of memory.
    pub fn take(&mut self, number: u64) -> Result<(), AllocError>
        requires { number < 2 ^ 62 }
        ensures marks { OnOk result (MarksOne self.old.taken self.new.taken number) }
        ensures learnt { self.new.learnt ≡ self.old.learnt }
    {
        let place = number as usize;
        fill_up(&mut self.taken, place + 1, false)?;
        self.taken[place] = true;
        Ok(())
    }

    /// Unmarks the numbers. It takes no memory.
    pub fn forget(&mut self, numbers: &[u64])
        ensures forgets { Forgets numbers.now self.old.taken self.new.taken }
        ensures learnt { self.new.learnt ≡ self.old.learnt }
    {
        clear_all(&mut self.taken, numbers);
    }

    /// Adds the number of a clause that was learnt.
    ///
    /// The only error is out of memory.
    pub fn learn(&mut self, number: u64) -> Result<(), AllocError>
        ensures taken { self.new.taken ≡ self.old.taken }
        ensures learnt { OnOk result (self.new.learnt ≡ self.old.learnt ++ number ∷ []) }
    {
        Ok(self.learnt.push(number)?)
    }

    /// The numbers of the learnt clauses, in the order of learning.
    pub fn learnt(&self) -> &[u64]
        ensures { result.now ≡ self.now.learnt }
    {
        self.learnt.as_slice()
    }
}

/// Clears the marks of the numbers.
fn clear_all(taken: &mut Vec<bool>, numbers: &[u64])
    ensures { Forgets numbers.now taken.old.items taken.new.items }
{
    for place in 0..numbers.len() {
        clear(taken, numbers[place]);
    }
}

/// Clears the mark of a number.
fn clear(taken: &mut Vec<bool>, number: u64)
    ensures cleared { get_or taken.new.items number false ≡ false }
    ensures others { (n : ℕ) → n ≢ number → get_or taken.new.items n false
        ≡ get_or taken.old.items n false }
{
    let place = number as usize;
    if place < taken.len() {
        taken[place] = false;
    }
}
