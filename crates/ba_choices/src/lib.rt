//! The choices of a run: how each execution of a relaxed statement goes.
#![tactic(auto)]

ghost use Rattle.std.specs.Prelude.{◌≡◌, ◌++◌, ◌∷◌, [], OnOk, OnErr, IfOk};

use ba_items::TryClone;
use smallvec::SmallVec;
use std::alloc::{AllocError, Global};
use std::marker::Model;

/// The values of a choice. Most choices have one or two, which are stored without an allocation.
#[derive(Debug, Drop)]
pub struct Values {
    items: SmallVec<i64, 2>,
}

impl Model for Values {
    ghost use Rattle.std.specs.Prelude.{List, ℤ};

    ghost Value = { List ℤ };

    ghost view = { λ values. values.items.items };
}

impl Values {
    /// No value. It takes no memory.
    pub fn new(alloc: Global) -> Values
        ensures { result ≡ [] }
    {
        Values {
            items: SmallVec::new(alloc),
        }
    }

    /// Adds a value at the end.
    ///
    /// The only error is out of memory, which leaves the values as they were.
    pub fn push(&mut self, value: i64) -> Result<(), AllocError>
        ensures ok { OnOk result (self.new ≡ self.old ++ value ∷ []) }
        ensures err { OnErr result (self.new ≡ self.old) }
    {
        self.items.push(value)?;
        Ok(())
    }

    /// The values in their order.
    pub fn as_slice(&self) -> &[i64]
        ensures { result.now ≡ self.now }
    {
        self.items.as_slice()
    }
}

/// How an execution of a relaxed statement goes.
#[derive(Debug, Drop)]
pub enum Choice {
    /// As written.
    Keep,
    /// Nothing of the statement is evaluated, and these values replace its result.
    Take(Values),
}

impl TryClone for Values {
    fn try_clone(&self, alloc: Global) -> Result<Values, AllocError> {
        let mut clone = Values::new(alloc);
        for value in self.items.as_slice() {
            clone.push(*value)?;
        }
        Ok(clone)
    }
}

impl TryClone for Choice {
    fn try_clone(&self, alloc: Global) -> Result<Choice, AllocError> {
        match self {
            Choice::Keep => Ok(Choice::Keep),
            Choice::Take(values) => Ok(Choice::Take(values.try_clone(alloc)?)),
        }
    }
}
