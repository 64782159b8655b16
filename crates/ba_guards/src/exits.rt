//! The exits of the blocks around the end of the list.

ghost use Rattle.std.specs.Prelude.{◌≡◌, ◌==◌, cond, ◌++◌, ◌∷◌, [], IfSome, None, OnOk, Some, slice_get, slice_set};
ghost use Rattle.ba_guards.specs.Continuing.{exit_of, labels_of};
ghost use Rattle.ba_guards.specs.declared.exits.Exit.{Exit};

use crate::names::Names;
use crate::variables::Variables;
use std::alloc::{AllocError, Global};
use std::marker::Model;

/// The exit of a block. If `live` isn't 0 the run has left the block, with the variables at `vars`. When the
/// block began the variables were at `base`, and `since` of them had been written. At the exit all are at
/// `base` except for those in `written`.
#[derive(Drop)]
pub struct Exit {
    pub label: u32,
    pub since: usize,
    pub base: Variables,
    pub live: u32,
    pub vars: Variables,
    pub written: Names,
}

/// The exits of blocks, the outermost first. A contract sees their list.
#[derive(Drop)]
pub struct Exits {
    items: Vec<Exit>,
}

impl Model for Exits {
    ghost use Rattle.std.specs.Prelude.{List};
    ghost use Rattle.ba_guards.specs.declared.exits.Exit.{Exit};

    ghost Value = { List Exit };

    ghost view = { λ exits. exits.items.items };
}

impl Exits {
    /// No exits. It takes no memory.
    pub fn new(alloc: Global) -> Exits
        ensures { result ≡ [] }
    {
        Exits {
            items: Vec::new(alloc),
        }
    }

    /// The index of the exit of the innermost block with this label, and 0 for none.
    pub fn position(&self, label: u32) -> usize
        ensures { result ≡ exit_of (labels_of self.now) label }
    {
        position_in(self.items.as_slice(), label)
    }

    /// The exit at this index.
    pub fn get(&self, index: usize) -> Option<&Exit>
        ensures some { IfSome result (λ exit. slice_get self.now index ≡ Some exit.now) }
        ensures none { result ≡ None → slice_get self.now index ≡ None }
    {
        self.items.get(index)
    }

    /// Sets the words of an exit.
    pub fn set(&mut self, index: usize, live: u32, vars: Variables, written: Names)
        ensures { (exit : Exit) → slice_get self.old index ≡ Some exit
            → self.new ≡ slice_set self.old index
            (record exit { live = live; vars = vars; written = written }) }
    {
        if index < self.items.len() {
            let exit = &mut self.items[index];
            exit.live = live;
            exit.vars = vars;
            exit.written = written;
        }
    }

    /// Adds the exit of an inner block.
    ///
    /// The only error is out of memory.
    pub fn push(&mut self, exit: Exit) -> Result<(), AllocError>
        ensures { OnOk result (self.new ≡ self.old ++ exit ∷ []) }
    {
        self.items.push(exit)?;
        Ok(())
    }

    /// Removes the innermost exit.
    pub fn pop(&mut self) -> Option<Exit>
        ensures some { IfSome result (λ exit. self.old ≡ self.new ++ exit ∷ []) }
        ensures none { result ≡ None → self.old ≡ [] }
    {
        self.items.pop()
    }
}

/// The index of the exit of the innermost block with this label, 0 if there is none.
fn position_in(exits: &[Exit], label: u32) -> usize
    ensures { result ≡ exit_of (labels_of exits.now) label }
{
    let mut found = 0;
    for (index, exit) in exits.iter().enumerate() {
        found = later(label, exit.label, index, found);
    }
    found
}

/// The index of an exit if the labels are equal, and else the index found before.
fn later(label: u32, other: u32, index: usize, found: usize) -> usize
    ensures { result ≡ cond (label == other) index found }
{
    if label == other { index } else { found }
}
