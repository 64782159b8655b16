//! Sets of literals that are emptied at once.

ghost use Rattle.std.specs.Prelude.{◌≡◌, ◌++◌, ◌∷◌, [], OnOk, OnErr};
ghost use Rattle.ba_lits.specs.Hints.{has_literal, value_where};
ghost use Rattle.ba_lits.specs.Members.{has_index};

use crate::literal::Lit;
use crate::marks::Marks;
use std::alloc::{AllocError, Global};
use std::marker::Model;

/// A set of literals: its members in the order of their insertion, and marks at their indices. A contract
/// sees the list of the members.
#[derive(Drop)]
pub struct LiteralSet {
    marks: Marks,
    members: Vec<Lit>,
}

impl Model for LiteralSet {
    ghost use Rattle.std.specs.Prelude.{List};
    ghost use Rattle.ba_lits.specs.Literals.{Literal};
    ghost use Rattle.ba_lits.specs.Members.{AreMarks};

    ghost Value = { List Literal };

    ghost view = { λ s. s.members.items };

    ghost invariant = { λ s. AreMarks s.marks s.members.items };
}

impl LiteralSet {
    /// The empty set. It takes no memory.
    pub fn new(alloc: Global) -> LiteralSet
        ensures { result ≡ [] }
    {
        LiteralSet {
            marks: Marks::new(alloc),
            members: Vec::new(alloc),
        }
    }

    /// Whether a literal is a member.
    pub fn contains(&self, lit: Lit) -> bool
        ensures { result ≡ has_literal lit self.now }
    {
        self.marks.contains(lit.index())
    }

    /// Whether the literal of an index is a member.
    pub fn contains_index(&self, index: usize) -> bool
        ensures { result ≡ has_index index self.now }
    {
        self.marks.contains(index)
    }

    /// The value of a literal if the members are false.
    pub fn value(&self, lit: Lit) -> Option<bool>
        ensures { result ≡ value_where self.now lit }
    {
        if self.contains(lit) {
            Some(false)
        } else if self.contains(lit.negated()) {
            Some(true)
        } else {
            None
        }
    }

    /// Makes room for literals with indices below `indices`.
    ///
    /// The only error is out of memory.
    pub fn grow(&mut self, indices: usize) -> Result<(), AllocError>
        ensures { self.new ≡ self.old }
    {
        self.marks.grow(indices)
    }

    /// Adds a literal.
    ///
    /// The only error is out of memory, which leaves the set as it was.
    pub fn insert(&mut self, lit: Lit) -> Result<(), AllocError>
        ensures ok { OnOk result (self.new ≡ self.old ++ lit ∷ []) }
        ensures err { OnErr result (self.new ≡ self.old) }
    {
        let index = lit.index();
        self.marks.grow(index + 1)?;
        self.members.push(lit)?;
        self.marks.mark(index);
        Ok(())
    }

    /// Removes all members.
    pub fn clear(&mut self)
        ensures { self.new ≡ [] }
    {
        self.marks.clear();
        self.members.clear();
    }
}
