//! A map from names to numbers.

ghost use Rattle.std.specs.Prelude.{◌≡◌, ◌&&◌, is_some, true, ℕ, List, None, Some, cond, OnOk, OnErr};
ghost use Rattle.ba_typing.specs.Names.{same_name};
ghost use Rattle.ba_scopes.specs.Storage.{HasNewest, HaveSameNewest, HaveSameNumbers, newest_in, number_in};
ghost use Rattle.ba_typing.specs.declared.meanings.Space.{Space};

use ba_typing::meanings::Space;
use ba_typing::text::Text;
use std::alloc::{AllocError, Global};
use std::collections::HashMap;

/// A map from names to numbers.
#[derive(Drop)]
pub struct NumberMap<'a> {
    numbers: HashMap<&'a [u8], usize>,
}

impl<'a> NumberMap<'a> {
    /// The empty map. It takes no memory.
    pub(crate) fn new(alloc: Global) -> NumberMap<'a>
        ensures { (name : List ℕ) → number_in result name ≡ None }
    {
        NumberMap {
            numbers: HashMap::new(alloc),
        }
    }

    /// The number of a name, `None` if it has none.
    pub(crate) fn get(&self, name: &Text<'a>) -> Option<usize>
        ensures { result ≡ number_in self.now name.now }
    {
        self.numbers.get(&name.as_bytes()).copied()
    }

    /// Gives a name this number. The only error is out of memory, which leaves all as it was.
    pub(crate) fn set(&mut self, name: &Text<'a>, number: usize) -> Result<(), AllocError>
        ensures ok { OnOk result ((other : List ℕ) → number_in self.new other
            ≡ cond (same_name name.now other) (Some number) (number_in self.old other)) }
        ensures err { OnErr result (HaveSameNumbers self.old self.new) }
    {
        self.numbers.insert(name.as_bytes(), number)?;
        Ok(())
    }

    /// Gives a name that has a number this one.
    pub(crate) fn replace(&mut self, name: &Text<'a>, number: usize)
        ensures { (other : List ℕ) → number_in self.new other
            ≡ cond (is_some (number_in self.old name.now) && same_name name.now other)
            (Some number) (number_in self.old other) }
    {
        if let Some(old) = self.numbers.get_mut(&name.as_bytes()) {
            *old = number;
        }
    }

    /// Removes a name.
    pub(crate) fn remove(&mut self, name: &Text<'a>)
        ensures { (other : List ℕ) → number_in self.new other
            ≡ cond (same_name name.now other) None (number_in self.old other) }
    {
        self.numbers.remove(&name.as_bytes());
    }
}

/// For each name space, a map from each name to the number of its newest entry.
#[derive(Drop)]
pub struct Newest<'a> {
    ordinary: NumberMap<'a>,
    tags: NumberMap<'a>,
}

impl<'a> Newest<'a> {
    /// The empty maps. They take no memory.
    pub(crate) fn new(alloc: Global) -> Newest<'a>
        ensures { (within : Space) (name : List ℕ) → newest_in result within name ≡ None }
    {
        Newest {
            ordinary: NumberMap::new(alloc),
            tags: NumberMap::new(alloc),
        }
    }

    /// The number of a name, `None` if it has none.
    pub(crate) fn get(&self, within: Space, name: &Text<'a>) -> Option<usize>
        ensures { result ≡ newest_in self.now within name.now }
    {
        match within {
            Space::Ordinary => self.ordinary.get(name),
            Space::Tags => self.tags.get(name),
        }
    }

    /// Gives a name this number. The only error is out of memory, which leaves all as it was.
    pub(crate) fn set(
        &mut self,
        within: Space,
        name: &Text<'a>,
        number: usize,
    ) -> Result<(), AllocError>
        ensures ok { OnOk result (HasNewest within name.now (Some number) self.old self.new) }
        ensures err { OnErr result (HaveSameNewest self.old self.new) }
    {
        match within {
            Space::Ordinary => self.ordinary.set(name, number),
            Space::Tags => self.tags.set(name, number),
        }
    }

    /// Gives a name that has a number this one.
    pub(crate) fn replace(&mut self, within: Space, name: &Text<'a>, number: usize)
        ensures { is_some (newest_in self.old within name.now) ≡ true →
            HasNewest within name.now (Some number) self.old self.new }
    {
        match within {
            Space::Ordinary => self.ordinary.replace(name, number),
            Space::Tags => self.tags.replace(name, number),
        }
    }

    /// Removes a name.
    pub(crate) fn remove(&mut self, within: Space, name: &Text<'a>)
        ensures { HasNewest within name.now None self.old self.new }
    {
        match within {
            Space::Ordinary => self.ordinary.remove(name),
            Space::Tags => self.tags.remove(name),
        }
    }
}
