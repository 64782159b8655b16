//! What names mean: variables, enumeration constants, tags and functions (C90 6.1.2).

ghost use Rattle.std.specs.Prelude.{◌≡◌};
ghost use Rattle.ba_typing.specs.Names.{meaning_of_entity, space_of};

use crate::text::Text;
use ba_items::Items;
use ba_numbers::ids::{FnId, VarId};
use ba_numbers::numbers::CType;
use ba_tree::tree::{Start, Variable};

/// A name space (C90 6.1.2.3). Tags have their own.
#[derive(Clone, Copy, Debug, PartialEq, Eq)]
pub enum Space {
    Ordinary,
    Tags,
}

/// A variable or an array: its number and its type.
#[derive(Clone, Copy, Debug, PartialEq, Eq)]
pub struct Object {
    pub var: VarId,
    pub variable: Variable,
}

/// What a declared name denotes, if it is no function (C90 6.1.2): a variable, an enumeration constant with
/// its value, or a tag.
#[derive(Clone, Copy, Debug, PartialEq, Eq)]
pub enum Entity {
    Variable(Object),
    Constant(i64),
    Tag,
}

/// A name in scope: how many scopes are around its declaration (0 for the file), and what it denotes.
pub struct Entry<'a> {
    pub name: Text<'a>,
    pub depth: u32,
    pub entity: Entity,
}

impl<'a> Drop for Entry<'a> {
    fn drop(self) {
        let Entry {
            name: _,
            depth: _,
            entity: _,
        } = self;
    }
}

impl Entity {
    /// The name space of its name.
    pub fn space(self) -> Space
        ensures { result ≡ space_of self }
    {
        match self {
            Entity::Variable(_) | Entity::Constant(_) => Space::Ordinary,
            Entity::Tag => Space::Tags,
        }
    }

    /// The meaning of the name. A tag means nothing among ordinary names.
    pub fn meaning(self) -> Meaning
        ensures { result ≡ meaning_of_entity self }
    {
        match self {
            Entity::Variable(object) => Meaning::Variable(object),
            Entity::Constant(value) => Meaning::Constant(value),
            Entity::Tag => Meaning::Unknown,
        }
    }
}

impl<'a> Entry<'a> {
    /// Another copy of the entry, which shares the name's bytes.
    pub fn copy(&self) -> Entry<'a>
        ensures { result ≡ self.now }
    {
        Entry {
            name: self.name.copy(),
            depth: self.depth,
            entity: self.entity,
        }
    }
}

/// The type of a parameter: a value's type, or that of an array's elements. `None` is `void`.
#[derive(Clone, Copy, Debug, PartialEq, Eq)]
pub struct ParamType {
    pub t: Option<CType>,
    pub is_array: bool,
}

/// A declaration of a function:
/// - the type that it returns, `None` for `void`
/// - the types of its parameters, `None` if a prototype has empty parentheses
/// - whether it is a definition
/// - how many definitions of functions come before it
pub struct Signature<'a> {
    pub name: Text<'a>,
    pub result: Option<CType>,
    pub params: Option<Items<ParamType>>,
    pub is_definition: bool,
    pub function: FnId,
}

impl<'a> Drop for Signature<'a> {
    fn drop(self) {
        let Signature {
            name: _,
            result: _,
            params: _,
            is_definition: _,
            function: _,
        } = self;
    }
}

/// The labels of a `switch` so far, in the order of the text (C90 6.6.4.2). Each `case` has its value and how
/// many statements of the body are before it. `default` has that number too.
#[derive(Drop)]
pub struct Labels {
    pub starts: Items<Start>,
    pub other: Option<u32>,
}

/// What a name of the ordinary name space means in its scope.
#[derive(Clone, Copy, Debug, PartialEq, Eq)]
pub enum Meaning {
    Unknown,
    Function,
    Variable(Object),
    Constant(i64),
}
