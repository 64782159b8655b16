//! The meanings of the names in scope (C90 6.1.2.1).

ghost use Rattle.std.specs.Prelude.{◌≡◌, ℕ, List, ◌+◌, ◌-◌, ◌==◌, ◌&&◌, not, cond, is_some, IfOk, false, ◌∷◌, [], ◌++◌, None, Some, option_map, length, map, flat_map, take, drop, OnOk, OnErr};
ghost use Rattle.std.specs.List.{list_any};
ghost use Rattle.ba_typing.specs.Expressions.{called};
ghost use Rattle.ba_typing.specs.Files.{count_functions, var_in, vars_of};
ghost use Rattle.ba_scopes.specs.Storage.{AreListed, HaveSameNumbers, number_in};
ghost use Rattle.ba_typing.specs.declared.meanings.Entry.{Entry};
ghost use Rattle.ba_typing.specs.declared.meanings.Signature.{Signature};
ghost use Rattle.ba_scopes.specs.declared.scopes.Stored.{Stored};
ghost use Rattle.ba_typing.specs.Names.{fresh_scope};
ghost use Rattle.ba_scopes.specs.Marks.{back_to, mark_of};
ghost use Rattle.ba_typing.specs.Names.{definition_in, inner, is_declared_here, is_declared_in, is_named, is_tag_known, knowing, last_entry, meaning_of, same_name};

use crate::number_maps::{Newest, NumberMap};
use ba_items::Items;
use ba_numbers::ids::VarId;
use ba_numbers::numbers::CType;
use ba_typing::meanings::{Entity, Entry, Meaning, Signature, Space};
use ba_typing::names::Exits;
use ba_typing::text::Text;
use std::alloc::{AllocError, Global};
use std::marker::Model;

/// An entry in scope, and the number of the entry of its name and name space that it hides.
#[derive(Drop)]
pub struct Stored<'a> {
    entry: Entry<'a>,
    hidden: Option<usize>,
}

/// The variables, enumeration constants and tags in scope, in the order of their declarations. A name is
/// found by the map of its name space.
pub struct Declared<'a> {
    stored: Vec<Stored<'a>>,
    newest: Newest<'a>,
}

impl<'a> Drop for Declared<'a> {
    fn drop(self) {
        let Declared {
            stored: _,
            newest: _,
        } = self;
    }
}

impl<'a> Model for Declared<'a> {
    ghost use Rattle.std.specs.Prelude.{List};
    ghost use Rattle.ba_scopes.specs.Storage.{AreStored, entries_of};
    ghost use Rattle.ba_typing.specs.declared.meanings.Entry.{Entry};

    ghost Value = { List Entry };

    ghost view = { λ variables. entries_of variables.stored.items };

    ghost invariant = { λ variables. AreStored variables.stored.items variables.newest };
}

impl<'a> Declared<'a> {
    /// Nothing is declared. It takes no memory.
    pub fn new(alloc: Global) -> Declared<'a>
        ensures { result ≡ [] }
    {
        Declared {
            stored: Vec::new(alloc),
            newest: Newest::new(alloc),
        }
    }

    /// How many entries are in scope.
    pub fn len(&self) -> usize
        ensures { result ≡ length self.now }
    {
        self.stored.len()
    }

    /// Adds an entry. The only error is out of memory, which leaves all as it was.
    pub fn push(&mut self, entry: Entry<'a>) -> Result<(), AllocError>
        ensures ok { OnOk result (self.new ≡ self.old ++ entry.entry ∷ []) }
        ensures err { OnErr result (self.new ≡ self.old) }
    {
        let name = entry.name.copy();
        let within = entry.entity.space();
        let hidden = self.newest.get(within, &name);
        let number = self.stored.len();
        self.stored.push(Stored { entry, hidden })?;
        if self.newest.set(within, &name, number).is_err() {
            self.stored.truncate(number);
            return Err(AllocError);
        }
        Ok(())
    }

    /// The numbers of the variables after the first `count` entries. The only error is out of memory.
    fn vars_behind(&self, alloc: Global, count: usize) -> Result<Items<VarId>, AllocError>
        ensures { IfOk result (λ vars. vars ≡ vars_of (drop count self.now)) }
    {
        let vars = numbers_from(alloc, self.stored.as_slice(), count)?;
        Ok(Items::from_vec(vars))
    }

    /// Keeps the first `count` entries alone.
    pub fn truncate(&mut self, count: usize)
        ensures { self.new ≡ take count self.old }
    {
        while count < self.stored.len() {
            self.pop();
        }
    }

    /// Removes the last entry.
    fn pop(&mut self)
        ensures { self.new ≡ take (length self.old - 1) self.old }
    {
        let Some(last) = self.stored.pop() else {
            return;
        };
        match last.hidden {
            Some(number) => self
                .newest
                .replace(last.entry.entity.space(), &last.entry.name, number),
            None => self
                .newest
                .remove(last.entry.entity.space(), &last.entry.name),
        }
    }

    /// The newest entry of this name in a name space, `None` if there is none.
    pub fn find(&self, within: Space, name: &Text<'a>) -> Option<Entry<'a>>
        ensures { result ≡ last_entry within name.now self.now None }
    {
        let number = self.newest.get(within, name)?;
        let stored = self.stored.get(number)?;
        Some(stored.entry.copy())
    }

    /// Whether an entry of this name in a name space is declared at this depth of scopes.
    fn is_declared_at(&self, within: Space, name: &Text<'a>, depth: u32) -> bool
        ensures { result
            ≡ list_any (λ (e : Entry). is_named within name.now e && (e.depth == depth)) self.now }
    {
        let mut next = self.newest.get(within, name);
        while let Some(number) = next {
            let Some(stored) = self.stored.get(number) else {
                return false;
            };
            if stored.entry.depth == depth {
                return true;
            }
            next = stored.hidden;
        }
        false
    }
}

/// The numbers of the variables among these entries from an index on. The only error is out of memory.
fn numbers_from<'a>(
    alloc: Global,
    stored: &[Stored<'a>],
    number: usize,
) -> Result<Vec<VarId>, AllocError>
    ensures { IfOk result (λ vars. vars.items
        ≡ flat_map (λ (s : Stored). var_in s.entry.entity) (drop number stored.now)) }
{
    let mut vars = Vec::new(alloc);
    for i in number..stored.len() {
        add_number(&mut vars, stored[i].entry.entity)?;
    }
    Ok(vars)
}

/// Appends the number of a variable; nothing for a constant or a tag. The only error is out of memory.
fn add_number(vars: &mut Vec<VarId>, entity: Entity) -> Result<(), AllocError>
    ensures { OnOk result (vars.new.items ≡ vars.old.items ++ var_in entity) }
{
    if let Entity::Variable(object) = entity {
        vars.push(object.var)?;
    }
    Ok(())
}

/// The declarations of functions in a file, in their order, and how many functions they declare. A name is
/// found by maps.
pub struct Functions<'a> {
    declarations: Vec<Signature<'a>>,
    names: NumberMap<'a>,
    definitions: NumberMap<'a>,
    count: u32,
}

impl<'a> Drop for Functions<'a> {
    fn drop(self) {
        let Functions {
            declarations: _,
            names: _,
            definitions: _,
            count: _,
        } = self;
    }
}

impl<'a> Model for Functions<'a> {
    ghost use Rattle.std.specs.Prelude.{List};
    ghost use Rattle.ba_scopes.specs.Storage.{AreCounted};
    ghost use Rattle.ba_typing.specs.declared.meanings.Signature.{Signature};

    ghost Value = { List Signature };

    ghost view = { λ functions. functions.declarations.items };

    ghost invariant = { λ functions.
        AreCounted functions.declarations.items functions.names functions.definitions
        functions.count };
}

impl<'a> Functions<'a> {
    /// No functions. It takes no memory.
    pub fn new(alloc: Global) -> Functions<'a>
        ensures { result ≡ [] }
    {
        Functions {
            declarations: Vec::new(alloc),
            names: NumberMap::new(alloc),
            definitions: NumberMap::new(alloc),
            count: 0,
        }
    }

    /// All declarations.
    pub fn as_slice(&self) -> &[Signature<'a>]
        ensures { result.now ≡ self.now }
    {
        self.declarations.as_slice()
    }

    /// How many functions are declared, each counted once.
    pub fn count(&self) -> u32
        ensures { result ≡ count_functions self.now }
    {
        self.count
    }

    /// Adds a declaration. The only error is out of memory, also if the numbers run out; all is then as it
    /// was.
    pub fn push(&mut self, signature: Signature<'a>) -> Result<(), AllocError>
        ensures ok { OnOk result (self.new ≡ self.old ++ signature.entry ∷ []) }
        ensures err { OnErr result (self.new ≡ self.old) }
    {
        let name = signature.name.copy();
        let is_definition = signature.is_definition;
        let number = self.declarations.len();
        let is_declared = self.names.get(&name).is_some();
        let count = count_behind(self.count, is_declared)?;
        self.declarations.push(signature)?;
        let listed = list(
            &mut self.names,
            &mut self.definitions,
            &name,
            is_definition,
            number,
        );
        if listed.is_err() {
            self.declarations.truncate(number);
            return Err(AllocError);
        }
        self.count = count;
        Ok(())
    }

    /// Whether a function of this name is declared.
    pub fn is_declared(&self, name: &Text<'a>) -> bool
        ensures { result ≡ is_declared_in self.now name.now }
    {
        self.names.get(name).is_some()
    }

    /// The first definition of a function of this name, `None` if there is none.
    pub fn definition(&self, name: &Text<'a>) -> Option<&Signature<'a>>
        ensures { option_map (λ s. s.now) result ≡ definition_in self.now name.now }
    {
        let number = self.definitions.get(name)?;
        let signature = self.declarations.get(number)?;
        Some(signature)
    }
}

/// How many functions are declared after one more declaration, of a new function or of one that is declared.
/// The only error is out of memory, also if the numbers run out.
fn count_behind(count: u32, is_declared: bool) -> Result<u32, AllocError>
    ensures { IfOk result (λ more. more ≡ count + cond is_declared 0 1) }
{
    if is_declared {
        return Ok(count);
    }
    match count.checked_add(1) {
        Some(more) => Ok(more),
        None => Err(AllocError),
    }
}

/// Enters the declaration of this number into the maps. The only error is out of memory, which leaves all as
/// it was.
fn list<'a>(
    names: &mut NumberMap<'a>,
    definitions: &mut NumberMap<'a>,
    name: &Text<'a>,
    is_definition: bool,
    number: usize,
) -> Result<(), AllocError>
    ensures ok { OnOk result ((ds : List Signature) (s : Signature) → s.name ≡ name.now →
        s.is_definition ≡ is_definition → number ≡ length ds →
        AreListed ds names.old definitions.old →
        AreListed (ds ++ s ∷ []) names.new definitions.new) }
    ensures err { OnErr result ((ds : List Signature) → AreListed ds names.old definitions.old →
        AreListed ds names.new definitions.new) }
{
    let is_first = define(definitions, name, is_definition, number)?;
    if names.set(name, number).is_err() {
        undefine(definitions, name, is_first);
        return Err(AllocError);
    }
    Ok(())
}

/// Enters a definition, and tells whether it is the first one of its name. The only error is out of memory,
/// which leaves all as it was.
fn define<'a>(
    definitions: &mut NumberMap<'a>,
    name: &Text<'a>,
    is_definition: bool,
    number: usize,
) -> Result<bool, AllocError>
    ensures first { IfOk result (λ is_first.
        is_first ≡ (is_definition && not (is_some (number_in definitions.old name.now)))) }
    ensures ok { IfOk result (λ is_first. (other : List ℕ) → number_in definitions.new other
        ≡ cond (is_first && same_name name.now other)
        (Some number) (number_in definitions.old other)) }
    ensures err { OnErr result (HaveSameNumbers definitions.old definitions.new) }
{
    let is_first = is_definition && definitions.get(name).is_none();
    if !is_first {
        return Ok(false);
    }
    definitions.set(name, number)?;
    Ok(true)
}

/// Removes a definition that was the first one of its name.
fn undefine<'a>(definitions: &mut NumberMap<'a>, name: &Text<'a>, is_first: bool)
    ensures { (other : List ℕ) → number_in definitions.new other
        ≡ cond (is_first && same_name name.now other) None (number_in definitions.old other) }
{
    if is_first {
        definitions.remove(name);
    }
}

/// What is known around an expression or a statement:
/// - the functions of the file
/// - the entries in scope
/// - how many scopes are inside the file's; those of parameters and of a function's block are one
/// - which jumps are accepted
/// - the type of the function around, `None` for `void`
pub struct Scope<'a> {
    functions: Functions<'a>,
    known: Declared<'a>,
    depth: u32,
    exits: Exits,
    result: Option<CType>,
}

impl<'a> Drop for Scope<'a> {
    fn drop(self) {
        let Scope {
            functions: _,
            known: _,
            depth: _,
            exits: _,
            result: _,
        } = self;
    }
}

/// What the end of a scope restores: how many entries are in scope, the depth of scopes, the accepted jumps,
/// and the function's type.
#[derive(Clone, Copy, Debug, PartialEq, Eq)]
pub struct Mark {
    count: usize,
    depth: u32,
    exits: Exits,
    result: Option<CType>,
}

impl<'a> Model for Scope<'a> {
    ghost use Rattle.ba_typing.specs.Names.{Scope as ScopeHere};

    ghost Value = { ScopeHere };

    ghost view = { λ scope. record {
      functions = scope.functions;
      known = scope.known;
      depth = scope.depth;
      exits = scope.exits;
      result = scope.result;
    } };
}

impl<'a> Scope<'a> {
    /// The scope of a file with these functions, before its first variable. It takes no memory.
    pub fn of_file(alloc: Global, functions: Functions<'a>) -> Scope<'a>
        ensures { result ≡ fresh_scope functions.entry }
    {
        Scope {
            functions,
            known: Declared::new(alloc),
            depth: 0,
            exits: Exits {
                breaks: false,
                continues: false,
            },
            result: None,
        }
    }

    /// How many scopes are inside the file's.
    pub fn depth(&self) -> u32
        ensures { result ≡ self.now.depth }
    {
        self.depth
    }

    /// Which jumps are accepted.
    pub fn exits(&self) -> Exits
        ensures { result ≡ self.now.exits }
    {
        self.exits
    }

    /// The type of the function around, `None` for `void`.
    pub fn result(&self) -> Option<CType>
        ensures { result ≡ self.now.result }
    {
        self.result
    }

    /// How many entries are in scope.
    pub fn count(&self) -> usize
        ensures { result ≡ length self.now.known }
    {
        self.known.len()
    }

    /// The numbers of the variables in scope after the first `count` entries. The only error is out of
    /// memory.
    pub fn vars_behind(&self, alloc: Global, count: usize) -> Result<Items<VarId>, AllocError>
        ensures { IfOk result (λ vars. vars ≡ vars_of (drop count self.now.known)) }
    {
        self.known.vars_behind(alloc, count)
    }

    /// Adds an entry to the scope. The only error is out of memory, which leaves all as it was.
    pub fn declare(&mut self, entry: Entry<'a>) -> Result<(), AllocError>
        ensures ok { OnOk result (self.new ≡ knowing (entry.entry ∷ []) self.old) }
        ensures err { OnErr result (self.new ≡ self.old) }
    {
        self.known.push(entry)
    }

    /// Begins a scope. The only error is out of memory, also if the numbers run out; all is then as it was.
    pub fn enter(&mut self) -> Result<(), AllocError>
        ensures ok { OnOk result (self.new ≡ inner self.old) }
        ensures err { OnErr result (self.new ≡ self.old) }
    {
        let Some(depth) = self.depth.checked_add(1) else {
            return Err(AllocError);
        };
        self.depth = depth;
        Ok(())
    }

    /// What the end of a scope has to restore.
    pub fn mark(&self) -> Mark
        ensures { result ≡ mark_of self.now }
    {
        Mark {
            count: self.known.len(),
            depth: self.depth,
            exits: self.exits,
            result: self.result,
        }
    }

    /// Ends a scope: what it declared is no longer known, and the rest is as at the mark.
    pub fn back_to(&mut self, mark: Mark)
        ensures { self.new ≡ back_to mark self.old }
    {
        self.known.truncate(mark.count);
        self.depth = mark.depth;
        self.exits = mark.exits;
        self.result = mark.result;
    }

    /// Accepts these jumps from now on.
    pub fn set_exits(&mut self, exits: Exits)
        ensures { self.new ≡ record self.old { exits = exits } }
    {
        self.exits = exits;
    }

    /// Sets the type of the function around.
    pub fn set_result(&mut self, result_type: Option<CType>)
        ensures { self.new ≡ record self.old { result = result_type } }
    {
        self.result = result_type;
    }

    /// Whether a name of a name space is declared in the innermost scope.
    pub fn is_declared_here(&self, within: Space, name: &Text<'a>) -> bool
        ensures { result ≡ is_declared_here within self.now name.now }
    {
        self.known.is_declared_at(within, name, self.depth)
    }

    /// Whether a tag is declared in this scope or one around it.
    pub fn is_tag_known(&self, tag: &Text<'a>) -> bool
        ensures { result ≡ is_tag_known self.now tag.now }
    {
        self.known.find(Space::Tags, tag).is_some()
    }

    /// The meaning of a name here.
    pub fn meaning_of(&self, name: &Text<'a>) -> Meaning
        ensures { result ≡ meaning_of self.now name.now }
    {
        match self.known.find(Space::Ordinary, name) {
            Some(entry) => entry.entity.meaning(),
            None => {
                if self.functions.is_declared(name) {
                    Meaning::Function
                } else {
                    Meaning::Unknown
                }
            }
        }
    }

    /// The definition that a called name means; `None` if there is none, or a variable or a constant hides
    /// it.
    pub fn called(&self, name: &Text<'a>) -> Option<&Signature<'a>>
        ensures { option_map (λ s. s.now) result ≡ called self.now name.now }
    {
        match self.meaning_of(name) {
            Meaning::Function => self.functions.definition(name),
            Meaning::Unknown | Meaning::Variable(_) | Meaning::Constant(_) => None,
        }
    }
}
