//! The macros of a text (C90 6.8.3).

ghost use Rattle.std.specs.Prelude.{◌≡◌, ℕ, List, None, [], ◌∷◌, ◌++◌, ◌||◌, length, IfOk, OnOk};
ghost use Rattle.std.specs.Option.{option_copied};
ghost use Rattle.ba_lex.specs.Lines.{body_of, body_from, replacement, is_in_body};
ghost use Rattle.ba_lex.specs.Storage.{HaveNamesOf, is_among, is_mentioned, table_of};
ghost use Rattle.std.specs.Str.{bytes_eq};

use ba_items::Items;
use ba_tokens::token::{Token, TokenKind};
use indexmap::{IndexMap, IndexSet};
use std::alloc::{AllocError, Global};
use std::marker::Model;

/// The macros defined so far, in their order: each name with its body. A contract sees the list of these
/// pairs.
pub struct Macros {
    bodies: IndexMap<Vec<u8>, Items<TokenKind>>,
    /// The names that are in bodies.
    mentioned: IndexSet<Vec<u8>>,
}

impl Drop for Macros {
    fn drop(self) {
        let Macros {
            bodies: _,
            mentioned: _,
        } = self;
    }
}

impl Model for Macros {
    ghost use Rattle.std.specs.Prelude.{List, ℕ};
    ghost use Rattle.ba_tokens.specs.declared.token.TokenKind.{TokenKind};

    ghost Value = { List (List ℕ × List TokenKind) };

    ghost use Rattle.ba_lex.specs.Storage.{table_of, AreMentioned};

    ghost view = { λ macros. table_of macros.bodies.entries };

    ghost invariant = { λ macros. AreMentioned macros.mentioned.keys
        (table_of macros.bodies.entries) };
}

impl Macros {
    /// The table without macros.
    pub fn new(alloc: Global) -> Macros
        ensures { result ≡ [] }
    {
        Macros {
            bodies: IndexMap::new(alloc),
            mentioned: IndexSet::new(alloc),
        }
    }

    /// How many macros there are.
    pub fn len(&self) -> usize
        ensures { result ≡ length self.now }
    {
        self.bodies.len()
    }

    /// The body of the macro of this name, if there is one.
    pub fn body(&self, name: &[u8]) -> Option<&Items<TokenKind>>
        ensures { option_copied result ≡ body_of self.now name.now }
    {
        self.bodies.get(name)
    }

    /// Whether the name is in the body of a macro.
    pub fn is_mentioned(&self, name: &[u8]) -> bool
        ensures { result ≡ is_mentioned name.now self.now }
    {
        self.mentioned.contains(name)
    }

    /// The table with one more macro, whose body is these tokens after replacement.
    ///
    /// The only error is out of memory.
    pub fn with(self, alloc: Global, name: &[u8], tokens: &[Token]) -> Result<Macros, AllocError>
        requires { body_of self name.now ≡ None }
        ensures { IfOk result (λ table. table ≡ self
            ++ (name.now, body_from self tokens.now) ∷ []) }
    {
        let body = body_from(alloc, &self, tokens)?;
        let Macros {
            mut bodies,
            mut mentioned,
        } = self;
        mention_all(alloc, &mut mentioned, &bodies, tokens)?;
        bodies.insert(Vec::from_slice(alloc, name)?, body)?;
        Ok(Macros { bodies, mentioned })
    }
}

/// The tokens that replace a token of this kind.
pub fn replacement<'m>(macros: &'m Macros, kind: &'m TokenKind) -> &'m [TokenKind]
    ensures { result.now ≡ replacement macros.now kind.now }
{
    let body = match kind {
        TokenKind::Name(name) => macros.body(name.as_bytes()),
        _ => None,
    };
    match body {
        Some(body) => body.as_slice(),
        None => std::slice::from_ref(kind),
    }
}

/// Adds a name to the set.
fn mention(alloc: Global, mentioned: &mut IndexSet<Vec<u8>>, name: &[u8]) -> Result<(), AllocError>
    ensures { OnOk result ((other : List ℕ) →
        is_among other mentioned.new.keys
        ≡ (is_among other mentioned.old.keys || bytes_eq other name.now)) }
{
    if !mentioned.contains(name) {
        mentioned.insert(Vec::from_slice(alloc, name)?)?;
    }
    Ok(())
}

/// Adds the name to the set that replaces the token, if a name does. The names in bodies are there already.
fn mention_token(
    alloc: Global,
    mentioned: &mut IndexSet<Vec<u8>>,
    bodies: &IndexMap<Vec<u8>, Items<TokenKind>>,
    token: &Token,
) -> Result<(), AllocError>
    requires { HaveNamesOf mentioned.old.keys (table_of bodies.now.entries) }
    ensures { OnOk result ((name : List ℕ) →
        is_among name mentioned.new.keys
        ≡ (is_among name mentioned.old.keys
        || is_in_body name (replacement (table_of bodies.now.entries) token.now.kind))) }
{
    let TokenKind::Name(name) = &token.kind else {
        return Ok(());
    };
    if bodies.contains_key(name.as_bytes()) {
        return Ok(());
    }
    mention(alloc, mentioned, name.as_bytes())
}

/// Adds the names of these tokens after replacement to the set.
fn mention_all(
    alloc: Global,
    mentioned: &mut IndexSet<Vec<u8>>,
    bodies: &IndexMap<Vec<u8>, Items<TokenKind>>,
    tokens: &[Token],
) -> Result<(), AllocError>
    requires { HaveNamesOf mentioned.old.keys (table_of bodies.now.entries) }
    ensures { OnOk result ((name : List ℕ) →
        is_among name mentioned.new.keys
        ≡ (is_among name mentioned.old.keys
        || is_in_body name (body_from (table_of bodies.now.entries) tokens.now))) }
{
    for token in tokens {
        mention_token(alloc, mentioned, &*bodies, token)?;
    }
    Ok(())
}

/// Appends copies of the tokens.
fn push_kinds(body: &mut Items<TokenKind>, kinds: &[TokenKind]) -> Result<(), AllocError>
    ensures { OnOk result (body.new ≡ body.old ++ kinds.now) }
{
    for kind in kinds {
        body.push(kind.copy()?)?;
    }
    Ok(())
}

/// These tokens after replacement.
///
/// The only error is out of memory.
pub fn body_from(
    alloc: Global,
    macros: &Macros,
    tokens: &[Token],
) -> Result<Items<TokenKind>, AllocError>
    ensures { IfOk result (λ body. body ≡ body_from macros.now tokens.now) }
{
    let mut body = Items::new(alloc);
    for token in tokens {
        push_kinds(&mut body, replacement(&*macros, &token.kind))?;
    }
    Ok(body)
}
