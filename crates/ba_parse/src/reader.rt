//! Reading tokens from the front.

ghost use Rattle.std.specs.Prelude.{◌≡◌, List, ◌∷◌, []};
ghost use Rattle.ba_trees.specs.Classes.{class_of};
ghost use Rattle.ba_trees.specs.Marks.{leaf};
ghost use Rattle.ba_parse.specs.Readings.{next_is, read_token};
ghost use Rattle.ba_parse.specs.Sets.{classes};
ghost use Rattle.ba_parse.specs.Telling.{Told, next_are, next_is_without};

use crate::sets::TokenSet;
use ba_tokens::token::Token;
use ba_trees::class::class_of;
use std::alloc::{AllocError, AllocFailed};
use std::marker::Model;

/// Why reading stops. The reader is then at the refused token.
#[derive(Clone, Copy, Debug, PartialEq, Eq)]
pub enum Stop {
    /// The token can't follow the tokens before it.
    Syntax,
    /// More than 100 constructs are around the token.
    TooDeep,
    /// Out of memory.
    Memory,
}

impl From<AllocError> for Stop {
    ghost use Rattle.std.specs.Prelude.{◌≡◌};
    ghost use Rattle.ba_parse.specs.declared.reader.Stop.TheVariants.{Memory};

    ghost from_gives = { λ _ stop. stop ≡ Memory };

    fn from(_error: AllocError) -> Stop {
        Stop::Memory
    }
}

impl<T: Drop> From<AllocFailed<T>> for Stop {
    ghost use Rattle.std.specs.Prelude.{◌≡◌};
    ghost use Rattle.ba_parse.specs.declared.reader.Stop.TheVariants.{Memory};

    ghost from_gives = { λ _ stop. stop ≡ Memory };

    fn from(_error: AllocFailed<T>) -> Stop {
        Stop::Memory
    }
}

/// A reader of tokens. A contract sees the tokens that are left.
#[derive(Drop)]
pub struct Reader<'a> {
    rest: &'a [Token],
}

impl<'a> Model for Reader<'a> {
    ghost use Rattle.std.specs.Prelude.{List};
    ghost use Rattle.ba_tokens.specs.declared.token.Token.{Token};

    ghost Value = { List Token };

    ghost view = { λ r. r.rest.now };
}

impl<'a> Reader<'a> {
    /// A reader of these tokens.
    pub fn new(tokens: &'a [Token]) -> Reader<'a>
        ensures { result ≡ tokens.now }
    {
        Reader { rest: tokens }
    }

    /// The tokens that are left.
    pub fn rest(&self) -> &'a [Token]
        ensures { result.now ≡ self.now }
    {
        self.rest
    }

    /// Whether the next token is in the set.
    pub fn next_is(&self, set: TokenSet) -> bool
        ensures { result ≡ next_is (classes set) self.now }
    {
        match self.rest.first() {
            Some(token) => set.contains(class_of(token)),
            None => false,
        }
    }

    /// Whether the next token is in the first set, and the one after it in the second.
    pub fn next_are(&self, first: TokenSet, second: TokenSet) -> bool
        ensures { result ≡ next_are (classes first) (classes second) self.now }
    {
        match self.rest.split_first() {
            Some((token, rest)) => set_holds(first, token) && Reader::new(rest).next_is(second),
            None => false,
        }
    }

    /// Whether the next token is in the first set, and the one after it not in the second.
    pub fn next_is_without(&self, first: TokenSet, second: TokenSet) -> bool
        ensures { result ≡ next_is_without (classes first) (classes second) self.now }
    {
        match self.rest.split_first() {
            Some((token, rest)) => set_holds(first, token) && !Reader::new(rest).next_is(second),
            None => false,
        }
    }

    /// The next token, which has to be in the set.
    pub fn take(&mut self, set: TokenSet) -> Result<Token, Stop>
        ensures { Told (λ token. leaf token ∷ []) result (read_token (classes set) self.old)
            self.new }
    {
        match self.rest {
            [token, rest @ ..] if set.contains(class_of(token)) => {
                self.rest = rest;
                Ok(token.copy()?)
            }
            _ => Err(Stop::Syntax),
        }
    }
}

/// Whether the token is in the set.
fn set_holds(set: TokenSet, token: &Token) -> bool
    ensures { result ≡ classes set (class_of token.now) }
{
    set.contains(class_of(token))
}
