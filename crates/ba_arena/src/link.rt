//! A reference to a clause, or none, in one word.

ghost use Rattle.std.specs.Prelude.{◌≡◌, None, Some};

use crate::ClauseRef;
use std::marker::Model;

/// A reference to a clause, or none, in one word, for tables of lists of clauses.
#[derive(Clone, Copy)]
pub struct Link {
    /// 0 for none, and otherwise 1 more than the index of the clause.
    word: u32,
}

impl Model for Link {
    ghost use Rattle.std.specs.Prelude.{ℕ, Option};
    ghost use Rattle.ba_arena.specs.Links.{link_in, word_for, word_for-link_in};
    ghost use Rattle.std.proofs.Common.{ap};

    ghost Value = { Option ℕ };

    ghost view = { λ link. link_in link.word };

    ghost inverse = { λ link. record { word = word_for link } };

    ghost inverse_ok = { λ link h.
        ap (λ word. record { word = word }) (word_for-link_in link.word) };
}

impl Link {
    /// No clause.
    pub fn none() -> Link
        ensures { result ≡ None }
    {
        Link { word: 0 }
    }

    /// A clause.
    pub fn some(clause: ClauseRef) -> Link
        ensures { result ≡ Some clause }
    {
        Link {
            word: clause.index + 1,
        }
    }

    /// The clause, if there is one.
    pub fn get(self) -> Option<ClauseRef>
        ensures { result ≡ self }
    {
        if self.word == 0 {
            None
        } else {
            Some(ClauseRef {
                index: self.word - 1,
            })
        }
    }
}
