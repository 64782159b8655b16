//! The items of the lists of a line.

ghost use Rattle.std.specs.Prelude.{◌≡◌, ℕ, List, [], Option, decimal, map};
ghost use Rattle.ba_cert.specs.Text.{ended, literal_text};
ghost use Rattle.ba_text.specs.Texts.{spaced};
ghost use Rattle.ba_cert.specs.Reading.{ascends, counted_of, group_of, itself, listed, literal_of, variable_of};
ghost use Rattle.ba_cert.specs.Readers.{Parses};
ghost use Rattle.ba_cert.specs.Writers.{Adds};

use crate::error::CertError;
use crate::numerals::{counted_of, group_of, literal_of, sign_text};
use crate::parts::Parts;
use ba_items::Items;
use ba_lits::Lit;
use ba_text::push_number;
use std::alloc::{AllocError, Global};

/// An item of a list: a literal, the number of a clause, or the number of a group.
pub(crate) trait Entry: Copy + Drop {
    // Its text, as one part.
    ghost spelled: { Self → List ℕ };

    // The item that a part writes, if it writes one.
    ghost reading: { List ℕ → Option Self };

    // The number by which a list ascends.
    ghost number: { Self → ℕ };

    /// Appends the part.
    fn push_text(&self, text: &mut Vec<u8>) -> Result<(), AllocError>
        ensures { Adds result text.old text.new (spelled self.now) };

    /// The item that the part writes, if it writes one.
    fn of_part(part: &[u8]) -> Option<Self>
        ensures { result ≡ reading part.now };

    /// The number by which a list ascends.
    fn number(&self) -> u64
        ensures { result ≡ number self.now };
}

impl Entry for Lit {
    ghost spelled = { literal_text };

    ghost reading = { literal_of };

    ghost number = { variable_of };

    fn push_text(&self, text: &mut Vec<u8>) -> Result<(), AllocError> {
        text.extend_from_slice(sign_text(self.is_negated()))?;
        push_number(self.variable(), text)
    }

    fn of_part(part: &[u8]) -> Option<Lit> {
        literal_of(part)
    }

    fn number(&self) -> u64 {
        self.variable()
    }
}

impl Entry for u64 {
    ghost spelled = { decimal };

    ghost reading = { counted_of };

    ghost number = { itself };

    fn push_text(&self, text: &mut Vec<u8>) -> Result<(), AllocError> {
        push_number(*self, text)
    }

    fn of_part(part: &[u8]) -> Option<u64> {
        counted_of(part)
    }

    fn number(&self) -> u64 {
        *self
    }
}

impl Entry for u32 {
    ghost spelled = { decimal };

    ghost reading = { group_of };

    ghost number = { itself };

    fn push_text(&self, text: &mut Vec<u8>) -> Result<(), AllocError> {
        push_number(u64::from(*self), text)
    }

    fn of_part(part: &[u8]) -> Option<u32> {
        group_of(part)
    }

    fn number(&self) -> u64 {
        u64::from(*self)
    }
}

/// Appends the parts of a list, each after a space, and the part `0`.
pub(crate) fn push_list<T: Entry>(items: &[T], text: &mut Vec<u8>) -> Result<(), AllocError>
    ensures { Adds result text.old text.new (spaced (ended (map T.spelled items.now))) }
{
    for item in items {
        text.extend_from_slice(b" ")?;
        item.push_text(text)?;
    }
    text.extend_from_slice(b" 0")
}

/// Reads a list up to the part `0`, and takes that too.
pub(crate) fn list_at<T: Entry>(alloc: Global, parts: &mut Parts) -> Result<Items<T>, CertError>
    ensures { Parses (λ items. (items, parts.new)) result (listed T.reading [] parts.old) }
{
    let mut items = Items::new(alloc);
    while let Some(part) = parts.next_part() {
        if part == b"0".as_slice() {
            return Ok(items);
        }
        let item = T::of_part(part).ok_or(CertError::BadLine)?;
        items.push(item)?;
    }
    Err(CertError::BadLine)
}

/// Whether the numbers of the items are at least 1 and ascend strictly.
pub(crate) fn ascends<T: Entry>(items: &[T]) -> bool
    ensures { result ≡ ascends T.number 0 items.now }
{
    let mut last = 0;
    for item in items {
        let number = item.number();
        if number <= last {
            return false;
        }
        last = number;
    }
    true
}
