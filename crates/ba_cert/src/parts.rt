//! The parts of a line.

ghost use Rattle.std.specs.Prelude.{◌≡◌, ◌<◌, ◌∷◌, [], length, position, IfSome};
ghost use Rattle.std.specs.Option.{option_map_or};
ghost use Rattle.ba_cert.specs.Reading.{has_more, is_space, letter_at, letter_of, parts_of};
ghost use Rattle.ba_cert.specs.Readers.{Parses};

use crate::error::CertError;
use std::marker::Model;

/// The parts of a line between single spaces, read one after the other. A contract sees the list of the parts
/// not yet read.
#[derive(Drop)]
pub(crate) struct Parts<'a> {
    rest: Option<&'a [u8]>,
}

impl<'a> Model for Parts<'a> {
    ghost use Rattle.std.specs.Prelude.{List, ℕ, []};
    ghost use Rattle.std.specs.Option.{option_map_or};
    ghost use Rattle.ba_cert.specs.Reading.{parts_of};

    ghost Value = { List (List ℕ) };

    ghost view = { λ parts. option_map_or (λ rest. parts_of rest.now) parts.rest [] };
}

impl<'a> Parts<'a> {
    /// The parts of this line.
    pub(crate) fn new(line: &'a [u8]) -> Parts<'a>
        ensures { result ≡ parts_of line.now }
    {
        Parts { rest: Some(line) }
    }

    /// The next part, or `None` if all are read.
    pub(crate) fn next_part(&mut self) -> Option<&'a [u8]>
        ensures { self.old ≡ option_map_or (λ part. part.now ∷ self.new) result [] }
    {
        let line = self.rest?;
        let (part, rest) = cut(line);
        *self = rest;
        Some(part)
    }
}

/// The index of the first space.
fn space_in(line: &[u8]) -> Option<usize>
    ensures place { result ≡ position is_space line.now }
    ensures within { IfSome result (λ place. place < length line.now) }
{
    line.iter().position(|byte| *byte == b' ')
}

/// The first part of a line, and those after it.
fn cut(line: &[u8]) -> (&[u8], Parts<'_>)
    ensures { parts_of line.now ≡ result.0.now ∷ result.1 }
{
    match space_in(line) {
        Some(place) => (&line[..place], Parts::new(&line[place + 1..])),
        None => (line, Parts { rest: None }),
    }
}

/// Whether a part is left.
pub(crate) fn has_more(parts: &mut Parts) -> bool
    ensures { result ≡ has_more parts.old }
{
    parts.next_part().is_some()
}

/// The only byte of a part that is one byte long.
fn letter_of(part: &[u8]) -> Option<u8>
    ensures { result ≡ letter_of part.now }
{
    match part {
        [letter] => Some(*letter),
        _ => None,
    }
}

/// Reads a part that is one byte.
pub(crate) fn letter_at(parts: &mut Parts) -> Result<u8, CertError>
    ensures { Parses (λ letter. (letter, parts.new)) result (letter_at parts.old) }
{
    let part = parts.next_part().ok_or(CertError::BadLine)?;
    letter_of(part).ok_or(CertError::BadLine)
}
