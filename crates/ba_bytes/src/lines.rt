//! The lines of a text.

ghost use Rattle.std.specs.Prelude.{◌≡◌, ◌<◌, ◌∷◌, [], length, option_map, position, IfSome, MatchOption};
ghost use Rattle.ba_bytes.specs.Classes.{is_line_end};
ghost use Rattle.ba_bytes.specs.Lines.{lines_left, lines_of};

use crate::classes::is_line_end;
use std::marker::Model;

/// The lines of a text, read one after the other, each without the line feed that ends it. What follows the
/// last line feed is a line too. A contract sees the list of the lines not yet read.
#[derive(Drop)]
pub struct Lines<'a> {
    rest: Option<&'a [u8]>,
}

impl<'a> Model for Lines<'a> {
    ghost use Rattle.std.specs.Prelude.{List, ℕ, option_map};
    ghost use Rattle.ba_bytes.specs.Lines.{lines_left};

    ghost Value = { List (List ℕ) };

    ghost view = { λ lines. lines_left (option_map (λ rest. rest.now) lines.rest) };
}

impl<'a> Lines<'a> {
    /// The lines of this text.
    pub fn new(text: &'a [u8]) -> Lines<'a>
        ensures { result ≡ lines_of text.now }
    {
        Lines { rest: Some(text) }
    }

    /// The next line without its line feed, or `None` if all are read.
    pub fn next_line(&mut self) -> Option<&'a [u8]>
        ensures { MatchOption result ((self.old ≡ []) × (self.new ≡ []))
            (λ line. self.old ≡ line.now ∷ self.new) }
    {
        let text = self.rest?;
        let (line, rest) = parted(text);
        self.rest = rest;
        Some(line)
    }
}

/// The first line of a text, and what follows its line feed if it has one.
fn parted(text: &[u8]) -> (&[u8], Option<&[u8]>)
    ensures { lines_of text.now
        ≡ result.0.now ∷ lines_left (option_map (λ rest. rest.now) result.1) }
{
    match feed_in(text) {
        Some(place) => (&text[..place], Some(&text[place + 1..])),
        None => (text, None),
    }
}

/// The index of the first line feed, if there is one.
pub fn feed_in(text: &[u8]) -> Option<usize>
    ensures place { result ≡ position is_line_end text.now }
    ensures within { IfSome result (λ place. place < length text.now) }
{
    text.iter().position(|byte| is_line_end(*byte))
}
