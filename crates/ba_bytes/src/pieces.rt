//! The pieces of a text between blanks.

ghost use Rattle.std.specs.Prelude.{◌≡◌, ◌≤◌, ◌∷◌, [], not, length, MatchOption};
ghost use Rattle.std.specs.List.{prefix_len};
ghost use Rattle.ba_bytes.specs.Classes.{is_blank};
ghost use Rattle.ba_bytes.specs.Pieces.{pieces_of};

use crate::classes::is_blank;
use std::marker::Model;

/// The pieces of a text between blanks, read one after the other. A contract sees the list of the pieces not
/// yet read.
#[derive(Drop)]
pub struct Pieces<'a> {
    rest: &'a [u8],
}

impl<'a> Model for Pieces<'a> {
    ghost use Rattle.std.specs.Prelude.{List, ℕ};
    ghost use Rattle.ba_bytes.specs.Pieces.{pieces_of};

    ghost Value = { List (List ℕ) };

    ghost view = { λ pieces. pieces_of pieces.rest.now };
}

impl<'a> Pieces<'a> {
    /// The pieces of this text.
    pub fn new(text: &'a [u8]) -> Pieces<'a>
        ensures { result ≡ pieces_of text.now }
    {
        Pieces { rest: text }
    }

    /// The next piece, or `None` if all are read.
    pub fn next_piece(&mut self) -> Option<&'a [u8]>
        ensures { MatchOption result
            ((self.old ≡ []) × (self.new ≡ []))
            (λ piece. self.old ≡ piece.now ∷ self.new) }
    {
        let (_, text) = self.rest.split_at(blank_count(self.rest));
        let (piece, rest) = text.split_at(piece_length(text));
        self.rest = rest;
        if piece.is_empty() {
            return None;
        }
        Some(piece)
    }
}

/// How many blanks the text begins with.
fn blank_count(text: &[u8]) -> usize
    ensures count { result ≡ prefix_len is_blank text.now }
    ensures within { result ≤ length text.now }
{
    text.iter().take_while(|byte| is_blank(**byte)).count()
}

/// How many bytes are before the first blank.
fn piece_length(text: &[u8]) -> usize
    ensures count { result ≡ prefix_len (λ b. not (is_blank b)) text.now }
    ensures within { result ≤ length text.now }
{
    text.iter().take_while(|byte| !is_blank(**byte)).count()
}
