//! The lines of a text.

ghost use Rattle.std.specs.Prelude.{◌≡◌, ◌≤◌, length, take_while, IfOk};
ghost use Rattle.ba_bytes.specs.Classes.{is_blank};
ghost use Rattle.ba_bytes.specs.Lines.{lines_of};
ghost use Rattle.ba_report.specs.Lines.{line_at, trimmed, trimmed_end};

use ba_bytes::classes::{is_blank, is_line_end};
use std::alloc::{AllocError, Global};
use std::marker::Model;

/// The lines of a text, each without its line feed. A contract sees their list.
#[derive(Drop)]
pub struct Lines<'a> {
    lines: Vec<&'a [u8]>,
}

impl<'a> Model for Lines<'a> {
    ghost use Rattle.std.specs.Prelude.{List, ℕ, map};

    ghost Value = { List (List ℕ) };

    ghost view = { λ lines. map (λ line. line.now) lines.lines.items };
}

impl<'a> Lines<'a> {
    /// Cuts the text into its lines, which end with line feeds. What follows the last line feed is a line
    /// too.
    ///
    /// The only error is out of memory.
    pub fn new(alloc: Global, text: &'a [u8]) -> Result<Lines<'a>, AllocError>
        ensures { IfOk result (λ lines. lines ≡ lines_of text.now) }
    {
        let lines = text.split(|byte| is_line_end(*byte)).collect(alloc)?;
        Ok(Lines { lines })
    }

    /// A line, counted from 1; empty if there is no such line.
    pub fn at(&self, number: u32) -> &'a [u8]
        ensures { result.now ≡ line_at self.now number }
    {
        let count = number as usize;
        if 0 < count && count <= self.lines.len() {
            self.lines[count - 1]
        } else {
            &[]
        }
    }
}

/// The line without blanks at its end.
fn trimmed_end(line: &[u8]) -> &[u8]
    ensures { result.now ≡ trimmed_end line.now }
{
    let mut end = line.len();
    while end > 0 && is_blank(line[end - 1]) {
        end -= 1;
    }
    &line[..end]
}

/// How many blanks the line begins with.
fn blanks_before(line: &[u8]) -> usize
    ensures blanks { result ≡ length (take_while is_blank line.now) }
    ensures within { result ≤ length line.now }
{
    line.iter().take_while(|byte| is_blank(**byte)).count()
}

/// The line without blanks at both ends.
pub(crate) fn trimmed(line: &[u8]) -> &[u8]
    ensures { result.now ≡ trimmed line.now }
{
    trimmed_end(&line[blanks_before(line)..])
}
