//! A world whose files may have no end.

use ba_world::{World, WorldError};
use std::alloc::Global;

/// The name of a file, how it begins, and what follows that again and again. A file ends where nothing does.
pub type EndlessFile = (&'static str, &'static str, &'static str);

/// A world of such files, which gives a byte at a time and tells none. A file of another name is empty.
#[derive(Drop)]
pub struct Endless {
    files: &'static [EndlessFile],
    rest: &'static [u8],
    again: &'static [u8],
    is_open: bool,
    is_begun: bool,
    /// How many bytes were given.
    pub given: u64,
    /// How many were given of the file that was opened last.
    pub given_of_last: u64,
    /// All bytes printed.
    pub printed: Vec<u8>,
}

impl Endless {
    /// The world before its first call.
    pub fn new(alloc: Global, files: &'static [EndlessFile]) -> Endless {
        Endless {
            files,
            rest: &[],
            again: &[],
            is_open: false,
            is_begun: false,
            given: 0,
            given_of_last: 0,
            printed: Vec::new(alloc),
        }
    }
}

/// How the file of this name begins, and what follows that again and again.
fn file_of(files: &'static [EndlessFile], name: &str) -> (&'static [u8], &'static [u8]) {
    for (own, front, again) in files {
        if *own == name {
            return (front.as_bytes(), again.as_bytes());
        }
    }
    (&[], &[])
}

/// The next byte of a file of which this is left before it is repeated, and what is left then.
fn next_byte(rest: &'static [u8], again: &'static [u8]) -> Option<(u8, &'static [u8])> {
    let from = if rest.is_empty() { again } else { rest };
    let (byte, behind) = from.split_first()?;
    Some((*byte, behind))
}

impl World for Endless {
    ghost use Rattle.std.specs.Prelude.{None};

    ghost outside = { λ world. record {
      held = λ _. None;
      left = None;
      kept = λ _. None;
      writing = None;
      printed = None;
      is_reading = world.is_open;
      is_writing = world.is_begun;
      read_faults = 0;
      write_faults = 0;
      print_shortages = 0;
      given = world.given;
    } };

    fn open_file(&mut self, name: &str) -> Result<(), WorldError> {
        let (front, again) = file_of(self.files, name);
        self.rest = front;
        self.again = again;
        self.given_of_last = 0;
        self.is_open = true;
        Ok(())
    }

    fn next_piece(&mut self, into: &mut [u8]) -> Result<usize, WorldError> {
        let mut count = 0;
        if let Some((byte, rest)) = next_byte(self.rest, self.again) {
            into[0] = byte;
            self.rest = rest;
            count = 1;
        }
        self.given_of_last = self.given_of_last.saturating_add(count as u64);
        self.given = self.given.saturating_add(count as u64);
        Ok(count)
    }

    fn begin_file(&mut self, _name: &str) -> Result<(), WorldError> {
        self.is_begun = true;
        Ok(())
    }

    fn add(&mut self, _bytes: &[u8]) -> Result<(), WorldError> {
        Ok(())
    }

    fn print(&mut self, bytes: &[u8]) -> Result<(), WorldError> {
        let _ = self.printed.extend_from_slice(bytes);
        Ok(())
    }
}
