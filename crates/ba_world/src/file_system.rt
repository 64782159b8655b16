//! Files that are opened and made by their names.

ghost use Rattle.std.specs.Prelude.{◌≡◌, ℕ, List, Option, IfOk, IfSome};

use std::fs;
use std::io::{self, Read, Write};
use std::rt::Files;

/// Files that are opened and made by their names. Each error is one of the system.
pub trait FileSystem {
    /// A file that is open.
    type File: Read + Write + Drop;

    // The names by which files were opened to be read, and were made, if these are known.
    ghost opened: { Self.File → Option (List ℕ) };

    ghost created: { Self.File → Option (List ℕ) };

    /// Opens the file of this name, to be read from its first byte on.
    fn open_file(&self, name: &str) -> io::Result<Self::File>
        ensures { IfOk result (λ file. IfSome (opened file) (λ known. known ≡ name.now)) };

    /// Makes an empty file of this name, to be written. It replaces a file of that name.
    fn create_file(&self, name: &str) -> io::Result<Self::File>
        ensures { IfOk result (λ file. IfSome (created file) (λ known. known ≡ name.now)) };
}

/// The files of a runtime, which promises nothing of names: none is known.
#[derive(Drop)]
pub struct RuntimeFiles<R: Files + Drop>(pub R);

impl<R: Files + Drop> FileSystem for RuntimeFiles<R> {
    ghost use Rattle.std.specs.Prelude.{None};

    type File = R::File;

    ghost opened = { λ _. None };

    ghost created = { λ _. None };

    fn open_file(&self, name: &str) -> io::Result<R::File> {
        fs::open(&self.0, name)
    }

    fn create_file(&self, name: &str) -> io::Result<R::File> {
        fs::create(&self.0, name)
    }
}
