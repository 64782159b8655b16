//! A world in memory, for tests.

ghost use Rattle.std.specs.Prelude.{◌≡◌, ◌≢◌, ◌==◌, ℕ, ◌+◌, ◌^◌, ◌<◌, ◌≤◌, min, true, Some, [], ◌++◌, length, take, drop, map, slice_index_or, AllPairs, option_copied, IfOk, OnOk, OnErr, MatchOption, IsSome};
ghost use Rattle.std.specs.String.{string_bytes};
ghost use Rattle.std.specs.List.{list_any};
ghost use Rattle.ba_world.specs.World.{raised};
ghost use Rattle.ba_world.specs.Memory.{File, held_file, new_memory, file_of, name_at, held_in, with_file, added_to, outside_of, NamesDiffer, called, print_short, after_open, after_next, after_begin, after_add, after_print};

use crate::world::{World, WorldError, raise};
use std::alloc::{AllocError, Global};
use std::marker::Model;

/// A file of a [`MemoryWorld`].
#[derive(Debug)]
struct MemoryFile {
    name: String,
    bytes: Vec<u8>,
    begun: bool,
}

impl Drop for MemoryFile {
    fn drop(self) {
        let MemoryFile {
            name: _,
            bytes: _,
            begun: _,
        } = self;
    }
}

impl Model for MemoryFile {
    ghost use Rattle.std.specs.String.{string_bytes};
    ghost use Rattle.ba_world.specs.Memory.{File};

    ghost Value = { File };

    ghost view = { λ file. record {
      name = string_bytes file.name;
      bytes = file.bytes.items;
      begun = file.begun;
    } };
}

impl MemoryFile {
    /// A file of this name with these bytes. `begun` says whether a call began it.
    fn new(name: String, bytes: Vec<u8>, begun: bool) -> MemoryFile
        ensures { result ≡ record { name = string_bytes name; bytes = bytes.items; begun = begun } }
    {
        MemoryFile { name, bytes, begun }
    }

    /// The name.
    fn name(&self) -> &str
        ensures { result.now ≡ self.now.name }
    {
        self.name.as_str()
    }

    /// The bytes.
    fn bytes(&self) -> &[u8]
        ensures { result.now ≡ self.now.bytes }
    {
        self.bytes.as_slice()
    }

    /// The bytes from this offset on; none past the end.
    fn bytes_from(&self, offset: usize) -> &[u8]
        ensures bytes { result.now ≡ drop offset self.now.bytes }
        ensures end { offset + length result.now < 2 ^ 64 }
    {
        self.bytes().get(offset..).unwrap_or(&[])
    }

    /// Removes all bytes, and marks the file as begun.
    fn clear(&mut self)
        ensures { self.new ≡ record { name = self.old.name; bytes = []; begun = true } }
    {
        self.bytes.clear();
        self.begun = true;
    }

    /// Appends these bytes. The only error is out of memory, which leaves the file as it was.
    fn append(&mut self, bytes: &[u8]) -> Result<(), AllocError>
        ensures ok { OnOk result (self.new
            ≡ record self.old { bytes = self.old.bytes ++ bytes.now }) }
        ensures err { OnErr result (self.new ≡ self.old) }
    {
        self.bytes.extend_from_slice(bytes)
    }
}

/// Files that are held from the start.
fn held_files(alloc: Global, files: Vec<(String, Vec<u8>)>) -> Result<Vec<MemoryFile>, AllocError>
    ensures { IfOk result (λ held. held.items
        ≡ map (λ file. held_file (string_bytes file.0) file.1.items) files.items) }
{
    files
        .into_iter()
        .map(|(name, bytes)| MemoryFile::new(name, bytes, false))
        .collect(alloc)
}

/// The index of the file of this name.
fn file_index(files: &[MemoryFile], name: &str) -> Option<usize>
    ensures { MatchOption result (file_of files.now name.now ≡ None)
        (λ place. (place < length files.now)
        × ((file : File) → (slice_index_or files.now place file).name ≡ name.now)) }
{
    for (place, file) in files.iter().enumerate() {
        if file.name() == name {
            return Some(place);
        }
    }
    None
}

/// Makes an empty file of this name, and gives its index. It replaces a file of that name.
fn begin(files: &mut Vec<MemoryFile>, name: &str) -> Result<usize, AllocError>
    requires { NamesDiffer files.old.items }
    ensures made { OnOk result (files.new.items
        ≡ with_file (record { name = name.now; bytes = []; begun = true }) files.old.items) }
    ensures place { IfOk result (λ place.
        (place < length files.new.items) × (name_at files.new.items place ≡ name.now)) }
    ensures err { OnErr result (files.new.items ≡ files.old.items) }
    ensures differ { NamesDiffer files.new.items }
    ensures grows { length files.old.items ≤ length files.new.items }
    ensures names_stay { (place : ℕ) → place < length files.old.items
        → name_at files.new.items place ≡ name_at files.old.items place }
{
    if let Some(place) = file_index(files.as_slice(), name) {
        files[place].clear();
        return Ok(place);
    }
    let alloc = *files.allocator();
    let file = MemoryFile::new(String::from_str(alloc, name)?, Vec::new(alloc), true);
    files.push(file)?;
    Ok(files.len() - 1)
}

/// Appends the bytes to the file at this index.
fn append_to(files: &mut Vec<MemoryFile>, place: usize, bytes: &[u8]) -> Result<(), AllocError>
    requires differ { NamesDiffer files.old.items }
    requires within { place < length files.old.items }
    ensures ok { OnOk result (files.new.items
        ≡ added_to (Some (name_at files.old.items place)) bytes.now files.old.items) }
    ensures err { OnErr result (files.new.items ≡ files.old.items) }
    ensures names_stay { (other : ℕ) → name_at files.new.items other
        ≡ name_at files.old.items other }
    ensures differ { NamesDiffer files.new.items }
    ensures len { length files.new.items ≡ length files.old.items }
{
    files[place].append(bytes)?;
    Ok(())
}

/// Copies as many bytes of the front of `from` as there are, as fit into `into`, and at most `most`.
fn copy_front(from: &[u8], into: &mut [u8], most: usize) -> usize
    ensures count { result ≡ length (take (min most (length into.old)) from.now) }
    ensures within { result ≤ length from.now }
    ensures copied { into.new ≡ take (min most (length into.old)) from.now ++ drop result into.old }
{
    let count = most.min(into.len()).min(from.len());
    into[..count].copy_from_slice(&from[..count]);
    count
}

/// Counts a call, and tells whether it is one that fails.
fn count_call(calls: &mut u64, fails: &[u64]) -> bool
    ensures counted { calls.new ≡ raised calls.old 1 }
    ensures fails { result ≡ list_any (λ number. number == calls.old) fails.now }
{
    let fails_now = fails.contains(calls);
    raise(calls, 1);
    fails_now
}

/// The file that is being read, by its index in the list, and how many of its bytes were given.
#[derive(Clone, Copy, Debug)]
struct ReadPosition {
    file: usize,
    offset: usize,
}

/// A world in memory, for tests, in which chosen calls fail. It tells everything.
///
/// A file that was begun is held as it is kept, and what is kept is told of these files alone. Reading goes
/// on at the same byte if the file is begun or added to meanwhile.
#[derive(Debug)]
pub struct MemoryWorld {
    files: Vec<MemoryFile>,
    reading: Option<ReadPosition>,
    writing: Option<usize>,
    printed: Vec<u8>,
    fails: Vec<u64>,
    piece: usize,
    calls: u64,
    read_faults: u64,
    write_faults: u64,
    print_shortages: u64,
    given: u64,
}

impl Drop for MemoryWorld {
    fn drop(self) {
        let MemoryWorld {
            files: _,
            reading: _,
            writing: _,
            printed: _,
            fails: _,
            piece: _,
            calls: _,
            read_faults: _,
            write_faults: _,
            print_shortages: _,
            given: _,
        } = self;
    }
}

impl Model for MemoryWorld {
    ghost use Rattle.std.specs.Prelude.{option_map};
    ghost use Rattle.ba_world.specs.Memory.{Memory, IsSound, name_at};

    ghost Value = { Memory };

    ghost view = { λ world. record {
      files = world.files.items;
      reading = option_map
          (λ reading. record {
            name = name_at world.files.items reading.file;
            offset = reading.offset;
          })
          world.reading;
      writing = option_map (name_at world.files.items) world.writing;
      printed = world.printed.items;
      fails = world.fails.items;
      piece = world.piece;
      calls = world.calls;
      read_faults = world.read_faults;
      write_faults = world.write_faults;
      print_shortages = world.print_shortages;
      given = world.given;
    } };

    ghost invariant = { λ world.
        IsSound world.files.items
        (option_map (λ reading. reading.file) world.reading) world.writing world.piece };
}

impl MemoryWorld {
    /// A world with these files, whose names differ. It gives at most `piece` bytes at a time, at least 1.
    ///
    /// Its calls of [`World`] are numbered from 0, and those whose number is in `fails` fail. Such a call
    /// only gives up the file being read or begun. A failing `add` or `print` takes the first half of its
    /// bytes, rounded down. Only these calls count as faults: to open a file that isn't held also answers
    /// `Failed`. The only error is out of memory.
    pub fn new(
        alloc: Global,
        files: Vec<(String, Vec<u8>)>,
        fails: Vec<u64>,
        piece: usize,
    ) -> Result<MemoryWorld, AllocError>
        requires names { AllPairs (λ one other. string_bytes one.0
            ≢ string_bytes other.0) files.items }
        requires piece { 0 < piece }
        ensures { IfOk result (λ world. world ≡ new_memory
            (map (λ file. held_file (string_bytes file.0) file.1.items) files.items)
            fails.items piece) }
    {
        Ok(MemoryWorld {
            files: held_files(alloc, files)?,
            reading: None,
            writing: None,
            printed: Vec::new(alloc),
            fails,
            piece,
            calls: 0,
            read_faults: 0,
            write_faults: 0,
            print_shortages: 0,
            given: 0,
        })
    }

    /// The bytes held under a name, or `None` exactly if no such file is held. It takes no memory.
    pub fn file(&self, name: &str) -> Option<&[u8]>
        ensures { Some (option_copied result) ≡ held_in self.now.files name.now }
    {
        let place = file_index(self.files.as_slice(), name)?;
        Some(self.files[place].bytes())
    }

    /// All bytes printed. It takes no memory.
    pub fn printed(&self) -> &[u8]
        ensures { result.now ≡ self.now.printed }
    {
        self.printed.as_slice()
    }
}

impl World for MemoryWorld {
    ghost outside = { outside_of };

    fn open_file(&mut self, name: &str) -> Result<(), WorldError>
        ensures exactly { (result, self.new) ≡ after_open name.now self.old }
        ensures no_fall { self.old.read_faults ≤ self.new.read_faults }
    {
        self.reading = None;
        if count_call(&mut self.calls, self.fails.as_slice()) {
            raise(&mut self.read_faults, 1);
            return Err(WorldError::Failed);
        }
        match file_index(self.files.as_slice(), name) {
            None => Err(WorldError::Failed),
            Some(file) => {
                self.reading = Some(ReadPosition { file, offset: 0 });
                Ok(())
            }
        }
    }

    fn next_piece(&mut self, into: &mut [u8]) -> Result<usize, WorldError>
        requires room { 0 < length into.old }
        requires reading { IsSome self.old.reading }
        ensures exactly { (result, into.new, self.new) ≡ after_next into.old self.old }
        ensures piece { 0 < self.old.piece }
        ensures no_fall { self.old.read_faults ≤ self.new.read_faults }
    {
        if count_call(&mut self.calls, self.fails.as_slice()) {
            raise(&mut self.read_faults, 1);
            return Err(WorldError::Failed);
        }
        let Some(ReadPosition { file, offset }) = self.reading else {
            unreachable!()
        };
        let left = self.files[file].bytes_from(offset);
        let count = copy_front(left, into, self.piece);
        self.reading = Some(ReadPosition {
            file,
            offset: offset + count,
        });
        raise(&mut self.given, count);
        Ok(count)
    }

    fn begin_file(&mut self, name: &str) -> Result<(), WorldError>
        ensures exactly { result ≢ Err WorldError.Memory → (result, self.new)
            ≡ after_begin name.now self.old }
        ensures memory { result ≡ Err WorldError.Memory → self.new
            ≡ record (called self.old) { writing = None } }
        ensures no_fall { self.old.write_faults ≤ self.new.write_faults }
    {
        self.writing = None;
        if count_call(&mut self.calls, self.fails.as_slice()) {
            raise(&mut self.write_faults, 1);
            return Err(WorldError::Failed);
        }
        self.writing = Some(begin(&mut self.files, name)?);
        Ok(())
    }

    fn add(&mut self, bytes: &[u8]) -> Result<(), WorldError>
        requires { IsSome self.old.writing }
        ensures exactly { result ≢ Err WorldError.Memory → (result, self.new)
            ≡ after_add bytes.now self.old }
        ensures memory { result ≡ Err WorldError.Memory → self.new ≡ called self.old }
        ensures no_fall { self.old.write_faults ≤ self.new.write_faults }
    {
        let fails = count_call(&mut self.calls, self.fails.as_slice());
        let Some(file) = self.writing else {
            unreachable!()
        };
        if fails {
            append_to(&mut self.files, file, &bytes[..bytes.len() / 2])?;
            raise(&mut self.write_faults, 1);
            return Err(WorldError::Failed);
        }
        append_to(&mut self.files, file, bytes)?;
        Ok(())
    }

    fn print(&mut self, bytes: &[u8]) -> Result<(), WorldError>
        ensures exactly { result ≢ Err WorldError.Memory → (result, self.new)
            ≡ after_print bytes.now self.old }
        ensures memory { result ≡ Err WorldError.Memory → self.new ≡ print_short self.old }
        ensures no_fall { self.old.write_faults ≤ self.new.write_faults }
        ensures no_fewer { self.old.print_shortages ≤ self.new.print_shortages }
    {
        let fails = count_call(&mut self.calls, self.fails.as_slice());
        let taken = if fails {
            &bytes[..bytes.len() / 2]
        } else {
            bytes
        };
        if self.printed.extend_from_slice(taken).is_err() {
            raise(&mut self.print_shortages, 1);
            return Err(WorldError::Memory);
        }
        if fails {
            raise(&mut self.write_faults, 1);
            return Err(WorldError::Failed);
        }
        Ok(())
    }
}
