//! The world over real files and standard output.

ghost use Rattle.std.specs.Prelude.{◌≡◌, ◌<◌, ◌≤◌, None, length, IsSome, IfSome, IsErr, IfOk, OnOk, IfErr, OnErr};
ghost use Rattle.std.specs.Io.KnownBytes.{Appends, ReadConsumes};
ghost use Rattle.ba_world.specs.Host.{AppendsPrefix, known_bytes, known_name, new_host, outside_of};
ghost use Rattle.ba_world.specs.World.{raised};

use crate::file_system::FileSystem;
use crate::world::{World, WorldError, raise};
use std::io;
use std::io::{ErrorKind, Read, Write};
use std::marker::Model;

/// The world over a file system and a standard output, as `main` is given them.
///
/// It tells no content: no contract can say what a real file holds or an output takes. If names and bytes are
/// known, the clauses of its calls say which file is opened or made. They also say how each call changes the
/// bytes of files and output. A file is closed when another replaces it or the world is dropped.
#[derive(Drop)]
pub struct HostWorld<F: FileSystem + Drop, O: Write + Drop> {
    files: F,
    output: O,
    reading: Option<F::File>,
    writing: Option<F::File>,
    read_faults: u64,
    write_faults: u64,
    given: u64,
}

impl<F: FileSystem + Drop, O: Write + Drop> Model for HostWorld<F, O> {
    ghost use Rattle.std.specs.Prelude.{option_map};
    ghost use Rattle.ba_world.specs.Host.{Host};

    ghost Value = { Host };

    ghost view = { λ world. record {
      reading = option_map
          (λ file. record { name = F.opened file; bytes = F.File.remaining file })
          world.reading;
      writing = option_map
          (λ file. record { name = F.created file; bytes = F.File.contents file })
          world.writing;
      output = O.contents world.output;
      read_faults = world.read_faults;
      write_faults = world.write_faults;
      given = world.given;
    } };
}

impl<F: FileSystem + Drop, O: Write + Drop> HostWorld<F, O> {
    /// The world over these files, which prints to this output. No file is being read or written, and there
    /// were no faults.
    pub fn new(files: F, output: O) -> HostWorld<F, O>
        ensures { result ≡ new_host (O.contents output) }
    {
        HostWorld {
            files,
            output,
            reading: None,
            writing: None,
            read_faults: 0,
            write_faults: 0,
            given: 0,
        }
    }
}

/// Each error of the system is a fault, and the call answers [`WorldError::Failed`].
impl<F: FileSystem + Drop, O: Write + Drop> World for HostWorld<F, O> {
    ghost outside = { outside_of };

    fn open_file(&mut self, name: &str) -> Result<(), WorldError>
        ensures is_open { OnOk result (IsSome self.new.reading) }
        ensures named { OnOk result
            (IfSome (known_name self.new.reading) (λ known. known ≡ name.now)) }
        ensures ok { OnOk result (self.new ≡ record self.old { reading = self.new.reading }) }
        ensures failed { OnErr result (self.new
            ≡ record self.old { reading = None; read_faults = raised self.old.read_faults 1 }) }
        ensures fault { IfErr result (λ error. error ≡ WorldError.Failed) }
        ensures no_fall { self.old.read_faults ≤ self.new.read_faults }
    {
        self.reading = None;
        let file = counted(self.files.open_file(name), &mut self.read_faults)?;
        self.reading = Some(file);
        Ok(())
    }

    fn next_piece(&mut self, into: &mut [u8]) -> Result<usize, WorldError>
        requires room { 0 < length into.old }
        requires reading { IsSome self.old.reading }
        ensures within { IfOk result (λ count. count ≤ length into.new) }

        // The bytes are those that the file had left; there are none only if it had none.
        ensures read { ReadConsumes
            (known_bytes self.old.reading) (known_bytes self.new.reading) result into.new }
        ensures ok { IfOk result (λ count. self.new
            ≡ record self.old { reading = self.new.reading; given = raised self.old.given count }) }
        ensures failed { OnErr result (self.new
            ≡ record self.old {
              reading = self.new.reading;
              read_faults = raised self.old.read_faults 1;
            }) }
        ensures fault { IfErr result (λ error. error ≡ WorldError.Failed) }
        ensures still { IsSome self.new.reading }
        ensures no_fall { self.old.read_faults ≤ self.new.read_faults }
    {
        let Some(file) = &mut self.reading else {
            unreachable!()
        };
        let count = counted(file.read(into), &mut self.read_faults)?;
        raise(&mut self.given, count);
        Ok(count)
    }

    fn begin_file(&mut self, name: &str) -> Result<(), WorldError>
        ensures is_open { OnOk result (IsSome self.new.writing) }
        ensures named { OnOk result
            (IfSome (known_name self.new.writing) (λ known. known ≡ name.now)) }
        ensures ok { OnOk result (self.new ≡ record self.old { writing = self.new.writing }) }
        ensures failed { OnErr result (self.new
            ≡ record self.old { writing = None; write_faults = raised self.old.write_faults 1 }) }
        ensures fault { IfErr result (λ error. error ≡ WorldError.Failed) }
        ensures no_fall { self.old.write_faults ≤ self.new.write_faults }
    {
        self.writing = None;
        let file = counted(self.files.create_file(name), &mut self.write_faults)?;
        self.writing = Some(file);
        Ok(())
    }

    fn add(&mut self, bytes: &[u8]) -> Result<(), WorldError>
        requires { IsSome self.old.writing }
        ensures added { OnOk result (Appends
            (known_bytes self.old.writing) (known_bytes self.new.writing) bytes.now) }
        ensures prefix { AppendsPrefix
            (known_bytes self.old.writing) (known_bytes self.new.writing) bytes.now }
        ensures ok { OnOk result (self.new ≡ record self.old { writing = self.new.writing }) }
        ensures failed { OnErr result (self.new
            ≡ record self.old {
              writing = self.new.writing;
              write_faults = raised self.old.write_faults 1;
            }) }
        ensures fault { IfErr result (λ error. error ≡ WorldError.Failed) }
        ensures still { IsSome self.new.writing }
        ensures no_fall { self.old.write_faults ≤ self.new.write_faults }
    {
        let Some(file) = &mut self.writing else {
            unreachable!()
        };
        counted(write_whole(file, bytes), &mut self.write_faults)
    }

    fn print(&mut self, bytes: &[u8]) -> Result<(), WorldError>
        ensures added { OnOk result (Appends self.old.output self.new.output bytes.now) }
        ensures prefix { AppendsPrefix self.old.output self.new.output bytes.now }
        ensures ok { OnOk result (self.new ≡ record self.old { output = self.new.output }) }
        ensures failed { OnErr result (self.new
            ≡ record self.old {
              output = self.new.output;
              write_faults = raised self.old.write_faults 1;
            }) }
        ensures fault { IfErr result (λ error. error ≡ WorldError.Failed) }
        ensures no_fall { self.old.write_faults ≤ self.new.write_faults }
    {
        counted(write_whole(&mut self.output, bytes), &mut self.write_faults)
    }
}

/// Counts an error of the system as a fault.
fn counted<T>(outcome: io::Result<T>, faults: &mut u64) -> Result<T, WorldError>
    ensures ok { IfOk result (λ value. outcome ≡ Ok value) }
    ensures same { OnOk result (faults.new ≡ faults.old) }
    ensures refused { OnErr result (IsErr outcome) }
    ensures failed { IfErr result (λ error. error ≡ WorldError.Failed) }
    ensures fault { OnErr result (faults.new ≡ raised faults.old 1) }
    ensures no_fall { faults.old ≤ faults.new }
{
    match outcome {
        Ok(value) => Ok(value),
        Err(_) => {
            raise(faults, 1);
            Err(WorldError::Failed)
        }
    }
}

/// Writes all of the bytes. On an error it has written some prefix of them.
fn write_whole<W: Write>(writer: &mut W, bytes: &[u8]) -> io::Result<()>
    ensures whole { OnOk result (Appends (W.contents writer.old) (W.contents writer.new)
        bytes.now) }
    ensures prefix { AppendsPrefix (W.contents writer.old) (W.contents writer.new) bytes.now }
{
    let mut rest = bytes;
    while !rest.is_empty() {
        let count = writer.write(rest)?;
        if count == 0 {
            return Err(io::Error::from(ErrorKind::WriteZero));
        }
        rest = &rest[count..];
    }
    Ok(())
}
