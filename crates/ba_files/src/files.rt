//! The files that a call reads.

ghost use Rattle.std.specs.Prelude.{◌≡◌, ◌+◌, ◌*◌, length, IfOk, IfErr};
ghost use Rattle.ba_world.specs.Read.{piece_size};
ghost use Rattle.ba_world.specs.World.{OnlyReads};
ghost use Rattle.ba_files.specs.Files.{AreRead, GivesAtMost, IsReadFile, IsReadIfNamed, IsUnread, IsUnreadIfNamed, StopsAt, answer_for};
ghost use Rattle.ba_answers.specs.Limits.{limit};

use ba_answers::answers::Answer;
use ba_answers::file::{File, LIMIT};
use ba_commands::Text;
use ba_items::Items;
use ba_world::{ReadFileError, World, read_whole};
use std::alloc::Global;

/// A file that a call reads, and its name, if the words give one.
#[derive(Drop)]
pub struct Named<'a> {
    pub file: File,
    pub name: Option<Text<'a>>,
}

/// The file that wasn't read, and why.
#[derive(Clone, Copy)]
pub struct Unread {
    pub file: File,
    pub error: ReadFileError,
}

impl Unread {
    /// The answer for the file; none if memory ran out.
    pub fn answer(self) -> Option<Answer>
        ensures { result ≡ answer_for self.file self.error }
    {
        match self.error {
            ReadFileError::Failed => Some(Answer::Unreadable(self.file)),
            ReadFileError::TooLong => Some(Answer::TooLong(self.file)),
            ReadFileError::Memory => None,
        }
    }
}

/// Reads a file whole.
fn read_file<W: World>(
    alloc: Global,
    world: &mut W,
    file: File,
    name: &Text,
) -> Result<Items<u8>, Unread>
    ensures ok { IfOk result (λ text.
        IsReadFile name.now text (W.outside world.old) (W.outside world.new)) }
    ensures err { IfErr result (λ unread. (unread.file ≡ file)
        × IsUnread name.now unread.error (W.outside world.old) (W.outside world.new)) }
    ensures bounded { GivesAtMost (limit + piece_size) (W.outside world.old) (W.outside world.new) }
    ensures stays { OnlyReads (W.outside world.old) (W.outside world.new) }
{
    match read_whole(alloc, world, name.as_str(), LIMIT) {
        Ok(bytes) => Ok(Items::from_vec(bytes)),
        Err(error) => Err(Unread { file, error }),
    }
}

/// Reads a file whole, if it has a name.
fn read_if_named<W: World>(alloc: Global, world: &mut W, named: &Named) -> Result<Items<u8>, Unread>
    ensures ok { IfOk result (λ text.
        IsReadIfNamed named.now.name text (W.outside world.old) (W.outside world.new)) }
    ensures err { IfErr result (λ unread. (unread.file ≡ named.now.file)
        × IsUnreadIfNamed named.now.name unread.error
        (W.outside world.old) (W.outside world.new)) }
    ensures bounded { GivesAtMost (limit + piece_size) (W.outside world.old) (W.outside world.new) }
    ensures stays { OnlyReads (W.outside world.old) (W.outside world.new) }
{
    match &named.name {
        Some(name) => read_file(alloc, world, named.file, name),
        None => Ok(Items::new(alloc)),
    }
}

/// Reads files one after the other, each whole. The text of a file without a name is empty.
///
/// Reading stops at the first file that can't be read, or is longer than 65,536 bytes.
pub fn read_files<W: World>(
    alloc: Global,
    world: &mut W,
    files: &[Named],
) -> Result<Vec<Items<u8>>, Unread>
    ensures ok { IfOk result (λ texts.
        AreRead files.now texts.items (W.outside world.old) (W.outside world.new)) }
    ensures err { IfErr result (λ unread. StopsAt unread.file unread.error files.now
        (W.outside world.old) (W.outside world.new)) }
    ensures bounded { GivesAtMost (length files.now * (limit + piece_size))
        (W.outside world.old) (W.outside world.new) }
    ensures stays { OnlyReads (W.outside world.old) (W.outside world.new) }
{
    let mut texts = Vec::new(alloc);
    for named in files {
        let text = read_if_named(alloc, world, named)?;
        if texts.push(text).is_err() {
            return Err(Unread {
                file: named.file,
                error: ReadFileError::Memory,
            });
        }
    }
    Ok(texts)
}
