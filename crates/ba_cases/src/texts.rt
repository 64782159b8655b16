//! The files of a program with its input and its weights, and their texts.

ghost use Rattle.std.specs.Prelude.{◌≡◌, ◌*◌, ◌+◌, length, IfErr, IfOk};
ghost use Rattle.ba_cases.specs.Reading.{StopsUnread, files_for, parts_of};
ghost use Rattle.ba_files.specs.Files.{AreRead, GivesAtMost};
ghost use Rattle.ba_answers.specs.Limits.{limit};
ghost use Rattle.ba_world.specs.Read.{piece_size};
ghost use Rattle.ba_world.specs.World.{OnlyReads};

use crate::stop::Stop;
use ba_answers::file::File;
use ba_commands::Text;
use ba_files::{Named, read_files};
use ba_items::Items;
use ba_world::World;
use std::alloc::Global;

/// The texts of a program, of its input or inputs, and of its weights. If no weights are named, their text is
/// empty.
pub struct Texts {
    pub program: Items<u8>,
    pub input: Items<u8>,
    pub weights: Items<u8>,
}

impl Drop for Texts {
    fn drop(self) {
        let Texts {
            program: _,
            input: _,
            weights: _,
        } = self;
    }
}

/// The files of a program, of its input or inputs, and of its weights, in this order.
pub fn files_for<'a>(
    program: &Text<'a>,
    which: File,
    input: &Text<'a>,
    weights: &Option<Text<'a>>,
) -> [Named<'a>; 3]
    ensures { result ≡ files_for program.now which input.now weights.now }
{
    [
        Named {
            file: File::Program,
            name: Some(Text::new(program.as_str())),
        },
        Named {
            file: which,
            name: Some(Text::new(input.as_str())),
        },
        Named {
            file: File::Weights,
            name: same_name(weights),
        },
    ]
}

/// A copy of the name.
fn same_name<'a>(name: &Option<Text<'a>>) -> Option<Text<'a>>
    ensures { result ≡ name.now }
{
    match name {
        Some(name) => Some(Text::new(name.as_str())),
        None => None,
    }
}

/// Three texts, in the order of the files.
fn texts_of(texts: Vec<Items<u8>>) -> Texts
    requires { length texts.items ≡ 3 }
    ensures { parts_of result ≡ texts.items }
{
    let mut texts = texts;
    let weights = texts.pop();
    let input = texts.pop();
    let program = texts.pop();
    match (program, input, weights) {
        (Some(program), Some(input), Some(weights)) => Texts {
            program,
            input,
            weights,
        },
        // There are three texts.
        _ => unreachable!(),
    }
}

impl Texts {
    /// Reads the files of a program, of its input or inputs, and of its weights, each whole and in this
    /// order.
    pub fn read<W: World>(alloc: Global, world: &mut W, files: &[Named]) -> Result<Texts, Stop>
        requires { length files.now ≡ 3 }
        ensures ok { IfOk result (λ texts.
            AreRead files.now (parts_of texts) (W.outside world.old) (W.outside world.new)) }
        ensures err { IfErr result (λ stop.
            StopsUnread files.now (W.outside world.old) (W.outside world.new) stop) }
        ensures bounded { GivesAtMost (3 * (limit + piece_size))
            (W.outside world.old) (W.outside world.new) }
        ensures stays { OnlyReads (W.outside world.old) (W.outside world.new) }
    {
        match read_files(alloc, world, files) {
            Ok(texts) => Ok(texts_of(texts)),
            Err(unread) => match unread.answer() {
                Some(answer) => Err(Stop::Answered(answer)),
                None => Err(Stop::Memory),
            },
        }
    }
}
