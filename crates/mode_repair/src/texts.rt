//! The texts of a program, of a failing input, of passing inputs, and of weights.

ghost use Rattle.std.specs.Prelude.{◌≡◌, ◌*◌, ◌+◌, length, IfErr, IfOk};
ghost use Rattle.ba_answers.specs.Limits.{limit};
ghost use Rattle.ba_cases.specs.Reading.{StopsUnread};
ghost use Rattle.ba_files.specs.Files.{AreRead, GivesAtMost};
ghost use Rattle.ba_world.specs.Read.{piece_size};
ghost use Rattle.ba_world.specs.World.{OnlyReads};
ghost use Rattle.mode_repair.specs.Jobs.{parts_of};

use ba_cases::Stop;
use ba_files::{Named, read_files};
use ba_items::Items;
use ba_world::World;
use std::alloc::Global;

/// The texts of the files of a job. If no weights are named, their text is empty.
pub struct RepairTexts {
    pub program: Items<u8>,
    pub failing: Items<u8>,
    pub passing: Items<u8>,
    pub weights: Items<u8>,
}

impl Drop for RepairTexts {
    fn drop(self) {
        let RepairTexts {
            program: _,
            failing: _,
            passing: _,
            weights: _,
        } = self;
    }
}

/// Four texts, in the order of the files.
fn texts_of(texts: Vec<Items<u8>>) -> RepairTexts
    requires { length texts.items ≡ 4 }
    ensures { parts_of result ≡ texts.items }
{
    let mut texts = texts;
    let weights = texts.pop();
    let passing = texts.pop();
    let failing = texts.pop();
    let program = texts.pop();
    match (program, failing, passing, weights) {
        (Some(program), Some(failing), Some(passing), Some(weights)) => RepairTexts {
            program,
            failing,
            passing,
            weights,
        },
        // There are four texts.
        _ => unreachable!(),
    }
}

impl RepairTexts {
    /// Reads the files of a job, each whole and in their order.
    pub fn read<W: World>(
        alloc: Global,
        world: &mut W,
        files: &[Named],
    ) -> Result<RepairTexts, Stop>
        requires { length files.now ≡ 4 }
        ensures ok { IfOk result (λ texts.
            AreRead files.now (parts_of texts) (W.outside world.old) (W.outside world.new)) }
        ensures err { IfErr result (λ stop.
            StopsUnread files.now (W.outside world.old) (W.outside world.new) stop) }
        ensures bounded { GivesAtMost (4 * (limit + piece_size))
            (W.outside world.old) (W.outside world.new) }
        ensures stays { OnlyReads (W.outside world.old) (W.outside world.new) }
    {
        match read_files(alloc, world, files) {
            Ok(texts) => Ok(texts_of(texts)),
            Err(unread) => match unread.answer() {
                Some(answer) => Err(Stop::Answered(answer)),
                None => Err(Stop::Memory),
            },
        }
    }
}
