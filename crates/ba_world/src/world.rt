//! The trait by which the program meets the outside.

ghost use Rattle.std.specs.Prelude.{◌≡◌, ◌⊎◌, ◌<◌, ◌≤◌, true, false, length, IfOk, OnOk, OnErr};
ghost use Rattle.ba_world.specs.World.{Adds, AddsPrefix, GivesNone, GivesPiece, HasPrintShortage, HasReadFault, HasWriteFault, IsBegun, IsOpened, OnlyPrints, OnlyReads, OnlyWrites, OthersStay, Outside, Prints, PrintsPrefix, StillWrites, WritesNone, raised};

use std::alloc::AllocError;
use thiserror::Error;

/// Why a call of a [`World`] was refused.
#[derive(Clone, Copy, Debug, PartialEq, Eq, Error)]
pub enum WorldError {
    /// The outside failed, or a file that was to be opened isn't there.
    #[error("the outside failed")]
    Failed,
    /// There was no memory.
    #[error("out of memory")]
    Memory,
}

impl From<AllocError> for WorldError {
    ghost use Rattle.std.specs.Prelude.{◌≡◌};
    ghost use Rattle.ba_world.specs.declared.world.WorldError.TheVariants.{Memory};

    ghost from_gives = { λ _ error. error ≡ Memory };

    fn from(_error: AllocError) -> WorldError {
        WorldError::Memory
    }
}

/// Files that are read and written one piece at a time, and an output for printing.
///
/// At most one file is being read and at most one is being written. Names and contents are bytes. A world may
/// tell of them or not: what it doesn't tell is `None`.
///
/// - [`WorldError::Memory`]: any call may answer it. In `print` the count of prints that found no memory
///   rises with it.
/// - [`WorldError::Failed`]: only if the count of faults of its kind rose in this call, or `open_file` finds
///   no file of that name.
///
/// A count at its end, 2^64 - 1, counts as risen.
pub trait World {
    // The outside, as far as this world tells it.
    ghost outside: { Self → Outside };

    /// Opens the file of this name, to be read from its first byte on. A file that was being read is given
    /// up. After a refusal no file is being read.
    fn open_file(&mut self, name: &str) -> Result<(), WorldError>
        ensures opened { OnOk result (IsOpened name.now (outside self.old) (outside self.new)) }
        ensures refused { OnErr result ((outside self.new).is_reading ≡ false) }
        ensures cause { result ≡ Err WorldError.Failed
            → HasReadFault (outside self.old) (outside self.new)
            ⊎ ((outside self.old).held name.now ≡ Some None) }
        ensures none_given { (outside self.new).given ≡ (outside self.old).given }
        ensures stays { OnlyReads (outside self.old) (outside self.new) };

    /// Puts the next bytes of the file being read at the front of `into`, and answers how many. That is 0
    /// exactly if nothing is left. A refusal gives no byte, and the file goes on being read.
    fn next_piece(&mut self, into: &mut [u8]) -> Result<usize, WorldError>
        requires room { 0 < length into.old }
        requires reading { (outside self.old).is_reading ≡ true }
        ensures given { IfOk result (λ count.
            GivesPiece count into.new (outside self.old) (outside self.new)) }
        ensures refused { OnErr result (GivesNone (outside self.old) (outside self.new)) }
        ensures cause { result ≡ Err WorldError.Failed
            → HasReadFault (outside self.old) (outside self.new) }
        ensures still { (outside self.new).is_reading ≡ true }
        ensures stays { OnlyReads (outside self.old) (outside self.new) };

    /// Makes an empty file of this name, which is the one that is written from now on. It replaces a file of
    /// that name. After a refusal no file is being written, and what is kept under this name is as it was, or
    /// nothing.
    fn begin_file(&mut self, name: &str) -> Result<(), WorldError>
        ensures begun { OnOk result (IsBegun name.now (outside self.new)) }
        ensures refused { OnErr result (WritesNone name.now (outside self.old) (outside self.new)) }
        ensures cause { result ≡ Err WorldError.Failed
            → HasWriteFault (outside self.old) (outside self.new) }
        ensures others { OthersStay name.now (outside self.old) (outside self.new) }
        ensures stays { OnlyWrites (outside self.old) (outside self.new) };

    /// Appends the bytes to the file being written. A refusal appends some prefix of them.
    fn add(&mut self, bytes: &[u8]) -> Result<(), WorldError>
        requires { (outside self.old).is_writing ≡ true }
        ensures added { OnOk result (Adds (outside self.old) (outside self.new) bytes.now) }
        ensures prefix { AddsPrefix (outside self.old) (outside self.new) bytes.now }
        ensures cause { result ≡ Err WorldError.Failed
            → HasWriteFault (outside self.old) (outside self.new) }
        ensures others { StillWrites (outside self.old) (outside self.new) }
        ensures stays { OnlyWrites (outside self.old) (outside self.new) };

    /// Prints the bytes. A refusal prints some prefix of them.
    fn print(&mut self, bytes: &[u8]) -> Result<(), WorldError>
        ensures printed { OnOk result (Prints (outside self.old) (outside self.new) bytes.now) }
        ensures prefix { PrintsPrefix (outside self.old) (outside self.new) bytes.now }
        ensures cause { result ≡ Err WorldError.Failed
            → HasWriteFault (outside self.old) (outside self.new) }
        ensures shortage { result ≡ Err WorldError.Memory
            → HasPrintShortage (outside self.old) (outside self.new) }
        ensures stays { OnlyPrints (outside self.old) (outside self.new) };
}

/// Raises a count, which stays at its type's end.
pub(crate) fn raise(count: &mut u64, by: usize)
    ensures raised { count.new ≡ raised count.old by }
    ensures no_fall { count.old ≤ count.new }
{
    *count = count.saturating_add(by as u64);
}
