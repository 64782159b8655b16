//! Files read whole.

ghost use Rattle.std.specs.Prelude.{◌≡◌, ◌⊎◌, ◌+◌, ◌<◌, ◌≤◌, length, IfOk};
ghost use Rattle.ba_world.specs.Read.{IsReadWhole, Stopped, StoppedPast, piece_size};
ghost use Rattle.ba_world.specs.World.{HasReadFault, OnlyReads};

use crate::world::{World, WorldError};
use std::alloc::{AllocError, Global};
use thiserror::Error;

/// Why a file wasn't read.
#[derive(Clone, Copy, Debug, PartialEq, Eq, Error)]
pub enum ReadFileError {
    /// The outside failed, or there is no such file.
    #[error("the file cannot be read")]
    Failed,
    /// The file holds more bytes than the limit.
    #[error("the file is too long")]
    TooLong,
    /// There was no memory.
    #[error("out of memory")]
    Memory,
}

impl From<AllocError> for ReadFileError {
    ghost use Rattle.std.specs.Prelude.{◌≡◌};
    ghost use Rattle.ba_world.specs.declared.read.ReadFileError.TheVariants.{Memory};

    ghost from_gives = { λ _ error. error ≡ Memory };

    fn from(_error: AllocError) -> ReadFileError {
        ReadFileError::Memory
    }
}

impl From<WorldError> for ReadFileError {
    ghost use Rattle.std.specs.Prelude.{◌≡◌};
    ghost use Rattle.ba_world.specs.Read.{read_error};

    ghost from_gives = { λ cause error. error ≡ read_error cause };

    fn from(error: WorldError) -> ReadFileError {
        match error {
            WorldError::Failed => ReadFileError::Failed,
            WorldError::Memory => ReadFileError::Memory,
        }
    }
}

/// How many bytes are read at a time.
const BUFFER: usize = 4096;

/// Reads the file of this name whole, if it has at most `limit` bytes (65,536 or fewer). It stops at a fault,
/// or as soon as more bytes have come.
///
/// - [`ReadFileError::Failed`]: only if a fault of reading rose in this call, or there is no such file.
/// - [`ReadFileError::TooLong`]: exactly if more than `limit` bytes were given in this call.
/// - [`ReadFileError::Memory`]: out of memory.
pub fn read_whole<W: World>(
    alloc: Global,
    world: &mut W,
    name: &str,
    limit: u64,
) -> Result<Vec<u8>, ReadFileError>
    requires { limit ≤ 65536 }
    ensures whole { IfOk result (λ bytes.
        IsReadWhole name.now bytes.items (W.outside world.old) (W.outside world.new)) }
    ensures within { IfOk result (λ bytes. length bytes.items ≤ limit) }

    ensures cause { result ≡ Err ReadFileError.Failed
        → HasReadFault (W.outside world.old) (W.outside world.new)
        ⊎ ((W.outside world.old).held name.now ≡ Some None) }

    // After a failure the world shows whether it came in opening the file or in reading it.
    ensures stopped { result ≡ Err ReadFileError.Failed
        → Stopped name.now limit (W.outside world.old) (W.outside world.new) }

    ensures too_long { result ≡ Err ReadFileError.TooLong
        → StoppedPast name.now limit (W.outside world.old) (W.outside world.new) }
    ensures only_too_long { (W.outside world.old).given + limit < (W.outside world.new).given
        → result ≡ Err ReadFileError.TooLong }

    // However it ends, it takes no further piece once more than `limit` bytes came.
    ensures stops { (W.outside world.new).given ≤ (W.outside world.old).given + limit + piece_size }
    ensures stays { OnlyReads (W.outside world.old) (W.outside world.new) }
{
    world.open_file(name)?;
    let mut bytes = Vec::new(alloc);
    let mut buffer = [0u8; BUFFER];
    loop {
        let count = world.next_piece(&mut buffer)?;
        if count == 0 {
            return Ok(bytes);
        }
        if (bytes.len() + count) as u64 > limit {
            return Err(ReadFileError::TooLong);
        }
        bytes.extend_from_slice(&buffer[..count])?;
    }
}
