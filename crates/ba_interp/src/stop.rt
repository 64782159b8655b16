//! Why a part of a run gives no value.

use ba_tree::run::Halt;
use std::alloc::{AllocError, AllocFailed};

/// Why a part of a run gives no value.
#[derive(Clone, Copy)]
pub enum Stop {
    /// The run has ended.
    Halts(Halt),
    /// Out of memory: nothing is known of the run.
    Memory,
}

impl From<Halt> for Stop {
    ghost use Rattle.std.specs.Prelude.{◌≡◌};
    ghost use Rattle.ba_interp.specs.declared.stop.Stop.TheVariants.{Halts};

    ghost from_gives = { λ halt stop. stop ≡ Halts halt };

    fn from(halt: Halt) -> Stop {
        Stop::Halts(halt)
    }
}

impl From<AllocError> for Stop {
    ghost use Rattle.std.specs.Prelude.{◌≡◌};
    ghost use Rattle.ba_interp.specs.declared.stop.Stop.TheVariants.{Memory};

    ghost from_gives = { λ _ stop. stop ≡ Memory };

    fn from(_error: AllocError) -> Stop {
        Stop::Memory
    }
}

impl<T: Drop> From<AllocFailed<T>> for Stop {
    ghost use Rattle.std.specs.Prelude.{◌≡◌};
    ghost use Rattle.ba_interp.specs.declared.stop.Stop.TheVariants.{Memory};

    ghost from_gives = { λ _ stop. stop ≡ Memory };

    fn from(_error: AllocFailed<T>) -> Stop {
        Stop::Memory
    }
}
