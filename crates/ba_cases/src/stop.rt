//! Why a call stops.

ghost use Rattle.ba_cases.specs.AtOnce.{IsAnswered};

use ba_answers::answers::Answer;
use ba_search::SearchError;
use std::alloc::AllocError;

/// Why a call stops at its texts: it has this answer, or memory ran out.
#[derive(Drop)]
pub enum Stop {
    Answered(Answer),
    Memory,
}

impl From<AllocError> for Stop {
    ghost use Rattle.std.specs.Prelude.{◌≡◌};
    ghost use Rattle.ba_cases.specs.declared.stop.Stop.TheVariants.{Memory};

    ghost from_gives = { λ _ stop. stop ≡ Memory };

    fn from(_error: AllocError) -> Stop {
        Stop::Memory
    }
}

impl Stop {
    /// The answer of the call, or out of memory.
    pub fn answer(self) -> Result<Answer, SearchError>
        ensures { IsAnswered self result }
    {
        match self {
            Stop::Answered(answer) => Ok(answer),
            Stop::Memory => Err(SearchError::Memory),
        }
    }
}
