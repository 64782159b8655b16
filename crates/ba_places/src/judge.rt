//! Which choices make a good run if some executions of a program are relaxed: with them its run on the
//! failing input is done.

ghost use Rattle.std.specs.Prelude.{◌≡◌, IsTrue, true};
ghost use Rattle.ba_tree.specs.Run.{are_bounds, is_done};

use crate::numbers::places_at;
use ba_choices::Choice;
use ba_interp::run;
use ba_steps::RunJudge;
use ba_tree::run::{Allowed, Bounds, Input, Outcome, Place};
use ba_tree::tree::Program;
use std::alloc::{AllocError, Global};

/// Whether a run met every assertion, without a trap and within its bounds.
fn is_done(outcome: Outcome) -> bool
    ensures { result ≡ is_done outcome }
{
    matches!(outcome, Outcome::Done)
}

/// A judge that runs a program on an input, within bounds. Its groups are the places of a list, by their
/// numbers from 1; any other number relaxes nothing.
#[derive(Drop)]
pub struct PlaceJudge<'a> {
    alloc: Global,
    program: &'a Program,
    input: &'a Input,
    bounds: Bounds,
    places: &'a [Place],
    ghost bounds_hold: { IsTrue (are_bounds bounds) },
}

impl<'a> PlaceJudge<'a> {
    /// The judge of this program on this input by these places, within these bounds. They are 1 to 128
    /// iterations of a loop, and 1 to 32 frames. It takes no memory.
    pub fn new(
        alloc: Global,
        program: &'a Program,
        input: &'a Input,
        bounds: Bounds,
        places: &'a [Place],
    ) -> PlaceJudge<'a>
        requires { are_bounds bounds ≡ true }
        ensures program { result.program.now ≡ program.now }
        ensures input { result.input.now ≡ input.now }
        ensures bounds { result.bounds ≡ bounds }
        ensures places { result.places.now ≡ places.now }
    {
        PlaceJudge {
            alloc,
            program,
            input,
            bounds,
            places,
        }
    }
}

impl<'a> RunJudge for PlaceJudge<'a> {
    ghost use Rattle.ba_places.specs.Least.{place_judge_of};
    ghost use Rattle.ba_places.specs.Numbers.{judge_by};

    ghost accepts = { λ judge. judge_by
        (place_judge_of judge.program.now judge.input.now judge.bounds) judge.places.now };

    fn good(&self, groups: &[u32], run: &[Choice]) -> Result<bool, AllocError> {
        let allowed = Allowed::Places(places_at(self.alloc, self.places, groups)?);
        let outcome = ba_interp::run(
            self.alloc,
            self.program,
            self.input,
            self.bounds,
            &allowed,
            run,
        )?;
        Ok(is_done(outcome))
    }
}
