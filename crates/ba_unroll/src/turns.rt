//! The iterations of loops, and their numbers.

ghost use Rattle.std.specs.Prelude.{◌≡◌, ◌∷◌, IfOk};
ghost use Rattle.ba_unroll.specs.Unrolling.{turn_of_head};

use ba_code::nodes::{Node, Operand};
use ba_numbers::ids::StmtId;
use std::alloc::{AllocError, Global};

/// The parts of a loop. `head` comes before each iteration and after the last; or after each iteration if
/// `after` is true.
#[derive(Clone, Copy)]
pub struct Parts<'t> {
    pub after: bool,
    pub head: &'t [Node],
    pub when: Operand,
    pub body: &'t [Node],
    pub step: &'t [Node],
    pub stmt: StmtId,
}

/// The iteration of the head that comes after this iteration: the iteration that it begins, or in a `do` the
/// one that it ends.
///
/// The only error is out of memory, also if the numbers run out.
pub fn turn_behind(after: bool, turn: u32) -> Result<u32, AllocError>
    ensures { IfOk result (λ head. head ≡ turn_of_head after turn) }
{
    if after {
        return Ok(turn);
    }
    turn.checked_add(1).ok_or(AllocError)
}

/// The iterations of the loops around, with that of one more loop inside them, innermost first. The only
/// error is out of memory.
pub fn with_turn(alloc: Global, turn: u32, turns: &[u32]) -> Result<Vec<u32>, AllocError>
    ensures { IfOk result (λ inner. inner.items ≡ turn ∷ turns.now) }
{
    let mut inner = Vec::new(alloc);
    inner.push(turn)?;
    inner.extend_from_slice(turns)?;
    Ok(inner)
}
