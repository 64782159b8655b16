//! Values of C: whether they are 0, and what an operator gives.

ghost use Rattle.std.specs.Prelude.{◌≡◌, pos};
ghost use Rattle.std.specs.Ordering.{int_eq};
ghost use Rattle.ba_numbers.specs.Numbers.{value_of};
ghost use Rattle.ba_tree.specs.Meaning.{or_trap, truth_of};
ghost use Rattle.ba_tree.specs.State.{State};
ghost use Rattle.ba_interp.specs.Doing.{Did};

use crate::stop::Stop;
use ba_numbers::ids::StmtId;
use ba_numbers::numbers::{BinOp, CType, apply};
use ba_tree::run::Halt;

/// Whether a value is 0.
pub fn is_zero(value: i64) -> bool
    ensures { result ≡ int_eq value (pos 0) }
{
    value == 0
}

/// 1 for a value other than 0, and else 0 (a truth value of C).
pub fn truth_of(value: i64) -> i64
    ensures { result ≡ truth_of value }
{
    i64::from(value != 0)
}

/// The value of an operator, or a trap at this statement if it has none.
pub fn operate(here: StmtId, op: BinOp, t: CType, a: i64, b: i64) -> Result<i64, Stop>
    ensures { (s : State) → Did result s (or_trap here (value_of op t a b) s) }
{
    match apply(op, t, a, b) {
        None => Err(Stop::Halts(Halt::Trap(here))),
        Some(value) => Ok(value),
    }
}
