//! Inputs, bounds and choices of runs, and how runs and their parts end.

ghost use Rattle.std.specs.Prelude.{IsTrue};
ghost use Rattle.std.specs.List.{list_all};
ghost use Rattle.ba_tree.specs.Weights.{is_weight};

use ba_items::Items;
use ba_numbers::ids::{CallId, StmtId};

/// The input of a run: a list of values for each parameter of `main`. A variable has one value, an array one
/// for each element.
#[derive(Drop)]
pub struct Input {
    pub values: Items<Items<i64>>,
}

/// The bounds of a run. `turns`, from 1 to 128, bounds the iterations of each entry of a loop. `frames`, from
/// 1 to 32, bounds the frames that are active at a time, `main`'s among them.
#[derive(Clone, Copy, Debug, PartialEq, Eq)]
pub struct Bounds {
    pub turns: u32,
    pub frames: u32,
}

/// A step on the path from `main` to an execution of a statement. `Call(call)` is an active call.
/// `Turn(condition, n)` is iteration n, counted from 1, of the loop with this condition.
#[derive(Clone, Copy, Debug, PartialEq, Eq)]
pub enum Step {
    Call(CallId),
    Turn(StmtId, u32),
}

/// A place: a statement with the active calls and loop iterations around one execution of it, outermost
/// first.
///
/// The condition of a `while` or `for` is in the iteration that it begins, so its number can be one more than
/// the bound. The condition of a `do` is in the iteration that it ends. The step of a `for` is in the
/// iteration before it, its first part in none.
pub struct Place {
    pub path: Items<Step>,
    pub stmt: StmtId,
}

impl Drop for Place {
    fn drop(self) {
        let Place { path: _, stmt: _ } = self;
    }
}

/// What a run may relax: every execution of some statements, or single executions. An assert is never
/// relaxed.
pub enum Allowed {
    Statements(Items<StmtId>),
    Places(Items<Place>),
}

impl Drop for Allowed {
    fn drop(self) {
        match self {
            Allowed::Statements(_) => {}
            Allowed::Places(_) => {}
        }
    }
}

/// How a part of a program ends the whole run early. The first three variants name the innermost statement
/// that was being executed.
#[derive(Clone, Copy, Debug, PartialEq, Eq)]
pub enum Halt {
    /// An assertion's value was 0.
    AssertFails(StmtId),
    /// A divisor was zero, or an index was outside its array.
    Trap(StmtId),
    /// A loop needs more iterations, or a call more frames, than the bounds allow.
    Beyond(StmtId),
    /// A choice was missing, or did not fit.
    WrongChoices,
}

/// How a statement ends: the next one follows, or it leaves statements around it.
#[derive(Clone, Copy, Debug, PartialEq, Eq)]
pub enum Flow<E> {
    Next,
    Leaves(E),
}

/// How a statement of C leaves statements around it (C90 6.6.6). `break` leaves a loop or a `switch`, and
/// `continue` an iteration of a loop. `return` leaves its function, with a value.
#[derive(Clone, Copy, Debug, PartialEq, Eq)]
pub enum Exit {
    Break,
    Continue,
    Return(i64),
}

/// What an argument passes to a call: a value, or the location of an array.
#[derive(Clone, Copy, Debug, PartialEq, Eq)]
pub enum Argument {
    Value(i64),
    Array(usize),
}

/// How a run ends. `AssertFails`, `Trap` and `Beyond` name the innermost statement that was being executed.
#[derive(Clone, Copy, Debug, PartialEq, Eq)]
pub enum Outcome {
    /// The run was good.
    Done,
    /// An assertion's value was 0.
    AssertFails(StmtId),
    /// A divisor was zero, or an index was outside its array.
    Trap(StmtId),
    /// A loop needs more iterations, or a call more frames, than the bounds allow.
    Beyond(StmtId),
    /// A choice was missing, did not fit, or was left over.
    WrongChoices,
}

/// The weights of the statements. Entry n - 1 belongs to statement n: `None` if it may not be relaxed, and
/// else its weight, from 1 to 1,000.
#[derive(Drop)]
pub struct Weights {
    pub of: Items<Option<u32>>,
    pub ghost in_range: { IsTrue (list_all is_weight of) },
}
