//! How statements end.

ghost use Rattle.std.specs.Prelude.{◌≡◌, pos};
ghost use Rattle.ba_tree.specs.Acts.{flow_after_body, flow_after_loop, fork, give, halt_with, then_do};
ghost use Rattle.ba_tree.specs.Meaning.{assert_that};
ghost use Rattle.ba_tree.specs.Run.{result_of};
ghost use Rattle.ba_tree.specs.State.{State};
ghost use Rattle.ba_tree.specs.declared.run.Flow.TheVariants.{Next};
ghost use Rattle.ba_tree.specs.declared.run.Halt.TheVariants.{Beyond};
ghost use Rattle.ba_interp.specs.Doing.{Did};

use crate::stop::Stop;
use crate::values::is_zero;
use ba_numbers::ids::StmtId;
use ba_tree::run::{Exit, Flow, Halt};

/// How the end of a loop's body goes on inside the loop: a `continue` is like the body's end.
pub fn flow_after_body(flow: Flow<Exit>) -> Flow<Exit>
    ensures { result ≡ flow_after_body flow }
{
    match flow {
        Flow::Leaves(Exit::Continue) => Flow::Next,
        flow => flow,
    }
}

/// How a loop or a `switch` ends: a `break` is like its end.
pub fn flow_after_loop(flow: Flow<Exit>) -> Flow<Exit>
    ensures { result ≡ flow_after_loop flow }
{
    match flow {
        Flow::Leaves(Exit::Break) => Flow::Next,
        flow => flow,
    }
}

/// The result of a function whose body ends like this.
pub fn result_of(flow: Flow<Exit>) -> i64
    ensures { result ≡ result_of flow }
{
    match flow {
        Flow::Leaves(Exit::Return(value)) => value,
        _ => 0,
    }
}

/// An assertion of a condition with this value.
pub fn assert_that(stmt: StmtId, value: i64) -> Result<Flow<Exit>, Stop>
    ensures { (s : State) → Did result s (assert_that stmt value s) }
{
    if is_zero(value) {
        return Err(Stop::Halts(Halt::AssertFails(stmt)));
    }
    Ok(Flow::Next)
}

/// The condition, with this value, of a loop that has had all its iterations.
pub fn past_bound(stmt: StmtId, value: i64) -> Result<Flow<Exit>, Stop>
    ensures { (s : State) → Did result s (then_do (fork (halt_with (Beyond stmt))
        (give Next) value s) (λ flow. give (flow_after_loop flow))) }
{
    if is_zero(value) {
        return Ok(Flow::Next);
    }
    Err(Stop::Halts(Halt::Beyond(stmt)))
}
