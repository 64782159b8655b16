//! Execution of expressions, statements and calls (C90 6.3, 6.6).

ghost use Rattle.std.specs.Prelude.{map};
ghost use Rattle.ba_tree.specs.Acts.{each, then_do};
ghost use Rattle.ba_tree.specs.Meaning.{call_effect, eval, eval_arg, exec, exec_all, given_element, given_elements, given_value, print_effect, set_value, test_behind, type_of};
ghost use Rattle.ba_interp.specs.Doing.{Did, DidAll};
ghost use Rattle.ba_interp.specs.Loops.{do_loop_at, for_loop_at, test_at, turn_at};
ghost use Rattle.ba_interp.specs.Parts.{parts_of};
ghost use Rattle.ba_interp.specs.Paths.{steps_of};
ghost use Rattle.ba_interp.specs.Settings.{call_value_at, context_at, given_at};

use crate::flows::{assert_that, flow_after_body, flow_after_loop, past_bound, result_of};
use crate::frames::{begin_frame, end_frame, keep};
use crate::machine::Machine;
use crate::path::Path;
use crate::relaxing::{Wanted, all_elements, choice_at, fitting, no_value, one_element};
use crate::setting::{Frame, Setting};
use crate::stop::Stop;
use crate::values::{is_zero, operate, truth_of};
use ba_numbers::ids::{CallId, FnId, StmtId, VarId};
use ba_numbers::numbers::{CType, apply_one, convert};
use ba_tree::lookup::{entered, function_of, label_at, variable_of};
use ba_tree::run::{Argument, Exit, Flow, Halt, Step};
use ba_tree::tree::{Arg, Expr, Stmt};

/// The value of an expression, within the statement that is being executed.
#[cycle(run)]
pub fn eval(
    setting: &Setting,
    frame: Frame,
    path: &Path,
    here: StmtId,
    machine: &mut Machine,
    expr: &Expr,
) -> Result<i64, Stop>
    ensures { Did result machine.new
        (eval (context_at setting.now frame) (steps_of path.now) here expr.now machine.old) }
{
    match expr {
        Expr::Const { value, .. } => Ok(*value),
        Expr::Var { var } => Ok(machine.value(*var)),
        Expr::Element { array, index } => {
            let index = eval(setting, frame, path, here, machine, index)?;
            machine.element(here, *array, index)
        }
        Expr::Unary { op, t, a } => {
            let a = eval(setting, frame, path, here, machine, a)?;
            Ok(apply_one(*op, *t, a))
        }
        Expr::Binary { op, t, a, b } => {
            let a = eval(setting, frame, path, here, machine, a)?;
            let b = eval(setting, frame, path, here, machine, b)?;
            operate(here, *op, *t, a, b)
        }
        Expr::AndAlso { a, b } => {
            let a = eval(setting, frame, path, here, machine, a)?;
            if is_zero(a) {
                return Ok(0);
            }
            let b = eval(setting, frame, path, here, machine, b)?;
            Ok(truth_of(b))
        }
        Expr::OrElse { a, b } => {
            let a = eval(setting, frame, path, here, machine, a)?;
            if is_zero(a) {
                let b = eval(setting, frame, path, here, machine, b)?;
                return Ok(truth_of(b));
            }
            Ok(1)
        }
        Expr::Select { when, yes, no, .. } => {
            let when = eval(setting, frame, path, here, machine, when)?;
            if is_zero(when) {
                eval(setting, frame, path, here, machine, no)
            } else {
                eval(setting, frame, path, here, machine, yes)
            }
        }
        Expr::Convert { t, a } => {
            let a = eval(setting, frame, path, here, machine, a)?;
            Ok(convert(*t, a))
        }
        Expr::Call {
            call,
            function,
            args,
        } => call_value(
            setting,
            frame,
            path,
            here,
            machine,
            *call,
            *function,
            args.as_slice(),
        ),
    }
}

/// The value of a call: its arguments, and then its function.
#[cycle(run)]
fn call_value(
    setting: &Setting,
    frame: Frame,
    path: &Path,
    here: StmtId,
    machine: &mut Machine,
    call: CallId,
    function: FnId,
    args: &[Arg],
) -> Result<i64, Stop>
    ensures { Did result machine.new
        (call_value_at (context_at setting.now frame)
        (steps_of path.now) here call function args.now machine.old) }
{
    let arguments = eval_args(setting, frame, path, here, machine, args)?;
    let inside = Path::within(&*path, Step::Call(call));
    invoke(
        setting,
        frame,
        &inside,
        here,
        function,
        arguments.as_slice(),
        machine,
    )
}

/// The values and arrays that arguments pass to a call, from left to right.
#[cycle(run)]
pub fn eval_args(
    setting: &Setting,
    frame: Frame,
    path: &Path,
    here: StmtId,
    machine: &mut Machine,
    args: &[Arg],
) -> Result<Vec<Argument>, Stop>
    ensures { DidAll result machine.new
        (each (map (eval_arg (context_at setting.now frame)
        (steps_of path.now) here) args.now) machine.old) }
{
    let mut arguments = Vec::with_capacity(setting.alloc, args.len())?;
    for arg in args {
        arguments.push(eval_arg(setting, frame, path, here, machine, arg)?)?;
    }
    Ok(arguments)
}

/// The value or array that an argument passes to a call.
#[cycle(run)]
fn eval_arg(
    setting: &Setting,
    frame: Frame,
    path: &Path,
    here: StmtId,
    machine: &mut Machine,
    arg: &Arg,
) -> Result<Argument, Stop>
    ensures { Did result machine.new
        (eval_arg (context_at setting.now frame) (steps_of path.now) here arg.now machine.old) }
{
    match arg {
        Arg::Value(value) => {
            let value = eval(setting, frame, path, here, machine, value)?;
            Ok(Argument::Value(value))
        }
        Arg::Array(array) => Ok(Argument::Array(machine.location(*array))),
    }
}

/// The result of a function for these arguments.
#[cycle(run)]
fn invoke(
    setting: &Setting,
    frame: Frame,
    path: &Path,
    here: StmtId,
    function: FnId,
    arguments: &[Argument],
    machine: &mut Machine,
) -> Result<i64, Stop>
    ensures { Did result machine.new
        ((context_at setting.now frame).calls
        (steps_of path.now) here function arguments.now machine.old) }
{
    if frame.frames == 0 {
        return Err(Stop::Halts(Halt::Beyond(here)));
    }
    let Some(function) = function_of(setting.program, function) else {
        return Ok(0);
    };
    let kept = keep(setting.alloc, function, machine)?;
    begin_frame(setting.alloc, setting.program, function, arguments, machine)?;
    let inside = Frame {
        result: function.result,
        frames: frame.frames - 1,
    };
    let flow = exec_all(setting, inside, path, machine, function.body.as_slice())?;
    end_frame(function, &kept, machine);
    Ok(result_of(flow))
}

/// The value of an expression, or that of the choice in its place.
#[cycle(run)]
fn given(
    setting: &Setting,
    frame: Frame,
    path: &Path,
    stmt: StmtId,
    wanted: Wanted,
    machine: &mut Machine,
    expr: &Expr,
) -> Result<i64, Stop>
    ensures { Did result machine.new
        (given_at (context_at setting.now frame)
        (steps_of path.now) stmt wanted expr.now machine.old) }
{
    match choice_at(setting, path, stmt, machine)? {
        None => eval(setting, frame, path, stmt, machine, expr),
        Some(values) => fitting(wanted, values.as_slice()),
    }
}

/// The values of expressions, from left to right.
#[cycle(run)]
fn eval_all(
    setting: &Setting,
    frame: Frame,
    path: &Path,
    here: StmtId,
    machine: &mut Machine,
    exprs: &[Expr],
) -> Result<Vec<i64>, Stop>
    ensures { DidAll result machine.new
        (each (map (eval (context_at setting.now frame)
        (steps_of path.now) here) exprs.now) machine.old) }
{
    let mut values = Vec::with_capacity(setting.alloc, exprs.len())?;
    for expr in exprs {
        values.push(eval(setting, frame, path, here, machine, expr)?)?;
    }
    Ok(values)
}

/// The values of an array's initialiser, or those of the choice in their place.
#[cycle(run)]
fn given_elements(
    setting: &Setting,
    frame: Frame,
    path: &Path,
    stmt: StmtId,
    machine: &mut Machine,
    array: VarId,
    exprs: &[Expr],
) -> Result<Vec<i64>, Stop>
    ensures { DidAll result machine.new
        (given_elements (context_at setting.now frame)
        (steps_of path.now) stmt array exprs.now machine.old) }
{
    let t = variable_of(setting.program, array).t;
    let count = machine.elements(array).len();
    match choice_at(setting, path, stmt, machine)? {
        None => eval_all(setting, frame, path, stmt, machine, exprs),
        Some(values) => all_elements(setting.alloc, t, count, values.as_slice()),
    }
}

/// The index and the value of a store, or those of the choice in their place.
#[cycle(run)]
fn given_element(
    setting: &Setting,
    frame: Frame,
    path: &Path,
    stmt: StmtId,
    machine: &mut Machine,
    array: VarId,
    index: &Expr,
    value: &Expr,
) -> Result<(i64, i64), Stop>
    ensures { Did result machine.new
        (given_element (context_at setting.now frame)
        (steps_of path.now) stmt array index.now value.now machine.old) }
{
    let t = variable_of(setting.program, array).t;
    let count = machine.elements(array).len();
    match choice_at(setting, path, stmt, machine)? {
        None => {
            let index = eval(setting, frame, path, stmt, machine, index)?;
            let value = eval(setting, frame, path, stmt, machine, value)?;
            Ok((index, value))
        }
        Some(values) => one_element(t, count, values.as_slice()),
    }
}

/// A call statement.
#[cycle(run)]
fn call_effect(
    setting: &Setting,
    frame: Frame,
    path: &Path,
    stmt: StmtId,
    machine: &mut Machine,
    call: CallId,
    function: FnId,
    args: &[Arg],
) -> Result<(), Stop>
    ensures { Did result machine.new
        (call_effect (context_at setting.now frame)
        (steps_of path.now) stmt call function args.now machine.old) }
{
    match choice_at(setting, path, stmt, machine)? {
        None => {
            call_value(setting, frame, path, stmt, machine, call, function, args)?;
            Ok(())
        }
        Some(values) => no_value(values.as_slice()),
    }
}

/// A `printf`.
#[cycle(run)]
fn print_effect(
    setting: &Setting,
    frame: Frame,
    path: &Path,
    stmt: StmtId,
    machine: &mut Machine,
    args: &[Expr],
) -> Result<(), Stop>
    ensures { Did result machine.new
        (print_effect (context_at setting.now frame)
        (steps_of path.now) stmt args.now machine.old) }
{
    match choice_at(setting, path, stmt, machine)? {
        None => {
            eval_all(setting, frame, path, stmt, machine, args)?;
            Ok(())
        }
        Some(values) => no_value(values.as_slice()),
    }
}

/// A variable's initialiser, or an assignment to it.
#[cycle(run)]
fn assign(
    setting: &Setting,
    frame: Frame,
    path: &Path,
    stmt: StmtId,
    machine: &mut Machine,
    var: VarId,
    value: &Expr,
) -> Result<Flow<Exit>, Stop>
    ensures { Did result machine.new
        (then_do (given_value (context_at setting.now frame) (steps_of path.now) stmt
        (type_of setting.now.program.now var) value.now machine.old) (set_value var)) }
{
    let t = variable_of(setting.program, var).t;
    let value = given(setting, frame, path, stmt, Wanted::Value(t), machine, value)?;
    machine.set_value(var, value);
    Ok(Flow::Next)
}

/// The parts of a loop: its condition, its body, and the step of a `for`.
#[derive(Clone, Copy)]
struct Loop<'a> {
    stmt: StmtId,
    when: &'a Expr,
    body: &'a Stmt,
    step: &'a [Stmt],
}

/// A statement.
#[cycle(run)]
fn exec(
    setting: &Setting,
    frame: Frame,
    path: &Path,
    machine: &mut Machine,
    stmt: &Stmt,
) -> Result<Flow<Exit>, Stop>
    ensures { Did result machine.new
        (exec (context_at setting.now frame) stmt.now (steps_of path.now) machine.old) }
{
    match stmt {
        Stmt::Block { body } => exec_all(setting, frame, path, machine, body.as_slice()),
        Stmt::Declare { var } => {
            machine.declare(variable_of(setting.program, *var).shape, *var);
            Ok(Flow::Next)
        }
        Stmt::Init { stmt, var, value } => assign(
            setting, frame, path, *stmt, machine, *var, value,
        ),
        Stmt::InitArray {
            stmt,
            array,
            values,
        } => {
            let values = given_elements(
                setting,
                frame,
                path,
                *stmt,
                machine,
                *array,
                values.as_slice(),
            )?;
            machine.set_elements(*array, values.as_slice());
            Ok(Flow::Next)
        }
        Stmt::Assign { stmt, var, value } => assign(
            setting, frame, path, *stmt, machine, *var, value,
        ),
        Stmt::Store {
            stmt,
            array,
            index,
            value,
        } => {
            let (index, value) = given_element(
                setting, frame, path, *stmt, machine, *array, index, value,
            )?;
            machine.set_element(*stmt, *array, index, value)
        }
        Stmt::If {
            stmt,
            when,
            yes,
            no,
        } => {
            let value = given(setting, frame, path, *stmt, Wanted::Truth, machine, when)?;
            if is_zero(value) {
                match no {
                    Some(no) => exec(setting, frame, path, machine, no),
                    None => Ok(Flow::Next),
                }
            } else {
                exec(setting, frame, path, machine, yes)
            }
        }
        Stmt::Switch {
            stmt,
            t,
            on,
            starts,
            other,
            body,
        } => {
            let value = given(setting, frame, path, *stmt, Wanted::Value(*t), machine, on)?;
            let label = label_at(starts.as_slice(), value, *other);
            let part = entered(label, body.as_slice());
            let flow = exec_all(setting, frame, path, machine, part)?;
            Ok(flow_after_loop(flow))
        }
        Stmt::While { stmt, when, body } => {
            let parts = Loop {
                stmt: *stmt,
                when,
                body,
                step: &[],
            };
            for_loop(setting, frame, path, machine, &parts)
        }
        Stmt::DoWhile { stmt, when, body } => {
            let parts = Loop {
                stmt: *stmt,
                when,
                body,
                step: &[],
            };
            do_loop(setting, frame, path, machine, &parts)
        }
        Stmt::For {
            stmt,
            first,
            when,
            step,
            body,
        } => {
            match exec_all(setting, frame, path, machine, first.as_slice())? {
                Flow::Next => {}
                Flow::Leaves(exit) => return Ok(Flow::Leaves(exit)),
            }
            let parts = Loop {
                stmt: *stmt,
                when,
                body,
                step: step.as_slice(),
            };
            for_loop(setting, frame, path, machine, &parts)
        }
        Stmt::Break => Ok(Flow::Leaves(Exit::Break)),
        Stmt::Continue => Ok(Flow::Leaves(Exit::Continue)),
        Stmt::Return { stmt, value } => {
            let t = frame.result.unwrap_or(CType::I32);
            let value = given(
                setting,
                frame,
                path,
                *stmt,
                Wanted::Value(t),
                machine,
                value,
            )?;
            Ok(Flow::Leaves(Exit::Return(value)))
        }
        Stmt::ReturnNone => Ok(Flow::Leaves(Exit::Return(0))),
        Stmt::CallStmt {
            stmt,
            call,
            function,
            args,
        } => {
            call_effect(
                setting,
                frame,
                path,
                *stmt,
                machine,
                *call,
                *function,
                args.as_slice(),
            )?;
            Ok(Flow::Next)
        }
        Stmt::Print { stmt, args } => {
            print_effect(setting, frame, path, *stmt, machine, args.as_slice())?;
            Ok(Flow::Next)
        }
        Stmt::Assert { stmt, when } => {
            let value = eval(setting, frame, path, *stmt, machine, when)?;
            assert_that(*stmt, value)
        }
    }
}

/// Statements in a row. What comes after one that leaves is skipped.
#[cycle(run)]
pub fn exec_all(
    setting: &Setting,
    frame: Frame,
    path: &Path,
    machine: &mut Machine,
    body: &[Stmt],
) -> Result<Flow<Exit>, Stop>
    ensures { Did result machine.new
        (exec_all (context_at setting.now frame) (steps_of path.now) body.now machine.old) }
{
    for stmt in body {
        match exec(setting, frame, path, machine, stmt)? {
            Flow::Next => {}
            Flow::Leaves(exit) => return Ok(Flow::Leaves(exit)),
        }
    }
    Ok(Flow::Next)
}

/// An iteration of a loop: the body, and the step unless the body leaves the loop.
#[cycle(run)]
fn turn(
    setting: &Setting,
    frame: Frame,
    path: &Path,
    machine: &mut Machine,
    parts: &Loop,
) -> Result<Flow<Exit>, Stop>
    ensures { Did result machine.new
        (turn_at (context_at setting.now frame) (parts_of parts.now)
        (steps_of path.now) machine.old) }
{
    let flow = exec(setting, frame, path, machine, parts.body)?;
    match flow_after_body(flow) {
        Flow::Next => exec_all(setting, frame, path, machine, parts.step),
        Flow::Leaves(exit) => Ok(Flow::Leaves(exit)),
    }
}

/// A `while`, or a `for` after its first part.
#[cycle(run)]
fn for_loop(
    setting: &Setting,
    frame: Frame,
    path: &Path,
    machine: &mut Machine,
    parts: &Loop,
) -> Result<Flow<Exit>, Stop>
    ensures { Did result machine.new
        (for_loop_at (context_at setting.now frame) (parts_of parts.now)
        (steps_of path.now) machine.old) }
{
    for k in 0..setting.turns {
        let inside = Path::within(&*path, Step::Turn(parts.stmt, k + 1));
        let value = given(
            setting,
            frame,
            &inside,
            parts.stmt,
            Wanted::Truth,
            machine,
            parts.when,
        )?;
        if is_zero(value) {
            return Ok(Flow::Next);
        }
        match turn(setting, frame, &inside, machine, parts)? {
            Flow::Next => {}
            Flow::Leaves(exit) => return Ok(flow_after_loop(Flow::Leaves(exit))),
        }
    }
    let past = Path::within(&*path, Step::Turn(parts.stmt, setting.turns + 1));
    let value = given(
        setting,
        frame,
        &past,
        parts.stmt,
        Wanted::Truth,
        machine,
        parts.when,
    )?;
    past_bound(parts.stmt, value)
}

/// A `do` loop.
#[cycle(run)]
fn do_loop(
    setting: &Setting,
    frame: Frame,
    path: &Path,
    machine: &mut Machine,
    parts: &Loop,
) -> Result<Flow<Exit>, Stop>
    ensures { Did result machine.new
        (do_loop_at (context_at setting.now frame) (parts_of parts.now)
        (steps_of path.now) machine.old) }
{
    for k in 0..setting.turns {
        let value = test_behind(setting, frame, path, machine, parts, k)?;
        if is_zero(value) {
            return Ok(Flow::Next);
        }
        let inside = Path::within(&*path, Step::Turn(parts.stmt, k + 1));
        match turn(setting, frame, &inside, machine, parts)? {
            Flow::Next => {}
            Flow::Leaves(exit) => return Ok(flow_after_loop(Flow::Leaves(exit))),
        }
    }
    let value = test_behind(setting, frame, path, machine, parts, setting.turns)?;
    past_bound(parts.stmt, value)
}

/// The condition of a `do` at the end of iteration `turn`; none comes before the first iteration.
#[cycle(run)]
fn test_behind(
    setting: &Setting,
    frame: Frame,
    path: &Path,
    machine: &mut Machine,
    parts: &Loop,
    turn: u32,
) -> Result<i64, Stop>
    ensures { Did result machine.new
        (test_behind (test_at (context_at setting.now frame) (parts_of parts.now)
        (steps_of path.now)) turn machine.old) }
{
    if turn == 0 {
        return Ok(1);
    }
    let inside = Path::within(&*path, Step::Turn(parts.stmt, turn));
    given(
        setting,
        frame,
        &inside,
        parts.stmt,
        Wanted::Truth,
        machine,
        parts.when,
    )
}
