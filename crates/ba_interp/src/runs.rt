//! Runs of whole programs.

ghost use Rattle.std.specs.Prelude.{◌≡◌, true, length, IfOk, OnOk};
ghost use Rattle.ba_tree.specs.Run.{are_bounds, enter_main, outcome_of_halt, run_main, run_of, start_of, with_input};
ghost use Rattle.ba_tree.specs.State.{Ending, State};
ghost use Rattle.ba_tree.specs.declared.run.Exit.{Exit};
ghost use Rattle.ba_tree.specs.declared.run.Flow.{Flow};
ghost use Rattle.ba_interp.specs.Doing.{Did};
ghost use Rattle.ba_interp.specs.Prefixes.{choices_left, outcome_at, prefix_outcome};
ghost use Rattle.ba_interp.specs.Settings.{context_at};

use crate::execution::exec_all;
use crate::frames::begin_all;
use crate::machine::Machine;
use crate::path::Path;
use crate::setting::{Frame, Setting};
use crate::stop::Stop;
use ba_choices::Choice;
use ba_items::Items;
use ba_numbers::ids::VarId;
use ba_tree::lookup::{main_body, main_locals, main_params, main_result, variable_of};
use ba_tree::run::{Allowed, Bounds, Exit, Flow, Halt, Input, Outcome};
use ba_tree::tree::Program;
use std::alloc::{AllocError, Global};

/// Each parameter of `main` has what the input gives it.
fn give_input(program: &Program, params: &[VarId], given: &[Items<i64>], machine: &mut Machine)
    ensures { machine.new ≡ with_input program.now params.now given.now machine.old }
{
    for (param, values) in params.iter().zip(given.iter()) {
        machine.give(
            variable_of(program, *param).shape,
            *param,
            values.as_slice(),
        );
    }
}

/// The frame of `main`, with the input.
fn enter_main(
    alloc: Global,
    program: &Program,
    input: &Input,
    machine: &mut Machine,
) -> Result<(), AllocError>
    ensures { OnOk result (machine.new ≡ enter_main program.now input.now machine.old) }
{
    begin_all(alloc, program, main_params(program), machine)?;
    begin_all(alloc, program, main_locals(program), machine)?;
    give_input(
        program,
        main_params(program),
        input.values.as_slice(),
        machine,
    );
    Ok(())
}

/// Executes the initialisers of the globals, and then `main` with the input.
fn run_main(
    setting: &Setting,
    frame: Frame,
    input: &Input,
    machine: &mut Machine,
) -> Result<Flow<Exit>, Stop>
    ensures { Did result machine.new
        (run_main (context_at setting.now frame) input.now machine.old) }
{
    let path = Path::main();
    match exec_all(
        setting,
        frame,
        &path,
        machine,
        setting.program.inits.as_slice(),
    )? {
        Flow::Next => {}
        Flow::Leaves(exit) => return Ok(Flow::Leaves(exit)),
    }
    enter_main(setting.alloc, setting.program, input, machine)?;
    exec_all(setting, frame, &path, machine, main_body(setting.program))
}

/// The outcome of a run that was ended early.
fn outcome_of_halt(halt: Halt) -> Outcome
    ensures { result ≡ outcome_of_halt halt }
{
    match halt {
        Halt::AssertFails(stmt) => Outcome::AssertFails(stmt),
        Halt::Trap(stmt) => Outcome::Trap(stmt),
        Halt::Beyond(stmt) => Outcome::Beyond(stmt),
        Halt::WrongChoices => Outcome::WrongChoices,
    }
}

/// The outcome of a run that ended like this, whatever choices are left.
fn outcome_at(ended: Result<Flow<Exit>, Stop>) -> Result<Outcome, AllocError>
    ensures { (s : State) (end : Ending (Flow Exit)) → Did ended s end
        → IfOk result (λ outcome. outcome ≡ outcome_at end) }
{
    match ended {
        Ok(_) => Ok(Outcome::Done),
        Err(Stop::Halts(halt)) => Ok(outcome_of_halt(halt)),
        Err(Stop::Memory) => Err(AllocError),
    }
}

/// The state at the start of a run: all globals 0, and no frame.
fn start<'a>(
    alloc: Global,
    program: &Program,
    choices: &'a [Choice],
) -> Result<Machine<'a>, AllocError>
    ensures { IfOk result (λ machine. machine ≡ start_of program.now choices.now) }
{
    let mut machine = Machine::new(alloc, program.variables.len(), choices)?;
    begin_all(alloc, program, program.globals.as_slice(), &mut machine)?;
    Ok(machine)
}

/// How a run ends that may leave choices, and how many it leaves.
#[derive(Clone, Copy, Debug, PartialEq, Eq)]
pub struct PrefixRun {
    pub outcome: Outcome,
    pub left: usize,
}

/// The outcome of a run that may leave choices, and how many it leaves. It is the run of a program on an
/// input within these bounds, where these statements or places may be relaxed. It uses up the first of these
/// choices, as many as it needs. A choice that is missing, or that does not fit, ends it by wrong choices;
/// one that is left does not.
///
/// The bounds have to be within their limits: 1 to 128 iterations and 1 to 32 frames. The only error is out
/// of memory.
pub fn run_prefix(
    alloc: Global,
    program: &Program,
    input: &Input,
    bounds: Bounds,
    allowed: &Allowed,
    choices: &[Choice],
) -> Result<PrefixRun, AllocError>
    requires bounds { are_bounds bounds ≡ true }
    ensures outcome { IfOk result (λ run. run.outcome
        ≡ prefix_outcome program.now input.now bounds allowed.now choices.now) }
    ensures left { IfOk result (λ run. run.left
        ≡ length (choices_left program.now input.now bounds allowed.now choices.now)) }
{
    let mut machine = start(alloc, program, choices)?;
    let setting = Setting {
        alloc,
        program,
        allowed,
        turns: bounds.turns,
    };
    let frame = Frame {
        result: main_result(program),
        frames: bounds.frames - 1,
    };
    let ended = run_main(&setting, frame, input, &mut machine);
    let outcome = outcome_at(ended)?;
    Ok(PrefixRun {
        outcome,
        left: machine.left(),
    })
}

/// The outcome of a run on an input, with what may be relaxed and with these choices. It is exactly that of
/// the definition (C90 5.1.2.3 in this profile), for every program and input.
///
/// The bounds have to be within their limits: 1 to 128 iterations and 1 to 32 frames. The only error is out
/// of memory.
pub fn run(
    alloc: Global,
    program: &Program,
    input: &Input,
    bounds: Bounds,
    allowed: &Allowed,
    choices: &[Choice],
) -> Result<Outcome, AllocError>
    requires bounds { are_bounds bounds ≡ true }
    ensures { IfOk result (λ outcome. outcome
        ≡ run_of program.now input.now bounds allowed.now choices.now) }
{
    let run = run_prefix(alloc, program, input, bounds, allowed, choices)?;
    if run.left == 0 {
        Ok(run.outcome)
    } else {
        Ok(Outcome::WrongChoices)
    }
}
