//! Whole programs.

ghost use Rattle.std.specs.Prelude.{◌≡◌, length, IfOk};
ghost use Rattle.ba_code.specs.Run.{code_of_loops};
ghost use Rattle.ba_inline.specs.Outcomes.{HasOutcomes};
ghost use Rattle.ba_inline.specs.Translating.{IsTranslation, IsTyped, code_with};

use crate::blocks::add_body;
use crate::declared::Declared;
use crate::frames::{Exits, Frame, Inliner, Setting};
use crate::scope::Scope;
use crate::starting::{params_of, start_all};
use ba_code::fitting::{are_typed, loop_tree_of};
use ba_code::nodes::{Node, Operand, Param};
use ba_code::trees::{Code, LoopTree};
use ba_items::Items;
use ba_numbers::numbers::CType;
use ba_tree::lookup::function_of;
use ba_tree::tree::Program;
use std::alloc::{AllocError, Global};

/// The translation of a program: its declarations, the parameters of `main`, and the nodes.
#[derive(Drop)]
struct Translation {
    declared: Declared,
    params: Vec<Param>,
    body: Vec<Node>,
}

/// The code of the globals' initialisers, and then of `main`.
fn translate(setting: &Setting, frames: u32) -> Result<Translation, AllocError>
    ensures { IfOk result (λ made. IsTranslation setting.now.program.now frames
        made.declared made.params.items made.body.items) }
{
    let program = setting.program;
    let Some(main) = function_of(program, program.main) else {
        return Err(AllocError);
    };
    let mut declared = Declared::new(setting.alloc);
    let mut globals = Scope::new(setting.alloc, program.variables.len())?;
    start_all(
        setting,
        &mut globals,
        &mut declared,
        program.globals.as_slice(),
    )?;
    let counts = declared.counts();
    let mut scope = globals.copy(setting.alloc)?;
    start_all(setting, &mut scope, &mut declared, main.params.as_slice())?;
    start_all(setting, &mut scope, &mut declared, main.locals.as_slice())?;
    let home = declared.variable(main.result.unwrap_or(CType::I32))?;
    let frame = Frame {
        home,
        exits: Exits {
            breaks: false,
            continues: false,
        },
        result: main.result,
        frames: frames.saturating_sub(1),
    };
    let mut body = Vec::new(setting.alloc);
    let before = Inliner {
        setting: &*setting,
        scope: &globals,
        frame,
        path: &[],
    };
    before.statements(&mut declared, &mut body, program.inits.as_slice())?;
    let inside = Inliner {
        setting: &*setting,
        scope: &scope,
        frame,
        path: &[],
    };
    inside.statements(&mut declared, &mut body, main.body.as_slice())?;
    let mut whole = Vec::new(setting.alloc);
    add_body(&mut whole, body)?;
    let params = params_of(setting, &scope, counts, &declared, main.params.as_slice())?;
    Ok(Translation {
        declared,
        params,
        body: whole,
    })
}

/// The tree of a translation. Its parts fit together and keep to their types; in a translation of a program
/// they always do.
fn tree_of(alloc: Global, made: Translation) -> Result<LoopTree, AllocError>
    ensures { IfOk result (λ tree. IsTyped made.declared made.body.items
        × (code_of_loops tree ≡ code_with
        (length made.declared.vars) made.declared made.params.items made.body.items)) }
{
    let vars = made.declared.vars().len();
    if !are_typed(
        made.declared.vars(),
        made.declared.arrays(),
        made.body.as_slice(),
    ) {
        return Err(AllocError);
    }
    if vars > u32::MAX as usize {
        return Err(AllocError);
    }
    let code = Code {
        vars: vars as u32,
        arrays: Items::from_vec(made.declared.into_arrays()),
        params: Items::from_vec(made.params),
        body: Items::from_vec(made.body),
    };
    match loop_tree_of(alloc, code)? {
        Some(tree) => Ok(tree),
        None => Err(AllocError),
    }
}

/// The program without calls. Each call is replaced by the function's body (C90 6.3.2.2). Expressions become
/// operators over constants and variables, in the order of their evaluation (C90 6.3). A call with already
/// `frames` frames active, that of `main` among them, is replaced by the end of the run. Each statement that
/// may be relaxed keeps its place.
///
/// The tree has exactly the outcome of the program. This holds for all inputs that fit `main`, all bounds on
/// iterations, all statements or places that may be relaxed, and all choices. The only error is out of
/// memory.
pub fn inline(alloc: Global, program: &Program, frames: u32) -> Result<LoopTree, AllocError>
    ensures { IfOk result (λ tree. HasOutcomes program.now frames tree) }
{
    let setting = Setting { alloc, program };
    let made = translate(&setting, frames)?;
    tree_of(alloc, made)
}
