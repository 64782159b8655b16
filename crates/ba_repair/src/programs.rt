//! The edited program.

ghost use Rattle.std.specs.Prelude.{◌≡◌, map, IfOk};
ghost use Rattle.ba_repair.specs.Changes.{changed_function};
ghost use Rattle.ba_repair.specs.Edits.{IsEditOf};
ghost use Rattle.ba_repair.specs.Good.{IsEdited};
ghost use Rattle.ba_tree.specs.Trees.{tree_of_function};

use crate::listing::Edit;
use crate::statements::copy_stmts;
use ba_items::Items;
use ba_tree::tree::{Function, Program};
use std::alloc::{AllocError, Global};

/// The copy of a function.
fn copy_function(alloc: Global, edit: Edit, function: &Function) -> Result<Function, AllocError>
    ensures { IfOk result (λ copy. tree_of_function copy
        ≡ changed_function edit (tree_of_function function.now)) }
{
    let params = Items::from_slice(alloc, function.params.as_slice())?;
    let locals = Items::from_slice(alloc, function.locals.as_slice())?;
    let body = copy_stmts(alloc, edit, function.body.as_slice())?;
    Ok(Function {
        result: function.result,
        params,
        locals,
        body: Items::from_vec(body),
    })
}

/// The copies of functions.
fn copy_functions(
    alloc: Global,
    edit: Edit,
    functions: &[Function],
) -> Result<Items<Function>, AllocError>
    ensures { IfOk result (λ copies. map tree_of_function copies
        ≡ map (changed_function edit) (map tree_of_function functions.now)) }
{
    let mut copies = Items::new(alloc);
    for function in functions {
        let copy = copy_function(alloc, edit, function)?;
        copies.push(copy)?;
    }
    Ok(copies)
}

/// The program with one of its edits made, which changes every execution of the statement. It is a program
/// again: its parts fit together.
///
/// The only error is out of memory.
pub fn edited(alloc: Global, program: &Program, edit: &Edit) -> Result<Program, AllocError>
    requires own { IsEditOf program.now edit.now }
    ensures { IfOk result (IsEdited program.now edit.now) }
{
    let variables = Items::from_slice(alloc, program.variables.as_slice())?;
    let globals = Items::from_slice(alloc, program.globals.as_slice())?;
    let statements = Items::from_slice(alloc, program.statements.as_slice())?;
    let inits = copy_stmts(alloc, *edit, program.inits.as_slice())?;
    let functions = copy_functions(alloc, *edit, program.functions.as_slice())?;
    Ok(Program {
        variables,
        globals,
        inits: Items::from_vec(inits),
        functions,
        main: program.main,
        statements,
    })
}
