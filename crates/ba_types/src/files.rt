//! Functions and files (C90 6.7).

ghost use Rattle.std.specs.Prelude.{◌≡◌, ◌-◌, cond, ◌∷◌, ◌++◌, [], List, option_map, map, IfOk, OnOk};
ghost use Rattle.ba_trees.specs.declared.tree.statements.External.{External};
ghost use Rattle.ba_statements.specs.Adding.{before_of, behind_part, state};
ghost use Rattle.ba_typing.specs.Declarations.{in_order};
ghost use Rattle.ba_typing.specs.Files.{Checked, add_external, add_external_form, add_externals, add_function, body_parts, params_of, vars_from};
ghost use Rattle.ba_types.specs.Filing.{CheckedParts, GivesFunction, IsTyped, behind_externals, error_of, file_state_with, file_state, with_part};
ghost use Rattle.ba_typing.specs.Names.{definition_in, main_name, type_specified};
ghost use Rattle.ba_tree.specs.Trees.{StmtTree, tree_of_function};
ghost use Rattle.ba_typing.specs.declared.meanings.Signature.{Signature};

use crate::parameters::{Owner, add_params};
use crate::signatures::{
    add_signature, add_signature_faults, definitions_behind, functions, signature,
};
use ba_expressions::uses::is_main;
use ba_items::Items;
use ba_numbers::ids::{At, FnId, VarId};
use ba_numbers::numbers::CType;
use ba_scopes::scopes::{Functions, Scope};
use ba_statements::declarations::{add_optional_declarators, add_specifiers};
use ba_statements::statements::add_items;
use ba_statements::work::Work;
use ba_tree::tree::{Function, Parts, Program, Stmt};
use ba_trees::tree::declarations::Parameters;
use ba_trees::tree::statements::{External, ExternalForm, FunctionEnd, RawProgram};
use ba_typing::error::TypeError;
use ba_typing::fault::{Cause, Fault};
use ba_typing::meanings::Signature;
use ba_typing::names::type_specified;
use ba_typing::text::Text;
use std::alloc::{AllocError, Global};

/// Appends the items of a function's body; a prototype has none.
///
/// The only error is out of memory, also if the numbers run out.
fn add_body<'a>(
    alloc: Global,
    end: &'a FunctionEnd,
    scope: &mut Scope<'a>,
    work: &mut Work,
    stmts: &mut Vec<Stmt>,
) -> Result<(), AllocError>
    ensures { OnOk result (state scope.new work.new stmts.new
        ≡ behind_part (in_order (body_parts end.now)) (state scope.old work.old stmts.old)) }
{
    match end {
        FunctionEnd::Body(block) => add_items(alloc, block, scope, work, stmts),
        FunctionEnd::Prototype { .. } => Ok(()),
    }
}

/// The variables with the numbers from `low` on, below `high`. The only error is out of memory.
fn vars_between(alloc: Global, low: u32, high: u32) -> Result<Vec<VarId>, AllocError>
    ensures { IfOk result (λ vars. vars.items ≡ vars_from low (high - low)) }
{
    let mut vars = Vec::new(alloc);
    for n in low..high {
        vars.push(VarId(n))?;
    }
    Ok(vars)
}

/// Types a function in its own scope: its parameters and its body.
///
/// The only error is out of memory, also if the numbers run out.
fn add_inside<'a>(
    alloc: Global,
    owner: Owner,
    result_type: Option<CType>,
    parameters: &'a Parameters,
    end: &'a FunctionEnd,
    scope: &mut Scope<'a>,
    work: &mut Work,
) -> Result<Function, AllocError>
    ensures { IfOk result (λ f. GivesFunction owner result_type (params_of parameters.now) end.now
        scope.old work.old scope.new work.new f) }
{
    let outside = scope.count();
    add_params(alloc, owner, parameters, scope, work)?;
    let params = scope.vars_behind(alloc, outside)?;
    let first = work.next_variable()?;
    let mut body = Vec::new(alloc);
    add_body(alloc, end, scope, work, &mut body)?;
    let past = work.next_variable()?;
    let locals = vars_between(alloc, first.0, past.0)?;
    Ok(Function {
        result: result_type,
        params,
        locals: Items::from_vec(locals),
        body: Items::from_vec(body),
    })
}

/// Appends a function if it is defined. The only error is out of memory.
fn put_function(
    functions: &mut Vec<Function>,
    is_definition: bool,
    function: Function,
) -> Result<(), AllocError>
    ensures { OnOk result (map tree_of_function functions.new.items
        ≡ map tree_of_function functions.old.items
        ++ cond is_definition (tree_of_function function ∷ []) []) }
{
    if !is_definition {
        return Ok(());
    }
    functions.push(function)?;
    Ok(())
}

/// Types a function whose name is at this position, after these functions were declared. Nothing that it
/// declares is in scope after it.
///
/// The only error is out of memory, also if the numbers run out.
fn add_function<'a>(
    alloc: Global,
    at: At,
    signature: &Signature<'a>,
    parameters: &'a Parameters,
    end: &'a FunctionEnd,
    earlier: &Functions<'a>,
    scope: &mut Scope<'a>,
    work: &mut Work,
    functions: &mut Vec<Function>,
) -> Result<(), AllocError>
    ensures { OnOk result ((inits : List StmtTree) →
        file_state_with scope.new work.new inits functions.new
        ≡ with_part (file_state_with scope.old work.old inits functions.old)
        (add_function at signature.now (params_of parameters.now) end.now
        scope.old earlier.now (before_of work.old))) }
{
    add_signature_faults(at, signature, earlier, scope, &mut work.tally);
    let owner = Owner {
        is_main: is_main(&signature.name),
        is_defined: signature.is_definition,
        at,
    };
    let mark = scope.mark();
    scope.enter()?;
    scope.set_result(signature.result);
    let function = add_inside(alloc, owner, signature.result, parameters, end, scope, work)?;
    scope.back_to(mark);
    put_function(functions, signature.is_definition, function)
}

/// Types what follows the specifiers of an external declaration, which has this signature if it is a
/// function's.
///
/// The only error is out of memory, also if the numbers run out.
fn add_external_form<'a>(
    alloc: Global,
    external: &'a External,
    signature: &Option<Signature<'a>>,
    earlier: &Functions<'a>,
    scope: &mut Scope<'a>,
    work: &mut Work,
    inits: &mut Vec<Stmt>,
    functions: &mut Vec<Function>,
) -> Result<(), AllocError>
    ensures { OnOk result (file_state scope.new work.new inits.new functions.new
        ≡ with_part (file_state scope.old work.old inits.old functions.old)
        (add_external_form (type_specified external.now.specifiers) external.now.form signature.now
        scope.old earlier.now (before_of work.old))) }
{
    match &external.form {
        ExternalForm::Variables { declarators, .. } => {
            let t = type_specified(&external.specifiers);
            add_optional_declarators(alloc, earlier, t, declarators, scope, work, inits)
        }
        ExternalForm::Function {
            name,
            parameters,
            end,
            ..
        } => {
            let Some(signature) = signature else {
                return Ok(());
            };
            add_function(
                alloc, name.at, signature, parameters, end, earlier, scope, work, functions,
            )
        }
    }
}

/// Types an external declaration, which has this signature if it is a function's.
///
/// The only error is out of memory, also if the numbers run out.
fn add_external<'a>(
    alloc: Global,
    external: &'a External,
    signature: &Option<Signature<'a>>,
    earlier: &Functions<'a>,
    scope: &mut Scope<'a>,
    work: &mut Work,
    inits: &mut Vec<Stmt>,
    functions: &mut Vec<Function>,
) -> Result<(), AllocError>
    ensures { OnOk result (file_state scope.new work.new inits.new functions.new
        ≡ with_part (file_state scope.old work.old inits.old functions.old)
        (add_external external.now signature.now scope.old earlier.now (before_of work.old))) }
{
    add_specifiers(alloc, earlier, &external.specifiers, scope, work)?;
    add_external_form(
        alloc, external, signature, earlier, scope, work, inits, functions,
    )
}

/// Types external declarations, after these functions were declared, and counts the functions on.
///
/// The only error is out of memory, also if the numbers run out.
fn add_each<'a>(
    alloc: Global,
    externals: &'a [External],
    earlier: &mut Functions<'a>,
    scope: &mut Scope<'a>,
    work: &mut Work,
    inits: &mut Vec<Stmt>,
    functions: &mut Vec<Function>,
) -> Result<(), AllocError>
    ensures { OnOk result (file_state scope.new work.new inits.new functions.new
        ≡ behind_externals 0 externals.now earlier.old
        (file_state scope.old work.old inits.old functions.old)) }
{
    let mut definitions = 0u32;
    for external in externals {
        let declared = signature(alloc, definitions, external)?;
        add_external(
            alloc, external, &declared, earlier, scope, work, inits, functions,
        )?;
        definitions = definitions_behind(definitions, &declared)?;
        add_signature(earlier, declared)?;
    }
    Ok(())
}

/// Types all external declarations.
///
/// The only error is out of memory, also if the numbers run out.
fn add_externals<'a>(
    alloc: Global,
    externals: &'a [External],
    scope: &mut Scope<'a>,
    work: &mut Work,
    inits: &mut Vec<Stmt>,
    functions: &mut Vec<Function>,
) -> Result<(), AllocError>
    ensures { OnOk result (file_state scope.new work.new inits.new functions.new
        ≡ with_part (file_state scope.old work.old inits.old functions.old)
        (add_externals 0 externals.now scope.old [] (before_of work.old))) }
{
    let mut earlier = Functions::new(alloc);
    add_each(
        alloc,
        externals,
        &mut earlier,
        scope,
        work,
        inits,
        functions,
    )
}

/// The function `main`, if these declarations define it.
fn main_of(functions: &Functions) -> Option<FnId>
    ensures { result ≡ option_map (λ (s : Signature). s.function)
        (definition_in functions.now main_name) }
{
    match functions.definition(&Text::new(b"main")) {
        None => None,
        Some(signature) => Some(signature.function),
    }
}

/// What type checking makes of a file: its `main`, if it defines one, its globals, their initialisers, its
/// functions, and what was counted.
#[derive(Drop)]
pub struct TypedFile {
    pub main: Option<FnId>,
    pub globals: Items<VarId>,
    pub inits: Items<Stmt>,
    pub functions: Items<Function>,
    pub work: Work,
}

/// Types a whole file.
///
/// The only error is out of memory, also if the numbers run out.
fn typed_file(alloc: Global, externals: &[External]) -> Result<TypedFile, AllocError>
    ensures { IfOk result (λ file. IsTyped file externals.now) }
{
    let declared = functions(alloc, externals)?;
    let main = main_of(&declared);
    let mut scope = Scope::of_file(alloc, declared);
    let mut work = Work::new(alloc);
    let mut inits = Vec::new(alloc);
    let mut functions = Vec::new(alloc);
    add_externals(
        alloc,
        externals,
        &mut scope,
        &mut work,
        &mut inits,
        &mut functions,
    )?;
    let globals = scope.vars_behind(alloc, 0)?;
    Ok(TypedFile {
        main,
        globals,
        inits: Items::from_vec(inits),
        functions: Items::from_vec(functions),
        work,
    })
}

/// A fault as an answer.
fn error_of(fault: Fault) -> TypeError
    ensures { result ≡ error_of fault.cause fault.at }
{
    match fault.cause {
        Cause::UnknownName => TypeError::UnknownName(fault.at),
        Cause::Twice => TypeError::Twice(fault.at),
        Cause::WrongKind => TypeError::WrongKind(fault.at),
        Cause::WrongCount => TypeError::WrongCount(fault.at),
        Cause::BadLength => TypeError::BadLength(fault.at),
        Cause::BreakOutside => TypeError::BreakOutside(fault.at),
        Cause::CallInIndex => TypeError::CallInIndex(fault.at),
        Cause::Limit => TypeError::Limit(fault.at),
    }
}

/// The parts of a file's typed program; or the file's first fault; or `NoMain` if a `main` is all that is
/// missing.
fn verdict(file: TypedFile) -> Result<Parts, TypeError>
    ensures { (xs : List External) → IsTyped file xs → CheckedParts xs result }
{
    let TypedFile {
        main,
        globals,
        inits,
        functions,
        work,
    } = file;
    if let Some(fault) = work.tally.first_fault() {
        return Err(error_of(fault));
    }
    let Some(main) = main else {
        return Err(TypeError::NoMain);
    };
    let Work {
        variables,
        statements,
        ..
    } = work;
    Ok(Parts {
        variables,
        globals,
        inits,
        functions,
        main,
        statements,
    })
}

/// The parts of the typed program of a tree; or the tree's first fault; or `NoMain` if a `main` is all that
/// is missing.
///
/// The only other error is out of memory, also if the numbers run out.
fn typed_parts(alloc: Global, program: &RawProgram) -> Result<Parts, TypeError>
    ensures { CheckedParts program.now.externals.items result }
{
    let file = typed_file(alloc, program.externals.as_slice())?;
    verdict(file)
}

/// The typed program of a parse tree, or why there is none (C90 6.1.2, 6.3, 6.5 to 6.7).
///
/// Of several faults the first by position is answered, and at one position that with the smallest number.
/// `NoMain` comes if there is no fault and no definition of `main`. `Memory` is out of memory, also if the
/// numbers run out.
pub fn check(alloc: Global, program: &RawProgram) -> Result<Program, TypeError>
    ensures { Checked program.now.externals.items result }
{
    let Parts {
        variables,
        globals,
        inits,
        functions,
        main,
        statements,
    } = typed_parts(alloc, program)?;
    Ok(Program {
        variables,
        globals,
        inits,
        functions,
        main,
        statements,
    })
}
