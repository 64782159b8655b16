//! Conditions, the heads of `for`s, and statements that hold others, from their typed parts (C90 6.6.4,
//! 6.6.5).

ghost use Rattle.std.specs.Prelude.{◌≡◌, ◌∷◌, ◌++◌, [], map, IfOk, OnOk};
ghost use Rattle.ba_statements.specs.Adding.{GivesTest, behind_part, state};
ghost use Rattle.ba_statements.specs.Controlling.{GivesHead};
ghost use Rattle.ba_typing.specs.Expressions.{typed_conditional};
ghost use Rattle.ba_typing.specs.Names.{Scope};
ghost use Rattle.ba_typing.specs.Statements.{add_first, add_step, for_scope, for_test, one, one_of, test_of};
ghost use Rattle.ba_tree.specs.Trees.{block, do_while, for_loop, if_else, if_then, no_stmts, stmts_of, tree_of_expr, tree_of_stmt, while_loop};

use crate::assignments::add_simples;
use crate::declarations::add_declarators;
use crate::work::{Work, put};
use ba_expressions::expressions::conditional;
use ba_expressions::inferred;
use ba_expressions::tally::HEIGHT_LIMIT;
use ba_expressions::uses::add_tag_faults;
use ba_numbers::ids::{At, StmtId};
use ba_numbers::numbers::CType;
use ba_scopes::scopes::{Functions, Scope};
use ba_tree::tree::{Expr, Stmt, StmtKind};
use ba_trees::tree::expressions::Conditional;
use ba_trees::tree::statements::{Condition, ForFirst, ForHead, Simples};
use ba_typing::names::{tag_of_type, type_named};
use std::alloc::{AllocError, Global};

/// A numbered condition: its number and its typed tree.
#[derive(Drop)]
pub struct Test {
    pub stmt: StmtId,
    pub when: Expr,
}

/// A numbered condition, and the typed statement that it controls.
#[derive(Drop)]
pub struct Guarded {
    pub test: Test,
    pub body: Stmt,
}

/// The head of a `for`: the typed statements before the loop, its condition, and the typed statements of its
/// step.
#[derive(Drop)]
pub struct Head {
    pub first: Vec<Stmt>,
    pub test: Test,
    pub step: Vec<Stmt>,
}

/// A condition, which is a statement at the first token of its expression (C90 6.6.4, 6.6.5).
///
/// The only error is out of memory, also if the numbers run out.
fn add_test<'a>(
    alloc: Global,
    c: &'a Conditional,
    scope: &Scope<'a>,
    work: &mut Work,
) -> Result<Test, AllocError>
    ensures { IfOk result (λ t. GivesTest (typed_conditional c.now scope.now work.old.tally.calls)
        scope.now
        work.old work.new t) }
{
    let j = conditional(alloc, scope, c, &mut work.tally)?;
    work.tally.add_limit(HEIGHT_LIMIT, j.height, j.first);
    let stmt = work.number(j.first, StmtKind::Condition)?;
    Ok(Test { stmt, when: j.expr })
}

/// A condition in its parentheses.
///
/// The only error is out of memory, also if the numbers run out.
pub(crate) fn add_condition<'a>(
    alloc: Global,
    condition: &'a Condition,
    scope: &Scope<'a>,
    work: &mut Work,
) -> Result<Test, AllocError>
    ensures { IfOk result (λ t. GivesTest (test_of condition.now scope.now work.old.tally.calls)
        scope.now
        work.old work.new t) }
{
    add_test(alloc, &condition.test, scope, work)
}

/// The absent condition of a `for`: the constant 1 at this position (C90 6.6.5.3).
///
/// The only error is out of memory, also if the numbers run out.
fn add_absent_test(at: At, work: &mut Work) -> Result<Test, AllocError>
    ensures { IfOk result (λ t. (scope : Scope) →
        GivesTest (one at scope work.old.tally.calls) scope work.old work.new t) }
{
    let j = inferred::constant(at, CType::I32, 1)?;
    work.tally.add_limit(HEIGHT_LIMIT, j.height, j.first);
    let stmt = work.number(j.first, StmtKind::Condition)?;
    Ok(Test { stmt, when: j.expr })
}

/// The condition of a `for`, written or absent.
///
/// The only error is out of memory, also if the numbers run out.
fn for_test<'a>(
    alloc: Global,
    head: &'a ForHead,
    scope: &Scope<'a>,
    work: &mut Work,
) -> Result<Test, AllocError>
    ensures { IfOk result (λ t. GivesTest (for_test head.now scope.now work.old.tally.calls)
        scope.now
        work.old work.new t) }
{
    match &head.test {
        None => add_absent_test(head.second_semicolon.at, work),
        Some(c) => add_test(alloc, c, scope, work),
    }
}

/// The first part of a `for`, before the loop. A declaration has its own scope.
///
/// The only error is out of memory, also if the numbers run out.
fn add_first<'a>(
    alloc: Global,
    first: &'a ForFirst,
    scope: &mut Scope<'a>,
    work: &mut Work,
    stmts: &mut Vec<Stmt>,
) -> Result<(), AllocError>
    ensures { OnOk result (state scope.new work.new stmts.new
        ≡ behind_part (add_first first.now)
        (state (for_scope first.now scope.old) work.old stmts.old)) }
{
    match first {
        ForFirst::Declaration { name, declarators } => {
            scope.enter()?;
            add_tag_faults(tag_of_type(name), scope, &mut work.tally);
            let functions = Functions::new(alloc);
            let t = type_named(name);
            add_declarators(alloc, &functions, t, declarators, scope, work, stmts)
        }
        ForFirst::Simples(s) => add_simples(alloc, s, scope, work, stmts),
        ForFirst::Nothing => Ok(()),
    }
}

/// The step of a `for`.
///
/// The only error is out of memory, also if the numbers run out.
fn add_step<'a>(
    alloc: Global,
    step: &'a Option<Simples>,
    scope: &Scope<'a>,
    work: &mut Work,
    stmts: &mut Vec<Stmt>,
) -> Result<(), AllocError>
    ensures { OnOk result (state scope.now work.new stmts.new
        ≡ behind_part (add_step step.now) (state scope.now work.old stmts.old)) }
{
    match step {
        None => Ok(()),
        Some(s) => add_simples(alloc, s, scope, work, stmts),
    }
}

/// The head of a `for` (C90 6.6.5.3). What it declares is in scope from now on.
///
/// The only error is out of memory, also if the numbers run out.
pub(crate) fn add_head<'a>(
    alloc: Global,
    head: &'a ForHead,
    scope: &mut Scope<'a>,
    work: &mut Work,
) -> Result<Head, AllocError>
    ensures { IfOk result (λ h. GivesHead head.now scope.old scope.new work.old work.new h) }
{
    let mut first = Vec::new(alloc);
    add_first(alloc, &head.first, scope, work, &mut first)?;
    let test = for_test(alloc, head, scope, work)?;
    let mut step = Vec::new(alloc);
    add_step(alloc, &head.step, scope, work, &mut step)?;
    Ok(Head { first, test, step })
}

/// An empty block, for a missing statement. It takes no memory.
fn no_stmt(alloc: Global) -> Stmt
    ensures { tree_of_stmt result ≡ block no_stmts }
{
    Stmt::Block {
        body: Vec::new(alloc),
    }
}

/// The first of these statements, an empty block if there is none.
pub(crate) fn first_stmt(alloc: Global, mut stmts: Vec<Stmt>) -> Stmt
    ensures { tree_of_stmt result ≡ one_of (map tree_of_stmt stmts.items) }
{
    stmts.truncate(1);
    match stmts.pop() {
        None => no_stmt(alloc),
        Some(stmt) => stmt,
    }
}

/// Appends an `if` without `else` (C90 6.6.4.1). The only error is out of memory.
pub(crate) fn put_if(
    alloc: Global,
    guarded: Guarded,
    stmts: &mut Vec<Stmt>,
) -> Result<(), AllocError>
    ensures { OnOk result (map tree_of_stmt stmts.new.items ≡ map tree_of_stmt stmts.old.items
        ++ if_then guarded.test.stmt (tree_of_expr guarded.test.when)
        (tree_of_stmt guarded.body) ∷ []) }
{
    let Guarded {
        test: Test { stmt, when },
        body,
    } = guarded;
    let yes = Box::new(alloc, body)?;
    put(
        stmts,
        Stmt::If {
            stmt,
            when,
            yes,
            no: None,
        },
    )
}

/// Appends an `if` with `else` (C90 6.6.4.1). The only error is out of memory.
pub(crate) fn put_if_else(
    alloc: Global,
    guarded: Guarded,
    other: Stmt,
    stmts: &mut Vec<Stmt>,
) -> Result<(), AllocError>
    ensures { OnOk result (map tree_of_stmt stmts.new.items ≡ map tree_of_stmt stmts.old.items
        ++ if_else guarded.test.stmt (tree_of_expr guarded.test.when) (tree_of_stmt guarded.body)
        (tree_of_stmt other) ∷ []) }
{
    let Guarded {
        test: Test { stmt, when },
        body,
    } = guarded;
    let yes = Box::new(alloc, body)?;
    let no = Box::new(alloc, other)?;
    put(
        stmts,
        Stmt::If {
            stmt,
            when,
            yes,
            no: Some(no),
        },
    )
}

/// Appends a `while` (C90 6.6.5.1). The only error is out of memory.
pub(crate) fn put_while(
    alloc: Global,
    test: Test,
    body: Stmt,
    stmts: &mut Vec<Stmt>,
) -> Result<(), AllocError>
    ensures { OnOk result (map tree_of_stmt stmts.new.items ≡ map tree_of_stmt stmts.old.items
        ++ while_loop test.stmt (tree_of_expr test.when) (tree_of_stmt body) ∷ []) }
{
    let Test { stmt, when } = test;
    let body = Box::new(alloc, body)?;
    put(stmts, Stmt::While { stmt, when, body })
}

/// Appends a `do` (C90 6.6.5.2). The only error is out of memory.
pub(crate) fn put_do(
    alloc: Global,
    test: Test,
    body: Stmt,
    stmts: &mut Vec<Stmt>,
) -> Result<(), AllocError>
    ensures { OnOk result (map tree_of_stmt stmts.new.items ≡ map tree_of_stmt stmts.old.items
        ++ do_while test.stmt (tree_of_expr test.when) (tree_of_stmt body) ∷ []) }
{
    let Test { stmt, when } = test;
    let body = Box::new(alloc, body)?;
    put(stmts, Stmt::DoWhile { stmt, when, body })
}

/// Appends a `for` (C90 6.6.5.3). The only error is out of memory.
pub(crate) fn put_for(
    alloc: Global,
    head: Head,
    body: Stmt,
    stmts: &mut Vec<Stmt>,
) -> Result<(), AllocError>
    ensures { OnOk result (map tree_of_stmt stmts.new.items ≡ map tree_of_stmt stmts.old.items
        ++ for_loop head.test.stmt (stmts_of (map tree_of_stmt head.first.items))
        (tree_of_expr head.test.when) (stmts_of (map tree_of_stmt head.step.items))
        (tree_of_stmt body) ∷ []) }
{
    let Head {
        first,
        test: Test { stmt, when },
        step,
    } = head;
    let body = Box::new(alloc, body)?;
    put(
        stmts,
        Stmt::For {
            stmt,
            first,
            when,
            step,
            body,
        },
    )
}
