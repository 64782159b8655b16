//! Statements (C90 6.6).

ghost use Rattle.std.specs.Prelude.{◌≡◌, [], Some, map, OnOk, IfOk};
ghost use Rattle.ba_statements.specs.Adding.{before_of, behind_part, keep_each, keep_one, kept, printing, state};
ghost use Rattle.ba_statements.specs.Controlling.{GivesBody, GivesGuarded};
ghost use Rattle.ba_statements.specs.Labelling.{behind_group, behind_groups, switch_state};
ghost use Rattle.ba_typing.specs.Declarations.{Part, in_order};
ghost use Rattle.ba_typing.specs.Expressions.{Typing, typed_conditional};
ghost use Rattle.ba_typing.specs.Names.{jump_of, looping};
ghost use Rattle.ba_typing.specs.Statements.{add_assert, add_block, add_break, add_continue, add_do, add_for, add_if, add_item, add_jump, add_jump_with, add_printf, add_return, add_statement, add_switch, add_while, optional_typing, parts_of_block, parts_of_group, printed_typings, test_of};
ghost use Rattle.ba_statements.specs.declared.work.Work.{Work};

use crate::assignments::add_simple;
use crate::control::{
    Guarded, add_condition, add_head, first_stmt, put_do, put_for, put_if, put_if_else, put_while,
};
use crate::declarations::{add_declaration, whole};
use crate::labels::{Controlling, add_controlling, add_label, no_labels, put_switch};
use crate::work::{Work, number_of, put};
use ba_expressions::tally::Tally;
use ba_numbers::ids::At;
use ba_numbers::numbers::CType;
use ba_scopes::scopes::Scope;
use ba_tokens::token::Token;
use ba_tree::tree::{Expr, Stmt, StmtKind};
use ba_trees::tree::expressions::Conditional;
use ba_trees::tree::statements::{
    Block, BlockItem, Condition, ForHead, Group, Printed, Statement, StatementForm,
};
use ba_typing::fault::Cause;
use ba_typing::meanings::Labels;
use ba_typing::names::{Exits, Jump, jump_of};
use std::alloc::{AllocError, Global};

/// `return` with a value (C90 6.6.6.4).
///
/// The only error is out of memory, also if the numbers run out.
fn add_return<'a>(
    alloc: Global,
    at: At,
    c: &'a Conditional,
    scope: &Scope<'a>,
    work: &mut Work,
    stmts: &mut Vec<Stmt>,
) -> Result<(), AllocError>
    ensures { OnOk result (state scope.now work.new stmts.new
        ≡ behind_part (add_return at (typed_conditional c.now))
        (state scope.now work.old stmts.old)) }
{
    let j = whole(alloc, scope, at, c, &mut work.tally)?;
    let t = scope.result();
    work.tally.add_if(t.is_none(), Cause::WrongKind, at);
    let value = j.into_tree(alloc, t.unwrap_or(CType::I32))?;
    let stmt = work.number(at, StmtKind::Return)?;
    put(stmts, Stmt::Return { stmt, value })
}

/// `assert` (C90 7.2.1.1).
///
/// The only error is out of memory, also if the numbers run out.
fn add_assert<'a>(
    alloc: Global,
    at: At,
    condition: &'a Condition,
    scope: &Scope<'a>,
    work: &mut Work,
    stmts: &mut Vec<Stmt>,
) -> Result<(), AllocError>
    ensures { OnOk result (state scope.now work.new stmts.new
        ≡ behind_part (add_assert at (test_of condition.now))
        (state scope.now work.old stmts.old)) }
{
    let j = whole(alloc, scope, at, &condition.test, &mut work.tally)?;
    let stmt = work.number(at, StmtKind::Assert)?;
    put(stmts, Stmt::Assert { stmt, when: j.expr })
}

/// A value that a `printf` prints.
///
/// The only error is out of memory, also if the numbers for calls or heights run out.
fn add_printed<'a>(
    alloc: Global,
    at: At,
    c: &'a Conditional,
    scope: &Scope<'a>,
    tally: &mut Tally,
    values: &mut Vec<Expr>,
) -> Result<(), AllocError>
    ensures { OnOk result (kept tally.new values.new
        ≡ keep_one (printing at) (typed_conditional c.now scope.now tally.old.calls)
        (kept tally.old values.old)) }
{
    let j = whole(alloc, scope, at, c, tally)?;
    values.push(j.expr)?;
    Ok(())
}

/// The values that a `printf` prints.
///
/// The only error is out of memory, also if the numbers for calls or heights run out.
fn printed_values<'a>(
    alloc: Global,
    at: At,
    printed: &'a Printed,
    scope: &Scope<'a>,
    tally: &mut Tally,
) -> Result<Vec<Expr>, AllocError>
    ensures { IfOk result (λ values. kept tally.new values
        ≡ keep_each (printing at) scope.now (printed_typings printed.now)
        (record { trees = []; tally = tally.old })) }
{
    let mut values = Vec::new(alloc);
    for next in &printed.values {
        add_printed(alloc, at, &next.expression, scope, tally, &mut values)?;
    }
    Ok(values)
}

/// `printf` (C90 7.9.6.3).
///
/// The only error is out of memory, also if the numbers run out.
fn add_printf<'a>(
    alloc: Global,
    at: At,
    printed: &'a Printed,
    scope: &Scope<'a>,
    work: &mut Work,
    stmts: &mut Vec<Stmt>,
) -> Result<(), AllocError>
    ensures { OnOk result (state scope.now work.new stmts.new
        ≡ behind_part (add_printf at (printed_typings printed.now))
        (state scope.now work.old stmts.old)) }
{
    let args = printed_values(alloc, at, printed, scope, &mut work.tally)?;
    let stmt = work.number(at, StmtKind::Call)?;
    put(stmts, Stmt::Print { stmt, args })
}

/// `break` (C90 6.6.6.3).
///
/// The only error is out of memory.
fn add_break<'a>(
    at: At,
    scope: &Scope<'a>,
    work: &mut Work,
    stmts: &mut Vec<Stmt>,
) -> Result<(), AllocError>
    ensures { OnOk result (state scope.now work.new stmts.new
        ≡ behind_part (add_break at) (state scope.now work.old stmts.old)) }
{
    work.tally
        .add_if(!scope.exits().breaks, Cause::BreakOutside, at);
    put(stmts, Stmt::Break)
}

/// `continue` (C90 6.6.6.2).
///
/// The only error is out of memory.
fn add_continue<'a>(
    at: At,
    scope: &Scope<'a>,
    work: &mut Work,
    stmts: &mut Vec<Stmt>,
) -> Result<(), AllocError>
    ensures { OnOk result (state scope.now work.new stmts.new
        ≡ behind_part (add_continue at) (state scope.now work.old stmts.old)) }
{
    work.tally
        .add_if(!scope.exits().continues, Cause::BreakOutside, at);
    put(stmts, Stmt::Continue)
}

/// A jump without a value, by its keyword (C90 6.6.6).
///
/// The only error is out of memory.
fn add_jump<'a>(
    keyword: &'a Token,
    scope: &Scope<'a>,
    work: &mut Work,
    stmts: &mut Vec<Stmt>,
) -> Result<(), AllocError>
    ensures { OnOk result (state scope.now work.new stmts.new
        ≡ behind_part (add_jump keyword.now.at (jump_of keyword.now))
        (state scope.now work.old stmts.old)) }
{
    match jump_of(keyword) {
        Jump::Break => add_break(keyword.at, scope, work, stmts),
        Jump::Continue => add_continue(keyword.at, scope, work, stmts),
        Jump::Return => put(stmts, Stmt::ReturnNone),
    }
}

/// A jump with a value or without one (C90 6.6.6).
///
/// The only error is out of memory, also if the numbers run out.
fn add_jump_with<'a>(
    alloc: Global,
    keyword: &'a Token,
    value: &'a Option<Conditional>,
    scope: &Scope<'a>,
    work: &mut Work,
    stmts: &mut Vec<Stmt>,
) -> Result<(), AllocError>
    ensures { OnOk result (state scope.now work.new stmts.new
        ≡ behind_part (add_jump_with keyword.now (optional_typing value.now))
        (state scope.now work.old stmts.old)) }
{
    match value {
        None => add_jump(keyword, scope, work, stmts),
        Some(c) => add_return(alloc, keyword.at, c, scope, work, stmts),
    }
}

/// Types a statement, and appends it. What is in scope stays.
///
/// The only error is out of memory, also if the numbers run out.
#[cycle(statement)]
pub fn add_statement<'a>(
    alloc: Global,
    s: &'a Statement,
    scope: &mut Scope<'a>,
    work: &mut Work,
    stmts: &mut Vec<Stmt>,
) -> Result<(), AllocError>
    ensures adds { OnOk result (state scope.new work.new stmts.new
        ≡ behind_part (add_statement s.now) (state scope.old work.old stmts.old)) }
    ensures scope { OnOk result (scope.new ≡ scope.old) }
{
    match &s.form {
        StatementForm::Block(block) => add_block(alloc, block, scope, work, stmts),
        StatementForm::Empty { .. } => Ok(()),
        StatementForm::Simple { simple, .. } => add_simple(alloc, simple, scope, work, stmts),
        StatementForm::If {
            condition,
            holds,
            fails,
            ..
        } => {
            let guarded = add_guarded(alloc, condition, &holds.statement, scope, work)?;
            match fails {
                None => put_if(alloc, guarded, stmts),
                Some(other) => {
                    add_else(
                        alloc,
                        &other.statement.statement,
                        guarded,
                        scope,
                        work,
                        stmts,
                    )
                }
            }
        }
        StatementForm::Switch {
            condition,
            groups,
            ..
        } => add_switch(alloc, condition, groups.as_slice(), scope, work, stmts),
        StatementForm::While {
            condition,
            body,
            ..
        } => add_while(alloc, condition, &body.statement, scope, work, stmts),
        StatementForm::DoWhile(d) => {
            add_do(alloc, &d.condition, &d.body.statement, scope, work, stmts)
        }
        StatementForm::For(f) => add_for(alloc, &f.head, &f.body.statement, scope, work, stmts),
        StatementForm::Break { keyword, .. } => add_jump(keyword, scope, work, stmts),
        StatementForm::Continue { keyword, .. } => add_jump(keyword, scope, work, stmts),
        StatementForm::Return { keyword, value, .. } => {
            add_jump_with(alloc, keyword, value, scope, work, stmts)
        }
        StatementForm::Assert {
            keyword,
            condition,
            ..
        } => add_assert(alloc, keyword.at, condition, scope, work, stmts),
        StatementForm::Printf {
            keyword,
            printed,
            ..
        } => add_printf(alloc, keyword.at, printed, scope, work, stmts),
    }
}

/// Types the items of a block in order, in the present scope (C90 6.6.2).
///
/// The only error is out of memory, also if the numbers run out.
#[cycle(statement)]
pub fn add_items<'a>(
    alloc: Global,
    block: &'a Block,
    scope: &mut Scope<'a>,
    work: &mut Work,
    stmts: &mut Vec<Stmt>,
) -> Result<(), AllocError>
    ensures { OnOk result (state scope.new work.new stmts.new
        ≡ behind_part (in_order (parts_of_block block.now)) (state scope.old work.old stmts.old)) }
{
    for item in &block.items {
        add_item(alloc, item, scope, work, stmts)?;
    }
    Ok(())
}

/// A declaration or a statement in a block.
#[cycle(statement)]
fn add_item<'a>(
    alloc: Global,
    item: &'a BlockItem,
    scope: &mut Scope<'a>,
    work: &mut Work,
    stmts: &mut Vec<Stmt>,
) -> Result<(), AllocError>
    ensures { OnOk result (state scope.new work.new stmts.new
        ≡ behind_part (add_item item.now) (state scope.old work.old stmts.old)) }
{
    match item {
        BlockItem::Declaration(d) => add_declaration(alloc, d, scope, work, stmts),
        BlockItem::Statement(s) => add_statement(alloc, s, scope, work, stmts),
    }
}

/// A block, with its own scope (C90 6.6.2).
#[cycle(statement)]
fn add_block<'a>(
    alloc: Global,
    block: &'a Block,
    scope: &mut Scope<'a>,
    work: &mut Work,
    stmts: &mut Vec<Stmt>,
) -> Result<(), AllocError>
    ensures adds { OnOk result (state scope.new work.new stmts.new
        ≡ behind_part (add_block (parts_of_block block.now)) (state scope.old work.old stmts.old)) }
    ensures scope { OnOk result (scope.new ≡ scope.old) }
{
    let outside = scope.mark();
    scope.enter()?;
    let mut body = Vec::new(alloc);
    add_items(alloc, block, scope, work, &mut body)?;
    scope.back_to(outside);
    put(stmts, Stmt::Block { body })
}

/// A statement that another one controls (C90 6.6.4, 6.6.5). An empty block replaces a missing one.
#[cycle(statement)]
fn add_controlled<'a>(
    alloc: Global,
    body: &'a Statement,
    scope: &mut Scope<'a>,
    work: &mut Work,
) -> Result<Stmt, AllocError>
    ensures gives { IfOk result (λ s.
        GivesBody (add_statement body.now scope.old (before_of work.old))
        work.old work.new s) }
    ensures scope { OnOk result (scope.new ≡ scope.old) }
{
    let mut held = Vec::new(alloc);
    add_statement(alloc, body, scope, work, &mut held)?;
    Ok(first_stmt(alloc, held))
}

/// The body of a loop (C90 6.6.5).
#[cycle(statement)]
fn add_loop_body<'a>(
    alloc: Global,
    body: &'a Statement,
    scope: &mut Scope<'a>,
    work: &mut Work,
) -> Result<Stmt, AllocError>
    ensures gives { IfOk result (λ s. GivesBody
        (add_statement body.now (looping scope.old) (before_of work.old)) work.old work.new s) }
    ensures scope { OnOk result (scope.new ≡ scope.old) }
{
    let around = scope.exits();
    scope.set_exits(Exits {
        breaks: true,
        continues: true,
    });
    let held = add_controlled(alloc, body, scope, work)?;
    scope.set_exits(around);
    Ok(held)
}

/// The condition of an `if`, and the statement that is executed if it holds (C90 6.6.4.1).
#[cycle(statement)]
fn add_guarded<'a>(
    alloc: Global,
    condition: &'a Condition,
    holds: &'a Statement,
    scope: &mut Scope<'a>,
    work: &mut Work,
) -> Result<Guarded, AllocError>
    ensures gives { IfOk result (λ g.
        GivesGuarded (test_of condition.now) (add_statement holds.now) scope.old
        work.old work.new g) }
    ensures scope { OnOk result (scope.new ≡ scope.old) }
{
    let test = add_condition(alloc, condition, scope, work)?;
    let body = add_controlled(alloc, holds, scope, work)?;
    Ok(Guarded { test, body })
}

/// The statement that is executed if the condition of this `if` does not hold (C90 6.6.4.1).
#[cycle(statement)]
fn add_else<'a>(
    alloc: Global,
    other: &'a Statement,
    guarded: Guarded,
    scope: &mut Scope<'a>,
    work: &mut Work,
    stmts: &mut Vec<Stmt>,
) -> Result<(), AllocError>
    ensures adds { OnOk result ((test : Typing) (holds : Part) (before : Work) →
        GivesGuarded test holds scope.old before work.old guarded
        → state scope.new work.new stmts.new
        ≡ behind_part (add_if test holds (Some (add_statement other.now)))
        (state scope.old before stmts.old)) }
    ensures scope { OnOk result (scope.new ≡ scope.old) }
{
    let held = add_controlled(alloc, other, scope, work)?;
    put_if_else(alloc, guarded, held, stmts)
}

/// A `switch` (C90 6.6.4.2).
#[cycle(statement)]
fn add_switch<'a>(
    alloc: Global,
    condition: &'a Condition,
    groups: &'a [Group],
    scope: &mut Scope<'a>,
    work: &mut Work,
    stmts: &mut Vec<Stmt>,
) -> Result<(), AllocError>
    ensures adds { OnOk result (state scope.new work.new stmts.new
        ≡ behind_part (add_switch (test_of condition.now) (map parts_of_group groups.now))
        (state scope.old work.old stmts.old)) }
    ensures scope { OnOk result (scope.new ≡ scope.old) }
{
    let switch = add_controlling(alloc, condition, scope, work)?;
    let around = scope.exits();
    scope.set_exits(Exits {
        breaks: true,
        continues: around.continues,
    });
    let mut labels = no_labels(alloc);
    let mut body = Vec::new(alloc);
    add_groups(alloc, &switch, groups, scope, work, &mut labels, &mut body)?;
    scope.set_exits(around);
    put_switch(switch, labels, body, stmts)
}

/// The contents of the braces of a `switch`: labels, each with the statements after it.
#[cycle(statement)]
fn add_groups<'a>(
    alloc: Global,
    switch: &Controlling,
    groups: &'a [Group],
    scope: &mut Scope<'a>,
    work: &mut Work,
    labels: &mut Labels,
    body: &mut Vec<Stmt>,
) -> Result<(), AllocError>
    ensures adds { OnOk result (switch_state labels.new scope.new work.new body.new
        ≡ behind_groups switch.now.t switch.now.at (map parts_of_group groups.now)
        (switch_state labels.old scope.old work.old body.old)) }
    ensures scope { OnOk result (scope.new ≡ scope.old) }
{
    for group in groups {
        add_group(alloc, switch, group, scope, work, labels, body)?;
    }
    Ok(())
}

/// A label, and the statements after it.
#[cycle(statement)]
fn add_group<'a>(
    alloc: Global,
    switch: &Controlling,
    group: &'a Group,
    scope: &mut Scope<'a>,
    work: &mut Work,
    labels: &mut Labels,
    body: &mut Vec<Stmt>,
) -> Result<(), AllocError>
    ensures adds { OnOk result (switch_state labels.new scope.new work.new body.new
        ≡ behind_group switch.now.t switch.now.at (parts_of_group group.now)
        (switch_state labels.old scope.old work.old body.old)) }
    ensures scope { OnOk result (scope.new ≡ scope.old) }
{
    let count = number_of(body.len())?;
    add_label(
        alloc,
        switch,
        &group.label,
        count,
        scope,
        &mut work.tally,
        labels,
    )?;
    for statement in &group.statements {
        add_statement(alloc, statement, scope, work, body)?;
    }
    Ok(())
}

/// A `while` (C90 6.6.5.1).
#[cycle(statement)]
fn add_while<'a>(
    alloc: Global,
    condition: &'a Condition,
    body: &'a Statement,
    scope: &mut Scope<'a>,
    work: &mut Work,
    stmts: &mut Vec<Stmt>,
) -> Result<(), AllocError>
    ensures adds { OnOk result (state scope.new work.new stmts.new
        ≡ behind_part (add_while (test_of condition.now) (add_statement body.now))
        (state scope.old work.old stmts.old)) }
    ensures scope { OnOk result (scope.new ≡ scope.old) }
{
    let test = add_condition(alloc, condition, scope, work)?;
    let held = add_loop_body(alloc, body, scope, work)?;
    put_while(alloc, test, held, stmts)
}

/// A `do` (C90 6.6.5.2).
#[cycle(statement)]
fn add_do<'a>(
    alloc: Global,
    condition: &'a Condition,
    body: &'a Statement,
    scope: &mut Scope<'a>,
    work: &mut Work,
    stmts: &mut Vec<Stmt>,
) -> Result<(), AllocError>
    ensures adds { OnOk result (state scope.new work.new stmts.new
        ≡ behind_part (add_do (test_of condition.now) (add_statement body.now))
        (state scope.old work.old stmts.old)) }
    ensures scope { OnOk result (scope.new ≡ scope.old) }
{
    let held = add_loop_body(alloc, body, scope, work)?;
    let test = add_condition(alloc, condition, scope, work)?;
    put_do(alloc, test, held, stmts)
}

/// A `for` (C90 6.6.5.3). What its head declares is not in scope after it.
#[cycle(statement)]
fn add_for<'a>(
    alloc: Global,
    head: &'a ForHead,
    body: &'a Statement,
    scope: &mut Scope<'a>,
    work: &mut Work,
    stmts: &mut Vec<Stmt>,
) -> Result<(), AllocError>
    ensures adds { OnOk result (state scope.new work.new stmts.new
        ≡ behind_part (add_for head.now (add_statement body.now))
        (state scope.old work.old stmts.old)) }
    ensures scope { OnOk result (scope.new ≡ scope.old) }
{
    let outside = scope.mark();
    let front = add_head(alloc, head, scope, work)?;
    let held = add_loop_body(alloc, body, scope, work)?;
    scope.back_to(outside);
    put_for(alloc, front, held, stmts)
}
