//! The labels of a `switch` (C90 6.6.1, 6.6.4.2).

ghost use Rattle.std.specs.Prelude.{◌≡◌, ◌∷◌, ◌++◌, [], map, IfOk, OnOk};
ghost use Rattle.ba_statements.specs.Labelling.{AddsLabel, GivesControlling};
ghost use Rattle.ba_typing.specs.Expressions.{typed_conditional};
ghost use Rattle.ba_typing.specs.Statements.{add_case, add_default, add_label, has_value, label_faults, no_labels, test_of, with_start};
ghost use Rattle.ba_expressions.specs.Inferring.{with_faults};
ghost use Rattle.ba_tree.specs.Trees.{stmts_of, switch, tree_of_expr, tree_of_stmt};

use crate::declarations::{constant_value, whole};
use crate::work::{Work, put};
use ba_expressions::expressions::conditional;
use ba_expressions::tally::{HEIGHT_LIMIT, Tally};
use ba_items::Items;
use ba_numbers::ids::{At, StmtId};
use ba_numbers::numbers::CType;
use ba_numbers::types::promoted;
use ba_scopes::scopes::Scope;
use ba_tree::tree::{Expr, Start, Stmt, StmtKind};
use ba_trees::tree::expressions::Conditional;
use ba_trees::tree::statements::{Condition, Label};
use ba_typing::fault::Cause;
use ba_typing::meanings::Labels;
use std::alloc::{AllocError, Global};

/// A numbered controlling expression of a `switch`: its number, its position, its promoted type, and its
/// typed tree.
#[derive(Drop)]
pub struct Controlling {
    pub stmt: StmtId,
    pub at: At,
    pub t: CType,
    pub on: Expr,
}

/// The controlling expression of a `switch`, in its parentheses. It is a statement at its first token.
///
/// The only error is out of memory, also if the numbers run out.
pub(crate) fn add_controlling<'a>(
    alloc: Global,
    condition: &'a Condition,
    scope: &Scope<'a>,
    work: &mut Work,
) -> Result<Controlling, AllocError>
    ensures { IfOk result (λ c. GivesControlling
        (test_of condition.now scope.now work.old.tally.calls) scope.now work.old work.new c) }
{
    let j = conditional(alloc, scope, &condition.test, &mut work.tally)?;
    work.tally.add_limit(HEIGHT_LIMIT, j.height, j.first);
    let at = j.first;
    let stmt = work.number(at, StmtKind::Switch)?;
    let t = promoted(j.t);
    let on = j.into_tree(alloc, t)?;
    Ok(Controlling { stmt, at, t, on })
}

/// No labels. It takes no memory.
pub(crate) fn no_labels(alloc: Global) -> Labels
    ensures { result ≡ no_labels }
{
    Labels {
        starts: Items::new(alloc),
        other: None,
    }
}

/// Whether one of these labels has the value.
fn has_value(starts: &[Start], value: i64) -> bool
    ensures { result ≡ has_value starts.now value }
{
    starts.iter().any(|start| start.value == value)
}

/// Adds the label of a `case` whose constant has this value, if it has one; `count` statements of the body
/// are before it.
///
/// The only error is out of memory.
fn add_start(
    value: Option<i64>,
    at: At,
    count: u32,
    tally: &mut Tally,
    labels: &mut Labels,
) -> Result<(), AllocError>
    ensures labels { OnOk result (labels.new ≡ with_start labels.old value count) }
    ensures tally { OnOk result (tally.new
        ≡ with_faults tally.old (label_faults labels.old value at)) }
{
    match value {
        None => {
            tally.add_if(true, Cause::WrongKind, at);
            Ok(())
        }
        Some(value) => {
            let is_twice = has_value(labels.starts.as_slice(), value);
            tally.add_if(is_twice, Cause::Twice, at);
            labels.starts.push(Start { value, at: count })
        }
    }
}

/// Adds a `case` of this `switch`; `count` statements of the body are before it.
///
/// The only error is out of memory, also if the numbers for calls or heights run out.
fn add_case<'a>(
    alloc: Global,
    switch: &Controlling,
    c: &'a Conditional,
    count: u32,
    scope: &Scope<'a>,
    tally: &mut Tally,
    labels: &mut Labels,
) -> Result<(), AllocError>
    ensures { OnOk result (AddsLabel
        (add_case switch.now.t switch.now.at (typed_conditional c.now scope.now tally.old.calls)
        labels.old count) tally.old tally.new labels.new) }
{
    let j = whole(alloc, scope, switch.at, c, tally)?;
    let value = constant_value(switch.t, &j);
    add_start(value, j.first, count, tally, labels)
}

/// Adds a `default` at this position; `count` statements of the body are before it.
fn add_default(at: At, count: u32, tally: &mut Tally, labels: &mut Labels)
    ensures { AddsLabel (add_default at labels.old count) tally.old tally.new labels.new }
{
    tally.add_if(labels.other.is_some(), Cause::Twice, at);
    labels.other = Some(count);
}

/// Adds a label of this `switch`; `count` statements of the body are before it.
///
/// The only error is out of memory, also if the numbers run out.
pub(crate) fn add_label<'a>(
    alloc: Global,
    switch: &Controlling,
    label: &'a Label,
    count: u32,
    scope: &Scope<'a>,
    tally: &mut Tally,
    labels: &mut Labels,
) -> Result<(), AllocError>
    ensures { OnOk result (AddsLabel
        (add_label switch.now.t switch.now.at label.now labels.old count scope.now
        tally.old.calls) tally.old tally.new labels.new) }
{
    match label {
        Label::Case { value, .. } => add_case(alloc, switch, value, count, scope, tally, labels),
        Label::Default { keyword, .. } => {
            add_default(keyword.at, count, tally, labels);
            Ok(())
        }
    }
}

/// Appends a `switch` (C90 6.6.4.2). The only error is out of memory.
pub(crate) fn put_switch(
    controlling: Controlling,
    labels: Labels,
    body: Vec<Stmt>,
    stmts: &mut Vec<Stmt>,
) -> Result<(), AllocError>
    ensures { OnOk result (map tree_of_stmt stmts.new.items ≡ map tree_of_stmt stmts.old.items
        ++ switch controlling.stmt controlling.t (tree_of_expr controlling.on) labels.starts
        labels.other (stmts_of (map tree_of_stmt body.items)) ∷ []) }
{
    let Controlling { stmt, at: _, t, on } = controlling;
    let other = labels.other;
    let starts = labels.starts.into_vec();
    put(
        stmts,
        Stmt::Switch {
            stmt,
            t,
            on,
            starts,
            other,
            body,
        },
    )
}
