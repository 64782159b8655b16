//! What may be relaxed, and what a choice gives in place of a statement's expressions.

ghost use Rattle.std.specs.Prelude.{◌≡◌, List, ◌||◌, pos, ◌==◌, option_map};
ghost use Rattle.std.specs.List.{list_all, list_any};
ghost use Rattle.std.specs.Ordering.{int_eq};
ghost use Rattle.ba_numbers.specs.declared.ids.StmtId.{StmtId};
ghost use Rattle.ba_numbers.specs.Numbers.{is_in};
ghost use Rattle.ba_tree.specs.Choices.{admits, all_elements, choice_at, if_fitting, is_assert, is_there, lists, no_value, one_element};
ghost use Rattle.ba_tree.specs.State.{State};
ghost use Rattle.ba_interp.specs.Doing.{Did, DidAll, ok_map};
ghost use Rattle.ba_interp.specs.Paths.{steps_of};
ghost use Rattle.ba_interp.specs.Settings.{fitting_of};

use crate::machine::{Machine, is_index};
use crate::path::{Path, is_there};
use crate::setting::Setting;
use crate::stop::Stop;
use ba_choices::Values;
use ba_numbers::ids::StmtId;
use ba_numbers::numbers::CType;
use ba_tree::run::{Allowed, Halt, Place};
use ba_tree::tree::{Program, StmtKind};
use std::alloc::Global;

/// What may replace an expression: a value of a type, or the value of a condition.
#[derive(Clone, Copy)]
pub enum Wanted {
    Value(CType),
    Truth,
}

/// Whether the statement is in the list.
fn is_listed(list: &[StmtId], stmt: StmtId) -> bool
    ensures { result ≡ list_any (λ (number : StmtId). number.0 == stmt.0) list.now }
{
    list.iter().any(|number| number.0 == stmt.0)
}

/// Whether the execution of the statement that this path leads to is in the list.
fn is_placed(list: &[Place], path: &Path, stmt: StmtId) -> bool
    ensures { result ≡ list_any (is_there (steps_of path.now) stmt) list.now }
{
    list.iter().any(|place| is_there(path, stmt, place))
}

/// Whether the statement of this number is an assert.
fn is_assert(program: &Program, stmt: StmtId) -> bool
    ensures { result ≡ is_assert program.now stmt }
{
    if stmt.0 == 0 {
        return false;
    }
    match program.statements.as_slice().get(stmt.0 as usize - 1) {
        None => false,
        Some(info) => info.kind == StmtKind::Assert,
    }
}

/// Whether an execution of this statement, reached by this path, is of what may be relaxed.
fn lists(allowed: &Allowed, path: &Path, stmt: StmtId) -> bool
    ensures { result ≡ lists allowed.now (steps_of path.now) stmt }
{
    match allowed {
        Allowed::Statements(list) => is_listed(list.as_slice(), stmt),
        Allowed::Places(list) => is_placed(list.as_slice(), path, stmt),
    }
}

/// Whether an execution of this statement may be relaxed.
#[tactic(auto, unfolding(ba_tree::specs::Choices::admits))]
pub fn admits(setting: &Setting, path: &Path, stmt: StmtId) -> bool
    ensures { result ≡ admits setting.now.program.now setting.now.allowed.now
        (steps_of path.now) stmt }
{
    lists(setting.allowed, path, stmt) && !is_assert(setting.program, stmt)
}

/// The values that replace the expressions of an execution of this statement, if there are any.
pub fn choice_at<'a>(
    setting: &Setting,
    path: &Path,
    stmt: StmtId,
    machine: &mut Machine<'a>,
) -> Result<Option<&'a Values>, Stop>
    ensures { Did (ok_map (option_map (λ values. values.now)) result) machine.new
        (choice_at (admits setting.now.program.now setting.now.allowed.now
        (steps_of path.now) stmt) machine.old) }
{
    let admitted = admits(setting, path, stmt);
    machine.choice_at(admitted)
}

/// The value of a choice if it fits.
pub fn fitting(wanted: Wanted, values: &[i64]) -> Result<i64, Stop>
    ensures { (s : State) → Did result s (if_fitting (fitting_of wanted values.now) s) }
{
    match (wanted, values) {
        (Wanted::Value(t), [value]) if t.contains(*value) => Ok(*value),
        (Wanted::Truth, [value]) if is_truth(*value) => Ok(*value),
        _ => Err(Stop::Halts(Halt::WrongChoices)),
    }
}

/// Whether the value is 0 or 1.
fn is_truth(value: i64) -> bool
    ensures { result ≡ (int_eq value (pos 0) || int_eq value (pos 1)) }
{
    value == 0 || value == 1
}

/// The values of a choice if they fit an array of `count` elements of the type.
pub fn all_elements(alloc: Global, t: CType, count: usize, values: &[i64]) -> Result<Vec<i64>, Stop>
    ensures { (s : State) → DidAll result s (if_fitting (all_elements t count values.now) s) }
{
    if values.len() != count || !are_in(t, values) {
        return Err(Stop::Halts(Halt::WrongChoices));
    }
    Ok(Vec::from_slice(alloc, values)?)
}

/// Whether all values are in the range of the type.
fn are_in(t: CType, values: &[i64]) -> bool
    ensures { result ≡ list_all (is_in t) values.now }
{
    values.iter().all(|value| t.contains(*value))
}

/// The index and the value of a choice if they fit an array of `count` elements of the type.
pub fn one_element(t: CType, count: usize, values: &[i64]) -> Result<(i64, i64), Stop>
    ensures { (s : State) → Did result s (if_fitting (one_element t count values.now) s) }
{
    match values {
        [index, value] if is_index(count, *index) && t.contains(*value) => Ok((*index, *value)),
        _ => Err(Stop::Halts(Halt::WrongChoices)),
    }
}

/// Nothing, if the choice has no value.
pub fn no_value(values: &[i64]) -> Result<(), Stop>
    ensures { (s : State) → Did result s (if_fitting (no_value values.now) s) }
{
    if values.is_empty() {
        return Ok(());
    }
    Err(Stop::Halts(Halt::WrongChoices))
}
