//! The statements of sets.

ghost use Rattle.std.specs.Prelude.{◌≡◌, ◌<◌, ◌≤◌, ◌+◌, ◌==◌, ◌||◌, ◌++◌, ℕ, false, get_or, length, map, IfOk, OnOk};
ghost use Rattle.std.specs.List.{list_any};
ghost use Rattle.ba_derivations.specs.Derivations.{sets_of};
ghost use Rattle.ba_rank.specs.Ranking.{stands_in};
ghost use Rattle.mode_repair.specs.Answers.{statements_in};
ghost use Rattle.mode_repair.specs.Marks.{marked_from, number_if};

use ba_derivations::FoundSet;
use ba_numbers::ids::StmtId;
use ba_tree::tree::Program;
use std::alloc::{AllocError, Global};

/// Marks the statement of this number, if it has a mark. That of number n is at n - 1.
fn mark_one(number: u32, marks: &mut [bool])
    ensures all { length marks.new ≡ length marks.old }
    ensures each { (i : ℕ) → i < length marks.old → get_or marks.new i false
        ≡ (get_or marks.old i false || ((i + 1) == number)) }
{
    let place = number as usize;
    if place == 0 {
        return;
    }
    if place > marks.len() {
        return;
    }
    marks[place - 1] = true;
}

/// Marks the statements of these numbers.
fn mark(numbers: &[u32], marks: &mut [bool])
    ensures all { length marks.new ≡ length marks.old }
    ensures each { (i : ℕ) → i < length marks.old → get_or marks.new i false
        ≡ (get_or marks.old i false || list_any (λ m. (i + 1) == m) numbers.now) }
{
    for number in numbers {
        mark_one(*number, marks);
    }
}

/// A mark for each statement of the program: whether it is in some of these sets.
///
/// The only error is out of memory.
fn marks_of(alloc: Global, program: &Program, sets: &[FoundSet]) -> Result<Vec<bool>, AllocError>
    ensures all { IfOk result (λ marks. length marks.items ≡ length program.now.statements) }
    ensures each { IfOk result (λ marks. (i : ℕ) → i < length program.now.statements →
        get_or marks.items i false ≡ stands_in (i + 1) (sets_of sets.now)) }
{
    let mut marks = Vec::from_elem(alloc, false, program.statements.len())?;
    for set in sets {
        mark(set.groups.as_slice(), marks.as_mut_slice());
    }
    Ok(marks)
}

/// Appends the statement of this number, if it is marked.
fn push_if(is_marked: bool, number: u32, stmts: &mut Vec<StmtId>) -> Result<(), AllocError>
    ensures { OnOk result (map (λ stmt. stmt.0) stmts.new.items
        ≡ map (λ stmt. stmt.0) stmts.old.items ++ number_if is_marked number) }
{
    if is_marked {
        stmts.push(StmtId(number))?;
    }
    Ok(())
}

/// The statements that are marked, ascending. The mark of number n is at n - 1.
///
/// The only error is out of memory.
fn marked(alloc: Global, marks: &[bool]) -> Result<Vec<StmtId>, AllocError>
    requires { length marks.now ≤ 4000 }
    ensures { IfOk result (λ stmts. map (λ stmt. stmt.0) stmts.items ≡ marked_from 1 marks.now) }
{
    let mut stmts = Vec::new(alloc);
    let mut number = 0;
    for is_marked in marks {
        number += 1;
        push_if(*is_marked, number, &mut stmts)?;
    }
    Ok(stmts)
}

/// The statements of the program that are in some of these sets, ascending.
///
/// The only error is out of memory.
pub fn statements_in(
    alloc: Global,
    program: &Program,
    sets: &[FoundSet],
) -> Result<Vec<StmtId>, AllocError>
    ensures { IfOk result (λ stmts. map (λ stmt. stmt.0) stmts.items
        ≡ statements_in program.now (sets_of sets.now)) }
{
    let marks = marks_of(alloc, program, sets)?;
    marked(alloc, marks.as_slice())
}
