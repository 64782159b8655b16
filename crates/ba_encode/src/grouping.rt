//! Groups of executions.

ghost use Rattle.std.specs.Prelude.{◌≡◌, ◌+◌, ◌^◌, ◌<◌, ◌==◌, length, position, IfOk};
ghost use Rattle.ba_encode.specs.Groups.{group_at, groups_of, is_place, places_from, statements_from};
ghost use Rattle.ba_encode.specs.declared.grouping.Numbered.{Numbered};
ghost use Rattle.ba_tree.specs.Choices.{same_path};

use ba_items::Items;
use ba_numbers::ids::StmtId;
use ba_tree::run::{Place, Step, Weights};
use std::alloc::{AllocError, Global};

/// What is relaxed together: all executions of a statement that has a weight, or each single execution by
/// itself.
#[derive(Drop)]
pub enum Grouping {
    ByStatement(Weights),
    ByPlace(Items<Place>),
}

/// A group without its selector: its number, from 1 on, its statement, and its weight.
#[derive(Clone, Copy)]
pub struct Numbered {
    pub number: u32,
    pub statement: StmtId,
    pub weight: u32,
}

/// The groups in the order of their numbers. Statements with a weight have their own numbers. Places count
/// from 1 and weigh 1 each.
///
/// The only error is out of memory.
pub(crate) fn groups_of(alloc: Global, grouping: &Grouping) -> Result<Vec<Numbered>, AllocError>
    ensures groups { IfOk result (λ groups. groups.items ≡ groups_of grouping.now) }
    ensures few { IfOk result (λ groups. length groups.items < 2 ^ 32) }
{
    match grouping {
        Grouping::ByStatement(weights) => statement_groups(alloc, weights.of.as_slice()),
        Grouping::ByPlace(places) => place_groups(alloc, places.as_slice()),
    }
}

/// The statements that have a weight.
fn statement_groups(alloc: Global, weights: &[Option<u32>]) -> Result<Vec<Numbered>, AllocError>
    ensures groups { IfOk result (λ groups. groups.items ≡ statements_from 1 weights.now) }
    ensures few { IfOk result (λ groups. length groups.items < 2 ^ 32) }
{
    let mut groups = Vec::new(alloc);
    for i in 0..weights.len() {
        let number = next_number(i)?;
        if let Some(weight) = weights[i] {
            groups.push(Numbered {
                number,
                statement: StmtId(number),
                weight,
            })?;
        }
    }
    Ok(groups)
}

/// The places.
fn place_groups(alloc: Global, places: &[Place]) -> Result<Vec<Numbered>, AllocError>
    ensures groups { IfOk result (λ groups. groups.items ≡ places_from 1 places.now) }
    ensures few { IfOk result (λ groups. length groups.items < 2 ^ 32) }
{
    let mut groups = Vec::new(alloc);
    for i in 0..places.len() {
        groups.push(Numbered {
            number: next_number(i)?,
            statement: places[i].stmt,
            weight: 1,
        })?;
    }
    Ok(groups)
}

/// The index as a number counted from 1, if it fits 32 bits.
fn next_number(index: usize) -> Result<u32, AllocError>
    ensures number { IfOk result (λ number. number ≡ index + 1) }
    ensures few { IfOk result (λ number. number < 2 ^ 32) }
{
    if index >= u32::MAX as usize {
        return Err(AllocError);
    }
    Ok(index as u32 + 1)
}

/// The group of an execution, by its position among the groups, if it has one.
pub(crate) fn group_at(grouping: &Grouping, groups: &[Numbered], place: &Place) -> Option<usize>
    ensures { result ≡ group_at grouping.now groups.now place.now }
{
    match grouping {
        Grouping::ByStatement(_) => position_of_statement(groups, place.stmt),
        Grouping::ByPlace(places) => position_of_place(places.as_slice(), place),
    }
}

/// The position of the group of a statement.
fn position_of_statement(groups: &[Numbered], stmt: StmtId) -> Option<usize>
    ensures { result ≡ position (λ (group : Numbered). group.statement.0 == stmt.0) groups.now }
{
    groups.iter().position(|group| group.statement == stmt)
}

/// The position of a place.
fn position_of_place(places: &[Place], place: &Place) -> Option<usize>
    ensures { result ≡ position (λ other. is_place other place.now) places.now }
{
    places.iter().position(|other| is_same_place(other, place))
}

/// Whether two places are the same.
fn is_same_place(a: &Place, b: &Place) -> bool
    ensures { result ≡ is_place a.now b.now }
{
    a.stmt == b.stmt && is_same_path(a.path.as_slice(), b.path.as_slice())
}

/// Whether two paths are the same.
fn is_same_path(a: &[Step], b: &[Step]) -> bool
    ensures { result ≡ same_path a.now b.now }
{
    a == b
}
