//! What a run may relax.

use ba_items::Items;
use ba_numbers::ids::StmtId;
use ba_tree::run::{Allowed, Place, Step};
use std::alloc::{AllocError, Global};

/// What a run may relax: the statements of these numbers, or one place, by the calls and iterations around it
/// and its statement's number.
#[derive(Clone, Copy, Debug)]
pub enum Relaxed {
    Statements(&'static [u32]),
    Place(&'static [Step], u32),
}

impl Relaxed {
    /// The same, as a run takes it.
    pub fn allowed(&self, alloc: Global) -> Result<Allowed, AllocError> {
        match *self {
            Relaxed::Statements(numbers) => Ok(Allowed::Statements(statements(alloc, numbers)?)),
            Relaxed::Place(path, number) => Ok(Allowed::Places(place(alloc, path, number)?)),
        }
    }
}

/// The statements of these numbers.
fn statements(alloc: Global, numbers: &[u32]) -> Result<Items<StmtId>, AllocError> {
    let mut statements = Items::new(alloc);
    for number in numbers {
        statements.push(StmtId(*number))?;
    }
    Ok(statements)
}

/// The one place of this path and statement.
fn place(alloc: Global, path: &[Step], number: u32) -> Result<Items<Place>, AllocError> {
    let mut places = Items::new(alloc);
    places.push(Place {
        path: Items::from_slice(alloc, path)?,
        stmt: StmtId(number),
    })?;
    Ok(places)
}
