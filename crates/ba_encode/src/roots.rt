//! The entries of a word list that a formula needs.

ghost use Rattle.std.specs.Prelude.{◌≡◌, ◌++◌, length, IfOk, OnOk};
ghost use Rattle.ba_encode.specs.Groups.{groups_along};
ghost use Rattle.ba_encode.specs.Parts.{roots_at, roots_of};

use crate::grouping::{Grouping, Numbered, group_at};
use ba_wordlist::words::{PlaceWords, WordList};
use std::alloc::{AllocError, Global};

/// The groups of the executions, by their positions among the groups.
pub(crate) fn groups_of_places(
    alloc: Global,
    grouping: &Grouping,
    groups: &[Numbered],
    places: &[PlaceWords],
) -> Result<Vec<Option<usize>>, AllocError>
    ensures { IfOk result (λ found. found.items ≡ groups_along grouping.now groups.now places.now) }
{
    let mut found = Vec::new(alloc);
    for place in places {
        found.push(group_at(grouping, groups, &place.place))?;
    }
    Ok(found)
}

/// The words that a formula needs: those of requirements, guards and keep flags, and of the values of
/// executions in groups.
pub(crate) fn roots_of(
    alloc: Global,
    list: &WordList,
    groups: &[Option<usize>],
) -> Result<Vec<u32>, AllocError>
    requires { length groups.now ≡ length list.now.places }
    ensures { IfOk result (λ roots. roots.items ≡ roots_of list.now groups.now) }
{
    let mut roots = Vec::new(alloc);
    roots.extend_from_slice(list.require.as_slice())?;
    let places = list.places.as_slice();
    for i in 0..places.len() {
        add_roots(&mut roots, &places[i], groups[i])?;
    }
    Ok(roots)
}

/// Adds the words of an execution; those of its values too, if it is in a group.
fn add_roots(
    roots: &mut Vec<u32>,
    place: &PlaceWords,
    group: Option<usize>,
) -> Result<(), AllocError>
    ensures { OnOk result (roots.new.items ≡ roots.old.items ++ roots_at place.now group) }
{
    roots.push(place.guard)?;
    roots.push(place.keep)?;
    if group.is_some() {
        roots.extend_from_slice(place.values.as_slice())?;
    }
    Ok(())
}
