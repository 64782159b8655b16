//! Places by their numbers in a list, which count from 1.

ghost use Rattle.std.specs.Prelude.{◌≡◌, IfOk, MatchOption, None, Some};
ghost use Rattle.ba_places.specs.Numbers.{place_at, places_at};

use crate::listing::copy_of;
use ba_items::Items;
use ba_tree::run::Place;
use std::alloc::{AllocError, Global};

/// The place of this number, if there is one.
pub fn place_at(places: &[Place], number: u32) -> Option<&Place>
    ensures { MatchOption result (place_at places.now number ≡ None)
        (λ place. place_at places.now number ≡ Some place.now) }
{
    let index = number.checked_sub(1)?;
    places.get(index as usize)
}

/// The places of these numbers: a number that has none names none.
///
/// The only error is out of memory.
pub fn places_at(
    alloc: Global,
    places: &[Place],
    numbers: &[u32],
) -> Result<Items<Place>, AllocError>
    ensures { IfOk result (λ found. found ≡ places_at places.now numbers.now) }
{
    let mut found = Items::new(alloc);
    for number in numbers {
        if let Some(place) = place_at(places, *number) {
            found.push(copy_of(alloc, place)?)?;
        }
    }
    Ok(found)
}
