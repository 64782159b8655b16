//! The places of a list of words.

ghost use Rattle.std.specs.Prelude.{◌≡◌, ◌↔◌, Contains, IfOk, IsSome, filter, is_some};
ghost use Rattle.ba_places.specs.Least.{IsPlaceSet};
ghost use Rattle.ba_places.specs.Numbers.{places_of_words};
ghost use Rattle.ba_tree.specs.Least.{weight_at};
ghost use Rattle.ba_tree.specs.declared.run.Place.{Place};

use crate::order::put_in_order;
use ba_items::Items;
use ba_numbers::ids::StmtId;
use ba_tree::run::{Place, Weights};
use ba_wordlist::words::WordList;
use std::alloc::{AllocError, Global};

/// Whether a statement has a weight.
fn has_weight(weights: &Weights, stmt: StmtId) -> bool
    ensures { result ≡ is_some (weight_at weights.now.of stmt.0) }
{
    let number = stmt.0 as usize;
    if number == 0 || number > weights.of.len() {
        return false;
    }
    weights.of.as_slice()[number - 1].is_some()
}

/// The same place once more.
///
/// The only error is out of memory.
pub(crate) fn copy_of(alloc: Global, place: &Place) -> Result<Place, AllocError>
    ensures { IfOk result (λ copy. copy ≡ place.now) }
{
    Ok(Place {
        path: Items::from_slice(alloc, place.path.as_slice())?,
        stmt: place.stmt,
    })
}

/// The places of the list whose statements have a weight, in the order of a run.
fn weighed_places(
    alloc: Global,
    words: &WordList,
    weights: &Weights,
) -> Result<Vec<Place>, AllocError>
    ensures { IfOk result (λ places. places.items
        ≡ filter (λ place. is_some (weight_at weights.now.of place.stmt.0))
        (places_of_words words.now)) }
{
    let mut places = Vec::new(alloc);
    for words in words.places.as_slice() {
        if has_weight(weights, words.place.stmt) {
            places.push(copy_of(alloc, &words.place)?)?;
        }
    }
    Ok(places)
}

/// The places of the list whose statements have a weight, ascending, each of them once.
///
/// The only error is out of memory.
pub fn places_of(
    alloc: Global,
    words: &WordList,
    weights: &Weights,
) -> Result<Items<Place>, AllocError>
    ensures set { IfOk result (IsPlaceSet weights.now.of) }
    ensures exactly { IfOk result (λ places. (place : Place) → Contains places place
        ↔ (Contains (places_of_words words.now) place
        × IsSome (weight_at weights.now.of place.stmt.0))) }
{
    let mut places = weighed_places(alloc, words, weights)?;
    put_in_order(&mut places);
    Ok(Items::from_vec(places))
}
