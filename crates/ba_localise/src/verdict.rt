//! What a search over places finds.

use ba_derivations::Verdict;
use ba_items::Items;
use ba_tree::run::Place;

/// A list of places, and a verdict whose groups are their numbers, from 1.
#[derive(Drop)]
pub struct PlaceVerdict {
    pub places: Items<Place>,
    pub verdict: Verdict,
}
