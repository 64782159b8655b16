//! The order of places.

ghost use Rattle.std.specs.Prelude.{◌≡◌, ◌↔◌, Contains};
ghost use Rattle.std.specs.List.Sorted.{IsStrictlySortedBy};
ghost use Rattle.ba_places.specs.Order.{path_cmp, place_cmp, same_place, step_cmp};
ghost use Rattle.ba_tree.specs.declared.run.Place.{Place};

use ba_tree::run::{Place, Step};
use std::cmp::Ordering;

/// The order of two steps: a call comes before an iteration.
fn compare_steps(a: Step, b: Step) -> Ordering
    ensures { result ≡ step_cmp a b }
{
    match (a, b) {
        (Step::Call(call), Step::Call(other)) => call.0.cmp(&other.0),
        (Step::Call(_), Step::Turn(_, _)) => Ordering::Less,
        (Step::Turn(_, _), Step::Call(_)) => Ordering::Greater,
        (Step::Turn(condition, turn), Step::Turn(other, later)) => {
            condition.0.cmp(&other.0).then(turn.cmp(&later))
        }
    }
}

/// The order of two paths: that of their first steps that differ, and else that of their lengths.
fn compare_paths(a: &[Step], b: &[Step]) -> Ordering
    ensures { result ≡ path_cmp a.now b.now }
{
    for i in 0..a.len() {
        if i == b.len() {
            return Ordering::Greater;
        }
        let order = compare_steps(a[i], b[i]);
        if order != Ordering::Equal {
            return order;
        }
    }
    a.len().cmp(&b.len())
}

/// The order of two places.
fn compare_places(a: &Place, b: &Place) -> Ordering
    ensures { result ≡ place_cmp a.now b.now }
{
    match a.stmt.0.cmp(&b.stmt.0) {
        Ordering::Less => Ordering::Less,
        Ordering::Equal => compare_paths(a.path.as_slice(), b.path.as_slice()),
        Ordering::Greater => Ordering::Greater,
    }
}

/// Whether two places are one.
fn is_same_place(a: &Place, b: &Place) -> bool
    ensures { result ≡ same_place a.now b.now }
{
    compare_places(a, b) == Ordering::Equal
}

/// Puts places in order, each of them once.
pub(crate) fn put_in_order(places: &mut Vec<Place>)
    ensures ascending { IsStrictlySortedBy place_cmp places.new.items }
    ensures same { (place : Place)
        → Contains places.new.items place ↔ Contains places.old.items place }
{
    places.sort_unstable_by(|place, other| compare_places(place, other));
    places.dedup_by(|place, other| is_same_place(place, other));
}
