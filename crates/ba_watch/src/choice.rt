//! Which literals a new clause watches.

ghost use Rattle.std.specs.Prelude.{◌≡◌, ◌≢◌, ℕ, ◌<◌, ◌≤◌, length};
ghost use Rattle.ba_lits.specs.Literals.{lit_at};
ghost use Rattle.ba_watch.specs.Propagation.{rank_of, IsOneOf};

use crate::trail::Trail;
use ba_lits::Lit;

/// The rank of a literal: the index on the trail at which it became false, or the trail's length if it isn't
/// false.
pub fn rank(trail: &Trail, lit: Lit) -> usize
    requires { lit.variable ≤ trail.now.variables }
    ensures { result ≡ rank_of trail.now.lits lit }
{
    let value = trail.value(lit);
    match value {
        Some(false) => match trail.trail_index(lit.variable()) {
            Some(place) => place,
            None => trail.len(),
        },
        _ => trail.len(),
    }
}

/// The index of a literal of the greatest rank, other than `skip`.
pub fn latest(trail: &Trail, lits: &[Lit], skip: usize) -> usize
    requires two { 2 ≤ length lits.now }
    requires range { (k : ℕ) → k < length lits.now
        → (lit_at lits.now k).variable ≤ trail.now.variables }
    ensures within { result < length lits.now }
    ensures other { result ≢ skip }
    ensures latest { (k : ℕ) → k < length lits.now → k ≢ skip
        → rank_of trail.now.lits (lit_at lits.now k) ≤ rank_of trail.now.lits
        (lit_at lits.now result) }
{
    let mut best = if skip == 0 { 1 } else { 0 };
    for place in 0..lits.len() {
        if place != skip {
            best = later(trail, lits, best, place);
        }
    }
    best
}

/// The one of two indices whose literal has the greater rank.
fn later(trail: &Trail, lits: &[Lit], a: usize, b: usize) -> usize
    requires a_within { a < length lits.now }
    requires b_within { b < length lits.now }
    requires range { (k : ℕ) → k < length lits.now
        → (lit_at lits.now k).variable ≤ trail.now.variables }
    ensures one { IsOneOf result a b }
    ensures a { rank_of trail.now.lits (lit_at lits.now a) ≤ rank_of trail.now.lits
        (lit_at lits.now result) }
    ensures b { rank_of trail.now.lits (lit_at lits.now b) ≤ rank_of trail.now.lits
        (lit_at lits.now result) }
{
    if rank(trail, lits[a]) < rank(trail, lits[b]) {
        b
    } else {
        a
    }
}
