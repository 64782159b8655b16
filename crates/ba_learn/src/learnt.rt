//! A learnt clause.

use ba_items::Items;
use ba_lits::Lit;

/// A learnt clause with its hints, and the level to go back to.
#[derive(Debug, Drop)]
pub struct Learnt {
    /// The literals, of strictly ascending variables.
    pub lits: Items<Lit>,
    /// The hints, by number: with all literals of the clause false, each clause named is unit in turn, and
    /// the last is false.
    pub hints: Items<u64>,
    /// The level at which the clause is unit.
    pub back: usize,
}
