//! The verdicts of a search, and the sets of groups with their runs.

use ba_choices::Choice;
use ba_items::Items;

/// A set of groups, by ascending numbers from 1, and the choices of a run that is good if they are relaxed.
pub struct FoundSet {
    pub groups: Items<u32>,
    pub run: Items<Choice>,
}

impl Drop for FoundSet {
    fn drop(self) {
        let FoundSet { groups: _, run: _ } = self;
    }
}

/// The verdict of a search.
pub enum Verdict {
    /// These are all sets of least weight, in order, and this is their weight.
    Located { weight: u64, sets: Items<FoundSet> },
    /// No set has a good run.
    NoRepair,
    /// These are sets of least weight, and they are one more than may be listed.
    TooMany { weight: u64, sets: Items<FoundSet> },
    /// The stated number of conflicts is spent.
    Spent,
}

impl Drop for Verdict {
    fn drop(self) {
        match self {
            Verdict::Located { weight: _, sets: _ } => {}
            Verdict::NoRepair => {}
            Verdict::TooMany { weight: _, sets: _ } => {}
            Verdict::Spent => {}
        }
    }
}
