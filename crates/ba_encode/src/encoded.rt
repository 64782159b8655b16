//! Formulas with their groups, and how choices are read from their models.

ghost use Rattle.std.specs.Prelude.{◌≡◌, ◌^◌, ◌<◌, IfSome, IsTrue, [], length, slice_get};
ghost use Rattle.ba_encode.specs.Readings.{are_readable};

use ba_clauses::Reading;
use ba_items::Items;
use ba_lits::{Formula, Lit};
use ba_numbers::ids::StmtId;
use std::alloc::Global;

/// A group: its number, its statement, its weight, and its selector. In an encoding that
/// [`encode`](crate::encode) made, the selector is true if the group runs as written.
#[derive(Clone, Copy)]
pub struct Group {
    pub number: u32,
    pub statement: StmtId,
    pub weight: u32,
    pub selector: Lit,
}

/// How the choice of an execution in a group is read from a model. It has the group's selector, whether the
/// execution takes place, whether it is as written, and its values.
pub struct PlaceReading {
    pub selector: Reading,
    pub guard: Reading,
    pub keep: Reading,
    pub values: Items<ValueReading>,
}

impl Drop for PlaceReading {
    fn drop(self) {
        let PlaceReading {
            selector: _,
            guard: _,
            keep: _,
            values: _,
        } = self;
    }
}

/// How a value is read from a model: its 32 bits, the lowest first, and whether its type is `I32` or `U32`.
#[derive(Drop)]
pub struct ValueReading {
    pub signed: bool,
    pub bits: Items<Reading>,
}

/// A formula with its groups, and the readings of the executions in groups, all by variables of the formula.
/// There are fewer than 2^32 groups. If [`encode`](crate::encode) made it, its models are the good runs in
/// which groups may be relaxed.
pub struct Encoded {
    pub(crate) formula: Formula,
    pub(crate) groups: Items<Group>,
    pub(crate) places: Items<PlaceReading>,
    pub ghost few: { length groups < 2 ^ 32 },
    pub ghost readable: { IsTrue (are_readable formula.variables places) },
}

impl Drop for Encoded {
    fn drop(self) {
        let Encoded {
            formula: _,
            groups: _,
            places: _,
        } = self;
    }
}

impl Encoded {
    /// A formula with any groups and without executions: its runs have no choices.
    pub fn without_places(alloc: Global, formula: Formula, groups: Items<Group>) -> Encoded
        requires { length groups < 2 ^ 32 }
        ensures formula { result.formula ≡ formula }
        ensures groups { result.groups ≡ groups }
        ensures places { result.places ≡ [] }
    {
        Encoded {
            formula,
            groups,
            places: Items::new(alloc),
        }
    }

    /// The formula.
    pub fn formula(&self) -> &Formula
        ensures { result.now ≡ self.now.formula }
    {
        &self.formula
    }

    /// How many groups there are. As arguments below they count from 0.
    pub fn groups(&self) -> u32
        ensures { result ≡ length self.now.groups }
    {
        self.groups.len() as u32
    }

    /// The selector of a group. In an encoding that [`encode`](crate::encode) made it is true if the group
    /// runs as written.
    pub fn selector(&self, group: u32) -> Lit
        requires { group < length self.now.groups }
        ensures { IfSome (slice_get self.now.groups group) (λ g. result ≡ g.selector) }
    {
        self.groups.as_slice()[group as usize].selector
    }

    /// The weight of a group.
    pub fn weight(&self, group: u32) -> u32
        requires { group < length self.now.groups }
        ensures { IfSome (slice_get self.now.groups group) (λ g. result ≡ g.weight) }
    {
        self.groups.as_slice()[group as usize].weight
    }

    /// The statement of a group.
    pub fn statement(&self, group: u32) -> StmtId
        requires { group < length self.now.groups }
        ensures { IfSome (slice_get self.now.groups group) (λ g. result ≡ g.statement) }
    {
        self.groups.as_slice()[group as usize].statement
    }

    /// The number of a group, from 1 on: that of its statement, or its position in the list of places.
    pub fn number(&self, group: u32) -> u32
        requires { group < length self.now.groups }
        ensures { IfSome (slice_get self.now.groups group) (λ g. result ≡ g.number) }
    {
        self.groups.as_slice()[group as usize].number
    }
}
