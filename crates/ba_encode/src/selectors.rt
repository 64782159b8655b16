//! Selectors of groups: free bits, and the literals by which they are read.

ghost use Rattle.std.specs.Prelude.{◌≡◌, ◌≤◌, length, IfOk};
ghost use Rattle.ba_encode.specs.Selectors.{AreFree, literal_of, with_selectors};
ghost use Rattle.ba_nodes.specs.Gates.{Extends};

use crate::encoded::Group;
use crate::grouping::Numbered;
use ba_clauses::Reading;
use ba_items::Items;
use ba_lits::Lit;
use ba_nodes::{Bit, Nodes};
use std::alloc::{AllocError, Global};

/// `count` new free bits.
pub(crate) fn free_bits(
    alloc: Global,
    nodes: &mut Nodes,
    count: usize,
) -> Result<Vec<Bit>, AllocError>
    ensures many { IfOk result (λ bits. length bits.items ≡ count) }
    ensures free { IfOk result (λ bits. AreFree nodes.new bits.items) }
    ensures extends { Extends nodes.old nodes.new }
{
    let mut bits = Vec::new(alloc);
    while bits.len() < count {
        bits.push(nodes.free()?)?;
    }
    Ok(bits)
}

/// The groups with their selectors, by the readings of these.
pub(crate) fn with_selectors(
    alloc: Global,
    groups: &[Numbered],
    readings: &[Reading],
) -> Result<Items<Group>, AllocError>
    requires { length groups.now ≤ length readings.now }
    ensures { IfOk result (λ named. named ≡ with_selectors groups.now readings.now) }
{
    let mut named = Items::new(alloc);
    for i in 0..groups.len() {
        named.push(Group {
            number: groups[i].number,
            statement: groups[i].statement,
            weight: groups[i].weight,
            selector: literal_of(readings[i]),
        })?;
    }
    Ok(named)
}

/// The literal of a reading that is no constant.
fn literal_of(reading: Reading) -> Lit
    ensures { result ≡ literal_of reading }
{
    match reading {
        Reading::Variable(lit) => lit,
        Reading::Constant(_) => Lit::positive(1),
    }
}
