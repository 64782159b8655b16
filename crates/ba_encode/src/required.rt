//! The bits that have to be true.

ghost use Rattle.std.specs.Prelude.{◌≡◌, true, length, All, IfOk, OnOk};
ghost use Rattle.ba_bits.specs.Bits.{AreEntriesOf};
ghost use Rattle.ba_encode.specs.Parts.{AddsKept, AreHeld, IsPlaceOf, TellsStay, are_set};
ghost use Rattle.ba_nodes.specs.Gates.{Extends};
ghost use Rattle.ba_wordlist.specs.Facts.{are_names};

use crate::places::{PlaceBits, is_set};
use ba_bits::Cells;
use ba_nodes::{Bit, Nodes};
use std::alloc::{AllocError, Global};

/// Bits that say: each of these words is other than 0.
pub(crate) fn met(
    alloc: Global,
    nodes: &mut Nodes,
    entries: &[Cells],
    require: &[u32],
) -> Result<Vec<Bit>, AllocError>
    requires entries { AreEntriesOf nodes.old entries.now }
    requires names { are_names (length entries.now) require.now ≡ true }
    ensures held { IfOk result (λ bits. AreHeld nodes.new bits.items
        (λ free. are_set free nodes.old entries.now require.now)) }
    ensures extends { Extends nodes.old nodes.new }
{
    let mut bits = Vec::new(alloc);
    for number in require {
        bits.push(is_set(nodes, entries, *number)?)?;
    }
    Ok(bits)
}

/// Adds bits that say of each execution: it is kept as written, or doesn't take place, or its group has a
/// false selector.
pub(crate) fn add_kept(
    nodes: &mut Nodes,
    places: &[PlaceBits],
    required: &mut Vec<Bit>,
) -> Result<(), AllocError>
    requires places { All (IsPlaceOf nodes.old) places.now }
    ensures held { OnOk result
        (AddsKept nodes.old required.old.items places.now nodes.new required.new.items) }
    ensures extends { Extends nodes.old nodes.new }
{
    for place in places {
        required.push(kept(nodes, place)?)?;
    }
    Ok(())
}

/// A bit that says: the execution is kept as written, or doesn't take place, or its group has a false
/// selector.
fn kept(nodes: &mut Nodes, place: &PlaceBits) -> Result<Bit, AllocError>
    requires { IsPlaceOf nodes.old place.now }
    ensures bit { IfOk result (TellsStay nodes.old place.now nodes.new) }
    ensures extends { Extends nodes.old nodes.new }
{
    let taken = nodes.and(place.guard, Nodes::not(place.keep))?;
    let wrong = match place.selector {
        None => taken,
        Some(selector) => nodes.and(selector, taken)?,
    };
    Ok(Nodes::not(wrong))
}
