//! The bits that are read from models, and their readings.

ghost use Rattle.std.specs.Prelude.{◌≡◌, ◌++◌, ◌≤◌, true, drop, length, map, take, IfOk, OnOk};
ghost use Rattle.std.specs.List.{flat_map};
ghost use Rattle.ba_clauses.specs.declared.encoding.Reading.{Reading};
ghost use Rattle.ba_encode.specs.Parts.{are_all_long, are_long, bits_of, bits_of_value, place_by, value_by};
ghost use Rattle.ba_nodes.specs.declared.Bit.{Bit};

use crate::encoded::{PlaceReading, ValueReading};
use crate::places::{PlaceBits, ValueBits};
use ba_clauses::Reading;
use ba_items::Items;
use ba_nodes::Bit;
use std::alloc::{AllocError, Global};

/// The bits that are read from models. First come the selectors. For each execution in a group follow its
/// selector, whether it takes place, whether it is kept, and the bits of its values.
pub(crate) fn bits_read(
    alloc: Global,
    selectors: &[Bit],
    places: &[PlaceBits],
) -> Result<Vec<Bit>, AllocError>
    ensures { IfOk result (λ read. read.items ≡ selectors.now ++ flat_map bits_of places.now) }
{
    let mut read = Vec::new(alloc);
    read.extend_from_slice(selectors)?;
    for place in places {
        add_place(&mut read, place)?;
    }
    Ok(read)
}

/// Adds the bits of an execution, if it is in a group.
fn add_place(read: &mut Vec<Bit>, place: &PlaceBits) -> Result<(), AllocError>
    ensures { OnOk result (read.new.items ≡ read.old.items ++ bits_of place.now) }
{
    if let Some(selector) = place.selector {
        read.push(selector)?;
        read.push(place.guard)?;
        read.push(place.keep)?;
        add_values(read, place.values.as_slice())?;
    }
    Ok(())
}

/// Adds the bits of values.
fn add_values(read: &mut Vec<Bit>, values: &[ValueBits]) -> Result<(), AllocError>
    ensures { OnOk result (read.new.items ≡ read.old.items ++ flat_map bits_of_value values.now) }
{
    for value in values {
        read.extend_from_slice(value.bits.as_slice())?;
    }
    Ok(())
}

/// The readings of the executions that are in groups, by the readings of their bits.
pub(crate) fn place_readings(
    alloc: Global,
    places: &[PlaceBits],
    readings: &[Reading],
) -> Result<Items<PlaceReading>, AllocError>
    requires many { length readings.now ≡ length (flat_map bits_of places.now) }
    requires long { are_all_long places.now ≡ true }
    ensures { IfOk result (λ read. (reading : Bit → Reading)
        → readings.now ≡ map reading (flat_map bits_of places.now)
        → read ≡ flat_map (place_by reading) places.now) }
{
    let mut read = Items::new(alloc);
    let mut rest = readings;
    for place in places {
        let (own, behind) = split_reading(place, rest);
        add_reading(alloc, place, own, &mut read)?;
        rest = behind;
    }
    Ok(read)
}

/// The readings of the bits of an execution, which come first, and those after them.
fn split_reading<'a>(place: &PlaceBits, readings: &'a [Reading]) -> (&'a [Reading], &'a [Reading])
    requires many { length (bits_of place.now) ≤ length readings.now }
    requires long { are_long place.now.values ≡ true }
    ensures own { result.0.now ≡ take (length (bits_of place.now)) readings.now }
    ensures behind { result.1.now ≡ drop (length (bits_of place.now)) readings.now }
{
    let size = match place.selector {
        None => 0,
        Some(_) => 3 + 32 * place.values.len(),
    };
    readings.split_at(size)
}

/// Adds the reading of an execution, if it is in a group.
fn add_reading(
    alloc: Global,
    place: &PlaceBits,
    readings: &[Reading],
    read: &mut Items<PlaceReading>,
) -> Result<(), AllocError>
    requires many { length readings.now ≡ length (bits_of place.now) }
    requires long { are_long place.now.values ≡ true }
    ensures { OnOk result ((reading : Bit → Reading)
        → readings.now ≡ map reading (bits_of place.now)
        → read.new ≡ read.old ++ place_by reading place.now) }
{
    if let Some(_) = place.selector {
        read.push(PlaceReading {
            selector: readings[0],
            guard: readings[1],
            keep: readings[2],
            values: value_readings(alloc, place.values.as_slice(), &readings[3..])?,
        })?;
    }
    Ok(())
}

/// The readings of values, by the readings of their bits.
fn value_readings(
    alloc: Global,
    values: &[ValueBits],
    readings: &[Reading],
) -> Result<Items<ValueReading>, AllocError>
    requires many { length readings.now ≡ length (flat_map bits_of_value values.now) }
    requires long { are_long values.now ≡ true }
    ensures { IfOk result (λ read. (reading : Bit → Reading)
        → readings.now ≡ map reading (flat_map bits_of_value values.now)
        → read ≡ map (value_by reading) values.now) }
{
    let mut read = Items::new(alloc);
    let mut rest = readings;
    for value in values {
        let (bits, behind) = rest.split_at(32);
        read.push(ValueReading {
            signed: value.signed,
            bits: Items::from_slice(alloc, bits)?,
        })?;
        rest = behind;
    }
    Ok(read)
}
