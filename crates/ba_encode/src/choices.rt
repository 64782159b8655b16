//! The choices of a run, from a model of its formula.

ghost use Rattle.std.specs.Prelude.{◌≡◌, ◌≤◌, ◌++◌, true, length, map, IfOk, OnOk};
ghost use Rattle.std.specs.List.{list_all};
ghost use Rattle.ba_encode.specs.Readings.{choices_at, choices_read, choice_read, is_relaxed_in, number_read, of_model, is_in_range, is_readable, is_readable_place, is_readable_value};
ghost use Rattle.ba_clauses.specs.Encodings.{value_read};
ghost use Rattle.ba_words.specs.Words.{spelled};

use crate::encoded::{Encoded, PlaceReading, ValueReading};
use ba_choices::{Choice, Values};
use ba_clauses::Reading;
use ba_items::Items;
use ba_lits::Model;
use ba_numbers::numbers::{CType, convert};
use std::alloc::{AllocError, Global};

/// The choices at the executions that take place and whose group has a false selector in a model, in order.
/// Each value is in the range of `I32` or of `U32`. If the model satisfies the formula that
/// [`encode`](crate::encode) made, they are those of a good run in which these groups may be relaxed.
///
/// The only error is out of memory.
pub fn choices_of(
    alloc: Global,
    encoded: &Encoded,
    model: &Model,
) -> Result<Items<Choice>, AllocError>
    requires { encoded.now.formula.variables ≤ length model.now.values }
    ensures choices { IfOk result (λ choices.
        choices ≡ choices_read (of_model model.now) encoded.now.places) }
    ensures in_range { IfOk result (λ choices. list_all is_in_range choices ≡ true) }
{
    let mut choices = Items::new(alloc);
    for place in encoded.places.as_slice() {
        add_choice(alloc, model, place, &mut choices)?;
    }
    Ok(choices)
}

/// Adds the choice of an execution, if it takes place and its group is given up.
fn add_choice(
    alloc: Global,
    model: &Model,
    place: &PlaceReading,
    choices: &mut Items<Choice>,
) -> Result<(), AllocError>
    requires { is_readable_place (length model.now.values) place.now ≡ true }
    ensures { OnOk result (choices.new ≡ choices.old ++ choices_at (of_model model.now) place.now) }
{
    if is_relaxed(model, place) {
        choices.push(choice_read(alloc, model, place)?)?;
    }
    Ok(())
}

/// Whether an execution takes place and its group is given up.
fn is_relaxed(model: &Model, place: &PlaceReading) -> bool
    requires { is_readable_place (length model.now.values) place.now ≡ true }
    ensures { result ≡ is_relaxed_in (of_model model.now) place.now }
{
    !value_read(model, place.selector) && value_read(model, place.guard)
}

/// The choice of an execution.
fn choice_read(alloc: Global, model: &Model, place: &PlaceReading) -> Result<Choice, AllocError>
    requires { is_readable_place (length model.now.values) place.now ≡ true }
    ensures { IfOk result (λ choice. choice ≡ choice_read (of_model model.now) place.now) }
{
    if value_read(model, place.keep) {
        return Ok(Choice::Keep);
    }
    Ok(Choice::Take(numbers_read(alloc, model, place.values.as_slice())?))
}

/// The values of an execution.
fn numbers_read(alloc: Global, model: &Model, values: &[ValueReading]) -> Result<Values, AllocError>
    requires { list_all (is_readable_value (length model.now.values)) values.now ≡ true }
    ensures { IfOk result (λ numbers. numbers ≡ map (number_read (of_model model.now)) values.now) }
{
    let mut numbers = Values::new(alloc);
    for value in values {
        numbers.push(number_read(model, value))?;
    }
    Ok(numbers)
}

/// The value of a word.
fn number_read(model: &Model, value: &ValueReading) -> i64
    requires { is_readable_value (length model.now.values) value.now ≡ true }
    ensures { result ≡ number_read (of_model model.now) value.now }
{
    let number = bits_read(model, value.bits.as_slice());
    let t = if value.signed { CType::I32 } else { CType::U32 };
    convert(t, i64::from(number))
}

/// The number that bits spell, the lowest first.
fn bits_read(model: &Model, bits: &[Reading]) -> u32
    requires readable { list_all (is_readable (length model.now.values)) bits.now ≡ true }
    requires long { length bits.now ≡ 32 }
    ensures { result ≡ spelled (map (value_read (of_model model.now)) bits.now) }
{
    let mut number = 0;
    for i in 0..32 {
        let bit = value_read(model, bits[31 - i]);
        number = 2 * number + u32::from(bit);
    }
    number
}

/// The value of a bit.
fn value_read(model: &Model, reading: Reading) -> bool
    requires { is_readable (length model.now.values) reading ≡ true }
    ensures { result ≡ value_read (of_model model.now) reading }
{
    match reading {
        Reading::Constant(value) => value,
        Reading::Variable(lit) => model.value(lit.variable()) != lit.is_negated(),
    }
}
