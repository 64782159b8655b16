//! The choices of a run in a line.

ghost use Rattle.std.specs.Prelude.{◌≡◌, ◌++◌, map, OnOk};
ghost use Rattle.std.specs.Fmt.{signed_decimal};
ghost use Rattle.ba_text.specs.Texts.{choice_parts, choices_text, spaced};

use crate::numbers::push_value;
use ba_choices::Choice;
use std::alloc::AllocError;

/// Adds the values, each after a space.
fn push_values(values: &[i64], text: &mut Vec<u8>) -> Result<(), AllocError>
    ensures { OnOk result (text.new.items
        ≡ text.old.items ++ spaced (map signed_decimal values.now)) }
{
    for value in values {
        text.extend_from_slice(b" ")?;
        push_value(*value, text)?;
    }
    Ok(())
}

/// Adds the parts of a choice, each after a space.
fn push_choice(choice: &Choice, text: &mut Vec<u8>) -> Result<(), AllocError>
    ensures { OnOk result (text.new.items ≡ text.old.items ++ spaced (choice_parts choice.now)) }
{
    match choice {
        Choice::Keep => text.extend_from_slice(b" k"),
        Choice::Take(values) => {
            text.extend_from_slice(b" t")?;
            push_values(values.as_slice(), text)
        }
    }
}

/// Appends the choices. `Keep` is a space and `k`; `Take` is a space and `t`, and a space before each value.
///
/// The only error is out of memory.
pub fn push_choices(choices: &[Choice], text: &mut Vec<u8>) -> Result<(), AllocError>
    ensures { OnOk result (text.new.items ≡ text.old.items ++ choices_text choices.now) }
{
    for choice in choices {
        push_choice(choice, text)?;
    }
    Ok(())
}
