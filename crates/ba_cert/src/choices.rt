//! The choices of a run in the line of a step.

ghost use Rattle.std.specs.Prelude.{◌≡◌, None, OnOk};
ghost use Rattle.ba_cert.specs.Reading.{choices_of, no_choice, run_at, with_part, with_value};
ghost use Rattle.ba_cert.specs.Readers.{Parses};

use crate::error::CertError;
use crate::numerals::value_of;
use crate::parts::Parts;
use ba_choices::{Choice, Values};
use ba_items::Items;
use std::alloc::{AllocError, Global};

/// The choices read so far.
#[derive(Drop)]
struct Run {
    /// The complete choices.
    done: Items<Choice>,
    /// The values of the last one, if it may take more.
    pending: Option<Values>,
}

/// Adds a value to the last choice.
fn add_value(pending: &mut Option<Values>, value: i64) -> Result<(), CertError>
    ensures { Parses (λ _. pending.new) result (with_value pending.old value) }
{
    let Some(values) = pending else {
        return Err(CertError::BadLine);
    };
    values.push(value)?;
    Ok(())
}

impl Run {
    /// Completes the last choice.
    fn complete(&mut self) -> Result<(), AllocError>
        ensures { OnOk result (self.new ≡ record { done = choices_of self.old; pending = None }) }
    {
        if let Some(values) = self.pending.take() {
            self.done.push(Choice::Take(values))?;
        }
        Ok(())
    }

    /// Takes one more part: `k` or `t`, which begin a choice, or a value of the last one.
    #[tactic(auto, unfolding(crate::specs::Reading::with_part))]
    fn take(&mut self, alloc: Global, part: &[u8]) -> Result<(), CertError>
        ensures { Parses (λ _. self.new) result (with_part self.old part.now) }
    {
        if part == b"k".as_slice() {
            self.complete()?;
            self.done.push(Choice::Keep)?;
            return Ok(());
        }
        if part == b"t".as_slice() {
            self.complete()?;
            self.pending = Some(Values::new(alloc));
            return Ok(());
        }
        let value = value_of(part).ok_or(CertError::BadLine)?;
        add_value(&mut self.pending, value)
    }
}

/// Reads the choices that the remaining parts write.
pub(crate) fn run_at(alloc: Global, parts: &mut Parts) -> Result<Items<Choice>, CertError>
    ensures { Parses (λ run. run) result (run_at no_choice parts.old) }
{
    let mut run = Run {
        done: Items::new(alloc),
        pending: None,
    };
    while let Some(part) = parts.next_part() {
        run.take(alloc, part)?;
    }
    run.complete()?;
    Ok(run.done)
}
