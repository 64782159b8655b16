//! The choices of a run.

use crate::Fault;
use ba_bytes::decimal::decimal;
use ba_choices::{Choice, Values};
use std::alloc::Global;

/// The choices that words spell as in a report: `k` if a statement runs as written, or `t` and the values
/// that it takes.
///
/// `NoChoice` if a word is none of these.
pub fn choices_of(alloc: Global, words: &str) -> Result<Vec<Choice>, Fault> {
    let mut choices = Vec::new(alloc);
    for word in words.split(' ') {
        add_word(alloc, &mut choices, word)?;
    }
    Ok(choices)
}

/// Adds the choice that begins with a word, or a value to the last one.
fn add_word(alloc: Global, choices: &mut Vec<Choice>, word: &str) -> Result<(), Fault> {
    match word {
        "" => {}
        "k" => choices.push(Choice::Keep)?,
        "t" => choices.push(Choice::Take(Values::new(alloc)))?,
        _ => add_value(choices, decimal(word.as_bytes()).ok_or(Fault::NoChoice)?)?,
    }
    Ok(())
}

/// Adds a value to the last choice.
fn add_value(choices: &mut Vec<Choice>, value: i64) -> Result<(), Fault> {
    match choices.last_mut() {
        Some(Choice::Take(values)) => Ok(values.push(value)?),
        _ => Err(Fault::NoChoice),
    }
}
