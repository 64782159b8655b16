//! The words that the program is called with.

ghost use Rattle.std.specs.Prelude.{◌≡◌, ◌≢◌, ℕ, List, if◌then◌else◌, map, bytes_eq, MatchOption};
ghost use Rattle.std.specs.List.{list_all, list_any};
ghost use Rattle.ba_commands.specs.Modes.{Word, usage_of};
ghost use Rattle.ba_commands.specs.Words.{is_accepted, is_option, is_option_of, is_plain, option_word, takes_value};
ghost use Rattle.ba_commands.specs.Commands.{Reads, command_of};
ghost use Rattle.ba_commands.specs.Parsing.{is_readable};

use crate::commands::Command;
use crate::modes::{Mode, mode_of, plain, valued};
use crate::parsing::{command_in, matches_in};
use std::alloc::Global;
use thiserror::Error;

/// Why words are no command, or out of memory.
#[derive(Clone, Copy, Debug, Error)]
pub enum WordsError {
    /// The words are no command.
    #[error("the words are no command")]
    Bad,
    /// There was no memory.
    #[error("out of memory")]
    Memory,
}

/// Whether a name is one of these.
fn stands(names: &[&str], name: &str) -> bool
    ensures { result ≡ list_any (λ other. bytes_eq other.now name.now) names.now }
{
    names.iter().any(|other| *other == name)
}

/// What stands behind `--` at the front of a word.
fn option_name(word: &str) -> Option<&str>
    ensures { MatchOption result ((name : List ℕ) → word.now ≢ option_word name)
        (λ name. word.now ≡ option_word name.now) }
{
    word.strip_prefix("--")
}

/// Whether a word is an option of one of these names.
fn is_option_of(names: &[&str], word: &str) -> bool
    ensures { result ≡ is_option_of (map (λ name. name.now) names.now) word.now }
{
    match option_name(word) {
        Some(name) => stands(names, name),
        None => false,
    }
}

/// Whether a word is an option of the mode that has a value.
fn takes_value(mode: Mode, word: &str) -> bool
    ensures { result ≡ takes_value (usage_of mode) word.now }
{
    is_option_of(valued(mode), word)
}

/// Whether a word is an option of the mode.
fn is_option(mode: Mode, word: &str) -> bool
    ensures { result ≡ is_option (usage_of mode) word.now }
{
    takes_value(mode, word) || is_option_of(plain(mode), word)
}

/// Whether a word can be a value or a file's name: it is not empty and does not begin with `-`.
fn is_plain(word: &str) -> bool
    ensures { result ≡ is_plain word.now }
{
    match word.as_bytes().first() {
        None => false,
        Some(first) => *first != b'-',
    }
}

/// Whether a word that holds no value behind `=` can stand behind the mode: it is an option of the mode, or
/// can be a value or a file's name.
fn is_accepted(mode: Mode, word: &str) -> bool
    ensures { result ≡ is_accepted (usage_of mode) word.now }
{
    is_plain(word) || is_option(mode, word)
}

/// Whether a word can stand behind the mode where it is cut at its first `=`.
fn is_readable_cut(mode: Mode, word: &str, option: &str, text: &str) -> bool
    ensures { result
        ≡ (if takes_value (usage_of mode) option.now then is_plain text.now
        else is_accepted (usage_of mode) word.now) }
{
    if takes_value(mode, option) {
        is_plain(text)
    } else {
        is_accepted(mode, word)
    }
}

/// Whether a word can stand behind the mode. What follows `=` behind an option that has a value can be a
/// value; every other word is an option of the mode, or can be a value or a file's name.
fn is_readable(mode: Mode, word: &str) -> bool
    ensures { result ≡ is_readable (usage_of mode) word.now }
{
    match word.split_once('=') {
        Some((option, text)) => is_readable_cut(mode, word, option, text),
        None => is_accepted(mode, word),
    }
}

/// Whether each of the words can stand behind the mode.
fn are_readable(mode: Mode, words: &[&str]) -> bool
    ensures { result ≡ list_all (λ word. is_readable (usage_of mode) word.now) words.now }
{
    words.iter().all(|word| is_readable(mode, word))
}

/// Reads the words that the program is called with, without its own name, as a command:
///
/// - `localise PROGRAM INPUT --bound B` and, where wanted, `--depth D`, `--weights F`, `--conflicts N`,
///   `--sets N`, `--cert F`, `--runs`, `--places`, `--all`, `--restart luby` or `--restart steady`. Neither
///   `--cert F` nor `--all` stands beside `--places`;
/// - `check PROGRAM INPUT CERT --bound B` and, where wanted, `--depth D`, `--weights F`, `--conflicts N`,
///   `--sets N`, `--all`;
/// - `run PROGRAM INPUT --bound B` and, where wanted, `--depth D`;
/// - `rank PROGRAM INPUTS --bound B` and, where wanted, `--depth D`, `--weights F`, `--conflicts N`,
///   `--sets N`, `--restart luby` or `--restart steady`;
/// - `repair PROGRAM FAILING PASSING --bound B` and, where wanted, the options of `rank`;
/// - `sample N`.
///
/// Behind the mode, options and names of files stand in any order, and `--bound=3` is `--bound 3`. A number
/// is one to seven decimal digits: B is 1 to 128, D 1 to 32, the number of conflicts 1 to 1,000,000, that of
/// sets 1 to 10,000, and that of `sample` 1 to 500. Names and values are not empty and do not begin with `-`,
/// and no option stands twice.
///
/// `Bad` comes exactly if the words are none of this; `Memory`: out of memory.
pub fn read_words<'a>(alloc: Global, words: &'a [&str]) -> Result<Command<'a>, WordsError>
    ensures { Reads result (command_of (map (λ word. word.now) words.now)) }
{
    let [first, others @ ..] = words else {
        return Err(WordsError::Bad);
    };
    let Some(mode) = mode_of(first) else {
        return Err(WordsError::Bad);
    };
    if !are_readable(mode, others) {
        return Err(WordsError::Bad);
    }
    match matches_in(alloc, mode, words) {
        Ok(matches) => {
            let runs = matches.get_flag("runs");
            let places = matches.get_flag("places");
            let all = matches.get_flag("all");
            command_in(mode, &matches, runs, places, all).ok_or(WordsError::Bad)
        }
        Err(error) => Err(error),
    }
}
