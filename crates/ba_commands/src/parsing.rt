//! The words as `clap` reads them, by one simple command a mode.

ghost use Rattle.std.specs.Prelude.{◌≡◌, [], false, map, codes, IfOk};
ghost use Rattle.clap.specs.Words.{app_of, first_value, found_of, rule_of};
ghost use Rattle.ba_commands.specs.Modes.{usage_of};
ghost use Rattle.ba_commands.specs.Commands.{bounds_with, check_with, command_with, localise_with, places_stand_alone, number_of, number_or, rank_with, repair_with, run_with, sample_with, steady_in};
ghost use Rattle.ba_commands.specs.Parsing.{IsParsedBy, app_for, bare_app, refuses, rule_for, with_rules};

use crate::commands::{Command, Text};
use crate::modes::{Mode, files, is_word, plain, valued};
use crate::words::WordsError;
use ba_bytes::numbers::number_in;
use ba_tree::run::Bounds;
use clap::error::ErrorKind;
use clap::{Arg, ArgAction, ArgMatches};
use std::alloc::{AllocError, Global};

/// What a name of a mode's table stands for.
#[derive(Clone, Copy)]
pub enum Role {
    /// An option that has a value.
    Valued,
    /// An option that has none.
    Plain,
    /// A file's name.
    File,
}

/// The argument of this name and role.
fn argument<'a>(alloc: Global, role: Role, name: &'a str) -> Arg<'a>
    ensures rule { rule_of result ≡ rule_for role name.now }
    ensures own { result.global ≡ false }
{
    match role {
        Role::Valued => Arg::new(alloc, name).long(name).action(ArgAction::Set),
        Role::Plain => Arg::new(alloc, name).long(name).action(ArgAction::SetTrue),
        Role::File => Arg::new(alloc, name),
    }
}

/// The command without an argument, which does not answer `--help`.
fn bare_command<'a>(alloc: Global) -> clap::Command<'a>
    ensures { app_of result ≡ bare_app }
{
    clap::Command::new(alloc, "bugassist").disable_help_flag(true)
}

/// The command with an argument of this role for each of the names.
///
/// The only error is out of memory.
fn with_arguments<'a>(
    alloc: Global,
    command: clap::Command<'a>,
    role: Role,
    names: &'static [&'static str],
) -> Result<clap::Command<'a>, AllocError>
    ensures { IfOk result (λ more.
        app_of more
        ≡ with_rules (app_of command.entry) (map (λ name. rule_for role name.now) names.now)) }
{
    let mut command = command;
    for name in names {
        command = command.arg(argument(alloc, role, name))?;
    }
    Ok(command)
}

/// The command of a mode. What has to be there is asked for when it is read, so that no argument is required
/// here.
///
/// The only error is out of memory.
fn command_for<'a>(alloc: Global, mode: Mode) -> Result<clap::Command<'a>, AllocError>
    ensures { IfOk result (λ command. app_of command ≡ app_for (usage_of mode)) }
{
    let command = bare_command(alloc);
    let command = with_arguments(alloc, command, Role::Valued, valued(mode))?;
    let command = with_arguments(alloc, command, Role::Plain, plain(mode))?;
    let command = with_arguments(alloc, command, Role::File, files(mode))?;
    Ok(command)
}

/// The refusal that an error of `clap` is, whatever it says.
fn refusal(kind: ErrorKind) -> WordsError
    ensures { result ≡ refuses kind }
{
    match kind {
        ErrorKind::OutOfMemory => WordsError::Memory,
        _ => WordsError::Bad,
    }
}

/// What `clap` finds in the words, of which the first is the mode.
///
/// `Bad` comes exactly if it finds a fault; `Memory`: out of memory.
pub fn matches_in<'a>(
    alloc: Global,
    mode: Mode,
    words: &'a [&str],
) -> Result<ArgMatches<'a>, WordsError>
    ensures { IsParsedBy (app_for (usage_of mode)) (map (λ word. word.now) words.now) result }
{
    let Ok(command) = command_for(alloc, mode) else {
        return Err(WordsError::Memory);
    };
    match command.try_get_matches_from(words) {
        Ok(matches) => Ok(matches),
        Err(error) => Err(refusal(error.kind())),
    }
}

/// The text that was found for a name of the table, if it was given.
fn text_of<'a>(matches: &ArgMatches<'a>, name: &str) -> Option<Text<'a>>
    ensures { result ≡ first_value (found_of matches.now) name.now }
{
    match matches.get_str(name) {
        Some(text) => Some(Text::new(text)),
        None => None,
    }
}

/// The number that an option gives, of at most seven digits and within the range, or the default where the
/// option is left out; `None` where its value is no such number.
fn number_or(
    matches: &ArgMatches<'_>,
    name: &str,
    default: u32,
    least: u32,
    most: u32,
) -> Option<u32>
    ensures { result ≡ number_or default least most (first_value (found_of matches.now) name.now) }
{
    match matches.get_str(name) {
        Some(text) => number_in(text.as_bytes(), 7, least, most),
        None => Some(default),
    }
}

/// The number that has to be given for a name of the table, of at most seven digits and within the range.
fn number_of(matches: &ArgMatches<'_>, name: &str, least: u32, most: u32) -> Option<u32>
    ensures { result ≡ number_of least most (first_value (found_of matches.now) name.now) }
{
    match matches.get_str(name) {
        Some(text) => number_in(text.as_bytes(), 7, least, most),
        None => None,
    }
}

/// The bounds that the options give.
fn bounds(matches: &ArgMatches<'_>) -> Option<Bounds>
    ensures { result ≡ bounds_with (first_value (found_of matches.now)) }
{
    Some(Bounds {
        turns: number_of(matches, "bound", 1, 128)?,
        frames: number_or(matches, "depth", 16, 1, 32)?,
    })
}

/// Whether the name of a restart rule is `steady`, and not `luby`.
fn steady_in(rule: &str) -> Option<bool>
    ensures { result ≡ steady_in (Some rule.now) }
{
    if is_word(rule, "luby") {
        Some(false)
    } else if is_word(rule, "steady") {
        Some(true)
    } else {
        None
    }
}

/// Whether the search restarts steadily; it does not where no rule is given.
fn is_steady(matches: &ArgMatches<'_>) -> Option<bool>
    ensures { result ≡ steady_in (first_value (found_of matches.now) (codes "restart")) }
{
    match matches.get_str("restart") {
        Some(rule) => steady_in(rule),
        None => Some(false),
    }
}

/// Whether `--places`, if it stands, has neither `--all` nor `--cert` beside it.
fn places_stand_alone(places: bool, all: bool, cert: &Option<Text<'_>>) -> bool
    ensures { result ≡ places_stand_alone places all cert.now }
{
    !(places && (all || cert.is_some()))
}

fn localise<'a>(
    matches: &ArgMatches<'a>,
    runs: bool,
    places: bool,
    all: bool,
) -> Option<Command<'a>>
    ensures { result
        ≡ localise_with (first_value (found_of matches.now))
        (first_value (found_of matches.now)) runs places all }
{
    let program = text_of(matches, "PROGRAM")?;
    let input = text_of(matches, "INPUT")?;
    let bounds = bounds(matches)?;
    let conflicts = number_or(matches, "conflicts", 200_000, 1, 1_000_000)?;
    let sets = number_or(matches, "sets", 1000, 1, 10_000)?;
    let steady = is_steady(matches)?;
    let cert = text_of(matches, "cert");
    if !places_stand_alone(places, all, &cert) {
        return None;
    }
    Some(Command::Localise {
        program,
        input,
        bounds,
        weights: text_of(matches, "weights"),
        conflicts: u64::from(conflicts),
        sets,
        cert,
        runs,
        places,
        all,
        steady,
    })
}

fn check<'a>(matches: &ArgMatches<'a>, all: bool) -> Option<Command<'a>>
    ensures { result ≡ check_with (first_value (found_of matches.now))
        (first_value (found_of matches.now)) all }
{
    let program = text_of(matches, "PROGRAM")?;
    let input = text_of(matches, "INPUT")?;
    let cert = text_of(matches, "CERT")?;
    let bounds = bounds(matches)?;
    let conflicts = number_or(matches, "conflicts", 200_000, 1, 1_000_000)?;
    let sets = number_or(matches, "sets", 1000, 1, 10_000)?;
    Some(Command::Check {
        program,
        input,
        cert,
        bounds,
        weights: text_of(matches, "weights"),
        conflicts: u64::from(conflicts),
        sets,
        all,
    })
}

fn run<'a>(matches: &ArgMatches<'a>) -> Option<Command<'a>>
    ensures { result
        ≡ run_with (first_value (found_of matches.now)) (first_value (found_of matches.now)) }
{
    let program = text_of(matches, "PROGRAM")?;
    let input = text_of(matches, "INPUT")?;
    let bounds = bounds(matches)?;
    Some(Command::Run {
        program,
        input,
        bounds,
    })
}

fn rank<'a>(matches: &ArgMatches<'a>) -> Option<Command<'a>>
    ensures { result
        ≡ rank_with (first_value (found_of matches.now)) (first_value (found_of matches.now)) }
{
    let program = text_of(matches, "PROGRAM")?;
    let inputs = text_of(matches, "INPUTS")?;
    let bounds = bounds(matches)?;
    let conflicts = number_or(matches, "conflicts", 200_000, 1, 1_000_000)?;
    let sets = number_or(matches, "sets", 1000, 1, 10_000)?;
    let steady = is_steady(matches)?;
    Some(Command::Rank {
        program,
        inputs,
        bounds,
        weights: text_of(matches, "weights"),
        conflicts: u64::from(conflicts),
        sets,
        steady,
    })
}

fn repair<'a>(matches: &ArgMatches<'a>) -> Option<Command<'a>>
    ensures { result
        ≡ repair_with (first_value (found_of matches.now)) (first_value (found_of matches.now)) }
{
    let program = text_of(matches, "PROGRAM")?;
    let failing = text_of(matches, "FAILING")?;
    let passing = text_of(matches, "PASSING")?;
    let bounds = bounds(matches)?;
    let conflicts = number_or(matches, "conflicts", 200_000, 1, 1_000_000)?;
    let sets = number_or(matches, "sets", 1000, 1, 10_000)?;
    let steady = is_steady(matches)?;
    Some(Command::Repair {
        program,
        failing,
        passing,
        bounds,
        weights: text_of(matches, "weights"),
        conflicts: u64::from(conflicts),
        sets,
        steady,
    })
}

fn sample<'a>(matches: &ArgMatches<'a>) -> Option<Command<'a>>
    ensures { result ≡ sample_with (first_value (found_of matches.now)) }
{
    let additions = number_of(matches, "N", 1, 500)?;
    Some(Command::Sample { additions })
}

/// The command that the matches of a mode are, if their numbers are in their ranges and what has to be there
/// is there.
pub fn command_in<'a>(
    mode: Mode,
    matches: &ArgMatches<'a>,
    runs: bool,
    places: bool,
    all: bool,
) -> Option<Command<'a>>
    ensures { result
        ≡ command_with mode (first_value (found_of matches.now))
        (first_value (found_of matches.now)) runs places all }
{
    match mode {
        Mode::Localise => localise(matches, runs, places, all),
        Mode::Check => check(matches, all),
        Mode::Run => run(matches),
        Mode::Rank => rank(matches),
        Mode::Repair => repair(matches),
        Mode::Sample => sample(matches),
    }
}
