//! The modes of the program, and what may follow each.

ghost use Rattle.std.specs.Prelude.{◌≡◌, map, bytes_eq};
ghost use Rattle.ba_commands.specs.Modes.{usage_of};
ghost use Rattle.ba_commands.specs.Words.{mode_of};

/// A mode of the program.
#[derive(Clone, Copy)]
pub enum Mode {
    /// Find the least sets of statements whose change could repair the run.
    Localise,
    /// Check a certificate.
    Check,
    /// Run the program.
    Run,
    /// Rank the statements over several inputs.
    Rank,
    /// Try small edits at the statements of the least sets.
    Repair,
    /// Search a program made for the purpose.
    Sample,
}

static LOCALISE_VALUED: [&str; 7] = [
    "bound",
    "depth",
    "weights",
    "conflicts",
    "sets",
    "cert",
    "restart",
];

static CHECK_VALUED: [&str; 5] = ["bound", "depth", "weights", "conflicts", "sets"];

static RANK_VALUED: [&str; 6] = ["bound", "depth", "weights", "conflicts", "sets", "restart"];

static RUN_VALUED: [&str; 2] = ["bound", "depth"];

static LOCALISE_PLAIN: [&str; 3] = ["runs", "places", "all"];

static CHECK_PLAIN: [&str; 1] = ["all"];

static RUN_FILES: [&str; 2] = ["PROGRAM", "INPUT"];

static RANK_FILES: [&str; 2] = ["PROGRAM", "INPUTS"];

static REPAIR_FILES: [&str; 3] = ["PROGRAM", "FAILING", "PASSING"];

static CHECK_FILES: [&str; 3] = ["PROGRAM", "INPUT", "CERT"];

static SAMPLE_FILES: [&str; 1] = ["N"];

static NO_NAMES: [&str; 0] = [];

/// Whether the word is this one.
pub fn is_word(word: &str, expected: &str) -> bool
    ensures { result ≡ bytes_eq word.now expected.now }
{
    word == expected
}

/// The mode that a word names, if it names one.
pub fn mode_of(word: &str) -> Option<Mode>
    ensures { result ≡ mode_of word.now }
{
    if is_word(word, "localise") {
        Some(Mode::Localise)
    } else if is_word(word, "check") {
        Some(Mode::Check)
    } else if is_word(word, "run") {
        Some(Mode::Run)
    } else if is_word(word, "rank") {
        Some(Mode::Rank)
    } else if is_word(word, "repair") {
        Some(Mode::Repair)
    } else if is_word(word, "sample") {
        Some(Mode::Sample)
    } else {
        None
    }
}

/// The names of the options that have a value in the mode.
pub fn valued(mode: Mode) -> &'static [&'static str]
    ensures { map (λ name. name.now) result.now ≡ (usage_of mode).valued }
{
    match mode {
        Mode::Localise => LOCALISE_VALUED.as_slice(),
        Mode::Check => CHECK_VALUED.as_slice(),
        Mode::Run => RUN_VALUED.as_slice(),
        Mode::Rank | Mode::Repair => RANK_VALUED.as_slice(),
        Mode::Sample => NO_NAMES.as_slice(),
    }
}

/// The names of the options that have no value in the mode.
pub fn plain(mode: Mode) -> &'static [&'static str]
    ensures { map (λ name. name.now) result.now ≡ (usage_of mode).plain }
{
    match mode {
        Mode::Localise => LOCALISE_PLAIN.as_slice(),
        Mode::Check => CHECK_PLAIN.as_slice(),
        Mode::Run | Mode::Rank => NO_NAMES.as_slice(),
        Mode::Repair | Mode::Sample => NO_NAMES.as_slice(),
    }
}

/// What the file names of the mode stand for, in their order.
pub fn files(mode: Mode) -> &'static [&'static str]
    ensures { map (λ name. name.now) result.now ≡ (usage_of mode).files }
{
    match mode {
        Mode::Localise | Mode::Run => RUN_FILES.as_slice(),
        Mode::Check => CHECK_FILES.as_slice(),
        Mode::Rank => RANK_FILES.as_slice(),
        Mode::Repair => REPAIR_FILES.as_slice(),
        Mode::Sample => SAMPLE_FILES.as_slice(),
    }
}
