//! The answers of a call, before they are printed.

ghost use Rattle.std.specs.Prelude.{◌≡◌, ◌++◌, ℕ, None, Some, codes, decimal, IfOk, OnOk};
ghost use Rattle.ba_answers.specs.Printed.{at_text, behind_colon, behind_comma, claim_text, code_of, file_word, input_text, position_text, status_of, text_of};
ghost use Rattle.ba_answers.specs.declared.answers.Answer.{Answer};

use crate::fault::{Cause, Fault};
use crate::file::File;
use crate::status::Status;
use ba_items::Items;
use ba_numbers::ids::At;
use ba_text::push_number;
use std::alloc::{AllocError, Global};

/// Why a text gives no input of a program, or no inputs. Pieces between blanks are counted from 1.
#[derive(Clone, Copy)]
pub enum InputFault {
    /// The piece of this number is no number.
    NotANumber(u32),
    /// Number I, from 1, is outside the type of its parameter.
    OutOfRange(u32),
    /// There are fewer or more numbers than the parameters take.
    WrongCount,
    /// There is no input.
    NoInput,
    /// There are more inputs than a text may give.
    TooMany,
}

/// The claim of a certificate about a failing run.
#[derive(Clone, Copy)]
pub enum Claim {
    /// The least sets are those that it names.
    Located,
    /// No set of statements could repair the run.
    NoRepair,
    /// There are more least sets than may be listed.
    TooManySets,
    /// The stated number of conflicts is spent.
    BudgetSpent,
}

/// The answer of a call.
pub enum Answer {
    /// The least sets were found; this is their report.
    Located(Items<u8>),
    /// The least sets of a sample were found.
    Sampled {
        /// How many additions the sample has.
        additions: u32,
        /// The weight of each set.
        weight: u64,
        /// How many sets there are.
        sets: u64,
    },
    /// The certificate is accepted, with this claim.
    Accepted(Claim),
    /// The statements were ranked over several inputs; this is their report.
    Ranked(Items<u8>),
    /// The edits at the statements of the least sets were tried; this is the report of the good ones.
    Edits(Items<u8>),
    /// The run fails at the assertion that begins at this position.
    AssertFails(At),
    /// The run traps at the statement that begins at this position.
    Trap(At),
    /// The run as written meets every assertion.
    NotFailing {
        /// The line of its input, if there are several inputs.
        line: Option<u64>,
    },
    /// The words are no command.
    BadWords,
    /// The text of the program spells no program.
    BadProgram(Fault),
    /// The text of this file gives no input of the program, or no inputs.
    BadInput {
        file: File,
        fault: InputFault,
        /// The refused line, if there are several inputs and one is refused.
        line: Option<u64>,
    },
    /// The program is too large.
    TooLarge,
    /// The run exceeds a bound.
    BeyondBound {
        /// The position of the statement.
        at: At,
        /// The line of the run's input, if there are several inputs.
        line: Option<u64>,
    },
    /// The run on the input in this line had to pass, and doesn't: it fails, or exceeds a bound.
    PassingFails(u64),
    /// No set of statements could repair the run.
    NoRepair,
    /// There are more least sets than may be listed.
    TooManySets {
        /// The weight of each.
        weight: u64,
        /// How many sets may be listed.
        most: u32,
        /// The line of the input, if there are several inputs.
        line: Option<u64>,
    },
    /// The search spent its conflicts before the least sets were known.
    BudgetSpent {
        /// How many conflicts that were.
        conflicts: u64,
        /// The line of the input, if there are several inputs.
        line: Option<u64>,
    },
    /// The certificate is refused.
    BadCertificate {
        /// The code:
        /// - 1 to 14: the number of the step's error.
        /// - 20: the line has not the form that it has to have, of a head line, of settings or of a step.
        /// - 21: the text ends too early.
        /// - 22: the settings are not those of the call.
        code: u8,
        /// The first refused line, counted from 1.
        line: u64,
    },
    /// This file cannot be read.
    Unreadable(File),
    /// This file is too long.
    TooLong(File),
    /// This line of the weights is the first refused one.
    BadWeights(u64),
}

impl Drop for Answer {
    fn drop(self) {
        match self {
            Answer::Located(_) => {}
            Answer::Sampled {
                additions: _,
                weight: _,
                sets: _,
            } => {}
            Answer::Accepted(_) => {}
            Answer::Ranked(_) => {}
            Answer::Edits(_) => {}
            Answer::AssertFails(_) => {}
            Answer::Trap(_) => {}
            Answer::NotFailing { line: _ } => {}
            Answer::BadWords => {}
            Answer::BadProgram(_) => {}
            Answer::BadInput {
                file: _,
                fault: _,
                line: _,
            } => {}
            Answer::TooLarge => {}
            Answer::BeyondBound { at: _, line: _ } => {}
            Answer::PassingFails(_) => {}
            Answer::NoRepair => {}
            Answer::TooManySets {
                weight: _,
                most: _,
                line: _,
            } => {}
            Answer::BudgetSpent {
                conflicts: _,
                line: _,
            } => {}
            Answer::BadCertificate { code: _, line: _ } => {}
            Answer::Unreadable(_) => {}
            Answer::TooLong(_) => {}
            Answer::BadWeights(_) => {}
        }
    }
}

impl Answer {
    /// The status that the program ends with if the answer is printed whole.
    pub fn status(&self) -> Status
        ensures { result ≡ status_of self.now }
    {
        match self {
            Answer::Located(_) | Answer::Sampled { .. } | Answer::Accepted(_) => Status::Ok,
            Answer::Ranked(_) | Answer::Edits(_) => Status::Ok,
            Answer::AssertFails(_) | Answer::Trap(_) => Status::Ok,
            Answer::NotFailing { .. } => Status::NotFailing,
            Answer::BadWords => Status::BadWords,
            Answer::BadProgram(_) => Status::BadProgram,
            Answer::BadInput { .. } => Status::BadInput,
            Answer::TooLarge => Status::TooLarge,
            Answer::BeyondBound { .. } => Status::BeyondBound,
            Answer::PassingFails(_) => Status::PassingFails,
            Answer::NoRepair => Status::NoRepair,
            Answer::TooManySets { .. } => Status::TooManySets,
            Answer::BudgetSpent { .. } => Status::BudgetSpent,
            Answer::BadCertificate { .. } => Status::BadCertificate,
            Answer::Unreadable(_) => Status::ReadFault,
            Answer::TooLong(_) => Status::TooLong,
            Answer::BadWeights(_) => Status::BadWeights,
        }
    }

    /// The text that is printed, with its line feed.
    ///
    /// The only error is out of memory.
    pub fn text(&self, alloc: Global) -> Result<Vec<u8>, AllocError>
        ensures { IfOk result (λ text. text.items ≡ text_of self.now) }
    {
        let mut text = Vec::new(alloc);
        push_answer(self, &mut text)?;
        Ok(text)
    }
}

/// Appends the text of an answer.
fn push_answer(answer: &Answer, text: &mut Vec<u8>) -> Result<(), AllocError>
    ensures { OnOk result (text.new.items ≡ text.old.items ++ text_of answer.now) }
{
    match answer {
        Answer::Located(report) | Answer::Ranked(report) | Answer::Edits(report) => {
            text.extend_from_slice(report.as_slice())
        }
        Answer::Sampled {
            additions,
            weight,
            sets,
        } => push_sampled(*additions, *weight, *sets, text),
        Answer::Accepted(claim) => push_claim(*claim, text),
        Answer::AssertFails(at) => push_with_position(b"assertion fails at ", *at, text),
        Answer::Trap(at) => push_with_position(b"trap at ", *at, text),
        Answer::NotFailing { line } => push_not_failing(*line, text),
        Answer::BadWords => text.extend_from_slice(b"refused: words\n"),
        Answer::BadProgram(fault) => push_fault(*fault, text),
        Answer::BadInput { file, fault, line } => push_input_fault(*file, *fault, *line, text),
        Answer::TooLarge => text.extend_from_slice(b"refused: too large\n"),
        Answer::BeyondBound { at, line } => push_beyond(*at, *line, text),
        Answer::PassingFails(line) => push_passing_fails(*line, text),
        Answer::NoRepair => text.extend_from_slice(b"no repair\n"),
        Answer::TooManySets { weight, most, line } => push_too_many(*weight, *most, *line, text),
        Answer::BudgetSpent { conflicts, line } => push_spent(*conflicts, *line, text),
        Answer::BadCertificate { code, line } => push_bad_certificate(*code, *line, text),
        Answer::Unreadable(file) => push_with_file(*file, b" cannot be read\n", text),
        Answer::TooLong(file) => push_too_long(*file, text),
        Answer::BadWeights(line) => push_line(*line, text),
    }
}

/// Appends a position.
fn push_at(at: At, text: &mut Vec<u8>) -> Result<(), AllocError>
    ensures { OnOk result (text.new.items ≡ text.old.items ++ at_text at) }
{
    push_number(u64::from(at.line), text)?;
    text.extend_from_slice(b":")?;
    push_number(u64::from(at.column), text)
}

/// Appends these words and a position.
fn push_with_position(words: &[u8], at: At, text: &mut Vec<u8>) -> Result<(), AllocError>
    ensures { OnOk result (text.new.items
        ≡ text.old.items ++ (words.now ++ at_text at ++ codes "\n")) }
{
    text.extend_from_slice(words)?;
    push_at(at, text)?;
    text.extend_from_slice(b"\n")
}

/// The word for a file.
fn file_word(file: File) -> &'static [u8]
    ensures { result.now ≡ file_word file }
{
    match file {
        File::Program => b"program",
        File::Input => b"input",
        File::Inputs => b"inputs",
        File::Failing => b"failing",
        File::Passing => b"passing",
        File::Weights => b"weights",
        File::Certificate => b"certificate",
    }
}

/// Appends the refusal of a file, which ends with these words.
fn push_with_file(file: File, words: &[u8], text: &mut Vec<u8>) -> Result<(), AllocError>
    ensures { OnOk result (text.new.items
        ≡ text.old.items ++ (codes "refused: " ++ file_word file ++ words.now)) }
{
    text.extend_from_slice(b"refused: ")?;
    text.extend_from_slice(file_word(file))?;
    text.extend_from_slice(words)
}

/// Appends the refusal of a file that is too long.
fn push_too_long(file: File, text: &mut Vec<u8>) -> Result<(), AllocError>
    ensures { OnOk result (text.new.items ≡ text.old.items ++ text_of (Answer.TooLong file)) }
{
    push_with_file(file, b" is longer than ", text)?;
    push_number(file.limit(), text)?;
    text.extend_from_slice(b" bytes\n")
}

/// The words for the claim of a certificate.
fn claim_text(claim: Claim) -> &'static [u8]
    ensures { result.now ≡ claim_text claim }
{
    match claim {
        Claim::Located => b"located",
        Claim::NoRepair => b"no repair",
        Claim::TooManySets => b"too many sets",
        Claim::BudgetSpent => b"budget spent",
    }
}

/// Appends that a certificate is accepted, with its claim.
fn push_claim(claim: Claim, text: &mut Vec<u8>) -> Result<(), AllocError>
    ensures { OnOk result (text.new.items ≡ text.old.items ++ text_of (Answer.Accepted claim)) }
{
    text.extend_from_slice(b"accepted: ")?;
    text.extend_from_slice(claim_text(claim))?;
    text.extend_from_slice(b"\n")
}

/// The stage and the number of a cause.
fn code_of(cause: Cause) -> &'static [u8]
    ensures { result.now ≡ code_of cause }
{
    match cause {
        Cause::BadByte => b"1.1",
        Cause::BadToken => b"1.2",
        Cause::NotInProfile => b"1.3",
        Cause::BadDirective => b"1.4",
        Cause::MacroOrder => b"1.5",
        Cause::Redefined => b"1.6",
        Cause::TooMany => b"1.7",
        Cause::Syntax => b"2.1",
        Cause::TooDeep => b"2.2",
        Cause::UnknownName => b"3.1",
        Cause::Twice => b"3.2",
        Cause::WrongKind => b"3.3",
        Cause::WrongCount => b"3.4",
        Cause::NoMain => b"3.5",
        Cause::BadLength => b"3.6",
        Cause::BreakOutside => b"3.7",
        Cause::CallInIndex => b"3.8",
        Cause::Limit => b"3.9",
    }
}

/// Appends the position of a fault, or `end` if it has none.
fn push_position(at: Option<At>, text: &mut Vec<u8>) -> Result<(), AllocError>
    ensures { OnOk result (text.new.items ≡ text.old.items ++ position_text at) }
{
    match at {
        Some(at) => push_at(at, text),
        None => text.extend_from_slice(b"end"),
    }
}

/// Appends the refusal of a program for its fault.
fn push_fault(fault: Fault, text: &mut Vec<u8>) -> Result<(), AllocError>
    ensures { OnOk result (text.new.items ≡ text.old.items ++ text_of (Answer.BadProgram fault)) }
{
    text.extend_from_slice(b"refused: program, error ")?;
    text.extend_from_slice(code_of(fault.cause))?;
    text.extend_from_slice(b" at ")?;
    push_position(fault.at, text)?;
    text.extend_from_slice(b"\n")
}

/// Appends these words and a number.
fn push_numbered(words: &[u8], number: u64, text: &mut Vec<u8>) -> Result<(), AllocError>
    ensures { OnOk result (text.new.items ≡ text.old.items ++ (words.now ++ decimal number)) }
{
    text.extend_from_slice(words)?;
    push_number(number, text)
}

/// Appends the error of an input, and the number of its piece.
fn push_input_error(fault: InputFault, text: &mut Vec<u8>) -> Result<(), AllocError>
    ensures { OnOk result (text.new.items ≡ text.old.items ++ input_text fault) }
{
    match fault {
        InputFault::NotANumber(number) => push_numbered(b"1 at number ", u64::from(number), text),
        InputFault::OutOfRange(number) => push_numbered(b"2 at number ", u64::from(number), text),
        InputFault::WrongCount => text.extend_from_slice(b"3"),
        InputFault::NoInput => text.extend_from_slice(b"4"),
        InputFault::TooMany => text.extend_from_slice(b"5"),
    }
}

/// Appends the number of a line after these words, if there is one.
fn push_behind(words: &[u8], line: Option<u64>, text: &mut Vec<u8>) -> Result<(), AllocError>
    ensures none { line ≡ None → OnOk result (text.new.items ≡ text.old.items) }
    ensures some { (number : ℕ) → line ≡ Some number → OnOk result
        (text.new.items ≡ text.old.items ++ (words.now ++ decimal number)) }
{
    match line {
        Some(number) => push_numbered(words, number, text),
        None => Ok(()),
    }
}

/// Appends the line of an input after a colon, if there are several inputs, and a line feed.
fn push_behind_colon(line: Option<u64>, text: &mut Vec<u8>) -> Result<(), AllocError>
    ensures { OnOk result (text.new.items
        ≡ text.old.items ++ (behind_colon line ++ codes "\n")) }
{
    push_behind(b": line ", line, text)?;
    text.extend_from_slice(b"\n")
}

/// Appends the line of an input after a comma, if there are several inputs, and a line feed.
fn push_behind_comma(line: Option<u64>, text: &mut Vec<u8>) -> Result<(), AllocError>
    ensures { OnOk result (text.new.items
        ≡ text.old.items ++ (behind_comma line ++ codes "\n")) }
{
    push_behind(b", line ", line, text)?;
    text.extend_from_slice(b"\n")
}

/// Appends that a run meets every assertion.
fn push_not_failing(line: Option<u64>, text: &mut Vec<u8>) -> Result<(), AllocError>
    ensures { OnOk result (text.new.items ≡ text.old.items ++ text_of (Answer.NotFailing line)) }
{
    text.extend_from_slice(b"not failing")?;
    push_behind_colon(line, text)
}

/// Appends that a run exceeds a bound.
fn push_beyond(at: At, line: Option<u64>, text: &mut Vec<u8>) -> Result<(), AllocError>
    ensures { OnOk result (text.new.items
        ≡ text.old.items ++ text_of (Answer.BeyondBound at line)) }
{
    text.extend_from_slice(b"beyond bound at ")?;
    push_at(at, text)?;
    push_behind_colon(line, text)
}

/// Appends the refusal of a file of inputs for its fault.
fn push_input_fault(
    file: File,
    fault: InputFault,
    line: Option<u64>,
    text: &mut Vec<u8>,
) -> Result<(), AllocError>
    ensures { OnOk result (text.new.items
        ≡ text.old.items ++ text_of (Answer.BadInput file fault line)) }
{
    push_with_file(file, b", error ", text)?;
    push_input_error(fault, text)?;
    push_behind_comma(line, text)
}

/// Appends the refusal of the weights for a line.
fn push_line(line: u64, text: &mut Vec<u8>) -> Result<(), AllocError>
    ensures { OnOk result (text.new.items ≡ text.old.items ++ text_of (Answer.BadWeights line)) }
{
    push_numbered(b"refused: weights, line ", line, text)?;
    text.extend_from_slice(b"\n")
}

/// Appends that the program fails on the input in this line.
fn push_passing_fails(line: u64, text: &mut Vec<u8>) -> Result<(), AllocError>
    ensures { OnOk result (text.new.items ≡ text.old.items ++ text_of (Answer.PassingFails line)) }
{
    push_numbered(b"fails: line ", line, text)?;
    text.extend_from_slice(b"\n")
}

/// Appends a number between these words.
fn push_between(
    before: &[u8],
    number: u64,
    after: &[u8],
    text: &mut Vec<u8>,
) -> Result<(), AllocError>
    ensures { OnOk result (text.new.items
        ≡ text.old.items ++ (before.now ++ decimal number ++ after.now)) }
{
    push_numbered(before, number, text)?;
    text.extend_from_slice(after)
}

/// Appends two numbers, each after these words.
fn push_two(
    before_first: &[u8],
    first: u64,
    before_second: &[u8],
    second: u64,
    text: &mut Vec<u8>,
) -> Result<(), AllocError>
    ensures { OnOk result (text.new.items ≡ text.old.items ++ (before_first.now
        ++ decimal first ++ before_second.now ++ decimal second)) }
{
    push_numbered(before_first, first, text)?;
    push_numbered(before_second, second, text)
}

/// Appends that there are more sets of this weight than may be listed.
fn push_too_many(
    weight: u64,
    most: u32,
    line: Option<u64>,
    text: &mut Vec<u8>,
) -> Result<(), AllocError>
    ensures { OnOk result (text.new.items
        ≡ text.old.items ++ text_of (Answer.TooManySets weight most line)) }
{
    push_two(
        b"too many sets: weight ",
        weight,
        b", more than ",
        u64::from(most),
        text,
    )?;
    push_behind_comma(line, text)
}

/// Appends that this many conflicts are spent.
fn push_spent(conflicts: u64, line: Option<u64>, text: &mut Vec<u8>) -> Result<(), AllocError>
    ensures { OnOk result (text.new.items
        ≡ text.old.items ++ text_of (Answer.BudgetSpent conflicts line)) }
{
    push_between(b"budget spent: ", conflicts, b" conflicts", text)?;
    push_behind_comma(line, text)
}

/// Appends the refusal of a certificate at a line.
fn push_bad_certificate(code: u8, line: u64, text: &mut Vec<u8>) -> Result<(), AllocError>
    ensures { OnOk result (text.new.items
        ≡ text.old.items ++ text_of (Answer.BadCertificate code line)) }
{
    push_two(
        b"refused: certificate, error ",
        u64::from(code),
        b" at line ",
        line,
        text,
    )?;
    text.extend_from_slice(b"\n")
}

/// Appends the weight and the number of the least sets of a sample.
fn push_sampled(
    additions: u32,
    weight: u64,
    sets: u64,
    text: &mut Vec<u8>,
) -> Result<(), AllocError>
    ensures { OnOk result (text.new.items
        ≡ text.old.items ++ text_of (Answer.Sampled additions weight sets)) }
{
    push_numbered(b"sample ", u64::from(additions), text)?;
    push_two(b": weight ", weight, b", sets ", sets, text)?;
    text.extend_from_slice(b"\n")
}
