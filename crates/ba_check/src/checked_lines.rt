//! The whole lines of a certificate, one after the other.

ghost use Rattle.std.specs.Prelude.{option_map, ◌≡◌, ◌+◌, ◌-◌, ◌<◌, ◌^◌, None, IfOk};
ghost use Rattle.ba_cert.specs.Reading.{settings_in, step_in};
ghost use Rattle.ba_check.specs.Answers.{Tells};
ghost use Rattle.ba_check.specs.Findings.{Begins, Course, Goes, after_head, after_line, after_read, after_settings, finding_after, finding_by, same_settings};

use crate::confirmed::{Confirmed, Ending, ending_of, said_by};
use crate::error::{BAD_LINE, CheckError, OTHER_SETTINGS, TOO_EARLY, error_at, unread_at};
use ba_cert::{CertHead, read_line, read_settings};
use ba_checker::Checker;
use ba_steps::RunJudge;
use std::alloc::{AllocError, Global};

/// The first line of a certificate, which its settings follow.
const HEAD: &[u8] = b"bugassist 2";

/// The first line of a certificate of version 1, which steps follow.
const OLD_HEAD: &[u8] = b"bugassist 1";

/// What the next line has to be.
#[derive(Clone, Copy)]
pub(crate) enum Stage {
    /// The head line of a version.
    Head,
    /// The settings.
    Settings,
    /// A step.
    Steps,
}

/// The course of the whole lines so far, if none was refused:
/// - what the next line has to be
/// - how many lines there are, once steps come
/// - the checker after their steps
/// - how the last line ended the certificate, if it did
#[derive(Drop)]
pub(crate) struct CheckedLines {
    alloc: Global,
    pub(crate) stage: Stage,
    pub(crate) lines: u64,
    pub(crate) checker: Checker,
    pub(crate) ending: Option<Ending>,
    ghost countable: { lines < 2 ^ 64 - 1 },
}

/// Whether these are the same settings.
fn same_settings(found: &CertHead, head: &CertHead) -> bool
    ensures { result ≡ same_settings found.now head.now }
{
    found.bounds.turns == head.bounds.turns
        && found.bounds.frames == head.bounds.frames
        && found.conflicts == head.conflicts
        && found.sets == head.sets
}

/// A line that is refused.
fn refused(line: u64, code: u8) -> Result<(), CheckError>
    ensures { result ≡ Err (CheckError.Line line code) }
{
    Err(CheckError::Line { line, code })
}

/// The next number.
///
/// The only error is that the number after it would need more than 64 bits.
fn number_after(lines: u64) -> Result<u64, AllocError>
    ensures { IfOk result (λ number. (number ≡ lines + 1) × (number < 2 ^ 64 - 1)) }
{
    if lines < u64::MAX - 1 {
        Ok(lines + 1)
    } else {
        Err(AllocError)
    }
}

/// A text that ends before this line, or inside it.
fn too_early(line: u64) -> CheckError
    ensures { result ≡ CheckError.Line line 21 }
{
    CheckError::Line {
        line,
        code: TOO_EARLY,
    }
}

impl CheckedLines {
    ghost use Rattle.ba_check.specs.Readings.{Keeps, course_kept, verdict_at};

    /// No line, and the checker before the first step.
    pub(crate) fn new(alloc: Global, checker: Checker) -> CheckedLines
        ensures { course_kept result ≡ Begins checker }
    {
        CheckedLines {
            alloc,
            stage: Stage::Head,
            lines: 0,
            checker,
            ending: None,
        }
    }

    /// Takes the next line, without its line feed.
    ///
    /// `Line` comes exactly if the line is refused.
    pub(crate) fn take_line<J: RunJudge>(
        &mut self,
        head: &CertHead,
        judge: &J,
        line: &[u8],
    ) -> Result<(), CheckError>
        ensures { Keeps result self.new
            (after_line head.now (J.accepts judge.now) (course_kept self.old) line.now) }
    {
        match self.stage {
            Stage::Head => self.take_head(line),
            Stage::Settings => self.take_settings(head, line),
            Stage::Steps => self.take_step(judge, line),
        }
    }

    /// Takes the head line.
    fn take_head(&mut self, line: &[u8]) -> Result<(), CheckError>
        ensures { Keeps result self.new (after_head self.old.checker line.now) }
    {
        if line == OLD_HEAD {
            self.begin_steps(1);
            return Ok(());
        }
        if line == HEAD {
            self.stage = Stage::Settings;
            return Ok(());
        }
        refused(1, BAD_LINE)
    }

    /// Begins the steps with the next line, after `lines` lines.
    fn begin_steps(&mut self, lines: u64)
        requires { lines < 2 ^ 64 - 1 }
        ensures { course_kept self.new ≡ Goes lines self.old.checker None }
    {
        self.stage = Stage::Steps;
        self.lines = lines;
        self.ending = None;
    }

    /// Takes the settings line, which has to have these settings.
    fn take_settings(&mut self, head: &CertHead, line: &[u8]) -> Result<(), CheckError>
        ensures { Keeps result self.new
            (after_settings head.now self.old.checker (settings_in line.now)) }
    {
        let Some(found) = read_settings(line) else {
            return refused(2, BAD_LINE);
        };
        if !same_settings(&found, head) {
            return refused(2, OTHER_SETTINGS);
        }
        self.begin_steps(2);
        Ok(())
    }

    /// Takes the line of a step.
    fn take_step<J: RunJudge>(&mut self, judge: &J, line: &[u8]) -> Result<(), CheckError>
        ensures { Keeps result self.new
            (after_read (J.accepts judge.now) self.old.lines self.old.checker (step_in line.now)) }
    {
        let number = number_after(self.lines)?;
        let step = match read_line(self.alloc, line) {
            Ok(step) => step,
            Err(error) => return Err(unread_at(number, error)),
        };
        if let Err(error) = self.checker.step(&step, judge) {
            return Err(error_at(number, error));
        }
        self.stage = Stage::Steps;
        self.lines = number;
        self.ending = ending_of(&step);
        Ok(())
    }

    /// What the lines so far say, if the text ends with these bytes after the last line feed.
    ///
    /// `Line` comes exactly if the text ends too early.
    pub(crate) fn finish(&self, rest: &[u8]) -> Result<Confirmed, CheckError>
        ensures { Tells result (finding_by (course_kept self.now) rest.now) }
    {
        match self.stage {
            Stage::Head => Err(too_early(1)),
            Stage::Settings => Err(too_early(2)),
            Stage::Steps => self.finish_steps(rest),
        }
    }

    /// The same, once the head is complete.
    fn finish_steps(&self, rest: &[u8]) -> Result<Confirmed, CheckError>
        ensures { Tells result (finding_after self.now.lines
            (option_map (verdict_at self.now.checker) self.now.ending) rest.now) }
    {
        match self.ending {
            Some(ending) if rest.is_empty() => Ok(said_by(self.alloc, &self.checker, ending)?),
            _ => Err(too_early(self.lines + 1)),
        }
    }
}
