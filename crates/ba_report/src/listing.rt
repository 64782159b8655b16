//! The report of a verdict.

ghost use Rattle.std.specs.Prelude.{◌≡◌, ◌++◌, ℕ, List, true, All, flat_map, IfOk, OnOk};
ghost use Rattle.ba_derivations.specs.Derivations.{IsGood, sets_of};
ghost use Rattle.ba_derivations.specs.declared.verdict.FoundSet.{FoundSet};
ghost use Rattle.ba_report.specs.Report.{IsLocated, Reports, info_line, located_text};
ghost use Rattle.ba_report.specs.Report.{report_text, run_line, set_lines, sets_lines, statement_line};
ghost use Rattle.ba_choices.specs.Judges.{Judge};

use crate::lines::Lines;
use crate::statements::{info_of, push_source, push_statement_head};
use ba_choices::Choice;
use ba_derivations::{FoundSet, Verdict};
use ba_text::{push_choices, push_number};
use ba_tree::tree::{Program, StmtInfo};
use std::alloc::{AllocError, Global};

/// The material of a report: the lines of the source, the program that they spell, and whether each set has a
/// line for its run.
#[derive(Drop)]
pub struct Listing<'a> {
    pub lines: Lines<'a>,
    pub program: &'a Program,
    pub runs: bool,
}

impl Listing<'_> {
    /// Appends the line of a statement.
    fn push_info(&self, info: StmtInfo, text: &mut Vec<u8>) -> Result<(), AllocError>
        ensures { OnOk result (text.new.items ≡ text.old.items ++ info_line self.now.lines info) }
    {
        text.extend_from_slice(b"  ")?;
        push_statement_head(info, text)?;
        push_source(self.lines.at(info.at.line), text)
    }

    /// Appends the line of the statement of this number.
    fn push_statement(&self, number: u32, text: &mut Vec<u8>) -> Result<(), AllocError>
        ensures { OnOk result (text.new.items
            ≡ text.old.items ++ statement_line self.now.lines self.now.program.now number) }
    {
        match info_of(self.program, number) {
            Some(info) => self.push_info(info, text),
            None => Ok(()),
        }
    }

    /// Appends the lines of the statements of these numbers.
    fn push_statements(&self, numbers: &[u32], text: &mut Vec<u8>) -> Result<(), AllocError>
        ensures { OnOk result (text.new.items ≡ text.old.items
            ++ flat_map (statement_line self.now.lines self.now.program.now) numbers.now) }
    {
        for number in numbers {
            self.push_statement(*number, text)?;
        }
        Ok(())
    }

    /// Appends the lines of a set with this number.
    ///
    /// The only error is out of memory.
    pub fn push_set(&self, number: u64, set: &[u32], text: &mut Vec<u8>) -> Result<(), AllocError>
        ensures { OnOk result (text.new.items ≡ text.old.items
            ++ set_lines self.now.lines self.now.program.now number set.now) }
    {
        text.extend_from_slice(b"set ")?;
        push_number(number, text)?;
        text.extend_from_slice(b":\n")?;
        self.push_statements(set, text)
    }

    /// Appends the line of a run, if runs are shown.
    ///
    /// The only error is out of memory.
    pub fn push_run(&self, run: &[Choice], text: &mut Vec<u8>) -> Result<(), AllocError>
        ensures { OnOk result (text.new.items ≡ text.old.items ++ run_line self.now.runs run.now) }
    {
        if !self.runs {
            return Ok(());
        }
        text.extend_from_slice(b"  run:")?;
        push_choices(run, text)?;
        text.extend_from_slice(b"\n")
    }

    /// Appends the lines of all sets, which are numbered from 1, with their runs.
    fn push_sets(&self, sets: &[FoundSet], text: &mut Vec<u8>) -> Result<(), AllocError>
        ensures { OnOk result (text.new.items ≡ text.old.items
            ++ sets_lines self.now.lines self.now.program.now self.now.runs 1 sets.now) }
    {
        let mut number = 1;
        for set in sets {
            self.push_set(number, set.groups.as_slice(), text)?;
            self.push_run(set.run.as_slice(), text)?;
            number += 1;
        }
        Ok(())
    }

    /// The text of a report: the weight and the number of the sets, and their lines.
    fn text(&self, alloc: Global, weight: u64, sets: &[FoundSet]) -> Result<Vec<u8>, AllocError>
        ensures { IfOk result (λ text. text.items
            ≡ located_text self.now.lines self.now.program.now self.now.runs weight sets.now) }
    {
        let mut text = Vec::from_slice(alloc, b"located: weight ")?;
        push_number(weight, &mut text)?;
        text.extend_from_slice(b", sets ")?;
        push_number(sets.len() as u64, &mut text)?;
        text.extend_from_slice(b"\n")?;
        self.push_sets(sets, &mut text)?;
        Ok(text)
    }
}

/// The report of a verdict on the program that the source text spells.
///
/// It has a line with the weight and the number of the least sets. Each set has a line, and one for each of
/// its statements with position, kind and source line. If `runs` is true it has one for its run.
///
/// The only error is out of memory.
pub fn report(
    alloc: Global,
    source: &[u8],
    program: &Program,
    verdict: &Verdict,
    runs: bool,
) -> Result<Vec<u8>, AllocError>
    requires { IsLocated verdict.now }
    ensures text { (weight : ℕ) (found : List FoundSet) → verdict.now ≡ Verdict.Located weight found
        → IfOk result (λ bytes. bytes.items
        ≡ report_text source.now program.now runs weight found) }
    // each run that is shown is good for its set
    ensures good { (good : Judge) (weight : ℕ) (found : List FoundSet)
        → verdict.now ≡ Verdict.Located weight found → (runs ≡ true → All (IsGood good) found)
        → IfOk result (λ bytes.
        Reports good source.now program.now runs weight (sets_of found) bytes.items) }
{
    let Verdict::Located { weight, sets } = verdict else {
        unreachable!()
    };
    let lines = Lines::new(alloc, source)?;
    let listing = Listing {
        lines,
        program,
        runs,
    };
    listing.text(alloc, *weight, sets.as_slice())
}
