//! The report of sets that repair all runs on several inputs.

ghost use Rattle.std.specs.Prelude.{◌≡◌, ◌++◌, ◌+◌, ℕ, List, true, All, IfOk, OnOk, map};
ghost use Rattle.ba_all.specs.AllRuns.{judge_of_all, tests_of};
ghost use Rattle.ba_all.specs.Cuts.{IsCut};
ghost use Rattle.ba_choices.specs.declared.Choice.{Choice};
ghost use Rattle.ba_derivations.specs.Derivations.{IsGood};
ghost use Rattle.ba_report.specs.Report.{set_lines};
ghost use Rattle.ba_tree.specs.Run.{are_bounds};
ghost use Rattle.mode_all.specs.Answers.{Reports};
ghost use Rattle.mode_all.specs.Listing.{AreAdded, IsAdded};
ghost use Rattle.mode_all.specs.Report.{runs_lines};

use ba_all::runs_in;
use ba_choices::Choice;
use ba_derivations::FoundSet;
use ba_report::{Lines, Listing};
use ba_text::push_number;
use ba_tree::run::{Bounds, Input};
use ba_tree::tree::Program;
use std::alloc::{AllocError, Global};

/// What the lines of a report are written from: the listing of its sets, and the inputs and bounds of their
/// runs.
#[derive(Drop)]
struct ListingOfAll<'a> {
    listing: Listing<'a>,
    inputs: &'a [Input],
    bounds: Bounds,
}

impl ListingOfAll<'_> {
    /// Appends a line for each of these runs, if runs are shown.
    fn push_each(&self, runs: &[&[Choice]], text: &mut Vec<u8>) -> Result<(), AllocError>
        ensures { OnOk result (text.new.items ≡ text.old.items
            ++ runs_lines self.now.listing.runs (map (λ run. run.now) runs.now)) }
    {
        for run in runs {
            self.listing.push_run(run, text)?;
        }
        Ok(())
    }

    /// Appends a line for each run of a set, if runs are shown. Its choices are then good for it.
    fn push_runs(
        &self,
        alloc: Global,
        set: &[u32],
        choices: &[Choice],
        text: &mut Vec<u8>,
    ) -> Result<(), AllocError>
        requires bounds { are_bounds self.now.bounds ≡ true }
        requires good { self.now.listing.runs ≡ true
            → judge_of_all self.now.listing.program.now self.now.inputs.now self.now.bounds
            set.now choices.now ≡ true }
        ensures { OnOk result ((runs : List (List Choice))
            × (self.now.listing.runs ≡ true → IsCut
            (tests_of self.now.listing.program.now self.now.inputs.now self.now.bounds set.now)
            choices.now runs)
            × (text.new.items ≡ text.old.items ++ runs_lines self.now.listing.runs runs)) }
    {
        if !self.listing.runs {
            return Ok(());
        }
        let program = self.listing.program;
        let runs = runs_in(alloc, program, self.inputs, self.bounds, set, choices)?;
        self.push_each(runs.as_slice(), text)
    }

    /// Appends the lines of a set with this number, and those of its runs.
    fn push_found(
        &self,
        alloc: Global,
        number: u64,
        found: &FoundSet,
        text: &mut Vec<u8>,
    ) -> Result<(), AllocError>
        requires bounds { are_bounds self.now.bounds ≡ true }
        requires good { self.now.listing.runs ≡ true → IsGood
            (judge_of_all self.now.listing.program.now self.now.inputs.now self.now.bounds)
            found.now }
        ensures { OnOk result (IsAdded self.now.listing.lines self.now.listing.program.now
            self.now.listing.runs self.now.inputs.now self.now.bounds number found.now
            text.old.items text.new.items) }
    {
        let set = found.groups.as_slice();
        self.listing.push_set(number, set, text)?;
        self.push_runs(alloc, set, found.run.as_slice(), text)
    }

    /// Appends the lines of all sets, numbered from 1, and those of their runs.
    fn push_sets(
        &self,
        alloc: Global,
        sets: &[FoundSet],
        text: &mut Vec<u8>,
    ) -> Result<(), AllocError>
        requires bounds { are_bounds self.now.bounds ≡ true }
        requires good { self.now.listing.runs ≡ true → All (IsGood
            (judge_of_all self.now.listing.program.now self.now.inputs.now self.now.bounds))
            sets.now }
        ensures { OnOk result (AreAdded self.now.listing.lines self.now.listing.program.now
            self.now.listing.runs self.now.inputs.now self.now.bounds 1 sets.now
            text.old.items text.new.items) }
    {
        let mut number = 1;
        for found in sets {
            self.push_found(alloc, number, found, text)?;
            number += 1;
        }
        Ok(())
    }
}

/// The report of sets of statements that repair the runs of a program on several inputs.
///
/// One line tells how many inputs there are, what each set weighs and how many sets there are. Each set has a
/// line for each of its statements, with position, kind and source line. Where `shows` is true it has one
/// more for its run on each input, in order. The choices of each set are then good for it.
///
/// The only error is out of memory.
pub fn all_report(
    alloc: Global,
    source: &[u8],
    program: &Program,
    inputs: &[Input],
    bounds: Bounds,
    weight: u64,
    sets: &[FoundSet],
    shows: bool,
) -> Result<Vec<u8>, AllocError>
    requires bounds { are_bounds bounds ≡ true }
    requires good { shows ≡ true
        → All (IsGood (judge_of_all program.now inputs.now bounds)) sets.now }
    ensures { IfOk result (λ text. Reports shows source.now program.now inputs.now bounds
        weight sets.now text.items) }
{
    let all = ListingOfAll {
        listing: Listing {
            lines: Lines::new(alloc, source)?,
            program,
            runs: shows,
        },
        inputs,
        bounds,
    };
    let mut text = Vec::from_slice(alloc, b"located: inputs ")?;
    push_number(inputs.len() as u64, &mut text)?;
    text.extend_from_slice(b", weight ")?;
    push_number(weight, &mut text)?;
    text.extend_from_slice(b", sets ")?;
    push_number(sets.len() as u64, &mut text)?;
    text.extend_from_slice(b"\n")?;
    all.push_sets(alloc, sets, &mut text)?;
    Ok(text)
}
