//! The report of sets of places.

ghost use Rattle.std.specs.Prelude.{◌≡◌, ◌++◌, ◌∷◌, [], Some, flat_map, map, IfOk, OnOk};
ghost use Rattle.ba_localise.specs.Places.{found_at};
ghost use Rattle.ba_places.specs.Numbers.{places_at};
ghost use Rattle.ba_report.specs.Report.{run_line};
ghost use Rattle.mode_places.specs.Report.{line_of, located_text, path_text, place_line, place_report_text, position_text, set_lines, sets_lines, step_text};

use ba_choices::Choice;
use ba_derivations::FoundSet;
use ba_places::place_at;
use ba_report::{Lines, info_of, push_source, push_statement_head};
use ba_text::{push_choices, push_number};
use ba_tree::run::{Place, Step};
use ba_tree::tree::{Program, StmtInfo};
use std::alloc::{AllocError, Global};

/// What the lines of a report are written from: the source's lines, the program that they spell, and the
/// places whose numbers the sets have. `runs` says whether each set has a line for its run.
#[derive(Drop)]
struct PlaceListing<'a> {
    lines: Lines<'a>,
    program: &'a Program,
    places: &'a [Place],
    runs: bool,
}

/// Adds the position of a statement: `L:K`.
fn push_position(info: Option<StmtInfo>, text: &mut Vec<u8>) -> Result<(), AllocError>
    ensures { OnOk result (text.new.items ≡ text.old.items ++ position_text info) }
{
    let Some(info) = info else {
        return Ok(());
    };
    push_number(u64::from(info.at.line), text)?;
    text.extend_from_slice(b":")?;
    push_number(u64::from(info.at.column), text)
}

impl PlaceListing<'_> {
    /// Adds a step of a path.
    fn push_step(&self, step: Step, text: &mut Vec<u8>) -> Result<(), AllocError>
        ensures { OnOk result (text.new.items
            ≡ text.old.items ++ step_text self.now.program.now step) }
    {
        match step {
            Step::Call(call) => {
                text.extend_from_slice(b"/call ")?;
                push_number(u64::from(call.0), text)
            }
            Step::Turn(stmt, turn) => {
                text.extend_from_slice(b"/")?;
                push_position(info_of(self.program, stmt.0), text)?;
                text.extend_from_slice(b"#")?;
                push_number(u64::from(turn), text)
            }
        }
    }

    /// Adds a path, outermost step first.
    fn push_path(&self, path: &[Step], text: &mut Vec<u8>) -> Result<(), AllocError>
        ensures { OnOk result (text.new.items
            ≡ text.old.items ++ path_text self.now.program.now path.now) }
    {
        text.extend_from_slice(b"main")?;
        for step in path {
            self.push_step(*step, text)?;
        }
        Ok(())
    }

    /// Adds the line of an execution of a statement.
    fn push_info(&self, path: &[Step], info: StmtInfo, text: &mut Vec<u8>) -> Result<(), AllocError>
        ensures { OnOk result (text.new.items ≡ text.old.items
            ++ line_of self.now.lines self.now.program.now path.now (Some info)) }
    {
        text.extend_from_slice(b"  ")?;
        push_statement_head(info, text)?;
        text.extend_from_slice(b" at ")?;
        self.push_path(path, text)?;
        push_source(self.lines.at(info.at.line), text)
    }

    /// Adds the line of a place.
    fn push_place_line(&self, place: &Place, text: &mut Vec<u8>) -> Result<(), AllocError>
        ensures { OnOk result (text.new.items
            ≡ text.old.items ++ place_line self.now.lines self.now.program.now place.now) }
    {
        match info_of(self.program, place.stmt.0) {
            Some(info) => self.push_info(place.path.as_slice(), info, text),
            None => Ok(()),
        }
    }

    /// Adds the line of the place of this number, if there is one.
    fn push_numbered(&self, number: u32, text: &mut Vec<u8>) -> Result<(), AllocError>
        ensures { OnOk result (text.new.items ≡ text.old.items
            ++ flat_map (place_line self.now.lines self.now.program.now)
            (places_at self.now.places.now (number ∷ []))) }
    {
        match place_at(self.places, number) {
            Some(place) => self.push_place_line(place, text),
            None => Ok(()),
        }
    }

    /// Adds the lines of the places of these numbers.
    fn push_places(&self, numbers: &[u32], text: &mut Vec<u8>) -> Result<(), AllocError>
        ensures { OnOk result (text.new.items ≡ text.old.items
            ++ flat_map (place_line self.now.lines self.now.program.now)
            (places_at self.now.places.now numbers.now)) }
    {
        for number in numbers {
            self.push_numbered(*number, text)?;
        }
        Ok(())
    }

    /// Adds the lines of a set, which has this number.
    fn push_set(&self, number: u64, set: &[u32], text: &mut Vec<u8>) -> Result<(), AllocError>
        ensures { OnOk result (text.new.items ≡ text.old.items
            ++ set_lines self.now.lines self.now.program.now number
            (places_at self.now.places.now set.now)) }
    {
        text.extend_from_slice(b"set ")?;
        push_number(number, text)?;
        text.extend_from_slice(b":\n")?;
        self.push_places(set, text)
    }

    /// Adds the line of a run, where runs are shown.
    fn push_run(&self, run: &[Choice], text: &mut Vec<u8>) -> Result<(), AllocError>
        ensures { OnOk result (text.new.items ≡ text.old.items ++ run_line self.now.runs run.now) }
    {
        if !self.runs {
            return Ok(());
        }
        text.extend_from_slice(b"  run:")?;
        push_choices(run, text)?;
        text.extend_from_slice(b"\n")
    }

    /// Adds the lines of all sets, which are numbered from 1, with their runs.
    fn push_sets(&self, sets: &[FoundSet], text: &mut Vec<u8>) -> Result<(), AllocError>
        ensures { OnOk result (text.new.items ≡ text.old.items
            ++ sets_lines self.now.lines self.now.program.now self.now.runs 1
            (map (found_at self.now.places.now) sets.now)) }
    {
        let mut number = 1;
        for set in sets {
            self.push_set(number, set.groups.as_slice(), text)?;
            self.push_run(set.run.as_slice(), text)?;
            number += 1;
        }
        Ok(())
    }

    /// The text of a report: the number of members of each set, the number of the sets, and their lines.
    fn text(&self, alloc: Global, members: u64, sets: &[FoundSet]) -> Result<Vec<u8>, AllocError>
        ensures { IfOk result (λ text. text.items
            ≡ located_text self.now.lines self.now.program.now self.now.runs members
            (map (found_at self.now.places.now) sets.now)) }
    {
        let mut text = Vec::from_slice(alloc, b"located: places ")?;
        push_number(members, &mut text)?;
        text.extend_from_slice(b", sets ")?;
        push_number(sets.len() as u64, &mut text)?;
        text.extend_from_slice(b"\n")?;
        self.push_sets(sets, &mut text)?;
        Ok(text)
    }
}

/// The report of sets of places of the program that the source text spells. The sets have the numbers of a
/// list of places.
///
/// One line tells how many members each set has and how many sets there are. Each set has a line for each of
/// its places, with position, kind, path and source line. If `runs` is true it has one more for its run.
///
/// The only error is out of memory.
pub fn place_report(
    alloc: Global,
    source: &[u8],
    program: &Program,
    places: &[Place],
    members: u64,
    sets: &[FoundSet],
    runs: bool,
) -> Result<Vec<u8>, AllocError>
    ensures { IfOk result (λ text. text.items
        ≡ place_report_text source.now program.now runs members
        (map (found_at places.now) sets.now)) }
{
    let lines = Lines::new(alloc, source)?;
    let listing = PlaceListing {
        lines,
        program,
        places,
        runs,
    };
    listing.text(alloc, members, sets)
}
