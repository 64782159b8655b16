//! A program with a failing input, and small formulas for it that are written by hand.

ghost use Rattle.std.specs.Prelude.{◌≡◌, true};
ghost use Rattle.ba_encode.specs.Softs.{softs_of};
ghost use Rattle.ba_checker.specs.Facts.{AreSelectors};
ghost use Rattle.ba_tree.specs.Run.{are_bounds};

use ba_check::{CheckError, Confirm, Confirmed, Settings, confirm};
use ba_encode::{Encoded, Group, softs_of};
use ba_items::Items;
use ba_judge::ProgramJudge;
use ba_numbers::ids::StmtId;
use ba_tree::run::{Bounds, Input};
use ba_tree::tree::Program;
use std::alloc::Global;
use std::panic::Expect;
use std::process::Abort;
use test_formulas::{are_selectors, formula_of, literal};
use test_programs::examples::ELEMENT;
use test_programs::program_of;

/// How many statements are relaxable: those with the numbers from 1 on.
const STATEMENTS: u32 = 4;

/// What a certificate is checked on.
#[derive(Drop)]
pub struct Problem {
    pub program: Program,
    pub input: Input,
    pub encoded: Encoded,
}

/// So many conflicts and sets, within narrow bounds.
pub fn settings(conflicts: u64, sets: u32) -> Settings
    ensures { are_bounds result.bounds ≡ true }
{
    Settings {
        bounds: Bounds {
            turns: 1,
            frames: 16,
        },
        conflicts,
        sets,
    }
}

/// The input of one parameter with this value.
pub fn input_of(rt: &impl Abort, alloc: Global, number: i64) -> Input {
    let mut value = Items::new(alloc);
    value.push(number).expect(rt, "memory");
    let mut values = Items::new(alloc);
    values.push(value).expect(rt, "memory");
    Input { values }
}

/// A group of weight 1 for each relaxable statement, whose selector is the variable of its number.
fn groups(rt: &impl Abort, alloc: Global) -> Items<Group> {
    let mut groups = Items::new(alloc);
    for number in 1..STATEMENTS + 1 {
        let group = Group {
            number,
            statement: StmtId(number),
            weight: 1,
            selector: literal(u64::from(number), false),
        };
        groups.push(group).expect(rt, "memory");
    }
    groups
}

/// The program that reads an array at a wrong place, with these clauses over its selectors.
pub fn array_example(rt: &impl Abort, alloc: Global, clauses: &[&[i64]]) -> Problem {
    let program = program_of(alloc, ELEMENT).expect(rt, "a program");
    let formula = formula_of(alloc, u64::from(STATEMENTS), clauses).expect(rt, "memory");
    let groups = groups(rt, alloc);
    assert!(rt; groups.len() < 1 << 32);
    let encoded = Encoded::without_places(alloc, formula, groups);
    Problem {
        program,
        input: input_of(rt, alloc, 1),
        encoded,
    }
}

/// What a text says that comes in pieces of this size.
fn by_pieces(
    alloc: Global,
    problem: &Problem,
    settings: Settings,
    text: &[u8],
    size: usize,
) -> Result<Confirmed, CheckError>
    requires bounds { are_bounds settings.bounds ≡ true }
    requires selectors { AreSelectors problem.now.encoded.formula.variables
        (softs_of problem.now.encoded.groups) }
{
    let judge = ProgramJudge::new(alloc, &problem.program, &problem.input, settings.bounds);
    let mut confirm = Confirm::new(alloc, judge, settings, &problem.encoded)?;
    for piece in text.chunks(size.max(1)) {
        confirm.feed(piece)?;
    }
    confirm.finish()
}

/// Asserts that the soft literals of a problem are selectors.
fn assert_selectors(rt: &impl Abort, alloc: Global, problem: &Problem)
    ensures { AreSelectors problem.now.encoded.formula.variables
        (softs_of problem.now.encoded.groups) }
{
    let softs = softs_of(alloc, &problem.encoded).expect(rt, "memory");
    assert!(rt; are_selectors(problem.encoded.formula().variables(), softs.as_slice()));
}

/// What a text says, whole or, if a size is given, in pieces of this size.
pub fn judge(
    rt: &impl Abort,
    alloc: Global,
    problem: &Problem,
    settings: Settings,
    text: &[u8],
    size: Option<usize>,
) -> Result<Confirmed, CheckError>
    requires { are_bounds settings.bounds ≡ true }
{
    assert_selectors(rt, alloc, problem);
    match size {
        Some(size) => by_pieces(alloc, problem, settings, text, size),
        None => confirm(
            alloc,
            &problem.program,
            &problem.input,
            settings,
            &problem.encoded,
            text,
        ),
    }
}

/// What a text says that comes in these pieces, and what each of them is answered.
pub fn feed_all(
    rt: &impl Abort,
    alloc: Global,
    problem: &Problem,
    settings: Settings,
    pieces: &[&str],
    refusals: &mut Vec<Option<CheckError>>,
) -> Result<Confirmed, CheckError>
    requires { are_bounds settings.bounds ≡ true }
{
    assert_selectors(rt, alloc, problem);
    let judge = ProgramJudge::new(alloc, &problem.program, &problem.input, settings.bounds);
    let mut confirm = Confirm::new(alloc, judge, settings, &problem.encoded).expect(rt, "memory");
    for piece in pieces {
        let refusal = confirm.feed(piece.as_bytes()).err();
        refusals.push(refusal).expect(rt, "memory");
    }
    confirm.finish()
}
