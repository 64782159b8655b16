//! Reduction of the learnt clauses, without taking memory. At a restart, once 1,000 clauses were learnt since
//! the last reduction, those go that the keep rule discards. Reasons and the youngest clauses stay. Figures:
//! `docs/measurements.md`.

ghost use Rattle.std.specs.Prelude.{◌≡◌, ◌≢◌, ℕ, ◌+◌, ◌<◌, ◌≤◌, ◌^◌, ◌++◌, ◌∷◌, [], Bool, true, false, length, get_or, All, if◌then◌else◌};
ghost use Rattle.std.specs.List.{list_all};
ghost use Rattle.ba_steps.specs.Steps.{AreNumbers, AreAbove};
ghost use Rattle.ba_checker.specs.StepRules.{apart_by, may_go};
ghost use Rattle.ba_learn.specs.Resolving.{number_at};
ghost use Rattle.ba_search.specs.Searching.{IsDiscarded};
ghost use Rattle.ba_search.specs.Iterations.{AreDiscarded, IsNoReason, MarksReasons, MarksOnly};

use crate::rules::SearchRules;
use ba_checker::{APART_BY, Checker};
use ba_items::{Items, fill_up};
use ba_steps::CertStep;
use ba_watch::Watch;
use std::alloc::{AllocError, Global};
use std::marker::Model;
use std::mem;

/// The memory of deletions of learnt clauses: a mark for each clause, by its number, and an empty list with
/// room. A contract sees the marks. None is set except during a deletion.
#[derive(Drop)]
pub struct Reduction {
    marks: Vec<bool>,
    numbers: Vec<u64>,
}

impl Model for Reduction {
    ghost use Rattle.std.specs.Prelude.{◌≡◌, ℕ, List, Bool, false, get_or};

    ghost Value = { List Bool };

    ghost view = { λ r. r.marks.items };

    ghost invariant = { λ r. (number : ℕ) → get_or r.marks.items number false ≡ false };
}

impl Reduction {
    /// No room yet. It takes no memory.
    pub fn new(alloc: Global) -> Reduction {
        Reduction {
            marks: Vec::new(alloc),
            numbers: Vec::new(alloc),
        }
    }

    /// Makes room for the mark of a clause.
    ///
    /// The only error is out of memory.
    pub fn make_room_for_mark(&mut self, number: u64) -> Result<(), AllocError>
        requires { number < 2 ^ 62 }
    {
        fill_up(&mut self.marks, number as usize + 1, false)
    }

    /// Makes room for `count` numbers.
    ///
    /// The only error is out of memory.
    pub fn make_room_for_numbers(&mut self, count: usize) -> Result<(), AllocError> {
        self.numbers.clear();
        self.numbers.reserve(count)
    }

    /// The numbers of the learnt clauses that the keep rule discards and that are no reasons, in order, as
    /// many as there is room for. The list takes the room with it, until [`Reduction::reuse`] gives it back.
    pub fn discarded<R: SearchRules>(
        &mut self,
        alloc: Global,
        watch: &Watch,
        learnt: &[u64],
        checker: &Checker,
        rules: &R,
    ) -> Vec<u64>
        requires rules { R.are_rules rules.now }
        requires few { length checker.now.clauses < 2 ^ 62 }
        ensures numbers { AreNumbers result.items }
        ensures ascends { AreAbove 0 result.items }
        ensures may_go { list_all (may_go checker.now) result.items ≡ true }
        ensures discarded { All (IsDiscarded (R.keeping rules.now) checker.now learnt.now)
            result.items }
        ensures no_reasons { All (IsNoReason watch.now) result.items }
    {
        mark_reasons(&mut self.marks, watch);
        let room = mem::replace(&mut self.numbers, Vec::new(alloc));
        let numbers = gather(room, self.marks.as_slice(), learnt, checker, rules);
        unmark_reasons(&mut self.marks, watch);
        numbers
    }

    /// Takes the list of a deletion back for its room.
    pub fn reuse(&mut self, numbers: Vec<u64>) {
        self.numbers = numbers;
    }
}

/// Takes the numbers out of a Delete step. It takes no memory.
pub fn take_numbers(alloc: Global, step: &mut CertStep) -> Vec<u64> {
    match step {
        CertStep::Delete { clauses } => mem::replace(clauses, Items::new(alloc)).into_vec(),
        _ => Vec::new(alloc),
    }
}

/// Whether so many clauses were learnt since the last deletion that another may come, and some are no longer
/// young.
pub fn may_reduce(learnt: &[u64], checker: &Checker) -> bool
    ensures { result ≡ true → apart_by ≤ checker.now.learnt }
{
    checker.learnt() >= APART_BY && learnt.len() > youth(learnt, checker)
}

/// The numbers of the learnt clauses that the keep rule discards, without marked reasons, in order, as many
/// as there is room for.
fn gather<R: SearchRules>(
    room: Vec<u64>,
    marks: &[bool],
    learnt: &[u64],
    checker: &Checker,
    rules: &R,
) -> Vec<u64>
    requires rules { R.are_rules rules.now }
    requires few { length checker.now.clauses < 2 ^ 62 }
    ensures { AreDiscarded (R.keeping rules.now) checker.now marks.now learnt.now result.items }
{
    let mut numbers = room;
    numbers.clear();
    let mut last = 0;
    for place in 0..learnt.len() {
        let number = learnt[place];
        if number <= last {
            continue;
        }
        if !is_discarded(marks, learnt, place, checker, rules) {
            continue;
        }
        if !push_within_room(&mut numbers, number) {
            break;
        }
        last = number;
    }
    numbers
}

/// Adds a number if there is room for it, and tells whether there was.
fn push_within_room(numbers: &mut Vec<u64>, number: u64) -> bool
    ensures { numbers.new.items
        ≡ (if result then numbers.old.items ++ number ∷ [] else numbers.old.items) }
{
    numbers.len() < numbers.capacity() && numbers.push(number).is_ok()
}

/// Whether the keep rule discards the learnt clause at an index, and its number isn't marked as a reason.
fn is_discarded<R: SearchRules>(
    marks: &[bool],
    learnt: &[u64],
    place: usize,
    checker: &Checker,
    rules: &R,
) -> bool
    requires rules { R.are_rules rules.now }
    requires within { place < length learnt.now }
    ensures may_go { result ≡ true → may_go checker.now (get_or learnt.now place 0) ≡ true }
    ensures discarded { result ≡ true
        → IsDiscarded (R.keeping rules.now) checker.now learnt.now (get_or learnt.now place 0) }
    ensures no_reason { result ≡ true → get_or marks.now (get_or learnt.now place 0) true ≡ false }
{
    let number = learnt[place];
    if is_marked(marks, number) || !checker.is_learnt(number) {
        return false;
    }
    let Some(lits) = checker.clause(number) else {
        return false;
    };
    let later = learnt.len() - 1 - place;
    if later < youth(learnt, checker) {
        return false;
    }
    !rules.keeps(lits.len() as u64, later as u64)
}

/// How many learnt clauses are kept for their age alone: half as many as were not learnt. A limit in
/// proportion to the formula: N. Een, N. Sorensson, An Extensible SAT-solver.
fn youth(learnt: &[u64], checker: &Checker) -> usize {
    (checker.last() as usize).saturating_sub(learnt.len()) / 2
}

/// Marks the reasons of the literals of the trail, if there is room for their marks.
fn mark_reasons(marks: &mut Vec<bool>, watch: &Watch)
    requires { (number : ℕ) → get_or marks.old.items number false ≡ false }
    ensures marked { MarksReasons watch.now (length watch.now.reasons) marks.new.items }
    ensures only { MarksOnly watch.now 0 (length watch.now.reasons) marks.new.items }
{
    for place in 0..watch.reasons().len() {
        set_mark(marks, reason_number(watch, place), true);
    }
}

/// Clears the marks of the reasons of the literals of the trail.
fn unmark_reasons(marks: &mut Vec<bool>, watch: &Watch)
    requires { MarksOnly watch.now 0 (length watch.now.reasons) marks.old.items }
    ensures { (number : ℕ) → get_or marks.new.items number false ≡ false }
{
    for place in 0..watch.reasons().len() {
        set_mark(marks, reason_number(watch, place), false);
    }
}

/// The number of the reason of a literal of the trail, and 0 if it was decided.
fn reason_number(watch: &Watch, place: usize) -> u64
    requires { place < length watch.now.reasons }
    ensures { result ≡ number_at watch.now place }
{
    watch.keeps_facts();
    match watch.reasons()[place] {
        Some(clause) => watch.arena().number(clause),
        None => 0,
    }
}

/// Whether a number is marked. One without room for its mark counts as marked.
fn is_marked(marks: &[bool], number: u64) -> bool
    ensures { result ≡ get_or marks.now number true }
{
    let place = number as usize;
    place >= marks.len() || marks[place]
}

/// Sets the mark of a number if there is room for it.
fn set_mark(marks: &mut Vec<bool>, number: u64, mark: bool)
    ensures this { get_or marks.new.items number mark ≡ mark }
    ensures others { (n : ℕ) (past : Bool) → n ≢ number
        → get_or marks.new.items n past ≡ get_or marks.old.items n past }
{
    let place = number as usize;
    if place < marks.len() {
        marks[place] = mark;
    }
}
