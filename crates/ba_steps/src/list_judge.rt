//! A judge that holds a list of good runs.

ghost use Rattle.std.specs.Prelude.{◌≡◌, ◌++◌, ◌∷◌, [], OnOk, OnErr};
ghost use Rattle.ba_steps.specs.GoodRuns.{same_choice, same_run, is_listed, are_listed};

use crate::judge::RunJudge;
use ba_choices::Choice;
use ba_items::Items;
use std::alloc::{AllocError, Global};
use std::marker::Model;

/// A list of choices, and the groups for which it is a good run.
pub struct GoodRun {
    pub groups: Items<u32>,
    pub run: Items<Choice>,
}

impl Drop for GoodRun {
    fn drop(self) {
        let GoodRun { groups: _, run: _ } = self;
    }
}

/// A judge for tests: exactly the runs that were added are good, for the groups that they were added with.
pub struct ListJudge {
    runs: Items<GoodRun>,
}

impl Drop for ListJudge {
    fn drop(self) {
        let ListJudge { runs: _ } = self;
    }
}

impl Model for ListJudge {
    ghost use Rattle.std.specs.Prelude.{List};
    ghost use Rattle.ba_steps.specs.declared.list_judge.GoodRun.{GoodRun};

    ghost Value = { List GoodRun };

    ghost view = { λ judge. judge.runs };
}

impl ListJudge {
    /// A judge for whom no run is good. It takes no memory.
    pub fn new(alloc: Global) -> ListJudge
        ensures { result ≡ [] }
    {
        ListJudge {
            runs: Items::new(alloc),
        }
    }

    /// Makes a run good for groups.
    ///
    /// The only error is out of memory, which leaves the judge as it was.
    pub fn add(&mut self, good: GoodRun) -> Result<(), AllocError>
        ensures ok { OnOk result (self.new ≡ self.old ++ good ∷ []) }
        ensures err { OnErr result (self.new ≡ self.old) }
    {
        self.runs.push(good)
    }
}

impl RunJudge for ListJudge {
    ghost use Rattle.ba_steps.specs.GoodRuns.{are_listed};

    ghost accepts = { are_listed };

    fn good(&self, groups: &[u32], run: &[Choice]) -> Result<bool, AllocError> {
        Ok(are_listed(self.runs.as_slice(), groups, run))
    }
}

/// Whether both are the same choice.
fn same_choice(choice: &Choice, other: &Choice) -> bool
    ensures { result ≡ same_choice choice.now other.now }
{
    match (choice, other) {
        (Choice::Keep, Choice::Keep) => true,
        (Choice::Take(values), Choice::Take(others)) => values.as_slice() == others.as_slice(),
        _ => false,
    }
}

/// Whether both runs have the same choices.
fn same_run(run: &[Choice], other: &[Choice]) -> bool
    ensures { result ≡ same_run run.now other.now }
{
    let mut left = run;
    let mut right = other;
    while let Some((choice, choices)) = left.split_first() {
        let Some((next, nexts)) = right.split_first() else {
            return false;
        };
        if !same_choice(choice, next) {
            return false;
        }
        left = choices;
        right = nexts;
    }
    right.is_empty()
}

/// Whether the good run is of these groups and has these choices.
fn is_listed(groups: &[u32], run: &[Choice], good: &GoodRun) -> bool
    ensures { result ≡ is_listed groups.now run.now good.now }
{
    good.groups.as_slice() == groups && same_run(good.run.as_slice(), run)
}

/// Whether the run was added as good for these groups.
fn are_listed(runs: &[GoodRun], groups: &[u32], run: &[Choice]) -> bool
    ensures { result ≡ are_listed runs.now groups.now run.now }
{
    runs.iter().any(|good| is_listed(groups, run, good))
}
