//! Tests of the checker: rows of steps with the number of the error of each, 0 if it is allowed.

ghost use Rattle.std.specs.Prelude.{◌≡◌, ◌<◌, ◌-◌, ◌^◌, true, length, All};
ghost use Rattle.ba_lits.specs.Literals.{IsClause};
ghost use Rattle.ba_steps.specs.Steps.{IsFormed, AreFormedLits, AreNumbers, AreAbove, IsFormedChoice, IsValue};

use ba_checker::Checker;
use ba_checker::laws::{core_bound_law, facts_law, implied_law, learnt_once_law};
use ba_choices::{Choice, Values};
use ba_items::{Items, TryClone};
use ba_lits::{Formula, Lit, is_clause};
use ba_steps::{CertStep, GoodRun, ListJudge};
use std::alloc::Global;
use std::panic::Expect;
use std::process::Abort;
use test_formulas::{add, are_numbers, are_selectors, formula_of, lit, lits, without_clauses};

/// Whether literals are those of a formed step.
fn are_formed(lits: &[Lit]) -> bool
    ensures { result ≡ true → AreFormedLits lits.now }
{
    if lits.is_empty() {
        return false;
    }
    is_clause((1 << 62) - 1, lits)
}

/// Whether numbers are those of a formed Delete step.
fn are_ascending(numbers: &[u64]) -> bool
    ensures { result ≡ true → AreNumbers numbers.now × AreAbove 0 numbers.now
        × (0 < length numbers.now) }
{
    if numbers.is_empty() || !are_above(numbers) {
        return false;
    }
    are_numbers(numbers)
}

/// Whether numbers ascend from 1 on.
fn are_above(numbers: &[u64]) -> bool
    ensures { result ≡ true → AreAbove 0 numbers.now }
{
    let mut last = 0;
    for number in numbers {
        if *number <= last {
            return false;
        }
        last = *number;
    }
    true
}

/// Whether groups and a run are those of a formed Block step.
fn is_set(groups: &[u32], run: &[Choice]) -> bool
    ensures { result ≡ true → AreAbove 0 groups.now × (0 < length groups.now)
        × All IsFormedChoice run.now }
{
    if groups.is_empty() || !are_groups(groups) {
        return false;
    }
    run.iter().all(|choice| is_choice(choice))
}

/// Whether numbers of groups ascend from 1 on.
fn are_groups(groups: &[u32]) -> bool
    ensures { result ≡ true → AreAbove 0 groups.now }
{
    let mut last = 0;
    for group in groups {
        if *group <= last {
            return false;
        }
        last = *group;
    }
    true
}

/// Whether the values of a choice are those of a formed step.
fn is_choice(choice: &Choice) -> bool
    ensures { result ≡ true → IsFormedChoice choice.now }
{
    match choice {
        Choice::Keep => true,
        Choice::Take(values) => values.as_slice().iter().all(|value| is_value(*value)),
    }
}

/// Whether a value is one of a formed step.
fn is_value(value: i64) -> bool
    ensures { result ≡ true → IsValue value }
{
    -((1 << 62) - 1) <= value && value <= (1 << 62) - 1
}

/// Whether literals and hints are those of an EndLocated step.
fn are_last(lits: &[Lit], hints: &[u64]) -> bool
    ensures { result ≡ true → IsClause (2 ^ 62 - 1) lits.now × AreNumbers hints.now }
{
    if !is_clause((1 << 62) - 1, lits) {
        return false;
    }
    are_numbers(hints)
}

/// Whether literals and hints are those of a formed step.
fn are_parts(lits: &[Lit], hints: &[u64]) -> bool
    ensures { result ≡ true → AreFormedLits lits.now × AreNumbers hints.now }
{
    if !are_formed(lits) {
        return false;
    }
    are_numbers(hints)
}

/// Whether a step is formed.
fn is_formed(step: &CertStep) -> bool
    ensures { result ≡ true → IsFormed step.now }
{
    match step {
        CertStep::Learn { lits, hints } => are_parts(lits.as_slice(), hints.as_slice()),
        CertStep::Core { lits, hints } => are_parts(lits.as_slice(), hints.as_slice()),
        CertStep::Delete { clauses } => are_ascending(clauses.as_slice()),
        CertStep::Block { groups, run } => is_set(groups.as_slice(), run.as_slice()),
        CertStep::EndLocated { lits, hints } => are_last(lits.as_slice(), hints.as_slice()),
        CertStep::EndNoRepair { hints } => are_numbers(hints.as_slice()),
        CertStep::EndTooMany => true,
        CertStep::EndSpent => true,
    }
}

/// The kinds of steps.
#[derive(Clone, Copy)]
enum Kind {
    Learn,
    Core,
    Delete,
    Block,
    Located,
    NoRepair,
    TooMany,
    Spent,
}

/// A step to put: its literals or its run's values, its hints, numbers or groups, and the number of its
/// error, 0 if allowed.
type Row<'a> = (Kind, &'a [i64], &'a [u64], u8);

/// The step of a row, which is a clone.
fn step_of(rt: &impl Abort, alloc: Global, row: &Row) -> CertStep {
    let hints = Items::from_slice(alloc, row.2).expect(rt, "memory");
    let lits = Items::from_vec(lits(alloc, row.1).expect(rt, "memory"));
    let step = match row.0 {
        Kind::Learn => CertStep::Learn { lits, hints },
        Kind::Core => CertStep::Core { lits, hints },
        Kind::Delete => CertStep::Delete { clauses: hints },
        Kind::Block => block_of(rt, alloc, row),
        Kind::Located => CertStep::EndLocated { lits, hints },
        Kind::NoRepair => CertStep::EndNoRepair { hints },
        Kind::TooMany => CertStep::EndTooMany,
        Kind::Spent => CertStep::EndSpent,
    };
    step.try_clone(alloc).expect(rt, "memory")
}

/// The Block step of a row.
fn block_of(rt: &impl Abort, alloc: Global, row: &Row) -> CertStep {
    let mut groups = Items::new(alloc);
    for number in row.2 {
        groups
            .push(u32::try_from(*number).unwrap_or(0))
            .expect(rt, "memory");
    }
    let run = run_of(rt, alloc, row.1);
    CertStep::Block { groups, run }
}

/// The run that keeps one execution, and then takes values, one each.
fn run_of(rt: &impl Abort, alloc: Global, values: &[i64]) -> Items<Choice> {
    let mut run = Items::new(alloc);
    run.push(Choice::Keep).expect(rt, "memory");
    for value in values {
        let mut taken = Values::new(alloc);
        taken.push(*value).expect(rt, "memory");
        run.push(Choice::Take(taken)).expect(rt, "memory");
    }
    run
}

/// A judge to whom the run that takes 7 is good for each of the first two groups alone.
fn judge(rt: &impl Abort, alloc: Global) -> ListJudge {
    let mut judge = ListJudge::new(alloc);
    for group in [1, 2] {
        let groups = Items::from_slice(alloc, [group].as_slice()).expect(rt, "memory");
        let run = run_of(rt, alloc, [7].as_slice());
        judge.add(GoodRun { groups, run }).expect(rt, "memory");
    }
    judge
}

/// Puts a step to a checker, and answers the number of the error. It is 0 for an allowed step, and 99 if
/// memory runs out or the step isn't formed.
fn put(checker: &mut Checker, step: &CertStep, judge: &ListJudge) -> u8 {
    if !is_formed(step) {
        return 99;
    }
    match checker.step(step, judge) {
        Ok(()) => 0,
        Err(error) => error.number().unwrap_or(99),
    }
}

/// Puts the steps of the rows one after the other. The place of the first that ends otherwise than its row
/// says, or none.
fn put_all(rt: &impl Abort, alloc: Global, checker: &mut Checker, rows: &[Row]) -> Option<usize> {
    let judge = judge(rt, alloc);
    for (place, row) in rows.iter().enumerate() {
        if put(checker, &step_of(rt, alloc, row), &judge) != row.3 {
            return Some(place);
        }
    }
    None
}

/// Whether literals are those of numbers.
fn are(lits: &[Lit], codes: &[i64]) -> bool {
    lits.len() == codes.len() && lits.iter().zip(codes).all(|(l, code)| *l == lit(*code))
}

/// Whether the clauses from a number on are these, and no more come.
fn clauses_are(checker: &Checker, first: u64, want: &[&[i64]]) -> bool {
    for (place, codes) in want.iter().enumerate() {
        match checker.clause(first.saturating_add(place as u64)) {
            None => return false,
            Some(lits) => {
                if !are(lits, codes) {
                    return false;
                }
            }
        }
    }
    checker.last().saturating_add(1) == first.saturating_add(want.len() as u64)
}

/// Whether the present soft literals are these.
fn softs_are(checker: &Checker, want: &[(i64, u32)]) -> bool {
    let softs = checker.softs();
    softs.len() == want.len()
        && softs
            .iter()
            .zip(want)
            .all(|(s, w)| s.0 == lit(w.0) && s.1 == w.1)
}

/// Variables, clauses, soft literals, and the stated number of conflicts; then the steps. At last the bound,
/// the clauses from a number on, and the present soft literals.
type Case<'a> = (
    u64,
    &'a [&'a [i64]],
    &'a [(i64, u32)],
    u64,
    &'a [Row<'a>],
    u64,
    u64,
    &'a [&'a [i64]],
    &'a [(i64, u32)],
);

/// A checker over a formula with soft literals.
fn start(
    rt: &impl Abort,
    alloc: Global,
    formula: &Formula,
    softs: &[(i64, u32)],
    conflicts: u64,
) -> Checker {
    let mut list = Vec::new(alloc);
    for (code, weight) in softs {
        list.push((lit(*code), *weight)).expect(rt, "memory");
    }
    assert!(rt; are_selectors(formula.variables(), list.as_slice()));
    Checker::new(alloc, formula, list.as_slice(), conflicts, 1).expect(rt, "memory")
}

/// Puts the steps of a case, and compares the checker with what is expected then.
fn check(rt: &impl Abort, alloc: Global, case: &Case) {
    let (variables, clauses, softs, conflicts, rows, bound, first, after, left) = *case;
    let formula = formula_of(alloc, variables, clauses).expect(rt, "memory");
    let mut checker = start(rt, alloc, &formula, softs, conflicts);
    assert_eq!(rt; put_all(rt, alloc, &mut checker, rows), None);
    assert_eq!(rt; checker.bound(), bound);
    assert!(rt; clauses_are(&checker, first, after) && softs_are(&checker, left));
}

/// Steps with cores, and what follows them.
static SPLITS: [Case; 3] = [
    (
        2,
        &[&[-1, -2]],
        &[(1, 3), (2, 1)],
        5,
        &[(Kind::Core, &[-1, -2], &[1], 0)],
        1,
        2,
        &[&[-1, -2], &[-1, -3], &[-2, -3], &[1, 2, 3]],
        &[(1, 2), (-3, 1)],
    ),
    (
        1,
        &[&[-1]],
        &[(1, 3)],
        5,
        &[(Kind::Core, &[-1], &[1], 0)],
        3,
        2,
        &[&[-1]],
        &[],
    ),
    (
        3,
        &[&[-1, -2, -3]],
        &[(1, 3), (2, 5), (3, 3)],
        5,
        &[(Kind::Core, &[-1, -2, -3], &[1], 0)],
        3,
        2,
        &[
            &[-1, -2, -3],
            &[-2, -3, -4],
            &[2, 4],
            &[3, 4],
            &[-1, -5],
            &[4, -5],
            &[1, -4, 5],
            &[-2, -6],
            &[-3, -6],
            &[2, 3, 6],
        ],
        &[(2, 2), (-5, 3), (-6, 3)],
    ),
];

#[test]
fn cores_are_split(rt: HostRuntime) {
    for case in &SPLITS {
        check(&rt, rt.alloc(), case);
    }
}

/// Steps with each error.
static ERRORS: [Case; 4] = [
    (
        4,
        &[&[1, 2], &[-1, 2], &[-2, 3], &[-3, 4]],
        &[(1, 1)],
        2,
        &[
            (Kind::Learn, &[2], &[], 3),
            (Kind::Learn, &[2], &[9], 1),
            (Kind::Learn, &[2], &[3, 2], 2),
            (Kind::Learn, &[2], &[1], 3),
            (Kind::Learn, &[2], &[4, 9], 2),
            (Kind::Learn, &[2], &[9, 4], 1),
            (Kind::Learn, &[2], &[1, 2, 1], 2),
            (Kind::Learn, &[1, 2], &[1], 10),
            (Kind::Learn, &[1, 2, 4], &[9], 10),
            (Kind::Learn, &[1, 2, 5], &[9], 14),
            (Kind::Learn, &[5], &[9], 14),
            (Kind::Learn, &[2], &[1, 2], 0),
            (Kind::Learn, &[2, 4], &[5], 10),
            (Kind::Learn, &[3, 4], &[3, 5], 0),
            (Kind::Learn, &[2, 4], &[9], 13),
            (Kind::Learn, &[5], &[9], 14),
            (Kind::Core, &[-2], &[9], 13),
            (Kind::Core, &[-5], &[9], 14),
            (Kind::NoRepair, &[], &[9], 13),
            (Kind::Spent, &[], &[], 0),
            (Kind::Spent, &[], &[], 9),
            (Kind::Learn, &[5], &[9], 9),
        ],
        0,
        5,
        &[&[2], &[3, 4]],
        &[(1, 1)],
    ),
    (
        5,
        &[&[1, 2, 5], &[-1, 2], &[-2, 3], &[-3, 4]],
        &[(1, 1)],
        9,
        &[
            (Kind::Learn, &[2, 5], &[1, 2], 0),
            (Kind::Learn, &[1, 3, 5], &[3, 1], 0),
            (Kind::Delete, &[], &[1], 5),
            (Kind::Delete, &[], &[2], 5),
            (Kind::Delete, &[], &[7], 5),
            (Kind::Delete, &[], &[5], 5),
            (Kind::Delete, &[], &[5, 6], 5),
            (Kind::Delete, &[], &[6, 9], 5),
            (Kind::Delete, &[], &[6], 11),
            (Kind::Learn, &[1, 3, 5], &[3, 1], 10),
        ],
        0,
        4,
        &[&[-3, 4], &[2, 5], &[1, 3, 5]],
        &[(1, 1)],
    ),
    (
        3,
        &[&[1, 2], &[-1, 2], &[-2]],
        &[(1, 2), (2, 1)],
        3,
        &[
            (Kind::Core, &[-4], &[9], 14),
            (Kind::Core, &[-3], &[9], 4),
            (Kind::Core, &[1], &[9], 4),
            (Kind::Core, &[-1, -3], &[3], 4),
            (Kind::Core, &[-1], &[9], 1),
            (Kind::Core, &[-1], &[], 3),
            (Kind::Core, &[-1, -2], &[1], 2),
            (Kind::NoRepair, &[], &[], 3),
            (Kind::NoRepair, &[], &[9], 1),
            (Kind::NoRepair, &[], &[1], 2),
            (Kind::NoRepair, &[], &[3, 1], 3),
            (Kind::Spent, &[], &[], 13),
            (Kind::Core, &[-2], &[3], 0),
            (Kind::Core, &[-2], &[3], 4),
            (Kind::NoRepair, &[], &[3, 1, 2], 0),
            (Kind::NoRepair, &[], &[3, 1, 2], 9),
        ],
        1,
        4,
        &[&[-2]],
        &[(1, 2)],
    ),
    (
        2,
        &[&[1, 2], &[]],
        &[(1, 0), (2, 4)],
        3,
        &[
            (Kind::Learn, &[1], &[2], 10),
            (Kind::Core, &[-2], &[2], 0),
            (Kind::NoRepair, &[], &[2], 0),
        ],
        4,
        3,
        &[&[-2]],
        &[],
    ),
];

#[test]
fn each_error_comes_where_it_must(rt: HostRuntime) {
    for case in &ERRORS {
        check(&rt, rt.alloc(), case);
    }
}

/// Steps that block sets.
static SETS: [Case; 3] = [
    (
        4,
        &[&[-1, -2]],
        &[(1, 1), (2, 1), (3, 0), (4, 3)],
        3,
        &[
            (Kind::Located, &[], &[1], 13),
            (Kind::Core, &[-1, -2], &[1], 0),
            (Kind::Block, &[7], &[3], 14),
            (Kind::Block, &[7], &[5], 14),
            (Kind::Block, &[7], &[1, 5], 14),
            (Kind::Block, &[7], &[1, 2], 8),
            (Kind::Block, &[7], &[4], 8),
            (Kind::Block, &[8], &[1], 6),
            (Kind::Block, &[], &[1], 6),
            (Kind::Block, &[7], &[1], 0),
            (Kind::Block, &[8], &[1], 7),
            (Kind::Core, &[-4], &[9], 12),
            (Kind::Learn, &[1, 3], &[9], 10),
            (Kind::NoRepair, &[], &[1], 13),
            (Kind::TooMany, &[], &[], 13),
            (Kind::Located, &[6], &[9], 14),
            (Kind::Located, &[1], &[9], 4),
            (Kind::Located, &[-5], &[9], 4),
            (Kind::Located, &[-4], &[9], 1),
            (Kind::Located, &[-4], &[2], 2),
            (Kind::Located, &[-4, 5], &[6], 3),
            (Kind::Block, &[7], &[2], 0),
            (Kind::Located, &[], &[6, 7, 2], 0),
            (Kind::Block, &[7], &[2], 9),
        ],
        1,
        6,
        &[&[1], &[2]],
        &[(4, 3), (-5, 1)],
    ),
    (
        2,
        &[&[-1, -2]],
        &[(1, 1), (2, 1)],
        2,
        &[
            (Kind::Core, &[-1, -2], &[1], 0),
            (Kind::Block, &[7], &[1], 0),
            (Kind::TooMany, &[], &[], 13),
            (Kind::Block, &[7], &[2], 0),
            (Kind::TooMany, &[], &[], 0),
            (Kind::TooMany, &[], &[], 9),
        ],
        1,
        6,
        &[&[1], &[2]],
        &[(-3, 1)],
    ),
    (
        2,
        &[&[-1, -2]],
        &[(1, 1), (2, 1)],
        1,
        &[
            (Kind::Core, &[-1, -2], &[1], 0),
            (Kind::Block, &[7], &[2], 0),
            (Kind::Located, &[9], &[9], 13),
            (Kind::Spent, &[], &[], 0),
        ],
        1,
        6,
        &[&[2]],
        &[(-3, 1)],
    ),
];

#[test]
fn sets_are_blocked(rt: HostRuntime) {
    for case in &SETS {
        check(&rt, rt.alloc(), case);
    }
}

/// The formula of the clauses "not i, or i + 1, or 61" for i from 1 to 59, each with the number i.
fn row(rt: &impl Abort, alloc: Global) -> Formula {
    let mut formula = without_clauses(alloc, 61).expect(rt, "memory");
    for i in 1u32..60 {
        let code = i64::from(i);
        add(
            &mut formula,
            [lit(-code), lit(code + 1), lit(61)].as_slice(),
        )
        .expect(rt, "memory");
    }
    formula
}

/// The step that learns "not i, or j, or 61" by the clauses from i to j - 1 of the row.
fn along(rt: &impl Abort, alloc: Global, i: u32, j: u32) -> CertStep {
    let mut hints = Items::new(alloc);
    for number in i..j {
        hints.push(u64::from(number)).expect(rt, "memory");
    }
    let codes = [-i64::from(i), i64::from(j), 61];
    let lits = Items::from_vec(lits(alloc, codes.as_slice()).expect(rt, "memory"));
    CertStep::Learn { lits, hints }
}

/// Learns "not i, or j, or 61" for j from i + 2 to 60 and i in this order, from one place to another. How
/// many steps were allowed.
fn learn_along(rt: &impl Abort, alloc: Global, checker: &mut Checker, from: u32, to: u32) -> u32 {
    let judge = ListJudge::new(alloc);
    let mut place = 0u32;
    let mut allowed = 0u32;
    for i in 1..59 {
        for j in i + 2..61 {
            if from <= place && place < to && put(checker, &along(rt, alloc, i, j), &judge) == 0 {
                allowed = allowed.saturating_add(1);
            }
            place = place.saturating_add(1);
        }
    }
    allowed
}

/// Steps before the thousandth learnt clause.
static EARLY: [Row; 4] = [
    (Kind::Delete, &[], &[60], 11),
    (Kind::Delete, &[], &[59, 60], 5),
    (Kind::Delete, &[], &[60, 2000], 5),
    (Kind::Learn, &[-1, 3, 61], &[1, 2], 10),
];

/// Steps after it.
static LATE: [Row; 7] = [
    (Kind::Delete, &[], &[60], 0),
    (Kind::Delete, &[], &[60, 61], 5),
    (Kind::Delete, &[], &[61], 11),
    (Kind::Learn, &[-1, 3, 61], &[60], 1),
    (Kind::Learn, &[-1, 4, 61], &[61], 10),
    (Kind::Learn, &[-1, 3, 61], &[1, 2], 0),
    (Kind::Learn, &[-1, 3, 61], &[1, 2], 10),
];

/// Asserts that a learnt clause can be deleted once there are a thousand, and not before.
fn assert_deleted(rt: &impl Abort, alloc: Global, checker: &mut Checker) {
    assert_eq!(rt; learn_along(rt, alloc, checker, 0, 999), 999);
    assert_eq!(rt; put_all(rt, alloc, checker, &EARLY), None);
    assert_eq!(rt; learn_along(rt, alloc, checker, 999, 1000), 1);
    assert_eq!(rt; put_all(rt, alloc, checker, &LATE), None);
    assert!(rt; checker.clause(60).is_none() && checker.learnt() == 1 && checker.is_learnt(1060));
}

#[test]
fn a_learnt_clause_is_deleted_after_a_thousand(rt: HostRuntime) {
    let alloc = rt.alloc();
    let mut checker = start(&rt, alloc, &row(&rt, alloc), &[], 2000);
    assert_deleted(&rt, alloc, &mut checker);
}

#[test]
fn laws_return(_rt: HostRuntime) {
    implied_law();
    facts_law();
    learnt_once_law();
    core_bound_law();
}
