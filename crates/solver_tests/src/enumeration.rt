//! Tests of all least sets.

ghost use Rattle.std.specs.Prelude.{◌≡◌};
ghost use Rattle.ba_encode.specs.Softs.{softs_of};
ghost use Rattle.ba_checker.specs.Facts.{AreSelectors};
ghost use Rattle.ba_checker.specs.States.{first_state};

use crate::support::conditions::may_begin;
use crate::support::judge::EmptyRuns;
use ba_checker::{Checked, Checker};
use ba_derivations::{FoundSet, Verdict};
use ba_encode::{Encoded, Group, softs_of};
use ba_enum::all_sets;
use ba_items::Items;
use ba_lits::{Formula, Lit};
use ba_numbers::ids::StmtId;
use ba_search::Search;
use ba_steps::NoSink;
use std::alloc::Global;
use std::panic::Expect;
use std::process::Abort;
use test_formulas::{add, formula_of, literal, without_clauses};

/// How a search for all least sets ends.
#[derive(Clone, Copy)]
enum End<'a> {
    /// All sets of a weight.
    Located(u64, &'a [&'a [u32]]),
    NoRepair,
    /// So many sets of a weight.
    TooMany(u64, usize),
    Spent,
}

/// Groups with these weights, by ascending numbers from 1; the selector of each is the variable of its
/// number.
fn groups_of(rt: &impl Abort, alloc: Global, weights: &[u32]) -> Items<Group> {
    let mut groups = Items::new(alloc);
    for (place, weight) in weights.iter().enumerate() {
        let number = u32::try_from(place + 1).unwrap_or(0);
        groups
            .push(Group {
                number,
                statement: StmtId(number),
                weight: *weight,
                selector: literal(u64::from(number), false),
            })
            .expect(rt, "memory");
    }
    groups
}

/// The soft literals of an encoding.
fn softs_in(rt: &impl Abort, alloc: Global, encoded: &Encoded) -> Vec<(Lit, u32)>
    ensures { result.items ≡ softs_of encoded.now.groups }
{
    softs_of(alloc, encoded).expect(rt, "memory")
}

/// The checker of a formula before the first step.
fn checker_of(
    rt: &impl Abort,
    alloc: Global,
    formula: &Formula,
    softs: &[(Lit, u32)],
    conflicts: u64,
    sets: u32,
) -> Checker
    requires { AreSelectors formula.now.variables softs.now }
    ensures { result ≡ first_state formula.now softs.now conflicts sets }
{
    Checker::new(alloc, formula, softs, conflicts, sets).expect(rt, "memory")
}

/// What the search says of a formula whose groups have these weights.
fn find(
    rt: &impl Abort,
    alloc: Global,
    formula: Formula,
    weights: &[u32],
    conflicts: u64,
    sets: u32,
) -> Verdict {
    let groups = groups_of(rt, alloc, weights);
    assert!(rt; groups.len() < 1 << 32);
    let encoded = Encoded::without_places(alloc, formula, groups);
    let softs = softs_in(rt, alloc, &encoded);
    assert!(rt; may_begin(&encoded, softs.as_slice()));
    let checker = checker_of(
        rt,
        alloc,
        encoded.formula(),
        softs.as_slice(),
        conflicts,
        sets,
    );
    let mut checked = Checked::new(checker, EmptyRuns, NoSink);
    let mut search = Search::new(
        alloc,
        encoded.formula(),
        |_: u64| 10,
        |width: u64, age: u64| width <= 2 || age < 400,
    )
    .expect(rt, "memory");
    all_sets(alloc, &encoded, sets, &mut search, &mut checked).expect(rt, "memory")
}

/// Whether the sets are these, in this order.
fn are_sets(found: &[FoundSet], sets: &[&[u32]]) -> bool {
    if found.len() != sets.len() {
        return false;
    }
    for (set, groups) in found.iter().zip(sets) {
        if set.groups.as_slice() != *groups {
            return false;
        }
    }
    true
}

/// Whether the search ends so.
fn ends_so(verdict: &Verdict, end: &End) -> bool {
    match (verdict, end) {
        (Verdict::Located { weight, sets }, End::Located(least, groups)) => {
            weight == least && are_sets(sets.as_slice(), groups)
        }
        (Verdict::NoRepair, End::NoRepair) => true,
        (Verdict::TooMany { weight, sets }, End::TooMany(least, count)) => {
            weight == least && sets.len() == *count
        }
        (Verdict::Spent, End::Spent) => true,
        _ => false,
    }
}

/// What is shown, variables, clauses, the weights of the groups, the limits on conflicts and listed sets, and
/// how the search ends. The first clause says that some selector is false.
type Row<'a> = (&'a str, u64, &'a [&'a [i64]], &'a [u32], u64, u32, End<'a>);

/// Searches for the sets of a row's formula.
fn check(rt: &impl Abort, alloc: Global, row: &Row) {
    let (shown, variables, clauses, weights, conflicts, sets, end) = row;
    let formula = formula_of(alloc, *variables, clauses).expect(rt, "memory");
    let verdict = find(rt, alloc, formula, weights, *conflicts, *sets);
    assert!(rt; ends_so(&verdict, end), "{shown}");
}

/// One of three is false.
const ANY_OF_THREE: &[&[i64]] = &[&[-1, -2, -3]];

/// Formulas with their least sets.
static FORMULAS: [Row; 9] = [
    (
        "three sets",
        3,
        ANY_OF_THREE,
        &[1, 1, 1],
        99,
        9,
        End::Located(1, &[&[1], &[2], &[3]]),
    ),
    (
        "a set of two",
        2,
        &[&[-1, -2], &[-1], &[-2]],
        &[1, 1],
        99,
        9,
        End::Located(2, &[&[1, 2]]),
    ),
    ("no repair", 1, &[&[-1], &[1]], &[1], 99, 9, End::NoRepair),
    (
        "two sets of three may be listed",
        3,
        ANY_OF_THREE,
        &[1, 1, 1],
        99,
        2,
        End::TooMany(1, 3),
    ),
    (
        "three sets of three may be listed",
        3,
        ANY_OF_THREE,
        &[1, 1, 1],
        99,
        3,
        End::Located(1, &[&[1], &[2], &[3]]),
    ),
    (
        "one conflict",
        3,
        ANY_OF_THREE,
        &[1, 1, 1],
        1,
        9,
        End::Spent,
    ),
    (
        "a heavier one is lighter than two",
        3,
        &[&[-1, -2], &[-1, -3]],
        &[3, 2, 2],
        99,
        9,
        End::Located(3, &[&[1]]),
    ),
    (
        "two are lighter than a heavier one",
        3,
        &[&[-1, -2], &[-1, -3]],
        &[3, 1, 1],
        99,
        9,
        End::Located(2, &[&[2, 3]]),
    ),
    (
        "one and two weigh the same",
        4,
        &[&[-1, -2], &[-1, -3], &[-1, 4]],
        &[2, 1, 1],
        99,
        9,
        End::Located(2, &[&[1], &[2, 3]]),
    ),
];

#[test]
fn small_formulas_have_their_sets(rt: HostRuntime) {
    for row in &FORMULAS {
        check(&rt, rt.alloc(), row);
    }
}

/// The formula with so many variables that says that one of them is false.
fn some_false(rt: &impl Abort, alloc: Global, variables: u64) -> Formula {
    let mut formula = without_clauses(alloc, variables).expect(rt, "memory");
    let mut lits = Vec::new(alloc);
    for variable in 1..=variables {
        lits.push(literal(variable, true)).expect(rt, "memory");
    }
    add(&mut formula, lits.as_slice()).expect(rt, "memory");
    formula
}

/// The sets of weight 1 are those of one group alone, of so many groups, in order.
fn expect_single_groups(rt: &impl Abort, verdict: &Verdict, count: usize) {
    let Verdict::Located { weight, sets } = verdict else {
        panic!(rt; "not located");
    };
    assert_eq!(rt; *weight, 1);
    assert_eq!(rt; sets.len(), count);
    let mut number = 0u32;
    for set in sets.as_slice() {
        number = number.saturating_add(1);
        assert_eq!(rt; set.groups.as_slice(), [number].as_slice());
    }
}

#[test]
fn two_hundred_sets_of_weight_1_are_found_in_order(rt: HostRuntime) {
    let formula = some_false(&rt, rt.alloc(), 200);
    let verdict = find(&rt, rt.alloc(), formula, &[1; 200], 9_999, 200);
    expect_single_groups(&rt, &verdict, 200);
}
