//! Formulas of small lists, with all assignments of their variables.

ghost use Rattle.std.specs.Prelude.{◌≡◌, true, length};
ghost use Rattle.ba_encode.specs.Groups.{are_apart};

use crate::support::lists::{row, word_list};
use ba_choices::Choice;
use ba_encode::{Encoded, Grouping, choices_of, encode};
use ba_items::Items;
use ba_lits::{Formula, Lit, Model};
use ba_numbers::ids::StmtId;
use ba_numbers::numbers::{BinOp, CType};
use ba_tree::run::{Place, Weights};
use ba_wordlist::words::{PlaceWords, WordList, WordOp};
use std::alloc::Global;
use std::panic::Expect;
use std::process::Abort;

/// The assignment whose values are the digits of a number.
fn model_of(rt: &impl Abort, alloc: Global, variables: u64, number: u64) -> Model
    ensures { length result.values ≡ variables }
{
    let mut values = Items::new(alloc);
    let mut rest = number;
    while (values.len() as u64) < variables {
        values.push(rest % 2 == 1).expect(rt, "memory");
        rest /= 2;
    }
    Model { values }
}

/// Whether a literal is true in a model.
fn is_true(model: &Model, lit: Lit) -> bool {
    lit.variable() <= model.values.len() as u64 && model.value(lit.variable()) != lit.is_negated()
}

/// Whether a model satisfies all clauses.
fn satisfies(formula: &Formula, model: &Model) -> bool {
    for i in 0..formula.len() {
        let clause = formula.clause(i + 1);
        if !clause.iter().any(|lit| is_true(model, *lit)) {
            return false;
        }
    }
    true
}

/// The choices of each model in which the first selector has this value.
fn choices_in(
    rt: &impl Abort,
    alloc: Global,
    encoded: &Encoded,
    selector: bool,
) -> Vec<Items<Choice>> {
    let formula = encoded.formula();
    let variables = formula.variables();
    assert!(rt; variables <= 16, "{variables} variables");
    assert!(rt; encoded.groups() > 0);
    let first = encoded.selector(0);
    let mut choices = Vec::new(alloc);
    for number in 0..1u64 << variables {
        let model = model_of(rt, alloc, variables, number);
        if is_true(&model, first) == selector && satisfies(formula, &model) {
            choices
                .push(choices_of(alloc, encoded, &model).expect(rt, "memory"))
                .expect(rt, "memory");
        }
    }
    choices
}

/// Whether the one choice is to take this value.
fn takes(choices: &Items<Choice>, value: i64) -> bool {
    match choices.as_slice() {
        [Choice::Take(values)] => values.as_slice() == [value].as_slice(),
        _ => false,
    }
}

/// A list of one requirement and one place, of statement 5, whose words are keep, guard and one value.
fn list_of(
    rt: &impl Abort,
    alloc: Global,
    words: Vec<WordOp>,
    required: u32,
    value: u32,
) -> WordList {
    let require = Items::from_slice(alloc, &[required]).expect(rt, "memory");
    let values = Items::from_slice(alloc, &[value]).expect(rt, "memory");
    let mut places = Items::new(alloc);
    places
        .push(PlaceWords {
            place: place(alloc),
            guard: 0,
            keep: 1,
            values,
        })
        .expect(rt, "memory");
    word_list(rt, alloc, Items::from_vec(words), require, places)
}

fn place(alloc: Global) -> Place {
    Place {
        path: Items::new(alloc),
        stmt: StmtId(5),
    }
}

/// Statement 5 alone has a weight, 3.
fn weights(rt: &impl Abort, alloc: Global) -> Grouping
    ensures { are_apart result ≡ true }
{
    let of = Items::from_slice(alloc, [None, None, None, None, Some(3)].as_slice()).expect(
        rt, "memory",
    );
    Grouping::ByStatement(Weights { of })
}

/// There is one group, of statement 5, with this number and weight.
fn expect_group(rt: &impl Abort, encoded: &Encoded, number: u32, weight: u32) {
    assert_eq!(rt; encoded.groups(), 1);
    assert_eq!(rt; encoded.number(0), number);
    assert_eq!(rt; encoded.statement(0), StmtId(5));
    assert_eq!(rt; encoded.weight(0), weight);
}

/// Each model gives the first group up and has the one choice take this value, and there is one.
fn expect_choice(rt: &impl Abort, alloc: Global, encoded: &Encoded, value: i64) {
    let kept = choices_in(rt, alloc, encoded, true);
    assert!(rt; kept.is_empty());
    let relaxed = choices_in(rt, alloc, encoded, false);
    assert!(rt; all_take(relaxed.as_slice(), value));
}

/// Whether there are choices, each of which takes this value.
fn all_take(all: &[Items<Choice>], value: i64) -> bool {
    !all.is_empty() && all.iter().all(|choices| takes(choices, value))
}

/// No assignment satisfies a formula.
fn expect_no_model(rt: &impl Abort, alloc: Global, formula: &Formula) {
    let variables = formula.variables();
    assert!(rt; variables <= 16, "{variables} variables");
    for number in 0..1u64 << variables {
        let model = model_of(rt, alloc, variables, number);
        assert!(rt; !satisfies(formula, &model));
    }
}

#[test]
fn a_group_is_given_up_where_its_value_has_to_change(rt: HostRuntime) {
    let alloc = rt.alloc();
    let words = row(
        &rt,
        alloc,
        [
            WordOp::Const(1),
            WordOp::Flag,
            WordOp::Flag,
            WordOp::Const(0),
            WordOp::Select {
                which: 1,
                yes: 3,
                no: 2,
            },
        ],
    );
    let list = list_of(&rt, alloc, words, 4, 2);
    let encoded = encode(alloc, &list, &weights(&rt, alloc)).expect(&rt, "memory");
    expect_group(&rt, &encoded, 5, 3);
    expect_choice(&rt, alloc, &encoded, 1);
}

#[test]
fn a_value_is_read_as_its_type(rt: HostRuntime) {
    let alloc = rt.alloc();
    let words = row(
        &rt,
        alloc,
        [
            WordOp::Const(1),
            WordOp::Flag,
            WordOp::Free,
            WordOp::Convert { t: CType::I8, a: 2 },
            WordOp::Const(-5),
            WordOp::Select {
                which: 1,
                yes: 0,
                no: 3,
            },
            WordOp::Binary {
                op: BinOp::Eq,
                t: CType::I32,
                a: 5,
                b: 4,
            },
        ],
    );
    let list = list_of(&rt, alloc, words, 6, 3);
    let mut places = Items::new(alloc);
    places.push(place(alloc)).expect(&rt, "memory");
    let encoded = encode(alloc, &list, &Grouping::ByPlace(places)).expect(&rt, "memory");
    expect_group(&rt, &encoded, 1, 1);
    expect_choice(&rt, alloc, &encoded, -5);
}

#[test]
fn what_no_group_holds_is_kept(rt: HostRuntime) {
    let alloc = rt.alloc();
    let words = row(
        &rt,
        alloc,
        [
            WordOp::Const(1),
            WordOp::Flag,
            WordOp::Flag,
            WordOp::Const(0),
            WordOp::Select {
                which: 1,
                yes: 3,
                no: 2,
            },
        ],
    );
    let list = list_of(&rt, alloc, words, 4, 2);
    let encoded = encode(alloc, &list, &Grouping::ByPlace(Items::new(alloc))).expect(&rt, "memory");
    assert_eq!(rt; encoded.groups(), 0);
    expect_no_model(&rt, alloc, encoded.formula());
}
