//! Programs, and the lists of words that their runs become, as worked out by hand.

ghost use Rattle.std.specs.Prelude.{◌≡◌};
ghost use Rattle.std.specs.List.{list_all};
ghost use Rattle.ba_wordlist.specs.Facts.{is_word_value};

use crate::support::programs::{FIVE_LINES, SHORT, TWICE, input_of, program_of};
use ba_guards::guard;
use ba_inline::inline;
use ba_items::Items;
use ba_numbers::ids::StmtId;
use ba_numbers::numbers::{BinOp, CType};
use ba_unroll::unroll;
use ba_wordlist::words::{WordList, WordOp};
use std::alloc::Global;
use std::panic::Expect;
use std::process::Abort;
use test_programs::examples::SUM;

/// The list of a program and an input, within four frames and so many iterations.
fn list_of(rt: &impl Abort, alloc: Global, program: &str, input: &str, turns: u32) -> WordList {
    assert!(rt; 1 <= turns && turns <= 128);
    let program = program_of(rt, alloc, program);
    let input = input_of(rt, alloc, &program, input);
    assert!(rt; are_words(input.values.as_slice()));
    let loops = inline(alloc, &program, 4).expect(rt, "memory");
    let tree = unroll(alloc, &loops, turns).expect(rt, "memory");
    guard(alloc, &tree, &input).expect(rt, "memory")
}

fn are_words(values: &[Items<i64>]) -> bool
    ensures { result ≡ list_all (list_all is_word_value) values.now }
{
    values.iter().all(|list| all_words(list.as_slice()))
}

fn all_words(values: &[i64]) -> bool
    ensures { result ≡ list_all is_word_value values.now }
{
    values.iter().all(|value| is_word(*value))
}

fn is_word(value: i64) -> bool
    ensures { result ≡ is_word_value value }
{
    CType::I32.contains(value) || CType::U32.contains(value)
}

/// Whether the list of the five lines has one place, with an empty path, and one value.
fn five_lines_have_one_place(rt: &impl Abort, alloc: Global) -> bool {
    has_one_place(&list_of(rt, alloc, FIVE_LINES, "1", 1))
}

fn has_one_place(list: &WordList) -> bool {
    match list.places.as_slice() {
        [only] => only.place.path.is_empty() && only.values.len() == 1,
        _ => false,
    }
}

/// Whether the value of a `short` is a conversion to it.
fn a_short_is_converted(rt: &impl Abort, alloc: Global) -> bool {
    is_converted(&list_of(rt, alloc, SHORT, "40000", 1))
}

fn is_converted(list: &WordList) -> bool {
    match first_value(list) {
        Some(WordOp::Convert { t, .. }) => *t == CType::I16,
        _ => false,
    }
}

/// The entry of the first value of the first place.
fn first_value(list: &WordList) -> Option<&WordOp> {
    let place = list.places.as_slice().first()?;
    let word = place.values.as_slice().first()?;
    list.words.as_slice().get(*word as usize)
}

/// How many places the condition and the body of the sum have within three iterations.
fn places_of_sum(rt: &impl Abort, alloc: Global) -> (usize, usize) {
    let list = list_of(rt, alloc, SUM, "3", 3);
    (places_at(&list, 3), places_at(&list, 5))
}

/// How many places of the list are at a statement.
fn places_at(list: &WordList, stmt: u32) -> usize {
    let mut count = 0usize;
    for place in list.places.as_slice() {
        if place.place.stmt == StmtId(stmt) {
            count = count.saturating_add(1);
        }
    }
    count
}

/// How many entries of the list are sums, and how many are elements, if each is computed twice.
fn sums_and_elements(rt: &impl Abort, alloc: Global) -> (usize, usize) {
    let list = list_of(rt, alloc, TWICE, "1", 1);
    let mut sums = 0usize;
    let mut elements = 0usize;
    for entry in list.words.as_slice() {
        match entry {
            WordOp::Binary { op: BinOp::Add, .. } => sums = sums.saturating_add(1),
            WordOp::Read { .. } => elements = elements.saturating_add(1),
            _ => {}
        }
    }
    (sums, elements)
}

#[test]
fn lists_are_as_worked_out(rt: HostRuntime) {
    assert!(rt; five_lines_have_one_place(&rt, rt.alloc()));
    assert!(rt; a_short_is_converted(&rt, rt.alloc()));
    assert_eq!(rt; places_of_sum(&rt, rt.alloc()), (4, 3));
    assert_eq!(rt; sums_and_elements(&rt, rt.alloc()), (1, 1));
}
