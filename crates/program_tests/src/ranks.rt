//! Lists of sets of statements, with the ranking that they have.

use ba_items::Items;
use ba_rank::{Ranked, rank};
use std::alloc::Global;
use std::panic::Expect;
use std::process::Abort;

/// The sets of statements of an input.
type Sets = &'static [&'static [u32]];

/// The list of these sets.
fn list_of(rt: &impl Abort, alloc: Global, sets: Sets) -> Items<Items<u32>> {
    let mut list = Items::new(alloc);
    for set in sets {
        let set = Items::from_slice(alloc, set).expect(rt, "memory");
        list.push(set).expect(rt, "memory");
    }
    list
}

/// The ranking of the statements of these lists.
fn ranking_of(rt: &impl Abort, alloc: Global, inputs: &[Sets]) -> Items<Ranked> {
    let mut lists = Vec::new(alloc);
    for sets in inputs {
        lists.push(list_of(rt, alloc, sets)).expect(rt, "memory");
    }
    rank(alloc, lists.as_slice()).expect(rt, "memory")
}

/// Whether a ranking has these statements with these numbers of inputs.
fn is_ranking(ranking: &[Ranked], rows: &[(u32, u32)]) -> bool {
    ranking.len() == rows.len()
        && ranking.iter().zip(rows.iter()).all(|(entry, row)| entry.stmt.0 == row.0
            && entry.inputs == row.1)
}

/// The sets of each input, and the entries: statement and number of inputs.
type Row = (&'static [Sets], &'static [(u32, u32)]);

static RANKINGS: [Row; 8] = [
    (&[], &[]),
    (&[&[], &[]], &[]),
    // the sum of 1 to n - 1, with the inputs 3 and 2, and twice with 3
    (
        &[&[&[1], &[3], &[4], &[5]], &[&[1], &[3], &[5]]],
        &[(1, 2), (3, 2), (5, 2), (4, 1)],
    ),
    (
        &[&[&[1], &[3], &[4], &[5]], &[&[1], &[3], &[4], &[5]]],
        &[(1, 2), (3, 2), (4, 2), (5, 2)],
    ),
    (
        &[&[&[7, 8], &[7, 9], &[6, 7]]],
        &[(6, 1), (7, 1), (8, 1), (9, 1)],
    ),
    (
        &[&[&[9]], &[], &[&[2, 4]], &[&[4]], &[]],
        &[(4, 2), (2, 1), (9, 1)],
    ),
    (
        &[&[&[2, 2], &[2]], &[&[1]], &[&[1], &[1, 1]]],
        &[(1, 2), (2, 1)],
    ),
    (&[&[&[4294967295], &[0]]], &[(0, 1), (4294967295, 1)]),
];

/// The first row with another ranking, if there is one.
fn first_other_ranking(rt: &impl Abort, alloc: Global, rows: &[Row]) -> Option<usize> {
    for i in 0..rows.len() {
        let (inputs, entries) = rows[i];
        if !is_ranking(ranking_of(rt, alloc, inputs).as_slice(), entries) {
            return Some(i);
        }
    }
    None
}

#[test]
fn statements_stand_by_their_number_of_inputs(rt: HostRuntime) {
    let other = first_other_ranking(&rt, rt.alloc(), RANKINGS.as_slice());
    assert_eq!(rt; other, None);
}
