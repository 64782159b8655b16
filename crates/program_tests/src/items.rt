//! Lists, vectors that are filled up, and clones of values that own memory.

use ba_choices::{Choice, Values};
use ba_items::{Items, TryClone, fill_up};
use std::alloc::Global;
use std::panic::Expect;
use std::process::Abort;

/// The list of 7 and 3, taken apart and made again.
fn list(rt: &impl Abort, alloc: Global) -> Items<u32> {
    let mut list = Items::<u32>::new(alloc);
    list.push(7).expect(rt, "memory");
    list.push(3).expect(rt, "memory");
    Items::from_vec(list.into_vec())
}

/// A copy of a list.
fn copy(rt: &impl Abort, alloc: Global, list: &Items<u32>) -> Items<u32> {
    Items::from_slice(alloc, list.as_slice()).expect(rt, "memory")
}

/// Whether a list has these items.
fn has(list: &Items<u32>, items: &[u32]) -> bool {
    list.as_slice() == items && list.len() == items.len() && list.is_empty() == items.is_empty()
}

#[test]
fn a_list_and_its_copy_have_their_items_in_order(rt: HostRuntime) {
    let list = list(&rt, rt.alloc());
    assert!(rt; has(&list, &[7, 3]));
    assert!(rt; has(&copy(&rt, rt.alloc(), &list), &[7, 3]));
}

/// Whether a vector of 7 that is filled up to a length with 5 has these items.
fn is_filled_up(rt: &impl Abort, alloc: Global, length: usize, items: &[u8]) -> bool {
    let mut filled = [7u8].to_vec(alloc).expect(rt, "memory");
    fill_up(&mut filled, length, 5).expect(rt, "memory");
    filled.as_slice() == items
}

#[test]
fn a_vector_is_filled_up_and_never_cut(rt: HostRuntime) {
    assert!(rt; is_filled_up(&rt, rt.alloc(), 3, &[7, 5, 5]));
    assert!(rt; is_filled_up(&rt, rt.alloc(), 0, &[7]));
}

/// The values 3, -1 and 4.
fn values(rt: &impl Abort, alloc: Global) -> Values {
    let mut values = Values::new(alloc);
    for value in [3, -1, 4] {
        values.push(value).expect(rt, "memory");
    }
    values
}

/// A clone of a choice to run as written and one to take these values.
fn clones(rt: &impl Abort, alloc: Global) -> Items<Choice> {
    let mut choices = Items::new(alloc);
    choices.push(Choice::Keep).expect(rt, "memory");
    choices
        .push(Choice::Take(values(rt, alloc)))
        .expect(rt, "memory");
    choices.try_clone(alloc).expect(rt, "memory")
}

#[test]
fn a_list_of_choices_is_cloned(rt: HostRuntime) {
    let clones = clones(&rt, rt.alloc());
    assert!(rt;
        matches!(clones.as_slice(), [Choice::Keep, Choice::Take(taken)] if taken.as_slice() == [3, -1, 4].as_slice())
    );
}
