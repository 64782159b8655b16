//! Numbers and choices as parts of texts.

use ba_text::{push_choices, push_number, push_value};
use std::panic::Expect;
use test_programs::choices_of;

#[test]
fn numbers_stand_in_decimal_digits(rt: HostRuntime) {
    let mut text = Vec::new(rt.alloc());
    for number in [0, 10, u64::MAX] {
        push_number(number, &mut text).expect(&rt, "memory");
        text.push(b' ').expect(&rt, "memory");
    }
    for value in [0, -1, i64::MIN] {
        push_value(value, &mut text).expect(&rt, "memory");
        text.push(b' ').expect(&rt, "memory");
    }
    let expected = "0 10 18446744073709551615 0 -1 -9223372036854775808 ";
    assert_eq!(rt; text.as_slice(), expected.as_bytes());
}

#[test]
fn each_choice_stands_behind_a_space(rt: HostRuntime) {
    let run = choices_of(rt.alloc(), "k t -2 3 t").expect(&rt, "choices");
    let mut text = Vec::new(rt.alloc());
    push_choices(run.as_slice(), &mut text).expect(&rt, "memory");
    assert_eq!(rt; text.as_slice(), " k t -2 3 t".as_bytes());
}
